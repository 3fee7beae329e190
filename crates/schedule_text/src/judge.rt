// A line judged, against the tick of the record before.
ghost use Rattle.std.specs.Prelude.{◌≡◌};
ghost use Rattle.schedule_text.specs.Reading.{fault_of, line_of, fault_said};
ghost use Rattle.schedule_text.specs.Judged.{judged_of, numbered};

use crate::Fault;
use crate::line::{Firing, said_by};

fn fault(firing: Firing, last: u32, room: usize) -> Result<(), Fault>
    ensures { fault_said result ≡ fault_of firing.tick firing.vector last room }
{
    if (firing.tick == 0) | (firing.tick > 16777215) {
        return Err(Fault::Tick);
    }
    if firing.tick <= last {
        return Err(Fault::Order);
    }
    if firing.vector > 65535 {
        return Err(Fault::Vector);
    }
    if room == 0 {
        return Err(Fault::Room);
    }
    Ok(())
}

// The record that a line gives, if it gives one.
pub fn judge(line: &[u8], last: u32, room: usize) -> Result<Option<Firing>, Fault>
    ensures { numbered result ≡ judged_of (line_of line.now) last room }
{
    let Some(firing) = said_by(line)? else {
        return Ok(None);
    };
    fault(firing, last, room)?;
    Ok(Some(firing))
}
