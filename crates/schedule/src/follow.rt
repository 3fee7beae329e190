// A run through the records of a list: with no offer until one is due, then with its vector until it is entered.
ghost use Rattle.std.specs.Prelude.{◌≡◌, ◌≤◌, length};
ghost use Rattle.snapshot.specs.Snapshot.{read_of};
ghost use Rattle.schedule.specs.Schedule.{refusal_of};
ghost use Rattle.schedule.specs.Follow.{until_of, Serves, Waits, Follows};

use crate::list::{Record, record_of};
use run::{Ended, Over};
use tick::Answer;

// How many ticks are left before a record is due, at most what is left of the budget.
fn until(tick: u32, done: u32, budget: u32) -> u32
    requires { done ≤ budget }
    ensures { result ≡ until_of tick done budget }
{
    if tick > budget {
        return budget - done;
    }
    if tick > done { tick - 1 - done } else { 0 }
}

// With a vector offered, tick by tick: the tick of its entry, or how the run ended before.
fn wait(
    snapshot: &mut [u8],
    program: &[u8],
    data: &mut [u8],
    vector: u16,
    from: u32,
    budget: u32,
) -> Result<u32, Over>
    requires { ((read_of snapshot.old).refusal ≡ 0) × (from ≤ budget) }
    ensures { Waits snapshot.old program.now «data».old vector from budget result snapshot.new «data».new }
{
    for done in from..budget {
        let answer = run::tick_in(snapshot, program, data, Some(vector)).unwrap();
        let ended = answer.into();
        match answer {
            Answer::Entered => return Ok(done + 1),
            Answer::Refused(_) => return Err(Over { ended, ticks: done }),
            Answer::Break | Answer::End => return Err(Over {
                ended,
                ticks: done + 1,
            }),
            _ => {}
        }
    }
    Err(Over {
        ended: Ended::Budget,
        ticks: budget,
    })
}

// One record: the tick of its entry, or how the run ended before.
fn serve(
    snapshot: &mut [u8],
    program: &[u8],
    data: &mut [u8],
    due: Record,
    done: u32,
    budget: u32,
) -> Result<u32, Over>
    requires { ((read_of snapshot.old).refusal ≡ 0) × (done ≤ budget) }
    ensures { Serves snapshot.old program.now «data».old due done budget result snapshot.new «data».new }
{
    let quiet = until(due.tick, done, budget);
    let Over { ended, ticks } = run::run_in(snapshot, program, data, None, quiet).unwrap();
    let ticks = done + ticks;
    match ended {
        Ended::Budget => wait(snapshot, program, data, due.vector, ticks, budget),
        _ => Err(Over { ended, ticks }),
    }
}

// The whole list, in a run that has done so many of its ticks.
pub(crate) fn follow(
    snapshot: &mut [u8],
    program: &[u8],
    data: &mut [u8],
    list: &[u8],
    from: u32,
    budget: u32,
    entered: &mut [u32],
) -> Over
    requires { ((read_of snapshot.old).refusal ≡ 0) × ((refusal_of list.now (length entered.old) ≡ 0) × (from ≤ budget)) }
    ensures { Follows snapshot.old program.now «data».old list.now from budget entered.old result snapshot.new «data».new entered.new }
{
    let (records, _) = list.as_chunks::<5>();
    entered[..records.len()].fill(0);
    let mut done = from;
    for (i, bytes) in records.iter().enumerate() {
        match serve(snapshot, program, data, record_of(*bytes), done, budget) {
            Ok(tick) => {
                entered[i] = tick;
                done = tick;
            }
            Err(over) => return over,
        }
    }
    let Over { ended, ticks } = run::run_in(snapshot, program, data, None, budget - done).unwrap();
    Over {
        ended,
        ticks: done + ticks,
    }
}
