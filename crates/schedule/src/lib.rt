// Runs by a list of ticks at which interrupts fired: at every tick the earliest record that is due and not yet entered is offered.
#![tactic(auto)]

ghost use Rattle.std.specs.Prelude.{◌≡◌, ◌-◌, length};
ghost use Rattle.schedule.specs.Schedule.{
  refusal_of,
  refusal_in,
  refused_number,
  listed,
  started,
  ran_of,
  over_of,
  schedule_of,
  schedule_in,
  schedule_from,
};
ghost use Rattle.schedule.specs.declared.Refused.TheVariants as refused;

use cores::Core;
use run::{Ended, Over, Ran};

mod follow;
mod list;

pub use list::{Record, Unlisted};

// Why nothing is run: by the snapshot, then by the list.
#[derive(Clone, Copy, Debug, PartialEq, Eq)]
pub enum Refused {
    Unreadable(snapshot::Unreadable),
    Unlisted(Unlisted),
}

impl From<snapshot::Unreadable> for Refused {
    ghost from_gives = { λ e r. r ≡ refused.Unreadable e };

    fn from(refusal: snapshot::Unreadable) -> Refused {
        Refused::Unreadable(refusal)
    }
}

impl From<Unlisted> for Refused {
    ghost from_gives = { λ e r. r ≡ refused.Unlisted e };

    fn from(refusal: Unlisted) -> Refused {
        Refused::Unlisted(refusal)
    }
}

impl From<Refused> for u8 {
    ghost from_gives = { λ e n. n ≡ refused_number e };

    fn from(refusal: Refused) -> u8 {
        match refusal {
            Refused::Unreadable(refusal) => refusal.into(),
            Refused::Unlisted(refusal) => refusal.into(),
        }
    }
}

// `entered` gets a number a record: the tick of its entry, or 0.
pub fn run(
    core: Core,
    program: &[u8],
    data: &mut [u8],
    list: &[u8],
    budget: u32,
    entered: &mut [u32],
) -> Result<Ran, Unlisted>
    ensures value { result ≡ listed (refusal_of list.now (length entered.old)) (ran_of (schedule_of budget core program.now «data».old list.now entered.old).run) }
    ensures data_after { «data».new ≡ (schedule_of budget core program.now «data».old list.now entered.old).run.bytes }
    ensures entered_after { entered.new ≡ (schedule_of budget core program.now «data».old list.now entered.old).numbers }
{
    list::check(list, entered.len())?;
    let mut bytes = [0u8; 38];
    if let Err(refusal) = snapshot::write(core, &mut bytes) {
        entered[..list.len() / 5].fill(0);
        let ended = if budget == 0 {
            Ended::Budget
        } else {
            Ended::Refused(refusal.into())
        };
        return Ok(Ran {
            ended,
            ticks: 0,
            core,
        });
    }
    let Over { ended, ticks } = follow::follow(&mut bytes, program, data, list, 0, budget, entered);
    let core = snapshot::read(&bytes).unwrap();
    Ok(Ran { ended, ticks, core })
}

// The same over a snapshot, changed where it lies.
pub fn run_in(
    snapshot: &mut [u8],
    program: &[u8],
    data: &mut [u8],
    list: &[u8],
    budget: u32,
    entered: &mut [u32],
) -> Result<Over, Refused>
    ensures value { result ≡ started (refusal_in snapshot.old list.now (length entered.old)) (over_of (schedule_in snapshot.old program.now «data».old list.now budget entered.old).run) }
    ensures snapshot_after { snapshot.new ≡ (schedule_in snapshot.old program.now «data».old list.now budget entered.old).run.snapshot }
    ensures data_after { «data».new ≡ (schedule_in snapshot.old program.now «data».old list.now budget entered.old).run.bytes }
    ensures entered_after { entered.new ≡ (schedule_in snapshot.old program.now «data».old list.now budget entered.old).numbers }
{
    go_on(snapshot, program, data, list, 0, budget, entered)
}

// The rest of a run that has done so many of its ticks, up to `budget` in all; `list` has the records not yet entered.
pub fn go_on(
    snapshot: &mut [u8],
    program: &[u8],
    data: &mut [u8],
    list: &[u8],
    done: u32,
    budget: u32,
    entered: &mut [u32],
) -> Result<Over, Refused>
    ensures value { result ≡ started (refusal_in snapshot.old list.now (length entered.old)) (over_of (schedule_from snapshot.old program.now «data».old list.now done (budget - done) entered.old).run) }
    ensures snapshot_after { snapshot.new ≡ (schedule_from snapshot.old program.now «data».old list.now done (budget - done) entered.old).run.snapshot }
    ensures data_after { «data».new ≡ (schedule_from snapshot.old program.now «data».old list.now done (budget - done) entered.old).run.bytes }
    ensures entered_after { entered.new ≡ (schedule_from snapshot.old program.now «data».old list.now done (budget - done) entered.old).numbers }
{
    snapshot::read(snapshot)?;
    list::check(list, entered.len())?;
    Ok(follow::follow(
        snapshot,
        program,
        data,
        list,
        done,
        budget.max(done),
        entered,
    ))
}
