// Runs over a snapshot, changed where it lies: `go` takes the plain instructions, and what it leaves is a whole tick.
ghost use Rattle.std.specs.Prelude.{◌≡◌, ◌<◌};
ghost use Rattle.tick.specs.Tick.{number_of};
ghost use Rattle.snapshot.specs.Snapshot.{read_of};
ghost use Rattle.run.specs.Run.{ended_of};
ghost use Rattle.run.specs.Over.{last_number, tick_over, TickedOver, Stretches, Advances, passed, answered, said_tick, tick_in, TicksIn, over_of, said_run, said_count, run_over, run_in, RunsIn};

use crate::Ended;
use crate::go::go;
use crate::settling::{flags, leave, word_at};
use snapshot::Unreadable;
use tick::Answer;

// How a run ended, and the ticks done.
#[derive(Clone, Copy)]
pub struct Over {
    pub ended: Ended,
    pub ticks: u32,
}

// The number of a run's last tick, and the ticks done.
#[derive(Clone, Copy)]
struct Last {
    answer: u8,
    ticks: u32,
}

// A whole tick, by the two operations, of which `ready` and `effect` are the short form.
fn whole(snapshot: &mut [u8], program: &[u8], data: &mut [u8], offer: Option<u16>) -> Answer
    requires { (read_of snapshot.old).refusal ≡ 0 }
    ensures { TickedOver snapshot.old program.now «data».old offer result snapshot.new «data».new }
{
    let core = snapshot::read(snapshot).unwrap();
    let plan = tick::decide(core, program, data, offer);
    let next = tick::carry_out(core, plan, program, data);
    snapshot::write(next, snapshot).unwrap();
    plan.answer()
}

// A stretch from the tick `at`, the core's waits before it: the ticks then done, at most the budget.
fn stretch(
    snapshot: &mut [u8],
    program: &[u8],
    data: &mut [u8],
    on: bool,
    at: u32,
    budget: u32,
) -> u32
    requires { ((read_of snapshot.old).refusal ≡ 0) × (at < budget) }
    ensures { Stretches snapshot.old program.now «data».old on at budget result snapshot.new «data».new }
{
    let last = snapshot[37];
    let pc = word_at(snapshot, 33);
    let sp = word_at(snapshot, 35);
    let sreg = snapshot[32];
    let inhibit = last / 16 % 2 == 1;
    let in_service = last / 8 % 2 == 1;
    let chip = last / 4 % 2 == 1;
    let begin = at as u64 + (last / 32) as u64;
    let gone = go(
        &mut snapshot[..32],
        pc,
        sp,
        sreg,
        inhibit,
        in_service,
        chip,
        begin,
        program,
        data,
        on,
        budget,
    );
    let rest = flags(gone.inhibit, gone.in_service, chip);
    leave(
        snapshot, gone.sreg, gone.pc, gone.sp, sp, rest, gone.at, budget,
    )
}

// A run of at least one tick, where the bytes are read.
fn advance(
    snapshot: &mut [u8],
    program0: &[u8],
    data: &mut [u8],
    offer: Option<u16>,
    budget: u32,
) -> Last
    requires { ((read_of snapshot.old).refusal ≡ 0) × (0 < budget) }
    ensures { Advances snapshot.old program0.now «data».old offer budget result snapshot.new «data».new }
{
    // a slice of its own stays in registers
    let program = &program0[0..];
    let on = offer.is_some();
    let mut at: u32 = 0;
    loop {
        // the only call of `stretch`, so that it is compiled into this loop
        let done = stretch(snapshot, program, data, on, at, budget);
        if done == budget {
            return Last {
                answer: tick::number(Answer::Ran),
                ticks: budget,
            };
        }
        let answer = whole(snapshot, program, data, offer);
        let number = tick::number(answer);
        if tick::refuses(answer) {
            return Last {
                answer: number,
                ticks: done,
            };
        }
        let next = done + 1;
        if tick::stops(answer) | (next == budget) {
            return Last {
                answer: number,
                ticks: next,
            };
        }
        at = next;
    }
}

// A run's end, by its last tick's number.
fn ended(number: u8) -> Ended
    ensures { result ≡ ended_of (last_number number) }
{
    match number {
        22 => Ended::Break,
        23 => Ended::End,
        0..=15 => Ended::Refused(number),
        _ => Ended::Budget,
    }
}

// The checks of `snapshot::read`, in its order, and no core.
fn check(snapshot: &[u8]) -> Result<(), Unreadable>
    ensures { result ≡ passed (read_of snapshot.now).refusal tt }
{
    if snapshot.len() != 38 {
        return Err(Unreadable::Length);
    }
    let last = snapshot[37];
    if last / 32 > 4 {
        return Err(Unreadable::Busy);
    }
    if last % 4 != 0 {
        return Err(Unreadable::Spare);
    }
    Ok(())
}

// A tick: its number, or a check's. An `Answer` in a `Result` was tried here: 191 instructions a tick against 172.
pub fn tick_number_in(
    snapshot: &mut [u8],
    program: &[u8],
    data: &mut [u8],
    offer: Option<u16>,
) -> u8
    ensures { TicksIn (tick_in snapshot.old program.now «data».old offer) result snapshot.new «data».new }
{
    if let Err(refusal) = check(snapshot) {
        return refusal.into();
    }
    let last = snapshot[37];
    if last >= 32 {
        snapshot[37] = last - 32;
        return tick::number(Answer::Waited);
    }
    advance(snapshot, program, data, offer, 1).answer
}

// A tick's answer, by its number.
fn answered(number: u8) -> Answer
    ensures { result ≡ answered number }
{
    match number {
        0..=15 => Answer::Refused(number),
        16 => Answer::Waited,
        17 => Answer::Entered,
        18 => Answer::Ran,
        19 => Answer::Sleep,
        20 => Answer::Watchdog,
        21 => Answer::Undefined,
        22 => Answer::Break,
        _ => Answer::End,
    }
}

// A tick. A refused call changes no byte.
pub fn tick_in(
    snapshot: &mut [u8],
    program: &[u8],
    data: &mut [u8],
    offer: Option<u16>,
) -> Result<Answer, Unreadable>
    ensures handed_back { result ≡ passed (read_of snapshot.old).refusal (tick_over snapshot.old program.now «data».old offer).answer }
    ensures left { TicksIn (tick_in snapshot.old program.now «data».old offer) (said_tick result) snapshot.new «data».new }
{
    check(snapshot)?;
    let last = snapshot[37];
    if last >= 32 {
        snapshot[37] = last - 32;
        return Ok(Answer::Waited);
    }
    Ok(answered(advance(snapshot, program, data, offer, 1).answer))
}

// A run. A refused call changes no byte.
pub fn run_in(
    snapshot: &mut [u8],
    program: &[u8],
    data: &mut [u8],
    offer: Option<u16>,
    budget: u32,
) -> Result<Over, Unreadable>
    ensures handed_back { result ≡ passed (read_of snapshot.old).refusal (over_of (run_over budget snapshot.old program.now «data».old offer)) }
    ensures left { RunsIn (run_in snapshot.old program.now «data».old offer budget) (said_run result) (said_count result) snapshot.new «data».new }
{
    check(snapshot)?;
    if budget == 0 {
        return Ok(Over {
            ended: Ended::Budget,
            ticks: 0,
        });
    }
    let last = advance(snapshot, program, data, offer, budget);
    Ok(Over {
        ended: ended(last.answer),
        ticks: last.ticks,
    })
}
