// One tick: the Rust's `Core::tick`, in 01's five steps, as two operations. The first only reads and says what is to be done; the second does it and cannot refuse.
#![tactic(auto)]

ghost use Rattle.std.specs.Prelude.{◌≡◌};
ghost use Rattle.tick.specs.Tick.{number_of, refuses, stops, tick_of, Ticks, in_place};

use cores::Core;
use instruction::Instruction;

mod answering;
mod carrying;
mod deciding;
mod words;

pub use carrying::carry_out;
pub use deciding::decide;

// Of `Refused` and `Refuse` any number is an answer and a plan, not 1 to 5 alone: what takes them says what it does with each, and a narrower type would ask more of callers.
#[derive(Clone, Copy, Debug, PartialEq, Eq)]
pub enum Answer {
    Refused(u8),
    Waited,
    Entered,
    Ran,
    Sleep,
    Watchdog,
    Undefined,
    Break,
    End,
}

// What the next tick is to do.
#[derive(Clone, Copy)]
pub enum Plan {
    Refuse(u8),
    Wait,
    Enter(u16),
    End,
    Execute(Instruction),
}

#[derive(Clone, Copy)]
pub struct Ticked {
    pub answer: Answer,
    pub core: Core,
}

// The answer's number in 01's table.
pub fn number(answer: Answer) -> u8
    ensures { result ≡ number_of answer }
{
    answer.into()
}

// A refused tick changed nothing.
pub fn refuses(answer: Answer) -> bool
    ensures { result ≡ refuses answer }
{
    matches!(answer, Answer::Refused(_))
}

// Break and the end: the Rust's `false`.
pub fn stops(answer: Answer) -> bool
    ensures { result ≡ stops answer }
{
    matches!(answer, Answer::Break | Answer::End)
}

// The answer that `tick` would give now. Nothing is written.
#[tactic(auto, using(crate::proofs::Foretold::answered))]
pub fn foretell(core: Core, program: &[u8], data: &[u8], offer: Option<u16>) -> Answer
    ensures { result ≡ (tick_of core program.now «data».now offer).answer }
{
    decide(core, program, data, offer).answer()
}

pub fn tick(core: Core, program: &[u8], data: &mut [u8], offer: Option<u16>) -> Ticked
    ensures { Ticks (tick_of core program.now «data».old offer) result «data».new }
{
    let plan = decide(core, program, data, offer);
    let next = carry_out(core, plan, program, data);
    Ticked {
        answer: plan.answer(),
        core: next,
    }
}

// The bench loop's form: its one core is lent, and changed at each tick.
pub fn tick_in_place(core: &mut Core, program: &[u8], data: &mut [u8], offer: Option<u16>) -> Answer
    ensures { Ticks (tick_of core.old program.now «data».old offer) (in_place result core.new) «data».new }
{
    let ticked = tick(*core, program, data, offer);
    *core = ticked.core;
    ticked.answer
}
