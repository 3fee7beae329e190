// What a plan answers, and an answer's number.
ghost use Rattle.std.specs.Prelude.{◌≡◌};
ghost use Rattle.tick.specs.Tick.{answer_of, number_of};
ghost use Rattle.tick.specs.Plan.{answer_to};

use crate::{Answer, Plan};
use execute::Done;

impl From<Answer> for u8 {
    ghost from_gives = { λ answer n. n ≡ number_of answer };

    fn from(answer: Answer) -> u8 {
        match answer {
            Answer::Refused(n) => n,
            Answer::Waited => 16,
            Answer::Entered => 17,
            Answer::Ran => 18,
            Answer::Sleep => 19,
            Answer::Watchdog => 20,
            Answer::Undefined => 21,
            Answer::Break => 22,
            Answer::End => 23,
        }
    }
}

impl From<Done> for Answer {
    ghost from_gives = { λ done answer. answer ≡ answer_of done };

    fn from(done: Done) -> Answer {
        match done {
            Done::Ran => Answer::Ran,
            Done::Sleep => Answer::Sleep,
            Done::Watchdog => Answer::Watchdog,
            Done::Undefined => Answer::Undefined,
            Done::Break => Answer::Break,
        }
    }
}

impl Plan {
    pub fn answer(self) -> Answer
        ensures { result ≡ answer_to self }
    {
        match self {
            Plan::Refuse(n) => Answer::Refused(n),
            Plan::Wait => Answer::Waited,
            Plan::Enter(_) => Answer::Entered,
            Plan::End => Answer::End,
            Plan::Execute(op) => execute::done_by(op).into(),
        }
    }
}
