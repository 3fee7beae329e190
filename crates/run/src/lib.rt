// Runs: ticks one after another under one held offer, until the budget is spent, a break, the end, or a refusal.
#![tactic(auto)]

ghost use Rattle.std.specs.Prelude.{◌≡◌};
ghost use Rattle.run.specs.Run.{ended_number, ended_by, run_of, Runs};

use cores::Core;
use tick::Answer;

mod go;
mod over;
mod ready;
mod settling;

pub use over::{Over, run_in, tick_in, tick_number_in};

// How a run ended. A refusal's number is the answer's that it ended with, which may be any.
#[derive(Clone, Copy, Debug, PartialEq, Eq)]
pub enum Ended {
    Budget,
    Break,
    End,
    Refused(u8),
}

// By 01's numbers.
impl From<Ended> for u8 {
    ghost from_gives = { λ ended n. n ≡ ended_number ended };

    fn from(ended: Ended) -> u8 {
        match ended {
            Ended::Budget => 24,
            Ended::Break => 22,
            Ended::End => 23,
            Ended::Refused(number) => number,
        }
    }
}

// By the last tick of a run.
impl From<Answer> for Ended {
    ghost from_gives = { λ answer ended. ended ≡ ended_by answer };

    fn from(answer: Answer) -> Ended {
        match answer {
            Answer::Refused(number) => Ended::Refused(number),
            Answer::Break => Ended::Break,
            Answer::End => Ended::End,
            _ => Ended::Budget,
        }
    }
}

// `ticks` counts the ticks done.
#[derive(Clone, Copy)]
pub struct Ran {
    pub ended: Ended,
    pub ticks: u32,
    pub core: Core,
}

pub fn run(core: Core, program: &[u8], data: &mut [u8], offer: Option<u16>, budget: u32) -> Ran
    ensures { Runs (run_of budget core program.now «data».old offer) result «data».new }
{
    if budget == 0 {
        return Ran {
            ended: Ended::Budget,
            ticks: 0,
            core,
        };
    }
    let mut bytes = [0u8; 38];
    if let Err(refusal) = snapshot::write(core, &mut bytes) {
        return Ran {
            ended: Ended::Refused(refusal.into()),
            ticks: 0,
            core,
        };
    }
    let over = run_in(&mut bytes, program, data, offer, budget).unwrap();
    let core = snapshot::read(&bytes).unwrap();
    Ran {
        ended: over.ended,
        ticks: over.ticks,
        core,
    }
}
