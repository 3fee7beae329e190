// The second operation: a plan carried out. It has no answer of its own, so it cannot refuse.
ghost use Rattle.std.specs.Prelude.{◌≡◌, false, ◌-◌};
ghost use Rattle.cores.specs.State.{with_busy, with_inhibit, Leaves};
ghost use Rattle.tick.specs.Tick.{entry};
ghost use Rattle.tick.specs.Plan.{carried_out};

use crate::Plan;
use cores::Core;

#[tactic(auto, unfolding(cores::specs::State::with_busy))]
fn wait(core: Core) -> Core
    ensures { result ≡ with_busy core (core.busy - 1) }
{
    Core {
        busy: core.busy.saturating_sub(1),
        ..core
    }
}

// An interrupt: PC goes on the stack, and the vector is where it goes on.
#[tactic(auto, unfolding(cores::specs::State::with_pc, cores::specs::State::with_busy, cores::specs::State::with_service))]
fn enter(core: Core, vector: u16, data: &mut [u8]) -> Core
    ensures { Leaves (entry core vector «data».old) result «data».new }
{
    Core {
        pc: vector,
        busy: 4, // 2 cycles to push PC + 3 cycles for jmp to vector
        in_service: true,
        ..core.push_word(core.pc, data)
    }
}

#[tactic(auto, unfolding(cores::specs::State::with_inhibit))]
fn end(core: Core) -> Core
    ensures { result ≡ with_inhibit core false }
{
    Core {
        inhibit: false,
        ..core
    }
}

// Each `return` is a copy of the core less than the value of the match.
pub fn carry_out(core: Core, plan: Plan, program: &[u8], data: &mut [u8]) -> Core
    ensures { Leaves (carried_out core plan program.now «data».old) result «data».new }
{
    match plan {
        Plan::Refuse(_) => return core,
        Plan::Wait => return wait(core),
        Plan::Enter(vector) => return enter(core, vector, data),
        Plan::End => return end(core),
        Plan::Execute(op) => execute::execute(core, op, program, data),
    }
}
