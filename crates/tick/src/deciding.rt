// The first operation: what is to be done, by core, program, data and offer. Nothing is written.
ghost use Rattle.std.specs.Prelude.{◌≡◌};
ghost use Rattle.tick.specs.Tick.{due};
ghost use Rattle.tick.specs.Plan.{said_plan, step_plan, entry_or_step, plan_of};

use crate::{Plan, words};
use cores::Core;
use execute::Lack;

// The offer, where an interrupt is to be entered now.
fn due(core: Core, offer: Option<u16>) -> Option<u16>
    ensures { result ≡ due core offer }
{
    if core.inhibit {
        // After reti, core will always execute one instruction before another interrupt
        return None;
    }
    if core.get_sreg_bit(Core::I) & !core.in_service {
        offer
    } else {
        None
    }
}

// The instruction at PC, where its words and all that it needs are there.
#[tactic(auto, unfolding(crate::specs::Plan::step_plan))]
fn step(core: Core, program: &[u8], data: &[u8]) -> Result<Plan, Lack>
    ensures { said_plan result ≡ step_plan core program.now «data».now }
{
    let op = words::fetch(program, core.pc);
    if !words::has_words(op, program, core.pc) {
        return Err(Lack::Program);
    }
    execute::refusal(core, op, program, data)?;
    Ok(Plan::Execute(op))
}

// The entry into an interrupt that is due, or else the step. Terminate if PC overflows to prevent program from restarting
#[tactic(auto, unfolding(crate::specs::Plan::entry_or_step))]
fn enter_or_step(core: Core, program: &[u8], data: &[u8], due: Option<u16>) -> Result<Plan, Lack>
    ensures { said_plan result ≡ entry_or_step core program.now «data».now due }
{
    match due {
        Some(vector) => {
            execute::push_refusal(core, data)?;
            Ok(Plan::Enter(vector))
        }
        None if core.pc == 65535 => Ok(Plan::End),
        None => step(core, program, data),
    }
}

#[tactic(auto, unfolding(crate::specs::Plan::plan_of))]
pub fn decide(core: Core, program: &[u8], data: &[u8], offer: Option<u16>) -> Plan
    ensures { result ≡ plan_of core program.now «data».now offer }
{
    if core.busy > 4 {
        return Plan::Refuse(5);
    }
    // Wait for multi-cycle instructions to complete
    if core.busy > 0 {
        return Plan::Wait;
    }
    match enter_or_step(core, program, data, due(core, offer)) {
        Ok(plan) => plan,
        Err(lack) => Plan::Refuse(lack.into()),
    }
}
