// A stretch of a run over lent registers: plain instructions, one after another, carried out where the registers lie.
ghost use Rattle.std.specs.Prelude.{◌≡◌};
ghost use Rattle.effects.specs.Parts.{stood, cored};
ghost use Rattle.run.specs.Lent.{Goes};

use crate::ready::tells;
use forms::form::UNDEF;

// Where a stretch ended: `at` ticks from the start of the run, when the last instruction's waits are over.
#[derive(Clone, Copy)]
pub(crate) struct Gone {
    pub at: u64,
    pub pc: u16,
    pub sp: u16,
    pub sreg: u8,
    pub inhibit: bool,
    pub in_service: bool,
}

// From the tick `at0`, when the core no longer waits: until an instruction would begin at the budget or behind it, or a tick is to be made whole.
// The core is in parts, each in a local: as one `effects::Step`, changed by a field at a time, it was tried, with 57 instructions a tick of heat_index against 53 in a run, and 163 against 132 tick by tick.
pub(crate) fn go(
    regs: &mut [u8],
    pc0: u16,
    sp0: u16,
    sreg0: u8,
    inhibit0: bool,
    in_service0: bool,
    chip: bool,
    at0: u64,
    program: &[u8],
    data: &mut [u8],
    offered: bool,
    budget: u32,
) -> Gone
    ensures { Goes (cored regs.old (stood pc0 sp0 sreg0 0 inhibit0 in_service0) chip) at0 program.now «data».old offered chip budget result regs.new «data».new }
{
    let mut pc = pc0;
    let mut sp = sp0;
    let mut sreg = sreg0;
    let mut inhibit = inhibit0;
    let mut service = in_service0;
    let mut at = at0;
    while at < budget as u64 {
        let form = tells(regs, pc, sp, sreg, inhibit, service, program, data, offered);
        if form == UNDEF {
            break;
        }
        let opcode = memory::get_progmem(program, pc as u32);
        let made = effects::effect(
            form,
            opcode,
            regs,
            pc + 1,
            sp,
            sreg,
            false,
            service,
            chip,
            program,
            data,
        );
        pc = made.pc;
        sp = made.sp;
        sreg = made.sreg;
        inhibit = made.inhibit;
        service = made.in_service;
        at = at + made.busy as u64 + 1;
    }
    Gone {
        at,
        pc,
        sp,
        sreg,
        inhibit,
        in_service: service,
    }
}
