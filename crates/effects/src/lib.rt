// An instruction carried out on lent registers, with the rest of its core as numbers: what `tick::carry_out` does to an executed instruction, without a core that is copied.
#![tactic(auto)]

ghost use Rattle.std.specs.Prelude.{◌≡◌};
ghost use Rattle.instruction.specs.Decode.{decode_of};
ghost use Rattle.forms.specs.Instructions.{instruction_of};
ghost use Rattle.memory.specs.Memory.{program_word_of};
ghost use Rattle.cores.specs.State.{Leaves};
ghost use Rattle.execute.specs.Execute.{effect_of, executed};
ghost use Rattle.effects.specs.Parts.{stood, cored};

use cores::pointer::{X, Y, Z};
use forms::fields::*;
use forms::form::*;

mod hops;
mod stack;
mod transfer;

use hops::{data_bit_is, equal, flag_is, hop, register_bit_is, target, words_over};
use stack::{pop_word, push_word};
pub use transfer::pointed;
use transfer::{ld, leaves, load_to, lpm, set_io_bit, st, store_from};

// A core but for its registers and its rule.
#[derive(Clone, Copy)]
pub struct Step {
    pub pc: u16,
    pub sp: u16,
    pub sreg: u8,
    pub busy: u8,
    pub inhibit: bool,
    pub in_service: bool,
}

// The instruction of a form, by its word and the one at PC, which is behind it already. In the order of the Rust's `tick`.
// A `Step` in the place of the five parts of the core was tried: 59 instructions a tick of heat_index in a run, against 53.
pub fn effect(
    form: u8,
    opcode: u16,
    regs: &mut [u8],
    pc0: u16,
    sp0: u16,
    sreg0: u8,
    inhibit0: bool,
    in_service0: bool,
    chip: bool,
    program: &[u8],
    data: &mut [u8],
) -> Step
    ensures { Leaves (effect_of (executed decode_of (cored regs.old (stood pc0 sp0 sreg0 0 inhibit0 in_service0) chip) (instruction_of form opcode (program_word_of program.now pc0)) program.now «data».old)) (cored regs.new result chip) «data».new }
{
    let mut pc = pc0;
    let mut left = leaves(sreg0, sp0, 0);
    let mut inhibit = inhibit0;
    let mut in_service = in_service0;
    match form {
        // Change of Flow Instructions
        BRBC => {
            let taken = flag_is(sreg0, opcode, false);
            pc = hop(taken, pc, opcode);
            left.busy = taken as u8;
        }
        BRBS => {
            let taken = flag_is(sreg0, opcode, true);
            pc = hop(taken, pc, opcode);
            left.busy = taken as u8;
        }
        CALL => {
            left.sp = push_word(sp0, pc.wrapping_add(1), data);
            pc = target(opcode, program, pc);
            left.busy = 2;
        }
        CPSE => {
            left.busy = words_over(equal(regs, opcode), program, pc);
            pc = pc.wrapping_add(left.busy as u16);
        }
        ICALL => {
            left.sp = push_word(sp0, pc, data);
            pc = memory::read_word(regs, Z as usize);
            left.busy = 1;
        }
        IJMP => {
            pc = memory::read_word(regs, Z as usize);
            left.busy = 1;
        }
        JMP => {
            pc = target(opcode, program, pc);
            left.busy = 2;
        }
        RCALL => {
            left.sp = push_word(sp0, pc, data);
            pc = pc.wrapping_add(k12(opcode));
            left.busy = 1;
        }
        RET => {
            pc = pop_word(sp0, data);
            left.sp = sp0.wrapping_add(2);
            left.busy = 3;
        }
        RETI => {
            pc = pop_word(sp0, data);
            left.sp = sp0.wrapping_add(2);
            left.busy = 3;
            in_service = false;
            inhibit = true;
        }
        RJMP => {
            pc = pc.wrapping_add(k12(opcode));
            left.busy = 1;
        }
        SBIC => {
            left.busy = words_over(data_bit_is(data, opcode, false), program, pc);
            pc = pc.wrapping_add(left.busy as u16);
        }
        SBIS => {
            left.busy = words_over(data_bit_is(data, opcode, true), program, pc);
            pc = pc.wrapping_add(left.busy as u16);
        }
        SBRC => {
            left.busy = words_over(register_bit_is(regs, opcode, false), program, pc);
            pc = pc.wrapping_add(left.busy as u16);
        }
        SBRS => {
            left.busy = words_over(register_bit_is(regs, opcode, true), program, pc);
            pc = pc.wrapping_add(left.busy as u16);
        }
        // Data Transfer Instructions
        IN => load_to(regs, opcode, A6(opcode) as usize, sreg0, sp0, data),
        LDX => left.busy = ld(regs, opcode, X, 0, false, false, sreg0, sp0, chip, data),
        LDXinc => left.busy = ld(regs, opcode, X, 0, false, true, sreg0, sp0, chip, data),
        LDXdec => left.busy = ld(regs, opcode, X, 0, true, false, sreg0, sp0, chip, data),
        LDYinc => left.busy = ld(regs, opcode, Y, 0, false, true, sreg0, sp0, chip, data),
        LDYdec => left.busy = ld(regs, opcode, Y, 0, true, false, sreg0, sp0, chip, data),
        LDZinc => left.busy = ld(regs, opcode, Z, 0, false, true, sreg0, sp0, chip, data),
        LDZdec => left.busy = ld(regs, opcode, Z, 0, true, false, sreg0, sp0, chip, data),
        LDDY => {
            let q = q6(opcode);
            left.busy = ld(regs, opcode, Y, q, false, false, sreg0, sp0, chip, data);
        }
        LDDZ => {
            let q = q6(opcode);
            left.busy = ld(regs, opcode, Z, q, false, false, sreg0, sp0, chip, data);
        }
        LDS => {
            let at = memory::get_progmem(program, pc as u32);
            load_to(regs, opcode, at as usize, sreg0, sp0, data);
            left.busy = 2;
            pc = pc.wrapping_add(1);
        }
        LPM => left.busy = lpm(regs, 0, false, program),
        LPMZ => left.busy = lpm(regs, d5(opcode), false, program),
        LPMZinc => left.busy = lpm(regs, d5(opcode), true, program),
        OUT => left = store_from(regs, opcode, A6(opcode) as usize, sreg0, sp0, data),
        POP => {
            left.sp = sp0.wrapping_add(1);
            left.busy = 1;
            load_to(regs, opcode, left.sp as usize, sreg0, left.sp, data);
        }
        PUSH => {
            left = store_from(regs, opcode, sp0 as usize, sreg0, sp0, data);
            left.sp = left.sp.wrapping_sub(1);
        }
        STX => left = st(regs, opcode, X, 0, false, false, sreg0, sp0, chip, data),
        STXdec => left = st(regs, opcode, X, 0, true, false, sreg0, sp0, chip, data),
        STXinc => left = st(regs, opcode, X, 0, false, true, sreg0, sp0, chip, data),
        STYdec => left = st(regs, opcode, Y, 0, true, false, sreg0, sp0, chip, data),
        STYinc => left = st(regs, opcode, Y, 0, false, true, sreg0, sp0, chip, data),
        STZdec => left = st(regs, opcode, Z, 0, true, false, sreg0, sp0, chip, data),
        STZinc => left = st(regs, opcode, Z, 0, false, true, sreg0, sp0, chip, data),
        STDY => {
            let q = q6(opcode);
            left = st(regs, opcode, Y, q, false, false, sreg0, sp0, chip, data);
        }
        STDZ => {
            let q = q6(opcode);
            left = st(regs, opcode, Z, q, false, false, sreg0, sp0, chip, data);
        }
        STS => {
            let at = memory::get_progmem(program, pc as u32);
            left = store_from(regs, opcode, at as usize, sreg0, sp0, data);
            left.busy = 1;
            pc = pc.wrapping_add(1);
        }
        // Bit and Bit-Test Instructions
        CBI => set_io_bit(data, opcode, false),
        SBI => set_io_bit(data, opcode, true),
        // The register-only list; MCU control instructions and undefined words change nothing.
        _ => {
            let made = registers::change(form, opcode, regs, sreg0, inhibit0, chip);
            left.sreg = made.sreg;
            left.busy = made.busy;
            inhibit = made.inhibit;
        }
    }
    Step {
        pc,
        sp: left.sp,
        sreg: left.sreg,
        busy: left.busy,
        inhibit,
        in_service,
    }
}
