// What decides branches and skips, and how far they go, by the instruction's word.
ghost use Rattle.std.specs.Prelude.{◌≡◌, ◌+◌, ◌%◌, ◌==◌, slice_index};
ghost use Rattle.std.specs.Bool.{beq};
ghost use Rattle.basis.specs.Pick.{pick};
ghost use Rattle.basis.specs.Bit.{one, bit, up};
ghost use Rattle.alu.specs.Alu.{signed_of};
ghost use Rattle.instruction.specs.Code.{two_words};
ghost use Rattle.instruction.specs.Decode.{decode_of, d5, r5, A5, b3, k7, k22};
ghost use Rattle.memory.specs.Memory.{program_word_of};
ghost use Rattle.cores.specs.Flow.{data_bit_is};

use forms::fields::*;

// A bit of SREG is so.
pub(crate) fn flag_is(sreg: u8, opcode: u16, set: bool) -> bool
    ensures { result ≡ beq (bit sreg (b3 opcode)) set }
{
    basis::bit(sreg, b3(opcode)) == set
}

// The two registers hold the same.
pub(crate) fn equal(regs: &[u8], opcode: u16) -> bool
    ensures { result ≡ (slice_index regs.now (d5 opcode) == slice_index regs.now (r5 opcode)) }
{
    memory::read(regs, d5(opcode) as usize) == memory::read(regs, r5(opcode) as usize)
}

// A bit of a register is so.
pub(crate) fn register_bit_is(regs: &[u8], opcode: u16, set: bool) -> bool
    ensures { result ≡ beq (bit (slice_index regs.now (d5 opcode)) (b3 opcode)) set }
{
    basis::bit(memory::read(regs, d5(opcode) as usize), b3(opcode)) == set
}

// A bit of a data byte is so; a byte that isn't in data counts as not so.
pub(crate) fn data_bit_is(data: &[u8], opcode: u16, set: bool) -> bool
    ensures { result ≡ data_bit_is «data».now (A5 opcode) (b3 opcode) set }
{
    let A = A5(opcode) as usize;
    let there = memory::has(data, A);
    let bitval = basis::bit(memory::read(data, A), b3(opcode));
    there & (bitval == set)
}

// PC, moved where a branch is taken.
pub(crate) fn hop(taken: bool, pc: u16, opcode: u16) -> u16
    ensures { result ≡ pick taken (up pc (signed_of (k7 opcode))) pc }
{
    if taken {
        pc.wrapping_add(alu::signed(k7(opcode)))
    } else {
        pc
    }
}

// The words of the instruction at PC, where it is skipped.
pub(crate) fn words_over(taken: bool, program: &[u8], pc: u16) -> u8
    ensures { result ≡ pick taken (1 + one (two_words (decode_of (program_word_of program.now pc) 0))) 0 }
{
    if taken {
        1 + word_form::has_second(memory::get_progmem(program, pc as u32)) as u8
    } else {
        0
    }
}

// Where JMP and CALL lead, their second word being at PC.
pub(crate) fn target(opcode: u16, program: &[u8], pc: u16) -> u16
    ensures { result ≡ k22 opcode (program_word_of program.now pc) % 65536 }
{
    (k22(opcode, memory::get_progmem(program, pc as u32)) % 65536) as u16
}
