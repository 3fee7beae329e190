// The words of the instruction at a PC.
ghost use Rattle.std.specs.Prelude.{◌≡◌};
ghost use Rattle.instruction.specs.Decode.{decode_of};
ghost use Rattle.cores.specs.Flow.{op_at};
ghost use Rattle.execute.specs.Needs.{fetched};

use instruction::Instruction;

pub(crate) fn fetch(program: &[u8], pc: u16) -> Instruction
    ensures { result ≡ op_at decode_of program.now pc }
{
    let opcode = memory::get_progmem(program, pc as u32);
    let prefetch = memory::get_progmem(program, pc as u32 + 1);
    Instruction::decode(opcode, prefetch)
}

// The opcode, and the second word of an instruction of two, are in the program.
#[tactic(auto, unfolding(memory::specs::Memory::has_word_of))]
pub(crate) fn has_words(op: Instruction, program: &[u8], pc: u16) -> bool
    ensures { result ≡ fetched program.now pc op }
{
    if memory::has_word(program, pc as u32 + 1) {
        return true;
    }
    memory::has_word(program, pc as u32) & !op.two_words()
}
