// What a mark leads to: the forms of the words that share high byte and low nibble with words of another form, by bits 7 to 4.
// `decode` has tables with the same keys, of instructions: one function for both would take every answer as a parameter.
ghost use Rattle.std.specs.Prelude.{◌≡◌, ◌%◌};
ghost use Rattle.instruction.specs.Decode.{look, mulsu_to_fmulsu_of, control_of, indirect_of};
ghost use Rattle.forms.specs.Forms.{form, control_or_indirect, further_of};

use crate::form::*;

#[tactic(auto, unfolding(crate::specs::Forms::further_of))]
pub(crate) fn further(opcode: u16) -> u8
    ensures { result ≡ further_of opcode }
{
    match opcode {
        0x0000 => NOP, // 0000_0000_0000_0000
        0x0001..=0x00FF => UNDEF,
        0x0100..=0x03FF => multiply(opcode),
        _ => control_or_indirect(opcode),
    }
}

// 0x0300 to 0x03FF.
#[tactic(auto, unfolding(instruction::specs::Decode::mulsu_to_fmulsu_of))]
pub fn multiply(opcode: u16) -> u8
    ensures { result ≡ form (mulsu_to_fmulsu_of opcode) }
{
    match opcode / 128 % 2 * 2 + opcode / 8 % 2 {
        0 => MULSU, // 0000_0011_0ddd_0rrr
        1 => FMUL, // 0000_0011_0ddd_1rrr
        2 => FMULS, // 0000_0011_1ddd_0rrr
        _ => FMULSU, // 0000_0011_1ddd_1rrr
    }
}

fn control_or_indirect(opcode: u16) -> u8
    ensures { result ≡ form (look (opcode % 16) (control_or_indirect opcode)) }
{
    match opcode % 16 {
        8 => control(opcode),
        9 => indirect(opcode),
        _ => UNDEF,
    }
}

// 0x9408 and each sixteenth word after it, to 0x95F8.
#[tactic(auto, unfolding(instruction::specs::Decode::control_of))]
pub fn control(opcode: u16) -> u8
    ensures { result ≡ form (control_of opcode) }
{
    match opcode / 16 % 32 {
        0..=7 => BSET, // 1001_0100_0sss_1000
        8..=15 => BCLR, // 1001_0100_1sss_1000
        16 => RET, // 1001_0101_0000_1000
        17 => RETI, // 1001_0101_0001_1000
        24 => SLEEP, // 1001_0101_1000_1000
        25 => BREAK, // 1001_0101_1001_1000
        26 => WDR, // 1001_0101_1010_1000
        28 => LPM, // 1001_0101_1100_1000
        _ => UNDEF,
    }
}

// 0x9409 and each sixteenth word after it, to 0x95F9.
#[tactic(auto, unfolding(instruction::specs::Decode::indirect_of))]
pub fn indirect(opcode: u16) -> u8
    ensures { result ≡ form (indirect_of opcode) }
{
    match opcode / 16 % 32 {
        0 => IJMP, // 1001_0100_0000_1001
        16 => ICALL, // 1001_0101_0000_1001
        _ => UNDEF,
    }
}
