// Second looks: the forms of the words whose six highest bits do not decide.
ghost use Rattle.std.specs.Prelude.{◌≡◌, ◌/◌};
ghost use Rattle.instruction.specs.Decode.{displaced_of, load_of, store_of, one_register_of, port_bit_of};
ghost use Rattle.forms.specs.Forms.{form, form_of};

use forms::form::*;
use forms::further;

// 0x0000 to 0x03FF.
#[tactic(auto, unfolding(instruction::specs::Decode::decode_of, instruction::specs::Decode::nop_to_add_of))]
pub(crate) fn nop_to_multiply(opcode: u16) -> u8
    requires { opcode / 1024 ≡ 0 }
    ensures { result ≡ form_of opcode }
{
    match opcode / 256 {
        0 => nop(opcode),
        1 => MOVW, // 0000_0001_dddd_rrrr
        2 => MULS, // 0000_0010_dddd_rrrr
        _ => further::multiply(opcode),
    }
}

// 0x0000 to 0x00FF.
#[tactic(auto, unfolding(instruction::specs::Decode::decode_of, instruction::specs::Decode::nop_to_add_of))]
fn nop(opcode: u16) -> u8
    requires { opcode / 256 ≡ 0 }
    ensures { result ≡ form_of opcode }
{
    match opcode {
        0 => NOP, // 0000_0000_0000_0000
        _ => UNDEF,
    }
}

// 0x8000 to 0x8FFF, and 0xA000 to 0xAFFF.
#[tactic(auto, unfolding(instruction::specs::Decode::displaced_of))]
pub(crate) fn displaced(opcode: u16) -> u8
    ensures { result ≡ form (displaced_of opcode) }
{
    match opcode / 512 % 2 * 2 + opcode / 8 % 2 {
        0 => LDDZ, // 10q0_qq0d_dddd_0qqq
        1 => LDDY, // 10q0_qq0d_dddd_1qqq
        2 => STDZ, // 10q0_qq1r_rrrr_0qqq
        _ => STDY, // 10q0_qq1r_rrrr_1qqq
    }
}

// 0x9000 to 0x93FF.
#[tactic(auto, unfolding(instruction::specs::Decode::decode_of))]
pub(crate) fn load_or_store(opcode: u16) -> u8
    requires { opcode / 1024 ≡ 36 }
    ensures { result ≡ form_of opcode }
{
    match opcode / 512 {
        72 => load(opcode),
        _ => store(opcode),
    }
}

// 0x9000 to 0x91FF.
#[tactic(auto, unfolding(instruction::specs::Decode::load_of))]
fn load(opcode: u16) -> u8
    ensures { result ≡ form (load_of opcode 0) }
{
    match opcode % 16 {
        0 => LDS, // 1001_000d_dddd_0000
        1 => LDZinc, // 1001_000d_dddd_0001
        2 => LDZdec, // 1001_000d_dddd_0010
        4 => LPMZ, // 1001_000d_dddd_0100
        5 => LPMZinc, // 1001_000d_dddd_0101
        9 => LDYinc, // 1001_000d_dddd_1001
        10 => LDYdec, // 1001_000d_dddd_1010
        12 => LDX, // 1001_000d_dddd_1100
        13 => LDXinc, // 1001_000d_dddd_1101
        14 => LDXdec, // 1001_000d_dddd_1110
        15 => POP, // 1001_000d_dddd_1111
        _ => UNDEF,
    }
}

// 0x9200 to 0x93FF.
#[tactic(auto, unfolding(instruction::specs::Decode::store_of))]
fn store(opcode: u16) -> u8
    ensures { result ≡ form (store_of opcode 0) }
{
    match opcode % 16 {
        0 => STS, // 1001_001r_rrrr_0000
        1 => STZinc, // 1001_001r_rrrr_0001
        2 => STZdec, // 1001_001r_rrrr_0010
        9 => STYinc, // 1001_001r_rrrr_1001
        10 => STYdec, // 1001_001r_rrrr_1010
        12 => STX, // 1001_001r_rrrr_1100
        13 => STXinc, // 1001_001r_rrrr_1101
        14 => STXdec, // 1001_001r_rrrr_1110
        15 => PUSH, // 1001_001d_dddd_1111
        _ => UNDEF,
    }
}

// 0x9400 to 0x97FF.
#[tactic(auto, unfolding(instruction::specs::Decode::decode_of, instruction::specs::Decode::word_immediate_of))]
pub(crate) fn one_register_or_word(opcode: u16) -> u8
    requires { opcode / 1024 ≡ 37 }
    ensures { result ≡ form_of opcode }
{
    match opcode / 256 {
        0x96 => ADIW, // 1001_0110_KKdd_KKKK
        0x97 => SBIW, // 1001_0111_KKdd_KKKK
        _ => one_register(opcode),
    }
}

// 0x9400 to 0x95FF.
#[tactic(auto, unfolding(instruction::specs::Decode::one_register_of))]
fn one_register(opcode: u16) -> u8
    ensures { result ≡ form (one_register_of opcode 0) }
{
    match opcode % 16 {
        0 => COM, // 1001_010d_dddd_0000
        1 => NEG, // 1001_010d_dddd_0001
        2 => SWAP, // 1001_010d_dddd_0010
        3 => INC, // 1001_010d_dddd_0011
        5 => ASR, // 1001_010d_dddd_0101
        6 => LSR, // 1001_010d_dddd_0110
        7 => ROR, // 1001_010d_dddd_0111
        8 => further::control(opcode),
        9 => further::indirect(opcode),
        10 => DEC, // 1001_010d_dddd_1010
        12 => JMP, // 1001_010k_kkkk_110k
        13 => JMP,
        14 => CALL, // 1001_010k_kkkk_111k
        15 => CALL,
        _ => UNDEF,
    }
}

// 0x9800 to 0x9BFF.
#[tactic(auto, unfolding(instruction::specs::Decode::port_bit_of))]
pub(crate) fn port_bit(opcode: u16) -> u8
    ensures { result ≡ form (port_bit_of opcode) }
{
    match opcode / 256 % 4 {
        0 => CBI, // 1001_1000_AAAA_Abbb
        1 => SBIC, // 1001_1001_AAAA_Abbb
        2 => SBI, // 1001_1010_AAAA_Abbb
        _ => SBIS, // 1001_1011_AAAA_Abbb
    }
}

// 0xF800 to 0xFBFF.
#[tactic(auto, unfolding(instruction::specs::Decode::decode_of, instruction::specs::Decode::branch_or_bit_of, instruction::specs::Decode::register_bit_of))]
pub(crate) fn bld_or_bst(opcode: u16) -> u8
    requires { opcode / 1024 ≡ 62 }
    ensures { result ≡ form_of opcode }
{
    match opcode / 512 % 2 * 2 + opcode / 8 % 2 {
        0 => BLD, // 1111_100d_dddd_0bbb
        2 => BST, // 1111_101d_dddd_0bbb
        _ => UNDEF,
    }
}

// 0xFC00 to 0xFFFF. As `bld_or_bst`: one function for both would take the two forms as parameters, away from their patterns.
#[tactic(auto, unfolding(instruction::specs::Decode::decode_of, instruction::specs::Decode::branch_or_bit_of, instruction::specs::Decode::register_bit_of))]
pub(crate) fn sbrc_or_sbrs(opcode: u16) -> u8
    requires { opcode / 1024 ≡ 63 }
    ensures { result ≡ form_of opcode }
{
    match opcode / 512 % 2 * 2 + opcode / 8 % 2 {
        0 => SBRC, // 1111_110r_rrrr_0bbb
        2 => SBRS, // 1111_111r_rrrr_0bbb
        _ => UNDEF,
    }
}
