// The form of a word, and whether it has a second word, by arithmetic on the word alone: no table is lent, and no `Instruction` is built.
#![tactic(auto)]

ghost use Rattle.std.specs.Prelude.{◌≡◌};
ghost use Rattle.instruction.specs.Code.{two_words};
ghost use Rattle.instruction.specs.Decode.{decode_of};
ghost use Rattle.forms.specs.Forms.{form_of};

use crate::second::*;
use forms::form::*;

mod second;

// By the six highest bits. Each key has an arm of its own: with ranges or or-patterns, which were tried, a tick of crates/run takes 2 to 4 instructions more.
#[tactic(auto, unfolding(instruction::specs::Decode::decode_of, instruction::specs::Decode::nop_to_add_of, instruction::specs::Decode::cpse_to_adc_of, instruction::specs::Decode::and_to_mov_of, instruction::specs::Decode::immediate_of, instruction::specs::Decode::port_of, instruction::specs::Decode::relative_of, instruction::specs::Decode::branch_or_bit_of))]
pub fn form_of(opcode: u16) -> u8
    ensures { result ≡ form_of opcode }
{
    match opcode / 1024 {
        0 => nop_to_multiply(opcode),
        1 => CPC, // 0000_01rd_dddd_rrrr
        2 => SBC, // 0000_10rd_dddd_rrrr
        3 => ADD, // 0000_11rd_dddd_rrrr
        4 => CPSE, // 0001_00rd_dddd_rrrr
        5 => CP, // 0001_01rd_dddd_rrrr
        6 => SUB, // 0001_10rd_dddd_rrrr
        7 => ADC, // 0001_11rd_dddd_rrrr
        8 => AND, // 0010_00rd_dddd_rrrr
        9 => EOR, // 0010_01rd_dddd_rrrr
        10 => OR, // 0010_10rd_dddd_rrrr
        11 => MOV, // 0010_11rd_dddd_rrrr
        12 => CPI, // 0011_KKKK_dddd_KKKK
        13 => CPI,
        14 => CPI,
        15 => CPI,
        16 => SBCI, // 0100_KKKK_dddd_KKKK
        17 => SBCI,
        18 => SBCI,
        19 => SBCI,
        20 => SUBI, // 0101_KKKK_dddd_KKKK
        21 => SUBI,
        22 => SUBI,
        23 => SUBI,
        24 => ORI, // 0110_KKKK_dddd_KKKK
        25 => ORI,
        26 => ORI,
        27 => ORI,
        28 => ANDI, // 0111_KKKK_dddd_KKKK
        29 => ANDI,
        30 => ANDI,
        31 => ANDI,
        32 => displaced(opcode),
        33 => displaced(opcode),
        34 => displaced(opcode),
        35 => displaced(opcode),
        36 => load_or_store(opcode),
        37 => one_register_or_word(opcode),
        38 => port_bit(opcode),
        39 => MUL, // 1001_11rd_dddd_rrrr
        40 => displaced(opcode),
        41 => displaced(opcode),
        42 => displaced(opcode),
        43 => displaced(opcode),
        44 => IN, // 1011_0AAd_dddd_AAAA
        45 => IN,
        46 => OUT, // 1011_1AAr_rrrr_AAAA
        47 => OUT,
        48 => RJMP, // 1100_kkkk_kkkk_kkkk
        49 => RJMP,
        50 => RJMP,
        51 => RJMP,
        52 => RCALL, // 1101_kkkk_kkkk_kkkk
        53 => RCALL,
        54 => RCALL,
        55 => RCALL,
        56 => LDI, // 1110_KKKK_dddd_KKKK
        57 => LDI,
        58 => LDI,
        59 => LDI,
        60 => BRBS, // 1111_00kk_kkkk_ksss
        61 => BRBC, // 1111_01kk_kkkk_ksss
        62 => bld_or_bst(opcode),
        63 => sbrc_or_sbrs(opcode),
        _ => UNDEF, // no word comes here
    }
}

// LDS and STS; JMP and CALL.
pub fn has_second(opcode: u16) -> bool
    ensures { result ≡ two_words (decode_of opcode 0) }
{
    ((opcode / 1024 == 36) & (opcode % 16 == 0)) | ((opcode / 512 == 74) & (opcode % 16 >= 12))
}
