// An instruction's one or two words (02, W8): `decode` backwards.
#![tactic(auto)]

ghost use Rattle.std.specs.Prelude.{◌≡◌};
ghost use Rattle.encode.specs.Encode.{number_of, said, encode_of};

use instruction::Instruction;
use layout::*;

mod field;
mod layout;

#[derive(Clone, Copy, Debug, PartialEq, Eq)]
pub enum Words {
    One(u16),
    Two(u16, u16),
}

#[derive(Clone, Copy, Debug, PartialEq, Eq)]
pub enum Refusal {
    Outside, // an operand outside its field
    NoEncoding, // UNDEF and LSL, whatever their operands
}

// By 02's numbers.
impl From<Refusal> for u8 {
    ghost from_gives = { λ refusal n. n ≡ number_of refusal };

    fn from(refusal: Refusal) -> u8 {
        match refusal {
            Refusal::Outside => 33,
            Refusal::NoEncoding => 34,
        }
    }
}

// One match, an arm an instruction, in the order of the enum: its layout, and its pattern with 0 for the letters.
#[tactic(auto, unfolding(crate::specs::Encode::encode_of))]
pub fn encode(op: Instruction) -> Result<Words, Refusal>
    ensures { said result ≡ encode_of op }
{
    match op {
        Instruction::ADC { d, r } => registers(0x1C00, d, r), // 0001_11rd_dddd_rrrr
        Instruction::ADD { d, r } => registers(0x0C00, d, r), // 0000_11rd_dddd_rrrr
        Instruction::ADIW { d, K } => pair_constant(0x9600, d, K), // 1001_0110_KKdd_KKKK
        Instruction::AND { d, r } => registers(0x2000, d, r), // 0010_00rd_dddd_rrrr
        Instruction::ANDI { d, K } => constant(0x7000, d, K), // 0111_KKKK_dddd_KKKK
        Instruction::ASR { d } => register(0x9405, d), // 1001_010d_dddd_0101
        Instruction::BCLR { s } => flag(0x9488, s), // 1001_0100_1sss_1000
        Instruction::BLD { d, b } => register_bit(0xF800, d, b), // 1111_100d_dddd_0bbb
        Instruction::BRBC { s, k } => branch(0xF400, s, k), // 1111_01kk_kkkk_ksss
        Instruction::BRBS { s, k } => branch(0xF000, s, k), // 1111_00kk_kkkk_ksss
        Instruction::BREAK => bare(0x9598), // 1001_0101_1001_1000
        Instruction::BSET { s } => flag(0x9408, s), // 1001_0100_0sss_1000
        Instruction::BST { d, b } => register_bit(0xFA00, d, b), // 1111_101d_dddd_0bbb
        Instruction::CALL { k } => jump_target(0x940E, k), // 1001_010k_kkkk_111k
        Instruction::CBI { A, b } => port_bit(0x9800, A, b), // 1001_1000_AAAA_Abbb
        Instruction::COM { d } => register(0x9400, d), // 1001_010d_dddd_0000
        Instruction::CP { d, r } => registers(0x1400, d, r), // 0001_01rd_dddd_rrrr
        Instruction::CPC { d, r } => registers(0x0400, d, r), // 0000_01rd_dddd_rrrr
        Instruction::CPI { d, K } => constant(0x3000, d, K), // 0011_KKKK_dddd_KKKK
        Instruction::CPSE { d, r } => registers(0x1000, d, r), // 0001_00rd_dddd_rrrr
        Instruction::DEC { d } => register(0x940A, d), // 1001_010d_dddd_1010
        Instruction::EOR { d, r } => registers(0x2400, d, r), // 0010_01rd_dddd_rrrr
        Instruction::FMUL { d, r } => low_registers(0x0308, d, r), // 0000_0011_0ddd_1rrr
        Instruction::FMULS { d, r } => low_registers(0x0380, d, r), // 0000_0011_1ddd_0rrr
        Instruction::FMULSU { d, r } => low_registers(0x0388, d, r), // 0000_0011_1ddd_1rrr
        Instruction::ICALL => bare(0x9509), // 1001_0101_0000_1001
        Instruction::IJMP => bare(0x9409), // 1001_0100_0000_1001
        Instruction::IN { d, A } => port(0xB000, d, A), // 1011_0AAd_dddd_AAAA
        Instruction::INC { d } => register(0x9403, d), // 1001_010d_dddd_0011
        Instruction::JMP { k } => jump_target(0x940C, k), // 1001_010k_kkkk_110k
        Instruction::LDX { d } => register(0x900C, d), // 1001_000d_dddd_1100
        Instruction::LDXinc { d } => register(0x900D, d), // 1001_000d_dddd_1101
        Instruction::LDXdec { d } => register(0x900E, d), // 1001_000d_dddd_1110
        Instruction::LDYinc { d } => register(0x9009, d), // 1001_000d_dddd_1001
        Instruction::LDYdec { d } => register(0x900A, d), // 1001_000d_dddd_1010
        Instruction::LDZinc { d } => register(0x9001, d), // 1001_000d_dddd_0001
        Instruction::LDZdec { d } => register(0x9002, d), // 1001_000d_dddd_0010
        Instruction::LDDY { d, q } => displaced(0x8008, d, q), // 10q0_qq0d_dddd_1qqq
        Instruction::LDDZ { d, q } => displaced(0x8000, d, q), // 10q0_qq0d_dddd_0qqq
        Instruction::LDI { d, K } => constant(0xE000, d, K), // 1110_KKKK_dddd_KKKK
        Instruction::LDS { d, k } => data_address(0x9000, d, k), // 1001_000d_dddd_0000
        Instruction::LPM => bare(0x95C8), // 1001_0101_1100_1000
        Instruction::LPMZ { d } => register(0x9004, d), // 1001_000d_dddd_0100
        Instruction::LPMZinc { d } => register(0x9005, d), // 1001_000d_dddd_0101
        Instruction::LSL { .. } => Err(Refusal::NoEncoding),
        Instruction::LSR { d } => register(0x9406, d), // 1001_010d_dddd_0110
        Instruction::MOV { d, r } => registers(0x2C00, d, r), // 0010_11rd_dddd_rrrr
        Instruction::MOVW { d, r } => pairs(0x0100, d, r), // 0000_0001_dddd_rrrr
        Instruction::MUL { d, r } => registers(0x9C00, d, r), // 1001_11rd_dddd_rrrr
        Instruction::MULS { d, r } => high_registers(0x0200, d, r), // 0000_0010_dddd_rrrr
        Instruction::MULSU { d, r } => low_registers(0x0300, d, r), // 0000_0011_0ddd_0rrr
        Instruction::NEG { d } => register(0x9401, d), // 1001_010d_dddd_0001
        Instruction::NOP => bare(0x0000), // 0000_0000_0000_0000
        Instruction::OR { d, r } => registers(0x2800, d, r), // 0010_10rd_dddd_rrrr
        Instruction::ORI { d, K } => constant(0x6000, d, K), // 0110_KKKK_dddd_KKKK
        Instruction::OUT { A, r } => port(0xB800, r, A), // 1011_1AAr_rrrr_AAAA
        Instruction::POP { d } => register(0x900F, d), // 1001_000d_dddd_1111
        Instruction::PUSH { d } => register(0x920F, d), // 1001_001d_dddd_1111
        Instruction::RCALL { k } => relative(0xD000, k), // 1101_kkkk_kkkk_kkkk
        Instruction::RET => bare(0x9508), // 1001_0101_0000_1000
        Instruction::RETI => bare(0x9518), // 1001_0101_0001_1000
        Instruction::RJMP { k } => relative(0xC000, k), // 1100_kkkk_kkkk_kkkk
        Instruction::ROR { d } => register(0x9407, d), // 1001_010d_dddd_0111
        Instruction::SBC { d, r } => registers(0x0800, d, r), // 0000_10rd_dddd_rrrr
        Instruction::SBCI { d, K } => constant(0x4000, d, K), // 0100_KKKK_dddd_KKKK
        Instruction::SBI { A, b } => port_bit(0x9A00, A, b), // 1001_1010_AAAA_Abbb
        Instruction::SBIC { A, b } => port_bit(0x9900, A, b), // 1001_1001_AAAA_Abbb
        Instruction::SBIS { A, b } => port_bit(0x9B00, A, b), // 1001_1011_AAAA_Abbb
        Instruction::SBIW { d, K } => pair_constant(0x9700, d, K), // 1001_0111_KKdd_KKKK
        Instruction::SBRC { r, b } => register_bit(0xFC00, r, b), // 1111_110r_rrrr_0bbb
        Instruction::SBRS { r, b } => register_bit(0xFE00, r, b), // 1111_111r_rrrr_0bbb
        Instruction::SLEEP => bare(0x9588), // 1001_0101_1000_1000
        Instruction::STX { r } => register(0x920C, r), // 1001_001r_rrrr_1100
        Instruction::STXdec { r } => register(0x920E, r), // 1001_001r_rrrr_1110
        Instruction::STXinc { r } => register(0x920D, r), // 1001_001r_rrrr_1101
        Instruction::STYdec { r } => register(0x920A, r), // 1001_001r_rrrr_1010
        Instruction::STYinc { r } => register(0x9209, r), // 1001_001r_rrrr_1001
        Instruction::STZdec { r } => register(0x9202, r), // 1001_001r_rrrr_0010
        Instruction::STZinc { r } => register(0x9201, r), // 1001_001r_rrrr_0001
        Instruction::STDY { q, r } => displaced(0x8208, r, q), // 10q0_qq1r_rrrr_1qqq
        Instruction::STDZ { q, r } => displaced(0x8200, r, q), // 10q0_qq1r_rrrr_0qqq
        Instruction::STS { k, r } => data_address(0x9200, r, k), // 1001_001r_rrrr_0000
        Instruction::SUB { d, r } => registers(0x1800, d, r), // 0001_10rd_dddd_rrrr
        Instruction::SUBI { d, K } => constant(0x5000, d, K), // 0101_KKKK_dddd_KKKK
        Instruction::SWAP { d } => register(0x9402, d), // 1001_010d_dddd_0010
        Instruction::WDR => bare(0x95A8), // 1001_0101_1010_1000
        Instruction::UNDEF => Err(Refusal::NoEncoding),
    }
}
