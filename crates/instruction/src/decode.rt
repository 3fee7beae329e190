// `Instruction::decode`: the opcode's high bits choose a range, and a function for that range reads the remaining bits.
// Beside each arm stands the pattern of cores.rs that it carries over.
ghost use Rattle.std.specs.Prelude.{◌≡◌};
ghost use Rattle.instruction.specs.Decode.{
  decode_of,
  nop_to_add_of,
  mulsu_to_fmulsu_of,
  cpse_to_adc_of,
  and_to_mov_of,
  immediate_of,
  displaced_of,
  load_of,
  store_of,
  one_register_of,
  control_of,
  indirect_of,
  word_immediate_of,
  port_bit_of,
  mul_of,
  port_of,
  relative_of,
  branch_or_bit_of,
  register_bit_of,
};

use crate::Instruction;

impl Instruction {
    #[tactic(auto, unfolding(crate::specs::Decode::decode_of))]
    pub fn decode(opcode: u16, prefetch: u16) -> Instruction
        ensures { result ≡ decode_of opcode prefetch }
    {
        match opcode {
            0x0000..=0x0FFF => nop_to_add(opcode),
            0x1000..=0x1FFF => cpse_to_adc(opcode),
            0x2000..=0x2FFF => and_to_mov(opcode),
            0x3000..=0x7FFF => immediate(opcode),
            0x8000..=0x8FFF => displaced(opcode),
            0x9000..=0x91FF => load(opcode, prefetch),
            0x9200..=0x93FF => store(opcode, prefetch),
            0x9400..=0x95FF => one_register(opcode, prefetch),
            0x9600..=0x97FF => word_immediate(opcode),
            0x9800..=0x9BFF => port_bit(opcode),
            0x9C00..=0x9FFF => mul(opcode),
            0xA000..=0xAFFF => displaced(opcode),
            0xB000..=0xBFFF => port(opcode),
            0xC000..=0xDFFF => relative(opcode),
            0xE000..=0xEFFF => immediate(opcode),
            _ => branch_or_bit(opcode),
        }
    }
}

// 0x0000 to 0x0FFF. The Rust's LSL, 0000_11dd_dddd_dddd, lies under ADD and is never reached.
#[tactic(auto, unfolding(crate::specs::Decode::nop_to_add_of))]
fn nop_to_add(opcode: u16) -> Instruction
    ensures { result ≡ nop_to_add_of opcode }
{
    let d = (opcode / 16 % 32) as u8;
    let r = (opcode / 512 % 2 * 16 + opcode % 16) as u8;
    match opcode {
        0x000 => Instruction::NOP, // 0000_0000_0000_0000
        0x001..=0x0FF => Instruction::UNDEF,
        0x100..=0x1FF => Instruction::MOVW {
            // 0000_0001_dddd_rrrr
            d: (opcode / 16 % 16 * 2) as u8,
            r: (opcode % 16 * 2) as u8,
        },
        0x200..=0x2FF => Instruction::MULS {
            // 0000_0010_dddd_rrrr
            d: (opcode / 16 % 16 + 16) as u8,
            r: (opcode % 16 + 16) as u8,
        },
        0x300..=0x3FF => mulsu_to_fmulsu(opcode),
        0x400..=0x7FF => Instruction::CPC { d, r }, // 0000_01rd_dddd_rrrr
        0x800..=0xBFF => Instruction::SBC { d, r }, // 0000_10rd_dddd_rrrr
        _ => Instruction::ADD { d, r }, // 0000_11rd_dddd_rrrr
    }
}

// 0x0300 to 0x03FF.
#[tactic(auto, unfolding(crate::specs::Decode::mulsu_to_fmulsu_of))]
fn mulsu_to_fmulsu(opcode: u16) -> Instruction
    ensures { result ≡ mulsu_to_fmulsu_of opcode }
{
    let d = (opcode / 16 % 8 + 16) as u8;
    let r = (opcode % 8 + 16) as u8;
    match opcode / 128 % 2 * 2 + opcode / 8 % 2 {
        0 => Instruction::MULSU { d, r }, // 0000_0011_0ddd_0rrr
        1 => Instruction::FMUL { d, r }, // 0000_0011_0ddd_1rrr
        2 => Instruction::FMULS { d, r }, // 0000_0011_1ddd_0rrr
        _ => Instruction::FMULSU { d, r }, // 0000_0011_1ddd_1rrr
    }
}

// 0x1000 to 0x1FFF.
#[tactic(auto, unfolding(crate::specs::Decode::cpse_to_adc_of))]
fn cpse_to_adc(opcode: u16) -> Instruction
    ensures { result ≡ cpse_to_adc_of opcode }
{
    let d = (opcode / 16 % 32) as u8;
    let r = (opcode / 512 % 2 * 16 + opcode % 16) as u8;
    match opcode / 1024 % 4 {
        0 => Instruction::CPSE { d, r }, // 0001_00rd_dddd_rrrr
        1 => Instruction::CP { d, r }, // 0001_01rd_dddd_rrrr
        2 => Instruction::SUB { d, r }, // 0001_10rd_dddd_rrrr
        _ => Instruction::ADC { d, r }, // 0001_11rd_dddd_rrrr
    }
}

// 0x2000 to 0x2FFF.
#[tactic(auto, unfolding(crate::specs::Decode::and_to_mov_of))]
fn and_to_mov(opcode: u16) -> Instruction
    ensures { result ≡ and_to_mov_of opcode }
{
    let d = (opcode / 16 % 32) as u8;
    let r = (opcode / 512 % 2 * 16 + opcode % 16) as u8;
    match opcode / 1024 % 4 {
        0 => Instruction::AND { d, r }, // 0010_00rd_dddd_rrrr
        1 => Instruction::EOR { d, r }, // 0010_01rd_dddd_rrrr
        2 => Instruction::OR { d, r }, // 0010_10rd_dddd_rrrr
        _ => Instruction::MOV { d, r }, // 0010_11rd_dddd_rrrr
    }
}

// 0x3000 to 0x7FFF, and 0xE000 to 0xEFFF.
#[tactic(auto, unfolding(crate::specs::Decode::immediate_of))]
fn immediate(opcode: u16) -> Instruction
    ensures { result ≡ immediate_of opcode }
{
    let d = (opcode / 16 % 16 + 16) as u8;
    let K = (opcode / 256 % 16 * 16 + opcode % 16) as u8;
    match opcode / 4096 {
        3 => Instruction::CPI { d, K }, // 0011_KKKK_dddd_KKKK
        4 => Instruction::SBCI { d, K }, // 0100_KKKK_dddd_KKKK
        5 => Instruction::SUBI { d, K }, // 0101_KKKK_dddd_KKKK
        6 => Instruction::ORI { d, K }, // 0110_KKKK_dddd_KKKK
        7 => Instruction::ANDI { d, K }, // 0111_KKKK_dddd_KKKK
        14 => Instruction::LDI { d, K }, // 1110_KKKK_dddd_KKKK
        _ => Instruction::UNDEF,
    }
}

// 0x8000 to 0x8FFF, and 0xA000 to 0xAFFF.
#[tactic(auto, unfolding(crate::specs::Decode::displaced_of))]
fn displaced(opcode: u16) -> Instruction
    ensures { result ≡ displaced_of opcode }
{
    let d = (opcode / 16 % 32) as u8;
    let q = (opcode / 8192 % 2 * 32 + opcode / 1024 % 4 * 8 + opcode % 8) as u8;
    match opcode / 512 % 2 * 2 + opcode / 8 % 2 {
        0 => Instruction::LDDZ { d, q }, // 10q0_qq0d_dddd_0qqq
        1 => Instruction::LDDY { d, q }, // 10q0_qq0d_dddd_1qqq
        2 => Instruction::STDZ { q, r: d }, // 10q0_qq1r_rrrr_0qqq
        _ => Instruction::STDY { q, r: d }, // 10q0_qq1r_rrrr_1qqq
    }
}

// 0x9000 to 0x91FF.
#[tactic(auto, unfolding(crate::specs::Decode::load_of))]
fn load(opcode: u16, prefetch: u16) -> Instruction
    ensures { result ≡ load_of opcode prefetch }
{
    let d = (opcode / 16 % 32) as u8;
    match opcode % 16 {
        0 => Instruction::LDS { d, k: prefetch }, // 1001_000d_dddd_0000
        1 => Instruction::LDZinc { d }, // 1001_000d_dddd_0001
        2 => Instruction::LDZdec { d }, // 1001_000d_dddd_0010
        4 => Instruction::LPMZ { d }, // 1001_000d_dddd_0100
        5 => Instruction::LPMZinc { d }, // 1001_000d_dddd_0101
        9 => Instruction::LDYinc { d }, // 1001_000d_dddd_1001
        10 => Instruction::LDYdec { d }, // 1001_000d_dddd_1010
        12 => Instruction::LDX { d }, // 1001_000d_dddd_1100
        13 => Instruction::LDXinc { d }, // 1001_000d_dddd_1101
        14 => Instruction::LDXdec { d }, // 1001_000d_dddd_1110
        15 => Instruction::POP { d }, // 1001_000d_dddd_1111
        _ => Instruction::UNDEF,
    }
}

// 0x9200 to 0x93FF.
#[tactic(auto, unfolding(crate::specs::Decode::store_of))]
fn store(opcode: u16, prefetch: u16) -> Instruction
    ensures { result ≡ store_of opcode prefetch }
{
    let r = (opcode / 16 % 32) as u8;
    match opcode % 16 {
        0 => Instruction::STS { k: prefetch, r }, // 1001_001r_rrrr_0000
        1 => Instruction::STZinc { r }, // 1001_001r_rrrr_0001
        2 => Instruction::STZdec { r }, // 1001_001r_rrrr_0010
        9 => Instruction::STYinc { r }, // 1001_001r_rrrr_1001
        10 => Instruction::STYdec { r }, // 1001_001r_rrrr_1010
        12 => Instruction::STX { r }, // 1001_001r_rrrr_1100
        13 => Instruction::STXinc { r }, // 1001_001r_rrrr_1101
        14 => Instruction::STXdec { r }, // 1001_001r_rrrr_1110
        15 => Instruction::PUSH { d: r }, // 1001_001d_dddd_1111
        _ => Instruction::UNDEF,
    }
}

// 0x9400 to 0x95FF.
#[tactic(auto, unfolding(crate::specs::Decode::one_register_of))]
fn one_register(opcode: u16, prefetch: u16) -> Instruction
    ensures { result ≡ one_register_of opcode prefetch }
{
    let d = (opcode / 16 % 32) as u8;
    let k = ((opcode / 16 % 32 * 2 + opcode % 2) as u32) * 65536 + (prefetch as u32);
    match opcode % 16 {
        0 => Instruction::COM { d }, // 1001_010d_dddd_0000
        1 => Instruction::NEG { d }, // 1001_010d_dddd_0001
        2 => Instruction::SWAP { d }, // 1001_010d_dddd_0010
        3 => Instruction::INC { d }, // 1001_010d_dddd_0011
        5 => Instruction::ASR { d }, // 1001_010d_dddd_0101
        6 => Instruction::LSR { d }, // 1001_010d_dddd_0110
        7 => Instruction::ROR { d }, // 1001_010d_dddd_0111
        8 => control(opcode),
        9 => indirect(opcode),
        10 => Instruction::DEC { d }, // 1001_010d_dddd_1010
        12..=13 => Instruction::JMP { k }, // 1001_010k_kkkk_110k
        14..=15 => Instruction::CALL { k }, // 1001_010k_kkkk_111k
        _ => Instruction::UNDEF,
    }
}

// 0x9408 and each sixteenth word after it, to 0x95F8.
#[tactic(auto, unfolding(crate::specs::Decode::control_of))]
fn control(opcode: u16) -> Instruction
    ensures { result ≡ control_of opcode }
{
    let s = (opcode / 16 % 8) as u8;
    match opcode / 16 % 32 {
        0..=7 => Instruction::BSET { s }, // 1001_0100_0sss_1000
        8..=15 => Instruction::BCLR { s }, // 1001_0100_1sss_1000
        16 => Instruction::RET, // 1001_0101_0000_1000
        17 => Instruction::RETI, // 1001_0101_0001_1000
        24 => Instruction::SLEEP, // 1001_0101_1000_1000
        25 => Instruction::BREAK, // 1001_0101_1001_1000
        26 => Instruction::WDR, // 1001_0101_1010_1000
        28 => Instruction::LPM, // 1001_0101_1100_1000
        _ => Instruction::UNDEF,
    }
}

// 0x9409 and each sixteenth word after it, to 0x95F9.
#[tactic(auto, unfolding(crate::specs::Decode::indirect_of))]
fn indirect(opcode: u16) -> Instruction
    ensures { result ≡ indirect_of opcode }
{
    match opcode / 16 % 32 {
        0 => Instruction::IJMP, // 1001_0100_0000_1001
        16 => Instruction::ICALL, // 1001_0101_0000_1001
        _ => Instruction::UNDEF,
    }
}

// 0x9600 to 0x97FF.
#[tactic(auto, unfolding(crate::specs::Decode::word_immediate_of))]
fn word_immediate(opcode: u16) -> Instruction
    ensures { result ≡ word_immediate_of opcode }
{
    let d = (opcode / 16 % 4 * 2 + 24) as u8;
    let K = (opcode / 64 % 4 * 16 + opcode % 16) as u8;
    match opcode / 256 % 2 {
        0 => Instruction::ADIW { d, K }, // 1001_0110_KKdd_KKKK
        _ => Instruction::SBIW { d, K }, // 1001_0111_KKdd_KKKK
    }
}

// 0x9800 to 0x9BFF.
#[tactic(auto, unfolding(crate::specs::Decode::port_bit_of))]
fn port_bit(opcode: u16) -> Instruction
    ensures { result ≡ port_bit_of opcode }
{
    let A = (opcode / 8 % 32) as u8;
    let b = (opcode % 8) as u8;
    match opcode / 256 % 4 {
        0 => Instruction::CBI { A, b }, // 1001_1000_AAAA_Abbb
        1 => Instruction::SBIC { A, b }, // 1001_1001_AAAA_Abbb
        2 => Instruction::SBI { A, b }, // 1001_1010_AAAA_Abbb
        _ => Instruction::SBIS { A, b }, // 1001_1011_AAAA_Abbb
    }
}

// 0x9C00 to 0x9FFF.
fn mul(opcode: u16) -> Instruction
    ensures { result ≡ mul_of opcode }
{
    let d = (opcode / 16 % 32) as u8;
    let r = (opcode / 512 % 2 * 16 + opcode % 16) as u8;
    Instruction::MUL { d, r } // 1001_11rd_dddd_rrrr
}

// 0xB000 to 0xBFFF.
#[tactic(auto, unfolding(crate::specs::Decode::port_of))]
fn port(opcode: u16) -> Instruction
    ensures { result ≡ port_of opcode }
{
    let d = (opcode / 16 % 32) as u8;
    let A = (opcode / 512 % 4 * 16 + opcode % 16) as u8;
    match opcode / 2048 % 2 {
        0 => Instruction::IN { d, A }, // 1011_0AAd_dddd_AAAA
        _ => Instruction::OUT { A, r: d }, // 1011_1AAr_rrrr_AAAA
    }
}

// 0xC000 to 0xDFFF. The offset's bit 11 is its sign.
#[tactic(auto, unfolding(crate::specs::Decode::relative_of))]
fn relative(opcode: u16) -> Instruction
    ensures { result ≡ relative_of opcode }
{
    let k = opcode % 2048 + opcode / 2048 % 2 * 63488;
    match opcode / 4096 % 2 {
        0 => Instruction::RJMP { k }, // 1100_kkkk_kkkk_kkkk
        _ => Instruction::RCALL { k }, // 1101_kkkk_kkkk_kkkk
    }
}

// 0xF000 to 0xFFFF. The offset's bit 6 is its sign.
#[tactic(auto, unfolding(crate::specs::Decode::branch_or_bit_of))]
fn branch_or_bit(opcode: u16) -> Instruction
    ensures { result ≡ branch_or_bit_of opcode }
{
    let s = (opcode % 8) as u8;
    let k = (opcode / 8 % 64 + opcode / 512 % 2 * 192) as u8;
    match opcode / 1024 % 4 {
        0 => Instruction::BRBS { s, k }, // 1111_00kk_kkkk_ksss
        1 => Instruction::BRBC { s, k }, // 1111_01kk_kkkk_ksss
        _ => register_bit(opcode),
    }
}

// 0xF800 to 0xFFFF.
#[tactic(auto, unfolding(crate::specs::Decode::register_bit_of))]
fn register_bit(opcode: u16) -> Instruction
    ensures { result ≡ register_bit_of opcode }
{
    let d = (opcode / 16 % 32) as u8;
    let b = (opcode % 8) as u8;
    match opcode / 512 % 4 * 2 + opcode / 8 % 2 {
        0 => Instruction::BLD { d, b }, // 1111_100d_dddd_0bbb
        2 => Instruction::BST { d, b }, // 1111_101d_dddd_0bbb
        4 => Instruction::SBRC { r: d, b }, // 1111_110r_rrrr_0bbb
        6 => Instruction::SBRS { r: d, b }, // 1111_111r_rrrr_0bbb
        _ => Instruction::UNDEF,
    }
}
