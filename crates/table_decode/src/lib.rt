// A second decoder (02, W10): the form is looked up in a lent table, and the form says which fields the word has.
#![tactic(auto)]

ghost use Rattle.std.specs.Prelude.{◌≡◌};
ghost use Rattle.forms.specs.Instructions.{instruction_of};
ghost use Rattle.table_decode.specs.Decoding.{decoded_by};

use forms::fields::*;
use forms::form::*;
use instruction::Instruction;

// One match, an arm a form, in the order of the enum. The word is `w`.
#[tactic(auto, unfolding(forms::specs::Instructions::instruction_of))]
pub fn instruction_of(form: u8, w: u16, prefetch: u16) -> Instruction
    ensures { result ≡ instruction_of form w prefetch }
{
    match form {
        ADC => Instruction::ADC { d: d5(w), r: r5(w) },
        ADD => Instruction::ADD { d: d5(w), r: r5(w) },
        ADIW => Instruction::ADIW { d: d2(w), K: K6(w) },
        AND => Instruction::AND { d: d5(w), r: r5(w) },
        ANDI => Instruction::ANDI { d: d4(w), K: K8(w) },
        ASR => Instruction::ASR { d: d5(w) },
        BCLR => Instruction::BCLR { s: s3(w) },
        BLD => Instruction::BLD { d: d5(w), b: b3(w) },
        BRBC => Instruction::BRBC { s: b3(w), k: k7(w) },
        BRBS => Instruction::BRBS { s: b3(w), k: k7(w) },
        BREAK => Instruction::BREAK,
        BSET => Instruction::BSET { s: s3(w) },
        BST => Instruction::BST { d: d5(w), b: b3(w) },
        CALL => Instruction::CALL {
            k: k22(w, prefetch),
        },
        CBI => Instruction::CBI { A: A5(w), b: b3(w) },
        COM => Instruction::COM { d: d5(w) },
        CP => Instruction::CP { d: d5(w), r: r5(w) },
        CPC => Instruction::CPC { d: d5(w), r: r5(w) },
        CPI => Instruction::CPI { d: d4(w), K: K8(w) },
        CPSE => Instruction::CPSE { d: d5(w), r: r5(w) },
        DEC => Instruction::DEC { d: d5(w) },
        EOR => Instruction::EOR { d: d5(w), r: r5(w) },
        FMUL => Instruction::FMUL { d: d3(w), r: r3(w) },
        FMULS => Instruction::FMULS { d: d3(w), r: r3(w) },
        FMULSU => Instruction::FMULSU { d: d3(w), r: r3(w) },
        ICALL => Instruction::ICALL,
        IJMP => Instruction::IJMP,
        IN => Instruction::IN { d: d5(w), A: A6(w) },
        INC => Instruction::INC { d: d5(w) },
        JMP => Instruction::JMP {
            k: k22(w, prefetch),
        },
        LDX => Instruction::LDX { d: d5(w) },
        LDXinc => Instruction::LDXinc { d: d5(w) },
        LDXdec => Instruction::LDXdec { d: d5(w) },
        LDYinc => Instruction::LDYinc { d: d5(w) },
        LDYdec => Instruction::LDYdec { d: d5(w) },
        LDZinc => Instruction::LDZinc { d: d5(w) },
        LDZdec => Instruction::LDZdec { d: d5(w) },
        LDDY => Instruction::LDDY { d: d5(w), q: q6(w) },
        LDDZ => Instruction::LDDZ { d: d5(w), q: q6(w) },
        LDI => Instruction::LDI { d: d4(w), K: K8(w) },
        LDS => Instruction::LDS {
            d: d5(w),
            k: prefetch,
        },
        LPM => Instruction::LPM,
        LPMZ => Instruction::LPMZ { d: d5(w) },
        LPMZinc => Instruction::LPMZinc { d: d5(w) },
        LSR => Instruction::LSR { d: d5(w) },
        MOV => Instruction::MOV { d: d5(w), r: r5(w) },
        MOVW => Instruction::MOVW {
            d: d4_pair(w),
            r: r4_pair(w),
        },
        MUL => Instruction::MUL { d: d5(w), r: r5(w) },
        MULS => Instruction::MULS { d: d4(w), r: r4(w) },
        MULSU => Instruction::MULSU { d: d3(w), r: r3(w) },
        NEG => Instruction::NEG { d: d5(w) },
        NOP => Instruction::NOP,
        OR => Instruction::OR { d: d5(w), r: r5(w) },
        ORI => Instruction::ORI { d: d4(w), K: K8(w) },
        OUT => Instruction::OUT { A: A6(w), r: d5(w) },
        POP => Instruction::POP { d: d5(w) },
        PUSH => Instruction::PUSH { d: d5(w) },
        RCALL => Instruction::RCALL { k: k12(w) },
        RET => Instruction::RET,
        RETI => Instruction::RETI,
        RJMP => Instruction::RJMP { k: k12(w) },
        ROR => Instruction::ROR { d: d5(w) },
        SBC => Instruction::SBC { d: d5(w), r: r5(w) },
        SBCI => Instruction::SBCI { d: d4(w), K: K8(w) },
        SBI => Instruction::SBI { A: A5(w), b: b3(w) },
        SBIC => Instruction::SBIC { A: A5(w), b: b3(w) },
        SBIS => Instruction::SBIS { A: A5(w), b: b3(w) },
        SBIW => Instruction::SBIW { d: d2(w), K: K6(w) },
        SBRC => Instruction::SBRC { r: d5(w), b: b3(w) },
        SBRS => Instruction::SBRS { r: d5(w), b: b3(w) },
        SLEEP => Instruction::SLEEP,
        STX => Instruction::STX { r: d5(w) },
        STXdec => Instruction::STXdec { r: d5(w) },
        STXinc => Instruction::STXinc { r: d5(w) },
        STYdec => Instruction::STYdec { r: d5(w) },
        STYinc => Instruction::STYinc { r: d5(w) },
        STZdec => Instruction::STZdec { r: d5(w) },
        STZinc => Instruction::STZinc { r: d5(w) },
        STDY => Instruction::STDY { q: q6(w), r: d5(w) },
        STDZ => Instruction::STDZ { q: q6(w), r: d5(w) },
        STS => Instruction::STS {
            k: prefetch,
            r: d5(w),
        },
        SUB => Instruction::SUB { d: d5(w), r: r5(w) },
        SUBI => Instruction::SUBI { d: d4(w), K: K8(w) },
        SWAP => Instruction::SWAP { d: d5(w) },
        WDR => Instruction::WDR,
        _ => Instruction::UNDEF,
    }
}

pub fn decode(table: &[u8], opcode: u16, prefetch: u16) -> Instruction
    ensures { result ≡ decoded_by table.now opcode prefetch }
{
    let form = forms::form_of(table, opcode);
    instruction_of(form, opcode, prefetch)
}
