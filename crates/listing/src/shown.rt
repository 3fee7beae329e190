// What is shown of an instruction: its name and its operands.
ghost use Rattle.std.specs.Prelude.{◌≡◌};
ghost use Rattle.instruction.specs.Code.{code};
ghost use Rattle.listing.specs.Listing.{operands_of};
ghost use Rattle.listing.specs.Names.{name_text};
ghost use Rattle.listing.specs.Shown.{name_in, operands_in};

use crate::operand::Operand;
use Operand::*;
use Shown::{Bare, One, Two};
use instruction::Instruction;

#[derive(Clone, Copy)]
pub(crate) enum Shown {
    Bare(&'static [u8]),
    One(&'static [u8], Operand),
    Two(&'static [u8], Operand, Operand),
}

// One match, an arm an instruction, in the order of the enum. `w` is its first word.
#[tactic(auto, unfolding(crate::specs::Listing::operands_of))]
pub(crate) fn shown_of(op: Instruction, w: u16) -> Shown
    ensures name { name_in result ≡ name_text (code op).0 }
    ensures operands { operands_in result ≡ operands_of w op }
{
    match op {
        Instruction::ADC { d, r } => Two(b"ADC", Register(d), Register(r)),
        Instruction::ADD { d, r } => Two(b"ADD", Register(d), Register(r)),
        Instruction::ADIW { d, K } => Two(b"ADIW", Pair(d), Byte(K)),
        Instruction::AND { d, r } => Two(b"AND", Register(d), Register(r)),
        Instruction::ANDI { d, K } => Two(b"ANDI", Register(d), Byte(K)),
        Instruction::ASR { d } => One(b"ASR", Register(d)),
        Instruction::BCLR { s } => One(b"BCLR", Number(s)),
        Instruction::BLD { d, b } => Two(b"BLD", Register(d), Number(b)),
        Instruction::BRBC { s, k } => Two(b"BRBC", Number(s), Branch(k)),
        Instruction::BRBS { s, k } => Two(b"BRBS", Number(s), Branch(k)),
        Instruction::BREAK => Bare(b"BREAK"),
        Instruction::BSET { s } => One(b"BSET", Number(s)),
        Instruction::BST { d, b } => Two(b"BST", Register(d), Number(b)),
        Instruction::CALL { k } => One(b"CALL", Target(k)),
        Instruction::CBI { A, b } => Two(b"CBI", Byte(A), Number(b)),
        Instruction::COM { d } => One(b"COM", Register(d)),
        Instruction::CP { d, r } => Two(b"CP", Register(d), Register(r)),
        Instruction::CPC { d, r } => Two(b"CPC", Register(d), Register(r)),
        Instruction::CPI { d, K } => Two(b"CPI", Register(d), Byte(K)),
        Instruction::CPSE { d, r } => Two(b"CPSE", Register(d), Register(r)),
        Instruction::DEC { d } => One(b"DEC", Register(d)),
        Instruction::EOR { d, r } => Two(b"EOR", Register(d), Register(r)),
        Instruction::FMUL { d, r } => Two(b"FMUL", Register(d), Register(r)),
        Instruction::FMULS { d, r } => Two(b"FMULS", Register(d), Register(r)),
        Instruction::FMULSU { d, r } => Two(b"FMULSU", Register(d), Register(r)),
        Instruction::ICALL => Bare(b"ICALL"),
        Instruction::IJMP => Bare(b"IJMP"),
        Instruction::IN { d, A } => Two(b"IN", Register(d), Byte(A)),
        Instruction::INC { d } => One(b"INC", Register(d)),
        Instruction::JMP { k } => One(b"JMP", Target(k)),
        Instruction::LDX { d } => Two(b"LD", Register(d), X),
        Instruction::LDXinc { d } => Two(b"LD", Register(d), XInc),
        Instruction::LDXdec { d } => Two(b"LD", Register(d), XDec),
        Instruction::LDYinc { d } => Two(b"LD", Register(d), YInc),
        Instruction::LDYdec { d } => Two(b"LD", Register(d), YDec),
        Instruction::LDZinc { d } => Two(b"LD", Register(d), ZInc),
        Instruction::LDZdec { d } => Two(b"LD", Register(d), ZDec),
        Instruction::LDDY { d, q } => Two(b"LDD", Register(d), YPlus(q)),
        Instruction::LDDZ { d, q } => Two(b"LDD", Register(d), ZPlus(q)),
        Instruction::LDI { d, K } => Two(b"LDI", Register(d), Byte(K)),
        Instruction::LDS { d, k } => Two(b"LDS", Register(d), Word(k)),
        Instruction::LPM => Bare(b"LPM"),
        Instruction::LPMZ { d } => Two(b"LPM", Register(d), Z),
        Instruction::LPMZinc { d } => Two(b"LPM", Register(d), ZInc),
        Instruction::LSL { d } => One(b"LSL", Register(d)),
        Instruction::LSR { d } => One(b"LSR", Register(d)),
        Instruction::MOV { d, r } => Two(b"MOV", Register(d), Register(r)),
        Instruction::MOVW { d, r } => Two(b"MOVW", Pair(d), Pair(r)),
        Instruction::MUL { d, r } => Two(b"MUL", Register(d), Register(r)),
        Instruction::MULS { d, r } => Two(b"MULS", Register(d), Register(r)),
        Instruction::MULSU { d, r } => Two(b"MULSU", Register(d), Register(r)),
        Instruction::NEG { d } => One(b"NEG", Register(d)),
        Instruction::NOP => Bare(b"NOP"),
        Instruction::OR { d, r } => Two(b"OR", Register(d), Register(r)),
        Instruction::ORI { d, K } => Two(b"ORI", Register(d), Byte(K)),
        Instruction::OUT { A, r } => Two(b"OUT", Byte(A), Register(r)),
        Instruction::POP { d } => One(b"POP", Register(d)),
        Instruction::PUSH { d } => One(b"PUSH", Register(d)),
        Instruction::RCALL { k } => One(b"RCALL", Relative(k)),
        Instruction::RET => Bare(b"RET"),
        Instruction::RETI => Bare(b"RETI"),
        Instruction::RJMP { k } => One(b"RJMP", Relative(k)),
        Instruction::ROR { d } => One(b"ROR", Register(d)),
        Instruction::SBC { d, r } => Two(b"SBC", Register(d), Register(r)),
        Instruction::SBCI { d, K } => Two(b"SBCI", Register(d), Byte(K)),
        Instruction::SBI { A, b } => Two(b"SBI", Byte(A), Number(b)),
        Instruction::SBIC { A, b } => Two(b"SBIC", Byte(A), Number(b)),
        Instruction::SBIS { A, b } => Two(b"SBIS", Byte(A), Number(b)),
        Instruction::SBIW { d, K } => Two(b"SBIW", Pair(d), Byte(K)),
        Instruction::SBRC { r, b } => Two(b"SBRC", Register(r), Number(b)),
        Instruction::SBRS { r, b } => Two(b"SBRS", Register(r), Number(b)),
        Instruction::SLEEP => Bare(b"SLEEP"),
        Instruction::STX { r } => Two(b"ST", X, Register(r)),
        Instruction::STXdec { r } => Two(b"ST", XDec, Register(r)),
        Instruction::STXinc { r } => Two(b"ST", XInc, Register(r)),
        Instruction::STYdec { r } => Two(b"ST", YDec, Register(r)),
        Instruction::STYinc { r } => Two(b"ST", YInc, Register(r)),
        Instruction::STZdec { r } => Two(b"ST", ZDec, Register(r)),
        Instruction::STZinc { r } => Two(b"ST", ZInc, Register(r)),
        Instruction::STDY { q, r } => Two(b"STD", YPlus(q), Register(r)),
        Instruction::STDZ { q, r } => Two(b"STD", ZPlus(q), Register(r)),
        Instruction::STS { k, r } => Two(b"STS", Word(k), Register(r)),
        Instruction::SUB { d, r } => Two(b"SUB", Register(d), Register(r)),
        Instruction::SUBI { d, K } => Two(b"SUBI", Register(d), Byte(K)),
        Instruction::SWAP { d } => One(b"SWAP", Register(d)),
        Instruction::WDR => Bare(b"WDR"),
        Instruction::UNDEF => One(b".word", Word(w)),
    }
}
