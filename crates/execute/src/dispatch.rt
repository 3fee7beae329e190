// What each instruction does: the arms of the Rust's `Core::tick`, in its order.
ghost use Rattle.std.specs.Prelude.{◌≡◌};
ghost use Rattle.instruction.specs.Decode.{decode_of};
ghost use Rattle.cores.specs.State.{Leaves};
ghost use Rattle.execute.specs.Execute.{behind, executed, effect_of, done_of};

use crate::Done;
use cores::{Core, pointer};
use instruction::Instruction;

pub fn execute(core: Core, op: Instruction, program: &[u8], data: &mut [u8]) -> Core
    ensures { Leaves (effect_of (executed decode_of (behind core) op program.now «data».old)) result «data».new }
{
    effect(crate::behind(core), op, program, data)
}

// The core and the data after an instruction, from behind its first word.
fn effect(core: Core, op: Instruction, program: &[u8], data: &mut [u8]) -> Core
    ensures { Leaves (effect_of (executed decode_of core op program.now «data».old)) result «data».new }
{
    match op {
        // Arithmetic and Logic Instructions
        Instruction::ADC { d, r } => core.adc(d, r),
        Instruction::ADD { d, r } => core.add(d, r),
        Instruction::ADIW { d, K } => core.adiw(d, K),
        Instruction::AND { d, r } => core.and(d, r),
        Instruction::ANDI { d, K } => core.andi(d, K),
        Instruction::COM { d } => core.com(d),
        Instruction::DEC { d } => core.dec(d),
        Instruction::EOR { d, r } => core.eor(d, r),
        Instruction::FMUL { d, r } => core.fmul(d, r),
        Instruction::FMULS { d, r } => core.fmuls(d, r),
        Instruction::FMULSU { d, r } => core.fmulsu(d, r),
        Instruction::INC { d } => core.inc(d),
        Instruction::MUL { d, r } => core.mul(d, r),
        Instruction::MULS { d, r } => core.muls(d, r),
        Instruction::MULSU { d, r } => core.mulsu(d, r),
        Instruction::NEG { d } => core.neg(d),
        Instruction::OR { d, r } => core.or(d, r),
        Instruction::ORI { d, K } => core.ori(d, K),
        Instruction::SBC { d, r } => core.sbc(d, r),
        Instruction::SBCI { d, K } => core.sbci(d, K),
        Instruction::SBIW { d, K } => core.sbiw(d, K),
        Instruction::SUB { d, r } => core.sub(d, r),
        Instruction::SUBI { d, K } => core.subi(d, K),
        // Change of Flow Instructions
        Instruction::BRBC { s, k } => core.brbx(s, k, false),
        Instruction::BRBS { s, k } => core.brbx(s, k, true),
        Instruction::CALL { k } => core.call(k, data),
        Instruction::CP { d, r } => core.cp(d, r),
        Instruction::CPC { d, r } => core.cpc(d, r),
        Instruction::CPI { d, K } => core.cpi(d, K),
        Instruction::CPSE { d, r } => core.cpse(d, r, program),
        Instruction::ICALL => core.icall(data),
        Instruction::IJMP => core.ijmp(),
        Instruction::JMP { k } => core.jmp(k),
        Instruction::RCALL { k } => core.rcall(k, data),
        Instruction::RET => core.ret(data),
        Instruction::RETI => core.reti(data),
        Instruction::RJMP { k } => core.rjmp(k),
        Instruction::SBIC { A, b } => core.sbix(A, b, false, program, data),
        Instruction::SBIS { A, b } => core.sbix(A, b, true, program, data),
        Instruction::SBRC { r, b } => core.sbrx(r, b, false, program),
        Instruction::SBRS { r, b } => core.sbrx(r, b, true, program),
        // Data Transfer Instructions
        Instruction::IN { d, A } => core.in_(d, A, data),
        Instruction::LDX { d } => core.ld(d, pointer::X, 0, false, false, data),
        Instruction::LDXinc { d } => core.ld(d, pointer::X, 0, false, true, data),
        Instruction::LDXdec { d } => core.ld(d, pointer::X, 0, true, false, data),
        Instruction::LDYinc { d } => core.ld(d, pointer::Y, 0, false, true, data),
        Instruction::LDYdec { d } => core.ld(d, pointer::Y, 0, true, false, data),
        Instruction::LDZinc { d } => core.ld(d, pointer::Z, 0, false, true, data),
        Instruction::LDZdec { d } => core.ld(d, pointer::Z, 0, true, false, data),
        Instruction::LDDY { d, q } => core.ld(d, pointer::Y, q, false, false, data),
        Instruction::LDDZ { d, q } => core.ld(d, pointer::Z, q, false, false, data),
        Instruction::LDI { d, K } => core.ldi(d, K),
        Instruction::LDS { d, k } => core.lds(d, k, data).over_second(),
        Instruction::LPM => core.lpm(0, false, program),
        Instruction::LPMZ { d } => core.lpm(d, false, program),
        Instruction::LPMZinc { d } => core.lpm(d, true, program),
        Instruction::MOV { d, r } => core.mov(d, r),
        Instruction::MOVW { d, r } => core.movw(d, r),
        Instruction::OUT { A, r } => core.out(A, r, data),
        Instruction::POP { d } => core.pop(d, data),
        Instruction::PUSH { d } => core.push(d, data),
        Instruction::STX { r } => core.st(r, pointer::X, 0, false, false, data),
        Instruction::STXdec { r } => core.st(r, pointer::X, 0, true, false, data),
        Instruction::STXinc { r } => core.st(r, pointer::X, 0, false, true, data),
        Instruction::STYdec { r } => core.st(r, pointer::Y, 0, true, false, data),
        Instruction::STYinc { r } => core.st(r, pointer::Y, 0, false, true, data),
        Instruction::STZdec { r } => core.st(r, pointer::Z, 0, true, false, data),
        Instruction::STZinc { r } => core.st(r, pointer::Z, 0, false, true, data),
        Instruction::STDY { q, r } => core.st(r, pointer::Y, q, false, false, data),
        Instruction::STDZ { q, r } => core.st(r, pointer::Z, q, false, false, data),
        Instruction::STS { k, r } => core.sts(r, k, data).over_second(),
        // Bit and Bit-Test Instructions
        Instruction::ASR { d } => core.asr(d),
        Instruction::BCLR { s } => core.bclr(s),
        Instruction::BLD { d, b } => core.bld(d, b),
        Instruction::BSET { s } => core.bset(s),
        Instruction::BST { d, b } => core.bst(d, b),
        Instruction::CBI { A, b } => core.cbi(A, b, data),
        Instruction::LSL { d } => core.add(d, d), // never decoded: it lies under ADD
        Instruction::LSR { d } => core.lsr(d),
        Instruction::ROR { d } => core.ror(d),
        Instruction::SBI { A, b } => core.sbi(A, b, data),
        Instruction::SWAP { d } => core.swap(d),
        // MCU Control Instructions
        Instruction::BREAK => core,
        Instruction::NOP => core,
        Instruction::SLEEP => core,
        Instruction::WDR => core,
        // Undefined
        Instruction::UNDEF => core,
    }
}

// What it answers. One test after another, where a single match would be a jump table that the compiler leaves in a call of its own.
pub fn done_by(op: Instruction) -> Done
    ensures { result ≡ done_of op }
{
    if matches!(op, Instruction::SLEEP) {
        return Done::Sleep;
    }
    if matches!(op, Instruction::WDR) {
        return Done::Watchdog;
    }
    if matches!(op, Instruction::UNDEF) {
        return Done::Undefined;
    }
    if matches!(op, Instruction::BREAK) {
        return Done::Break;
    }
    Done::Ran
}
