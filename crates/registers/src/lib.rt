// 01's register-only list, carried out on lent registers by W3's handlers.
#![tactic(auto)]

ghost use Rattle.std.specs.Prelude.{◌≡◌, List};
ghost use Rattle.registers.specs.Registers.{Changes};

use cores::lent::{arithmetic, bits, flow, products, put_word};
use forms::fields::*;
use forms::form::*;

// What such an instruction changes beside the registers.
#[derive(Clone, Copy)]
pub struct Changed {
    pub sreg: u8,
    pub busy: u8,
    pub inhibit: bool,
}

// The instruction of a form, by its word. In the order of the Rust's `tick`; NOP and whatever is not on the list change nothing.
pub fn change(
    form: u8,
    opcode: u16,
    regs: &mut [u8],
    sreg0: u8,
    inhibit0: bool,
    chip: bool,
) -> Changed
    ensures { Changes form opcode regs.old sreg0 inhibit0 chip result regs.new }
{
    let mut sreg = sreg0;
    let mut busy: u8 = 0;
    let mut inhibit = inhibit0;
    match form {
        // Arithmetic and Logic Instructions
        ADC => sreg = arithmetic::adc(regs, d5(opcode), r5(opcode), sreg),
        ADD => sreg = arithmetic::add(regs, d5(opcode), r5(opcode), sreg),
        ADIW => {
            sreg = arithmetic::adiw(regs, d2(opcode), K6(opcode), sreg, chip);
            busy = 1;
        }
        AND => sreg = arithmetic::and(
            regs,
            d5(opcode),
            memory::read(regs, r5(opcode) as usize),
            sreg,
        ),
        ANDI => sreg = arithmetic::and(regs, d4(opcode), K8(opcode), sreg),
        COM => sreg = arithmetic::com(regs, d5(opcode), sreg),
        DEC => sreg = arithmetic::dec(regs, d5(opcode), sreg),
        EOR => sreg = arithmetic::eor(
            regs,
            d5(opcode),
            memory::read(regs, r5(opcode) as usize),
            sreg,
        ),
        FMUL => {
            sreg = products::fmul(regs, d3(opcode), r3(opcode), sreg);
            busy = 1;
        }
        FMULS => {
            sreg = products::fmuls(regs, d3(opcode), r3(opcode), sreg);
            busy = 1;
        }
        FMULSU => {
            sreg = products::fmulsu(regs, d3(opcode), r3(opcode), sreg);
            busy = 1;
        }
        INC => sreg = arithmetic::inc(regs, d5(opcode), sreg),
        MUL => {
            sreg = products::mul(regs, d5(opcode), r5(opcode), sreg);
            busy = 1;
        }
        MULS => {
            sreg = products::muls(regs, d4(opcode), r4(opcode), sreg);
            busy = 1;
        }
        MULSU => {
            sreg = products::mulsu(regs, d3(opcode), r3(opcode), sreg);
            busy = 1;
        }
        NEG => sreg = arithmetic::neg(regs, d5(opcode), sreg),
        OR => sreg = arithmetic::or(
            regs,
            d5(opcode),
            memory::read(regs, r5(opcode) as usize),
            sreg,
        ),
        ORI => sreg = arithmetic::or(regs, d4(opcode), K8(opcode), sreg),
        SBC => sreg = arithmetic::sbc(
            regs,
            d5(opcode),
            memory::read(regs, r5(opcode) as usize),
            sreg,
        ),
        SBCI => sreg = arithmetic::sbc(regs, d4(opcode), K8(opcode), sreg),
        SBIW => {
            sreg = arithmetic::sbiw(regs, d2(opcode), K6(opcode), sreg);
            busy = 1;
        }
        SUB => sreg = arithmetic::sub(
            regs,
            d5(opcode),
            memory::read(regs, r5(opcode) as usize),
            sreg,
        ),
        SUBI => sreg = arithmetic::sub(regs, d4(opcode), K8(opcode), sreg),
        // Change of Flow Instructions: the comparisons
        CP => sreg = flow::cp(
            regs,
            d5(opcode),
            memory::read(regs, r5(opcode) as usize),
            sreg,
        ),
        CPC => sreg = flow::cpc(
            regs,
            d5(opcode),
            memory::read(regs, r5(opcode) as usize),
            sreg,
        ),
        CPI => sreg = flow::cp(regs, d4(opcode), K8(opcode), sreg),
        // Data Transfer Instructions
        LDI => memory::write(regs, d4(opcode) as usize, K8(opcode)),
        MOV => memory::write(
            regs,
            d5(opcode) as usize,
            memory::read(regs, r5(opcode) as usize),
        ),
        MOVW => put_word(
            regs,
            d4_pair(opcode),
            memory::read_word(regs, r4_pair(opcode) as usize),
        ),
        // Bit and Bit-Test Instructions
        ASR => sreg = bits::asr(regs, d5(opcode), sreg),
        BCLR => sreg = basis::with_bit(sreg, s3(opcode), false),
        BLD => bits::bld(regs, d5(opcode), b3(opcode), sreg),
        BSET => {
            sreg = basis::with_bit(sreg, s3(opcode), true);
            inhibit = rule::bset_inhibits(chip, s3(opcode)) | inhibit;
        }
        BST => sreg = bits::bst(regs, d5(opcode), b3(opcode), sreg),
        LSR => sreg = bits::lsr(regs, d5(opcode), sreg),
        ROR => sreg = bits::ror(regs, d5(opcode), sreg),
        SWAP => bits::swap(regs, d5(opcode)),
        _ => {}
    }
    Changed {
        sreg,
        busy,
        inhibit,
    }
}
