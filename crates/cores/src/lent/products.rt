// The products of the ARITHMETIC INSTRUCTIONS over lent registers, in the order of cores.rs.
ghost use Rattle.std.specs.Prelude.{◌≡◌, ◌==◌};
ghost use Rattle.alu.specs.Alu.{signed_of};
ghost use Rattle.cores.specs.State.{reg, with_word, cz};
ghost use Rattle.cores.specs.Lent.{holding, lent};
ghost use Rattle.cores.specs.Arithmetic.{fmul_of, fmuls_of, fmulsu_of, mul_of, muls_of, mulsu_of};

use crate::lent::{flags, put_word};

// R1:R0 <- value, with Z, and with C given.
fn put_product(regs: &mut [u8], value: u16, C: bool, sreg: u8) -> u8
    ensures value { result ≡ cz sreg C (value == 0) }
    ensures regs_after { regs.new ≡ (with_word (holding regs.old) 0 value).regs }
{
    put_word(regs, 0, value);
    flags::cz(sreg, C, value == 0)
}

// Rd as a factor without a sign
fn unsigned(regs: &[u8], d: u8) -> u16
    ensures { result ≡ reg (holding regs.now) d }
{
    memory::read(regs, d as usize) as u16
}

// Rd as a factor with one
fn signed(regs: &[u8], d: u8) -> u16
    ensures { result ≡ signed_of (reg (holding regs.now) d) }
{
    alu::signed(memory::read(regs, d as usize))
}

pub fn fmul(regs: &mut [u8], d: u8, r: u8, sreg: u8) -> u8
    ensures value { result ≡ (fmul_of (lent regs.old sreg) d r).sreg }
    ensures regs_after { regs.new ≡ (fmul_of (lent regs.old sreg) d r).regs }
{
    // R1:R0 (unsigned) <- Rd (unsigned) x Rr (unsigned) << 1
    let word = alu::product(unsigned(regs, d), unsigned(regs, r));
    put_product(regs, alu::doubled(word), word >= 32768, sreg)
}

pub fn fmuls(regs: &mut [u8], d: u8, r: u8, sreg: u8) -> u8
    ensures value { result ≡ (fmuls_of (lent regs.old sreg) d r).sreg }
    ensures regs_after { regs.new ≡ (fmuls_of (lent regs.old sreg) d r).regs }
{
    // R1:R0 (signed) <- Rd (signed) x Rr (signed) << 1
    let word = alu::product(signed(regs, d), signed(regs, r));
    put_product(regs, alu::doubled(word), word >= 32768, sreg)
}

pub fn fmulsu(regs: &mut [u8], d: u8, r: u8, sreg: u8) -> u8
    ensures value { result ≡ (fmulsu_of (lent regs.old sreg) d r).sreg }
    ensures regs_after { regs.new ≡ (fmulsu_of (lent regs.old sreg) d r).regs }
{
    // R1:R0 (signed) <- Rd (signed) x Rr (unsigned) << 1
    let word = alu::product(signed(regs, d), unsigned(regs, r));
    put_product(regs, alu::doubled(word), word >= 32768, sreg)
}

pub fn mul(regs: &mut [u8], d: u8, r: u8, sreg: u8) -> u8
    ensures value { result ≡ (mul_of (lent regs.old sreg) d r).sreg }
    ensures regs_after { regs.new ≡ (mul_of (lent regs.old sreg) d r).regs }
{
    // R1:R0 (unsigned) <- Rd (unsigned) x Rr (unsigned)
    let word = alu::product(unsigned(regs, d), unsigned(regs, r));
    put_product(regs, word, word >= 32768, sreg)
}

pub fn muls(regs: &mut [u8], d: u8, r: u8, sreg: u8) -> u8
    ensures value { result ≡ (muls_of (lent regs.old sreg) d r).sreg }
    ensures regs_after { regs.new ≡ (muls_of (lent regs.old sreg) d r).regs }
{
    // R1:R0 (signed) <- Rd (signed) x Rr (signed)
    let word = alu::product(signed(regs, d), signed(regs, r));
    put_product(regs, word, word >= 32768, sreg)
}

pub fn mulsu(regs: &mut [u8], d: u8, r: u8, sreg: u8) -> u8
    ensures value { result ≡ (mulsu_of (lent regs.old sreg) d r).sreg }
    ensures regs_after { regs.new ≡ (mulsu_of (lent regs.old sreg) d r).regs }
{
    // R1:R0 (signed) <- Rd (signed) x Rr (unsigned)
    let word = alu::product(signed(regs, d), unsigned(regs, r));
    put_product(regs, word, word >= 32768, sreg)
}
