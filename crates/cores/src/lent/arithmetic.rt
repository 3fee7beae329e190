// ARITHMETIC INSTRUCTIONS over lent registers, in the order of cores.rs.
ghost use Rattle.std.specs.Prelude.{◌≡◌};
ghost use Rattle.cores.specs.State.{with_chip};
ghost use Rattle.cores.specs.Lent.{lent};
ghost use Rattle.cores.specs.Arithmetic.{
  summed,
  resulted,
  adc_of,
  add_of,
  adiw_of,
  and_of,
  com_of,
  dec_of,
  eor_of,
  inc_of,
  neg_of,
  or_of,
  sbc_of,
  sbiw_of,
  sub_of,
};

use crate::Core;
use crate::lent::{flags, put_word};
use alu::Sum;

// A sum or a difference into Rd, with its six flags.
fn put_sum(regs: &mut [u8], d: u8, R: Sum, Z: bool, sreg: u8) -> u8
    ensures value { result ≡ (summed (lent regs.old sreg) d R Z).sreg }
    ensures regs_after { regs.new ≡ (summed (lent regs.old sreg) d R Z).regs }
{
    memory::write(regs, d as usize, R.value);
    flags::of_sum(sreg, R, Z)
}

// A byte into Rd, with Z, N, V and S.
fn put_result(regs: &mut [u8], d: u8, R: u8, V: bool, sreg: u8) -> u8
    ensures value { result ≡ (resulted (lent regs.old sreg) d R «V»).sreg }
    ensures regs_after { regs.new ≡ (resulted (lent regs.old sreg) d R «V»).regs }
{
    memory::write(regs, d as usize, R);
    flags::znvs(sreg, R == 0, R >= 128, V)
}

pub fn adc(regs: &mut [u8], d: u8, r: u8, sreg: u8) -> u8
    ensures value { result ≡ (adc_of (lent regs.old sreg) d r).sreg }
    ensures regs_after { regs.new ≡ (adc_of (lent regs.old sreg) d r).regs }
{
    // Rd <- Rd + Rr + C
    let Rd = memory::read(regs, d as usize);
    let Rr = memory::read(regs, r as usize);
    let R = alu::plus(Rd, Rr, basis::bit(sreg, Core::C));
    put_sum(regs, d, R, R.value == 0, sreg)
}

pub fn add(regs: &mut [u8], d: u8, r: u8, sreg: u8) -> u8
    ensures value { result ≡ (add_of (lent regs.old sreg) d r).sreg }
    ensures regs_after { regs.new ≡ (add_of (lent regs.old sreg) d r).regs }
{
    // Rd <- Rd + Rr
    let Rd = memory::read(regs, d as usize);
    let Rr = memory::read(regs, r as usize);
    let R = alu::plus(Rd, Rr, false);
    put_sum(regs, d, R, R.value == 0, sreg)
}

// The rule is the core's.
pub fn adiw(regs: &mut [u8], d: u8, K: u8, sreg: u8, chip: bool) -> u8
    ensures value { result ≡ (adiw_of (with_chip (lent regs.old sreg) chip) d K).sreg }
    ensures regs_after { regs.new ≡ (adiw_of (with_chip (lent regs.old sreg) chip) d K).regs }
{
    // R[d+1]:Rd <- R[d+1]:Rd + K
    let Rd_hl = memory::read_word(regs, d as usize);
    let R_hl = alu::plus_word(Rd_hl, K);
    let N = R_hl.value >= 32768;
    let V = rule::old_bit_clear(chip, Rd_hl) & N;
    put_word(regs, d, R_hl.value);
    flags::cznvs(sreg, R_hl.carry, R_hl.value == 0, N, V)
}

pub fn and(regs: &mut [u8], d: u8, b: u8, sreg: u8) -> u8
    ensures value { result ≡ (and_of (lent regs.old sreg) d b).sreg }
    ensures regs_after { regs.new ≡ (and_of (lent regs.old sreg) d b).regs }
{
    // Rd <- Rd & b
    let Rd = memory::read(regs, d as usize);
    put_result(regs, d, Rd & b, false, sreg)
}

pub fn com(regs: &mut [u8], d: u8, sreg: u8) -> u8
    ensures value { result ≡ (com_of (lent regs.old sreg) d).sreg }
    ensures regs_after { regs.new ≡ (com_of (lent regs.old sreg) d).regs }
{
    // Rd <- 0xFF - Rd
    let R = 255 - memory::read(regs, d as usize);
    memory::write(regs, d as usize, R);
    flags::cznvs(sreg, true, R == 0, R >= 128, false)
}

pub fn dec(regs: &mut [u8], d: u8, sreg: u8) -> u8
    ensures value { result ≡ (dec_of (lent regs.old sreg) d).sreg }
    ensures regs_after { regs.new ≡ (dec_of (lent regs.old sreg) d).regs }
{
    // Rd <- Rd - 1
    let Rd = memory::read(regs, d as usize);
    let R = Rd.wrapping_sub(1);
    put_result(regs, d, R, Rd == 0x80, sreg)
}

pub fn eor(regs: &mut [u8], d: u8, b: u8, sreg: u8) -> u8
    ensures value { result ≡ (eor_of (lent regs.old sreg) d b).sreg }
    ensures regs_after { regs.new ≡ (eor_of (lent regs.old sreg) d b).regs }
{
    // Rd <- Rd ^ b
    let Rd = memory::read(regs, d as usize);
    put_result(regs, d, Rd ^ b, false, sreg)
}

pub fn inc(regs: &mut [u8], d: u8, sreg: u8) -> u8
    ensures value { result ≡ (inc_of (lent regs.old sreg) d).sreg }
    ensures regs_after { regs.new ≡ (inc_of (lent regs.old sreg) d).regs }
{
    // Rd <- Rd + 1
    let Rd = memory::read(regs, d as usize);
    let R = Rd.wrapping_add(1);
    put_result(regs, d, R, Rd == 0x7F, sreg)
}

pub fn neg(regs: &mut [u8], d: u8, sreg: u8) -> u8
    ensures value { result ≡ (neg_of (lent regs.old sreg) d).sreg }
    ensures regs_after { regs.new ≡ (neg_of (lent regs.old sreg) d).regs }
{
    // Rd <- ~Rd + 1
    let Rd = memory::read(regs, d as usize);
    let R = Rd.wrapping_neg();
    let H = basis::bit(R, 3) | basis::bit(Rd, 3);
    memory::write(regs, d as usize, R);
    flags::cznvsh(sreg, R != 0, R == 0, R >= 128, R == 0x80, H)
}

pub fn or(regs: &mut [u8], d: u8, b: u8, sreg: u8) -> u8
    ensures value { result ≡ (or_of (lent regs.old sreg) d b).sreg }
    ensures regs_after { regs.new ≡ (or_of (lent regs.old sreg) d b).regs }
{
    // Rd <- Rd | b
    let Rd = memory::read(regs, d as usize);
    put_result(regs, d, Rd | b, false, sreg)
}

pub fn sbc(regs: &mut [u8], d: u8, b: u8, sreg: u8) -> u8
    ensures value { result ≡ (sbc_of (lent regs.old sreg) d b).sreg }
    ensures regs_after { regs.new ≡ (sbc_of (lent regs.old sreg) d b).regs }
{
    // Rd <- Rd - b - C
    let Rd = memory::read(regs, d as usize);
    let R = alu::minus(Rd, b, basis::bit(sreg, Core::C));
    let Z = basis::bit(sreg, Core::Z) & (R.value == 0);
    put_sum(regs, d, R, Z, sreg)
}

pub fn sbiw(regs: &mut [u8], d: u8, K: u8, sreg: u8) -> u8
    ensures value { result ≡ (sbiw_of (lent regs.old sreg) d K).sreg }
    ensures regs_after { regs.new ≡ (sbiw_of (lent regs.old sreg) d K).regs }
{
    // R[d+1]:Rd <- R[d+1]:Rd - K
    let Rd_hl = memory::read_word(regs, d as usize);
    let R_hl = alu::minus_word(Rd_hl, K);
    let V = (Rd_hl >= 32768) & (R_hl.value < 32768);
    put_word(regs, d, R_hl.value);
    flags::cznvs(sreg, R_hl.carry, R_hl.value == 0, R_hl.value >= 32768, V)
}

pub fn sub(regs: &mut [u8], d: u8, b: u8, sreg: u8) -> u8
    ensures value { result ≡ (sub_of (lent regs.old sreg) d b).sreg }
    ensures regs_after { regs.new ≡ (sub_of (lent regs.old sreg) d b).regs }
{
    // Rd <- Rd - b
    let Rd = memory::read(regs, d as usize);
    let R = alu::minus(Rd, b, false);
    put_sum(regs, d, R, R.value == 0, sreg)
}
