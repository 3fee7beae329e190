// BIT MANIPULATION INSTRUCTIONS over lent registers, in the order of cores.rs.
ghost use Rattle.std.specs.Prelude.{◌≡◌};
ghost use Rattle.cores.specs.Lent.{holding, lent};
ghost use Rattle.cores.specs.Bits.{shifted, asr_of, bld_of, bst_of, lsr_of, ror_of, swap_of};

use crate::Core;
use crate::lent::flags;

// Rd one to the right, with a new bit 7.
fn shift(regs: &mut [u8], d: u8, top: bool, sreg: u8) -> u8
    ensures value { result ≡ (shifted (lent regs.old sreg) d top).sreg }
    ensures regs_after { regs.new ≡ (shifted (lent regs.old sreg) d top).regs }
{
    let Rd = memory::read(regs, d as usize);
    let R = alu::halved(Rd, top);
    let C = basis::bit(Rd, 0);
    let N = R >= 128;
    memory::write(regs, d as usize, R);
    flags::cznvs(sreg, C, R == 0, N, N != C)
}

pub fn asr(regs: &mut [u8], d: u8, sreg: u8) -> u8
    ensures value { result ≡ (asr_of (lent regs.old sreg) d).sreg }
    ensures regs_after { regs.new ≡ (asr_of (lent regs.old sreg) d).regs }
{
    let Rd = memory::read(regs, d as usize);
    shift(regs, d, Rd >= 128, sreg)
}

// T of SREG into a bit of Rd.
pub fn bld(regs: &mut [u8], d: u8, b: u8, sreg: u8)
    ensures { regs.new ≡ (bld_of (lent regs.old sreg) d b).regs }
{
    let Rd = memory::read(regs, d as usize);
    let T = basis::bit(sreg, Core::T);
    memory::write(regs, d as usize, basis::with_bit(Rd, b, T));
}

pub fn bst(regs: &[u8], d: u8, b: u8, sreg: u8) -> u8
    ensures { result ≡ (bst_of (lent regs.now sreg) d b).sreg }
{
    let Rd = memory::read(regs, d as usize);
    basis::with_bit(sreg, Core::T, basis::bit(Rd, b))
}

pub fn lsr(regs: &mut [u8], d: u8, sreg: u8) -> u8
    ensures value { result ≡ (lsr_of (lent regs.old sreg) d).sreg }
    ensures regs_after { regs.new ≡ (lsr_of (lent regs.old sreg) d).regs }
{
    shift(regs, d, false, sreg)
}

pub fn ror(regs: &mut [u8], d: u8, sreg: u8) -> u8
    ensures value { result ≡ (ror_of (lent regs.old sreg) d).sreg }
    ensures regs_after { regs.new ≡ (ror_of (lent regs.old sreg) d).regs }
{
    shift(regs, d, basis::bit(sreg, Core::C), sreg)
}

#[tactic(auto, using(crate::proofs::Swapped::swapped), unfolding(crate::specs::State::with_regs, crate::specs::State::with_reg))]
pub fn swap(regs: &mut [u8], d: u8)
    ensures { regs.new ≡ (swap_of (holding regs.old) d).regs }
{
    let Rd = memory::read(regs, d as usize);
    memory::write(regs, d as usize, Rd.rotate_left(4));
}
