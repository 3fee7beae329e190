// Comparisons over lent registers, in the order of cores.rs. They write no register.
ghost use Rattle.std.specs.Prelude.{◌≡◌};
ghost use Rattle.cores.specs.Lent.{lent};
ghost use Rattle.cores.specs.Flow.{cp_of, cpc_of};

use crate::Core;
use crate::lent::flags;

pub fn cp(regs: &[u8], d: u8, b: u8, sreg: u8) -> u8
    ensures { result ≡ (cp_of (lent regs.now sreg) d b).sreg }
{
    // Rd - b
    let Rd = memory::read(regs, d as usize);
    let R = alu::minus(Rd, b, false);
    flags::of_sum(sreg, R, R.value == 0)
}

pub fn cpc(regs: &[u8], d: u8, b: u8, sreg: u8) -> u8
    ensures { result ≡ (cpc_of (lent regs.now sreg) d b).sreg }
{
    // Rd - b - C
    let Rd = memory::read(regs, d as usize);
    let R = alu::minus(Rd, b, basis::bit(sreg, Core::C));
    let Z = basis::bit(sreg, Core::Z) & (R.value == 0);
    flags::of_sum(sreg, R, Z)
}
