// SREG with a group of its flags new, from a byte to a byte. S goes with N and V.
ghost use Rattle.std.specs.Prelude.{◌≡◌};
ghost use Rattle.alu.specs.Alu.{negative};
ghost use Rattle.cores.specs.State.{cz, znvs, cznvs, cznvsh};

use crate::Core;
use alu::Sum;

#[tactic(auto, unfolding(crate::specs::State::cz))]
pub(crate) fn cz(sreg: u8, C: bool, Z: bool) -> u8
    ensures { result ≡ cz sreg C Z }
{
    basis::with_bit(basis::with_bit(sreg, Core::C, C), Core::Z, Z)
}

#[tactic(auto, unfolding(crate::specs::State::znvs))]
pub(crate) fn znvs(sreg: u8, Z: bool, N: bool, V: bool) -> u8
    ensures { result ≡ znvs sreg Z N «V» }
{
    let z = basis::with_bit(sreg, Core::Z, Z);
    let n = basis::with_bit(z, Core::N, N);
    let v = basis::with_bit(n, Core::V, V);
    basis::with_bit(v, Core::S, N != V)
}

#[tactic(auto, unfolding(crate::specs::State::cznvs))]
pub(crate) fn cznvs(sreg: u8, C: bool, Z: bool, N: bool, V: bool) -> u8
    ensures { result ≡ cznvs sreg C Z N «V» }
{
    znvs(basis::with_bit(sreg, Core::C, C), Z, N, V)
}

#[tactic(auto, unfolding(crate::specs::State::cznvsh))]
pub(crate) fn cznvsh(sreg: u8, C: bool, Z: bool, N: bool, V: bool, H: bool) -> u8
    ensures { result ≡ cznvsh sreg C Z N «V» H }
{
    basis::with_bit(cznvs(sreg, C, Z, N, V), Core::H, H)
}

// The six flags of a sum or a difference.
pub(crate) fn of_sum(sreg: u8, R: Sum, Z: bool) -> u8
    ensures { result ≡ cznvsh sreg R.carry Z (negative R.value) R.overflow R.half }
{
    cznvsh(sreg, R.carry, Z, R.value >= 128, R.overflow, R.half)
}
