// What the theorems assume of cores and slices holds of every one by its type: each function here takes any, hands nothing back, and ensures it.
#![tactic(auto)]

ghost use Rattle.std.specs.Prelude.{◌≤◌};
ghost use Rattle.basis.specs.Bytes.{Bytes};
ghost use Rattle.cores.specs.State.{Sound};

use cores::Core;

// A lent slice, the empty one too.
pub fn slice(bytes: &[u8])
    ensures { Bytes bytes.now }
{
    if !bytes.is_empty() {
        let _ = bytes[0];
    }
}

// A core. Its busy is of 8 bits, and 01 refuses a tick where it is above 4.
pub fn core(core: Core)
    ensures { core.busy ≤ 4 → Sound core }
{
    slice(&core.regs);
}
