// BIT MANIPULATION INSTRUCTIONS, in the order of cores.rs. Its `lsl` is never reached: the pattern lies under ADD's. `bits` is `lent`'s, over the core's registers.
ghost use Rattle.std.specs.Prelude.{◌≡◌, true, false};
ghost use Rattle.memory.specs.Memory.{bit_set_of};
ghost use Rattle.cores.specs.State.{out, Leaves};
ghost use Rattle.cores.specs.Bits.{asr_of, bclr_of, bld_of, bset_of, bst_of, lsr_of, ror_of, swap_of};

use crate::Core;
use crate::lent::bits;

impl Core {
    pub fn asr(self, d: u8) -> Core
        ensures { result ≡ asr_of self d }
    {
        let Core { mut regs, sreg, .. } = self;
        let sreg = bits::asr(&mut regs, d, sreg);
        Core { regs, sreg, ..self }
    }

    pub fn bclr(self, b: u8) -> Core
        ensures { result ≡ bclr_of self b }
    {
        self.set_sreg_bit(b, false)
    }

    pub fn bld(mut self, d: u8, b: u8) -> Core
        ensures { result ≡ bld_of self d b }
    {
        let sreg = self.sreg;
        bits::bld(&mut self.regs, d, b, sreg);
        self
    }

    // Under chip the instruction behind SEI is safe, as the one behind RETI is.
    #[tactic(auto, unfolding(crate::specs::State::with_inhibit))]
    pub fn bset(self, b: u8) -> Core
        ensures { result ≡ bset_of self b }
    {
        let mut k = self.set_sreg_bit(b, true);
        k.inhibit = rule::bset_inhibits(k.chip, b) | k.inhibit;
        k
    }

    pub fn bst(self, d: u8, bit: u8) -> Core
        ensures { result ≡ bst_of self d bit }
    {
        let Core { regs, sreg, .. } = self;
        let sreg = bits::bst(&regs, d, bit, sreg);
        Core { sreg, ..self }
    }

    // A is below 32, so the Rust's cases for SREG and SP are never reached.
    pub fn cbi(self, A: u8, b: u8, data: &mut [u8]) -> Core
        ensures { Leaves (out self (bit_set_of «data».old A b false)) result «data».new }
    {
        memory::set_bit(data, A as usize, b, false);
        self
    }

    pub fn lsr(self, d: u8) -> Core
        ensures { result ≡ lsr_of self d }
    {
        let Core { mut regs, sreg, .. } = self;
        let sreg = bits::lsr(&mut regs, d, sreg);
        Core { regs, sreg, ..self }
    }

    pub fn ror(self, d: u8) -> Core
        ensures { result ≡ ror_of self d }
    {
        let Core { mut regs, sreg, .. } = self;
        let sreg = bits::ror(&mut regs, d, sreg);
        Core { regs, sreg, ..self }
    }

    pub fn sbi(self, A: u8, b: u8, data: &mut [u8]) -> Core
        ensures { Leaves (out self (bit_set_of «data».old A b true)) result «data».new }
    {
        memory::set_bit(data, A as usize, b, true);
        self
    }

    pub fn swap(mut self, d: u8) -> Core
        ensures { result ≡ swap_of self d }
    {
        bits::swap(&mut self.regs, d);
        self
    }
}
