// ARITHMETIC INSTRUCTIONS, in the order of cores.rs: a core's registers are lent to `lent`'s handler, which gives SREG anew.
ghost use Rattle.std.specs.Prelude.{◌≡◌};
ghost use Rattle.cores.specs.State.{reg};
ghost use Rattle.cores.specs.Arithmetic.{
  adc_of,
  add_of,
  adiw_of,
  and_of,
  com_of,
  dec_of,
  eor_of,
  fmul_of,
  fmuls_of,
  fmulsu_of,
  inc_of,
  mul_of,
  muls_of,
  mulsu_of,
  neg_of,
  or_of,
  sbc_of,
  sbiw_of,
  sub_of,
};

use crate::Core;
use crate::lent::{arithmetic, products};

impl Core {
    pub fn adc(self, d: u8, r: u8) -> Core
        ensures { result ≡ adc_of self d r }
    {
        let Core { mut regs, sreg, .. } = self;
        let sreg = arithmetic::adc(&mut regs, d, r, sreg);
        Core { regs, sreg, ..self }
    }

    pub fn add(self, d: u8, r: u8) -> Core
        ensures { result ≡ add_of self d r }
    {
        let Core { mut regs, sreg, .. } = self;
        let sreg = arithmetic::add(&mut regs, d, r, sreg);
        Core { regs, sreg, ..self }
    }

    pub fn adiw(mut self, d: u8, K: u8) -> Core
        ensures { result ≡ adiw_of self d K }
    {
        self.busy = 1;
        let Core { mut regs, sreg, .. } = self;
        let sreg = arithmetic::adiw(&mut regs, d, K, sreg, self.chip);
        Core { regs, sreg, ..self }
    }

    pub fn and(self, d: u8, r: u8) -> Core
        ensures { result ≡ and_of self d (reg self r) }
    {
        self.andi(d, self.get_register(r))
    }

    pub fn andi(self, d: u8, K: u8) -> Core
        ensures { result ≡ and_of self d K }
    {
        let Core { mut regs, sreg, .. } = self;
        let sreg = arithmetic::and(&mut regs, d, K, sreg);
        Core { regs, sreg, ..self }
    }

    pub fn com(self, d: u8) -> Core
        ensures { result ≡ com_of self d }
    {
        let Core { mut regs, sreg, .. } = self;
        let sreg = arithmetic::com(&mut regs, d, sreg);
        Core { regs, sreg, ..self }
    }

    pub fn dec(self, d: u8) -> Core
        ensures { result ≡ dec_of self d }
    {
        let Core { mut regs, sreg, .. } = self;
        let sreg = arithmetic::dec(&mut regs, d, sreg);
        Core { regs, sreg, ..self }
    }

    pub fn eor(self, d: u8, r: u8) -> Core
        ensures { result ≡ eor_of self d (reg self r) }
    {
        let Rr = self.get_register(r);
        let Core { mut regs, sreg, .. } = self;
        let sreg = arithmetic::eor(&mut regs, d, Rr, sreg);
        Core { regs, sreg, ..self }
    }

    pub fn fmul(mut self, d: u8, r: u8) -> Core
        ensures { result ≡ fmul_of self d r }
    {
        self.busy = 1;
        let Core { mut regs, sreg, .. } = self;
        let sreg = products::fmul(&mut regs, d, r, sreg);
        Core { regs, sreg, ..self }
    }

    pub fn fmuls(mut self, d: u8, r: u8) -> Core
        ensures { result ≡ fmuls_of self d r }
    {
        self.busy = 1;
        let Core { mut regs, sreg, .. } = self;
        let sreg = products::fmuls(&mut regs, d, r, sreg);
        Core { regs, sreg, ..self }
    }

    pub fn fmulsu(mut self, d: u8, r: u8) -> Core
        ensures { result ≡ fmulsu_of self d r }
    {
        self.busy = 1;
        let Core { mut regs, sreg, .. } = self;
        let sreg = products::fmulsu(&mut regs, d, r, sreg);
        Core { regs, sreg, ..self }
    }

    pub fn inc(self, d: u8) -> Core
        ensures { result ≡ inc_of self d }
    {
        let Core { mut regs, sreg, .. } = self;
        let sreg = arithmetic::inc(&mut regs, d, sreg);
        Core { regs, sreg, ..self }
    }

    pub fn mul(mut self, d: u8, r: u8) -> Core
        ensures { result ≡ mul_of self d r }
    {
        self.busy = 1;
        let Core { mut regs, sreg, .. } = self;
        let sreg = products::mul(&mut regs, d, r, sreg);
        Core { regs, sreg, ..self }
    }

    pub fn muls(mut self, d: u8, r: u8) -> Core
        ensures { result ≡ muls_of self d r }
    {
        self.busy = 1;
        let Core { mut regs, sreg, .. } = self;
        let sreg = products::muls(&mut regs, d, r, sreg);
        Core { regs, sreg, ..self }
    }

    pub fn mulsu(mut self, d: u8, r: u8) -> Core
        ensures { result ≡ mulsu_of self d r }
    {
        self.busy = 1;
        let Core { mut regs, sreg, .. } = self;
        let sreg = products::mulsu(&mut regs, d, r, sreg);
        Core { regs, sreg, ..self }
    }

    pub fn neg(self, d: u8) -> Core
        ensures { result ≡ neg_of self d }
    {
        let Core { mut regs, sreg, .. } = self;
        let sreg = arithmetic::neg(&mut regs, d, sreg);
        Core { regs, sreg, ..self }
    }

    pub fn or(self, d: u8, r: u8) -> Core
        ensures { result ≡ or_of self d (reg self r) }
    {
        self.ori(d, self.get_register(r))
    }

    pub fn ori(self, d: u8, val: u8) -> Core
        ensures { result ≡ or_of self d val }
    {
        let Core { mut regs, sreg, .. } = self;
        let sreg = arithmetic::or(&mut regs, d, val, sreg);
        Core { regs, sreg, ..self }
    }

    pub fn sbc(self, d: u8, r: u8) -> Core
        ensures { result ≡ sbc_of self d (reg self r) }
    {
        self.sbci(d, self.get_register(r))
    }

    pub fn sbci(self, d: u8, val: u8) -> Core
        ensures { result ≡ sbc_of self d val }
    {
        let Core { mut regs, sreg, .. } = self;
        let sreg = arithmetic::sbc(&mut regs, d, val, sreg);
        Core { regs, sreg, ..self }
    }

    pub fn sbiw(mut self, d: u8, K: u8) -> Core
        ensures { result ≡ sbiw_of self d K }
    {
        self.busy = 1;
        let Core { mut regs, sreg, .. } = self;
        let sreg = arithmetic::sbiw(&mut regs, d, K, sreg);
        Core { regs, sreg, ..self }
    }

    pub fn sub(self, d: u8, r: u8) -> Core
        ensures { result ≡ sub_of self d (reg self r) }
    {
        self.subi(d, self.get_register(r))
    }

    pub fn subi(self, d: u8, K: u8) -> Core
        ensures { result ≡ sub_of self d K }
    {
        let Core { mut regs, sreg, .. } = self;
        let sreg = arithmetic::sub(&mut regs, d, K, sreg);
        Core { regs, sreg, ..self }
    }
}
