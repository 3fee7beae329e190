// The Rust's `Core`, by value: a core goes in and its successor comes back. Program and data are lent to the handlers that use them.
#![tactic(auto, unfolding(crate::specs::State::with_regs, crate::specs::State::with_reg, crate::specs::State::with_pc, crate::specs::State::with_sp, crate::specs::State::with_busy, crate::specs::State::with_chip))]

ghost use Rattle.std.specs.Prelude.{◌≡◌};
ghost use Rattle.cores.specs.State.{
  fresh_of,
  reg,
  word,
  with_reg,
  with_word,
  with_sreg,
  with_chip,
  flag,
  number_of,
  said_register,
  read_register_of,
  said_set,
  set_register_of,
};
ghost use Rattle.basis.specs.Bit.{put};

mod arithmetic;
mod bits;
mod flow;
pub mod lent;
pub mod pointer;
mod transfer;

pub use transfer::in_data_space;

#[derive(Clone, Copy)]
pub struct Core {
    pub regs: [u8; 32],
    pub sreg: u8,
    pub pc: u16,
    pub sp: u16,
    pub busy: u8,
    pub inhibit: bool,
    pub in_service: bool,
    pub chip: bool, // 02's rule choice: chip, or source where false
}

// The refusal of a register number above 31.
#[derive(Clone, Copy, Debug, PartialEq, Eq)]
pub struct NoRegister;

// By 01's number.
impl From<NoRegister> for u8 {
    ghost from_gives = { λ refusal n. n ≡ number_of refusal };

    fn from(refusal: NoRegister) -> u8 {
        match refusal {
            NoRegister => 6,
        }
    }
}

impl Core {
    // The Rust's `BitSREG`.
    pub const C: u8 = 0;

    pub const Z: u8 = 1;

    pub const N: u8 = 2;

    pub const V: u8 = 3;

    pub const S: u8 = 4;

    pub const H: u8 = 5;

    pub const T: u8 = 6;

    pub const I: u8 = 7;

    #[tactic(auto, unfolding(crate::specs::State::fresh_of))]
    pub fn fresh(sp: u16) -> Core
        ensures { result ≡ fresh_of sp }
    {
        Core {
            regs: [0u8; 32],
            sreg: 0,
            pc: 0,
            sp,
            busy: 0,
            inhibit: false,
            in_service: false,
            chip: false,
        }
    }

    // The rule: chip, or source.
    pub fn set_chip(mut self, on: bool) -> Core
        ensures { result ≡ with_chip self on }
    {
        self.chip = on;
        self
    }

    pub fn read_register(self, register: u8) -> Result<u8, NoRegister>
        ensures { said_register result ≡ read_register_of self register }
    {
        self.regs.get(register as usize).copied().ok_or(NoRegister)
    }

    pub fn set_register(self, register: u8, value: u8) -> Result<Core, NoRegister>
        ensures { said_set self result ≡ set_register_of self register value }
    {
        if register < 32 {
            Ok(self.put_register(register, value))
        } else {
            Err(NoRegister)
        }
    }

    // A register's byte, and 0 above 31. Where `self.regs` itself is lent, a tick over `Core` takes up to 13 instructions more.
    pub fn get_register(self, register: u8) -> u8
        ensures { result ≡ reg self register }
    {
        let Core { regs, .. } = self;
        memory::read(&regs, register as usize)
    }

    // A byte into a register; above 31 nothing changes.
    pub fn put_register(mut self, register: u8, value: u8) -> Core
        ensures { result ≡ with_reg self register value }
    {
        memory::write(&mut self.regs, register as usize, value);
        self
    }

    pub fn get_register_word(self, low: u8) -> u16
        ensures { result ≡ word self low }
    {
        let Core { regs, .. } = self;
        memory::read_word(&regs, low as usize)
    }

    pub fn set_register_word(mut self, low: u8, value: u16) -> Core
        ensures { result ≡ with_word self low value }
    {
        lent::put_word(&mut self.regs, low, value);
        self
    }

    pub fn get_sreg_bit(self, bit: u8) -> bool
        ensures { result ≡ flag self bit }
    {
        basis::bit(self.sreg, bit)
    }

    pub fn set_sreg_bit(mut self, bit: u8, set: bool) -> Core
        ensures { result ≡ with_sreg self (put self.sreg bit set) }
    {
        self.sreg = basis::with_bit(self.sreg, bit, set);
        self
    }
}
