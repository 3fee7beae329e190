// DATA TRANSFER INSTRUCTIONS, in the order of cores.rs. 0x3D to 0x3F are SP and SREG, the lent bytes stand everywhere else.
ghost use Rattle.std.specs.Prelude.{◌≡◌, length};
ghost use Rattle.cores.specs.State.{reg, with_reg, with_word, word, Leaves};
ghost use Rattle.cores.specs.Transfer.{
  reach_of,
  data_of,
  set_data_of,
  in_of,
  pointed_of,
  word_if,
  ld_of,
  st_of,
  lds_of,
  lpm_of,
  pop_of,
  push_of,
  sts_of,
};

use crate::{Core, pointer};

// Whether get_data_space and set_data_space find something at an address.
#[tactic(auto, unfolding(crate::specs::Transfer::reach_of))]
pub fn in_data_space(address: usize, data: &[u8]) -> bool
    ensures { result ≡ reach_of address (length «data».now) }
{
    match address {
        0x3D..=0x3F => true,
        _ => address < data.len(),
    }
}

impl Core {
    // The Rust's get_io_register too: below 64 the two agree.
    #[tactic(auto, unfolding(crate::specs::Transfer::data_of))]
    pub fn get_data_space(self, address: usize, data: &[u8]) -> u8
        ensures { result ≡ data_of self address «data».now }
    {
        let [low, high] = self.sp.to_le_bytes();
        match address {
            0x3F => self.sreg, // CPU.SREG
            0x3E => high, // CPU.SPH
            0x3D => low, // CPU.SPL
            _ => memory::read(data, address),
        }
    }

    // The Rust's set_io_register too.
    #[tactic(auto, unfolding(crate::specs::Transfer::set_data_of, crate::specs::State::with_sp))]
    pub fn set_data_space(mut self, address: usize, value: u8, data: &mut [u8]) -> Core
        ensures { Leaves (set_data_of self address value «data».old) result «data».new }
    {
        let [low, high] = self.sp.to_le_bytes();
        match address {
            0x3F => self.sreg = value, // CPU.SREG
            0x3E => self.sp = u16::from_le_bytes([low, value]), // CPU.SPH
            0x3D => self.sp = u16::from_le_bytes([value, high]), // CPU.SPL
            _ => memory::write(data, address, value),
        }
        self
    }

    pub fn in_(self, d: u8, A: u8, data: &[u8]) -> Core
        ensures { result ≡ in_of self d A «data».now }
    {
        self.put_register(d, self.get_data_space(A as usize, data))
    }

    // The pointer, one lower where dec.
    #[tactic(auto, unfolding(crate::specs::Transfer::pointed_of))]
    pub fn pointed(self, pointer: u8, dec: bool) -> u16
        ensures { result ≡ pointed_of self pointer dec }
    {
        let address = self.get_register_word(pointer);
        if dec {
            address.wrapping_sub(1)
        } else {
            address
        }
    }

    #[tactic(auto, unfolding(crate::specs::Transfer::word_if))]
    fn set_word_if(self, on: bool, pointer: u8, address: u16) -> Core
        ensures { result ≡ word_if self on pointer address }
    {
        if on {
            self.set_register_word(pointer, address)
        } else {
            self
        }
    }

    pub fn ld(mut self, d: u8, pointer: u8, q: u8, dec: bool, inc: bool, data: &[u8]) -> Core
        ensures { result ≡ ld_of self d pointer q dec inc «data».now }
    {
        self.busy = rule::load_waits(self.chip); // AVRxt, SRAM only
        let address = self.pointed(pointer, dec);
        let k = self.set_word_if(dec, pointer, address);
        let value = k.get_data_space(address as usize + q as usize, data);
        k.put_register(d, value)
            .set_word_if(inc, pointer, address.wrapping_add(1))
    }

    pub fn st(mut self, r: u8, pointer: u8, q: u8, dec: bool, inc: bool, data: &mut [u8]) -> Core
        ensures { Leaves (st_of self r pointer q dec inc «data».old) result «data».new }
    {
        self.busy = rule::store_waits(self.chip);
        let address = self.pointed(pointer, dec);
        let k = self.set_word_if(dec, pointer, address);
        let k = k.set_data_space(address as usize + q as usize, k.get_register(r), data);
        k.set_word_if(inc, pointer, address.wrapping_add(1))
    }

    pub fn ldi(self, d: u8, K: u8) -> Core
        ensures { result ≡ with_reg self d K }
    {
        self.put_register(d, K)
    }

    #[tactic(auto, unfolding(crate::specs::State::with_busy, crate::specs::Transfer::data_of))]
    pub fn lds(mut self, d: u8, k: u16, data: &[u8]) -> Core
        ensures { result ≡ lds_of self d k «data».now }
    {
        self.busy = 2; // AVRxt, SRAM only
        self.put_register(d, self.get_data_space(k as usize, data))
    }

    pub fn lpm(mut self, d: u8, inc: bool, program: &[u8]) -> Core
        ensures { result ≡ lpm_of self d inc program.now }
    {
        self.busy = 2;
        let address = self.get_register_word(pointer::Z);
        self.put_register(d, memory::read(program, address as usize))
            .set_word_if(inc, pointer::Z, address.wrapping_add(1))
    }

    pub fn mov(self, d: u8, r: u8) -> Core
        ensures { result ≡ with_reg self d (reg self r) }
    {
        self.put_register(d, self.get_register(r))
    }

    pub fn movw(self, d: u8, r: u8) -> Core
        ensures { result ≡ with_word self d (word self r) }
    {
        self.set_register_word(d, self.get_register_word(r))
    }

    pub fn out(self, A: u8, r: u8, data: &mut [u8]) -> Core
        ensures { Leaves (set_data_of self A (reg self r) «data».old) result «data».new }
    {
        self.set_data_space(A as usize, self.get_register(r), data)
    }

    pub fn pop(mut self, d: u8, data: &[u8]) -> Core
        ensures { result ≡ pop_of self d «data».now }
    {
        self.busy = 1; // 2 for AVRrc
        self.sp = self.sp.wrapping_add(1);
        self.put_register(d, self.get_data_space(self.sp as usize, data))
    }

    pub fn push(self, r: u8, data: &mut [u8]) -> Core
        ensures { Leaves (push_of self r «data».old) result «data».new }
    {
        let mut k = self.set_data_space(self.sp as usize, self.get_register(r), data);
        k.sp = k.sp.wrapping_sub(1);
        k
    }

    pub fn sts(mut self, r: u8, k: u16, data: &mut [u8]) -> Core
        ensures { Leaves (sts_of self r k «data».old) result «data».new }
    {
        self.busy = 1; // SRAM only
        self.set_data_space(k as usize, self.get_register(r), data)
    }
}
