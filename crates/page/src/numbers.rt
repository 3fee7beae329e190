// Numbers as text: capitals in hex, and decimal with no leading zero.
ghost use Rattle.std.specs.Prelude.{[], ◌∷◌};
ghost use Rattle.basis.specs.Pick.{pick};
ghost use Rattle.page.specs.Gains.{Gains};
ghost use Rattle.page.specs.Numbers.{hex2, hex4, decimal};

use crate::Page;

impl Page<'_> {
    pub fn put_hex2(&mut self, x: u8)
        ensures { Gains self.old (hex2 x) self.new }
    {
        self.put_byte(basis::hex_digit(x / 16));
        self.put_byte(basis::hex_digit(x));
    }

    pub fn put_hex4(&mut self, x: u16)
        ensures { Gains self.old (hex4 x) self.new }
    {
        let [high, low] = x.to_be_bytes();
        self.put_hex2(high);
        self.put_hex2(low);
    }

    pub fn put_decimal(&mut self, x: u16)
        ensures { Gains self.old (decimal x) self.new }
    {
        self.put_if(x >= 10000, b'0' + (x / 10000 % 10) as u8);
        self.put_if(x >= 1000, b'0' + (x / 1000 % 10) as u8);
        self.put_if(x >= 100, b'0' + (x / 100 % 10) as u8);
        self.put_if(x >= 10, b'0' + (x / 10 % 10) as u8);
        self.put_byte(b'0' + (x % 10) as u8);
    }

    fn put_if(&mut self, on: bool, b: u8)
        ensures { Gains self.old (pick on (b ∷ []) []) self.new }
    {
        if on {
            self.put_byte(b);
        }
    }
}
