// The handlers that work on registers and flags, over lent registers: SREG goes in, and comes back new from those that set flags. The methods of `Core` are these on
// its own registers. AND and ANDI are one here, with a register's byte and with K for b; so are OR and ORI, SBC and SBCI, SUB and SUBI, CP and CPI.
ghost use Rattle.std.specs.Prelude.{◌≡◌};
ghost use Rattle.cores.specs.State.{with_word};
ghost use Rattle.cores.specs.Lent.{holding};

pub mod arithmetic;
pub mod bits;
mod flags;
pub mod flow;
pub mod products;

// R[d+1]:Rd <- value
pub fn put_word(regs: &mut [u8], d: u8, value: u16)
    ensures { regs.new ≡ (with_word (holding regs.old) d value).regs }
{
    let [low, high] = value.to_le_bytes();
    memory::write(regs, d as usize, low);
    memory::write(regs, d as usize + 1, high);
}
