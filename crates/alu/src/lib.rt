// The arithmetic inside the handlers, on plain bytes and words: the result, and the flags that it says. No core.
#![tactic(auto)]

ghost use Rattle.std.specs.Prelude.{◌≡◌};
ghost use Rattle.alu.specs.Alu.{plus_of, minus_of, halved_of, plus_word_of, minus_word_of, signed_of, product_of, doubled_of};

// A sum or a difference of two bytes.
#[derive(Clone, Copy)]
pub struct Sum {
    pub value: u8,
    pub carry: bool,
    pub half: bool,
    pub overflow: bool,
}

// A sum or a difference of a word and a byte.
#[derive(Clone, Copy)]
pub struct WordSum {
    pub value: u16,
    pub carry: bool,
}

// a + b + c.
#[tactic(auto, using(crate::proofs::Wraps::added), unfolding(crate::specs::Alu::plus_of))]
pub fn plus(a: u8, b: u8, c: bool) -> Sum
    ensures { result ≡ plus_of a b c }
{
    let value = a.wrapping_add(b).wrapping_add(c as u8);
    let n_a = a >= 128;
    let n_b = b >= 128;
    let n = value >= 128;
    Sum {
        value,
        carry: a as u16 + b as u16 + c as u16 >= 256,
        half: a % 16 + b % 16 + c as u8 >= 16,
        overflow: (n_a == n_b) & (n_a != n),
    }
}

// a - b - c.
#[tactic(auto, using(crate::proofs::Wraps::taken), unfolding(crate::specs::Alu::minus_of))]
pub fn minus(a: u8, b: u8, c: bool) -> Sum
    ensures { result ≡ minus_of a b c }
{
    let value = a.wrapping_sub(b).wrapping_sub(c as u8);
    let n_a = a >= 128;
    let n_b = b >= 128;
    let n = value >= 128;
    Sum {
        value,
        carry: (a as u16) < b as u16 + c as u16,
        half: a % 16 < b % 16 + c as u8,
        overflow: (n_a != n_b) & (n_a != n),
    }
}

// a shifted to the right by one, with `top` for its bit 7.
pub fn halved(a: u8, top: bool) -> u8
    ensures { result ≡ halved_of a top }
{
    a / 2 + top as u8 * 128
}

// a + n, of a word.
pub fn plus_word(a: u16, n: u8) -> WordSum
    ensures { result ≡ plus_word_of a n }
{
    WordSum {
        value: a.wrapping_add(n as u16),
        carry: a as u32 + n as u32 >= 65536,
    }
}

// a - n, of a word.
pub fn minus_word(a: u16, n: u8) -> WordSum
    ensures { result ≡ minus_word_of a n }
{
    WordSum {
        value: a.wrapping_sub(n as u16),
        carry: a < n as u16,
    }
}

// The 16 bits of a signed byte. By `cast_signed` a tick of the run took 2 instructions more.
pub fn signed(a: u8) -> u16
    ensures { result ≡ signed_of a }
{
    a as u16 + (a / 128) as u16 * 65280
}

// The 16 bits of a product of two numbers of 16 bits: a signed factor comes as `signed` gives it.
pub fn product(a: u16, b: u16) -> u16
    ensures { result ≡ product_of a b }
{
    a.wrapping_mul(b)
}

// The 16 bits of a word taken twice.
pub fn doubled(a: u16) -> u16
    ensures { result ≡ doubled_of a }
{
    a.wrapping_mul(2)
}
