// Digits, in either case.
ghost use Rattle.std.specs.Prelude.{◌≡◌, ◌+◌, ◌*◌, ◌%◌};
ghost use Rattle.hex_line.specs.Way.{digit_of};

// What a digit is worth: the low four bits of its code, and 9 more for a letter. `to_digit` refuses other characters, of which `digit_of` speaks too.
#[tactic(auto, unfolding(crate::specs::Way::digit_of))]
fn digit(c: u8) -> u8
    ensures { result ≡ digit_of c }
{
    c % 16 + c / 64 * 9
}

// The byte that two digits say.
pub(crate) fn pair(high: u8, low: u8) -> u8
    ensures { result ≡ (digit_of high * 16 + digit_of low) % 256 }
{
    digit(high).wrapping_mul(16).wrapping_add(digit(low))
}
