// The record of a line read: a colon, then digits that say bytes, two a byte. What is said of a record holds where all characters belong.
ghost use Rattle.std.specs.Prelude.{◌≡◌, ◌+◌, ◌*◌};
ghost use Rattle.hex_line.specs.Way.{byte_of};

use crate::digits::pair;

// Byte k of the record, 0 where the line is shorter.
#[tactic(auto, unfolding(crate::specs::Way::byte_of))]
pub fn byte(line: &[u8], k: u16) -> u8
    ensures { result ≡ byte_of line.now k }
{
    let i = k as usize * 2 + 1;
    match line.get(i..i + 2) {
        Some([high, low]) => pair(*high, *low),
        _ => 0,
    }
}

pub fn count(line: &[u8]) -> u8
    ensures { result ≡ byte_of line.now 0 }
{
    byte(line, 0)
}

pub fn address(line: &[u8]) -> u16
    ensures { result ≡ byte_of line.now 1 * 256 + byte_of line.now 2 }
{
    u16::from_be_bytes([byte(line, 1), byte(line, 2)])
}

pub fn kind(line: &[u8]) -> u8
    ensures { result ≡ byte_of line.now 3 }
{
    byte(line, 3)
}
