// The fields that not every number fits, as words.
ghost use Rattle.std.specs.Prelude.{◌≡◌, ◌&&◌, ◌%◌, eqb, ltb, leb};
ghost use Rattle.encode.specs.Encode.{field_of, is_offset7, is_offset12};

use crate::Refusal;
use std::ops::Range;

// R0 to R31.
pub(crate) const REGISTERS: Range<u8> = 0..32;

// R16 to R31.
pub(crate) const HIGH: Range<u8> = 16..32;

// R16 to R23.
pub(crate) const LOW: Range<u8> = 16..24;

// R24 to R31, of which ADIW and SBIW name the pairs.
pub(crate) const LAST: Range<u8> = 24..32;

// The bits of a byte.
pub(crate) const BITS: Range<u8> = 0..8;

// Numbers of five bits.
pub(crate) const FIVE: Range<u8> = 0..32;

// Numbers of six bits.
pub(crate) const SIX: Range<u8> = 0..64;

pub(crate) fn within(field: Range<u8>, x: u8) -> Result<u16, Refusal>
    ensures { result ≡ field_of (leb field.start x && ltb x field.end) x }
{
    inside(field.contains(&x), x as u16)
}

// The lower register of a pair.
pub(crate) fn pair(field: Range<u8>, d: u8) -> Result<u16, Refusal>
    ensures { result ≡ field_of (leb field.start d && (ltb d field.end && eqb (d % 2) 0)) d }
{
    inside(field.contains(&d) & (d % 2 == 0), d as u16)
}

// Offsets in two's complement, of 7 bits as a byte and of 12 bits as a word.
pub(crate) fn offset7(k: u8) -> Result<u16, Refusal>
    ensures { result ≡ field_of (is_offset7 k) k }
{
    inside((k < 64) | (k >= 192), k as u16)
}

pub(crate) fn offset12(k: u16) -> Result<u16, Refusal>
    ensures { result ≡ field_of (is_offset12 k) k }
{
    inside((k < 2048) | (k >= 63488), k)
}

fn inside(test: bool, field: u16) -> Result<u16, Refusal>
    ensures { result ≡ field_of test field }
{
    if test {
        Ok(field)
    } else {
        Err(Refusal::Outside)
    }
}
