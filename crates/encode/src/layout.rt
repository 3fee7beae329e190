// Where the fields of an instruction stand in its word, a function a layout, with the manual's picture of it. An opcode comes with 0 for its fields.
// How far the fields reach above the opcode differs by layout, so no type says it for all: each asks for its own room.
ghost use Rattle.std.specs.Prelude.{◌≡◌, ◌+◌, ◌<◌};
ghost use Rattle.encode.specs.Encode.{
  said,
  bare_of,
  register_of,
  registers_of,
  high_registers_of,
  low_registers_of,
  pairs_of,
  constant_of,
  pair_constant_of,
  register_bit_of,
  port_bit_of,
  port_of,
  displaced_of,
  flag_of,
  branch_of,
  relative_of,
  target_of,
  data_address_of,
};

use crate::field::*;
use crate::{Refusal, Words};

pub(crate) fn bare(opcode: u16) -> Result<Words, Refusal>
    ensures { said result ≡ bare_of opcode }
{
    Ok(Words::One(opcode))
}

// xxxx_xxxd_dddd_xxxx
pub(crate) fn register(opcode: u16, d: u8) -> Result<Words, Refusal>
    requires { opcode + 496 < 65536 }
    ensures { said result ≡ register_of opcode d }
{
    let d = within(REGISTERS, d)?;
    bare(opcode + d * 16)
}

// xxxx_xxrd_dddd_rrrr
pub(crate) fn registers(opcode: u16, d: u8, r: u8) -> Result<Words, Refusal>
    requires { opcode + 1023 < 65536 }
    ensures { said result ≡ registers_of opcode d r }
{
    let d = within(REGISTERS, d)?;
    let r = within(REGISTERS, r)?;
    bare(opcode + r / 16 * 512 + d * 16 + r % 16)
}

// xxxx_xxxx_dddd_rrrr
pub(crate) fn high_registers(opcode: u16, d: u8, r: u8) -> Result<Words, Refusal>
    requires { opcode + 255 < 65536 }
    ensures { said result ≡ high_registers_of opcode d r }
{
    let d = within(HIGH, d)?;
    let r = within(HIGH, r)?;
    bare(opcode + d % 16 * 16 + r % 16)
}

// xxxx_xxxx_xddd_xrrr
pub(crate) fn low_registers(opcode: u16, d: u8, r: u8) -> Result<Words, Refusal>
    requires { opcode + 119 < 65536 }
    ensures { said result ≡ low_registers_of opcode d r }
{
    let d = within(LOW, d)?;
    let r = within(LOW, r)?;
    bare(opcode + d % 8 * 16 + r % 8)
}

// xxxx_xxxx_dddd_rrrr
pub(crate) fn pairs(opcode: u16, d: u8, r: u8) -> Result<Words, Refusal>
    requires { opcode + 255 < 65536 }
    ensures { said result ≡ pairs_of opcode d r }
{
    let d = pair(REGISTERS, d)?;
    let r = pair(REGISTERS, r)?;
    bare(opcode + d / 2 * 16 + r / 2)
}

// xxxx_KKKK_dddd_KKKK
pub(crate) fn constant(opcode: u16, d: u8, K: u8) -> Result<Words, Refusal>
    requires { opcode + 4095 < 65536 }
    ensures { said result ≡ constant_of opcode d K }
{
    let d = within(HIGH, d)?;
    let K = K as u16;
    bare(opcode + K / 16 * 256 + d % 16 * 16 + K % 16)
}

// xxxx_xxxx_KKdd_KKKK
pub(crate) fn pair_constant(opcode: u16, d: u8, K: u8) -> Result<Words, Refusal>
    requires { opcode + 255 < 65536 }
    ensures { said result ≡ pair_constant_of opcode d K }
{
    let d = pair(LAST, d)?;
    let K = within(SIX, K)?;
    bare(opcode + K / 16 * 64 + d / 2 % 4 * 16 + K % 16)
}

// xxxx_xxxd_dddd_xbbb
pub(crate) fn register_bit(opcode: u16, d: u8, b: u8) -> Result<Words, Refusal>
    requires { opcode + 503 < 65536 }
    ensures { said result ≡ register_bit_of opcode d b }
{
    let d = within(REGISTERS, d)?;
    let b = within(BITS, b)?;
    bare(opcode + d * 16 + b)
}

// xxxx_xxxx_AAAA_Abbb
pub(crate) fn port_bit(opcode: u16, A: u8, b: u8) -> Result<Words, Refusal>
    requires { opcode + 255 < 65536 }
    ensures { said result ≡ port_bit_of opcode A b }
{
    let A = within(FIVE, A)?;
    let b = within(BITS, b)?;
    bare(opcode + A * 8 + b)
}

// xxxx_xAAd_dddd_AAAA
pub(crate) fn port(opcode: u16, d: u8, A: u8) -> Result<Words, Refusal>
    requires { opcode + 2047 < 65536 }
    ensures { said result ≡ port_of opcode d A }
{
    let d = within(REGISTERS, d)?;
    let A = within(SIX, A)?;
    bare(opcode + A / 16 * 512 + d * 16 + A % 16)
}

// xxqx_qqxd_dddd_xqqq
pub(crate) fn displaced(opcode: u16, d: u8, q: u8) -> Result<Words, Refusal>
    requires { opcode + 11767 < 65536 }
    ensures { said result ≡ displaced_of opcode d q }
{
    let d = within(REGISTERS, d)?;
    let q = within(SIX, q)?;
    bare(opcode + q / 32 * 8192 + q / 8 % 4 * 1024 + d * 16 + q % 8)
}

// xxxx_xxxx_xsss_xxxx
pub(crate) fn flag(opcode: u16, s: u8) -> Result<Words, Refusal>
    requires { opcode + 112 < 65536 }
    ensures { said result ≡ flag_of opcode s }
{
    let s = within(BITS, s)?;
    bare(opcode + s * 16)
}

// xxxx_xxkk_kkkk_ksss
pub(crate) fn branch(opcode: u16, s: u8, k: u8) -> Result<Words, Refusal>
    requires { opcode + 1023 < 65536 }
    ensures { said result ≡ branch_of opcode s k }
{
    let s = within(BITS, s)?;
    let k = offset7(k)?;
    bare(opcode + k % 128 * 8 + s)
}

// xxxx_kkkk_kkkk_kkkk
pub(crate) fn relative(opcode: u16, k: u16) -> Result<Words, Refusal>
    requires { opcode + 4095 < 65536 }
    ensures { said result ≡ relative_of opcode k }
{
    let k = offset12(k)?;
    bare(opcode + k % 4096)
}

// xxxx_xxxk_kkkk_xxxk, and the low 16 bits in the second word
pub(crate) fn jump_target(opcode: u16, k: u32) -> Result<Words, Refusal>
    requires { opcode + 497 < 65536 }
    ensures { said result ≡ target_of opcode k }
{
    if k >= 4194304 {
        return Err(Refusal::Outside);
    }
    let first = opcode + (k / 131072 * 16 + k / 65536 % 2) as u16;
    Ok(Words::Two(first, (k % 65536) as u16))
}

// xxxx_xxxd_dddd_xxxx, and the address in the second word
pub(crate) fn data_address(opcode: u16, d: u8, k: u16) -> Result<Words, Refusal>
    requires { opcode + 496 < 65536 }
    ensures { said result ≡ data_address_of opcode d k }
{
    let d = within(REGISTERS, d)?;
    Ok(Words::Two(opcode + d * 16, k))
}
