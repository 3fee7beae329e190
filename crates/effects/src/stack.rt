// A word on the stack, in the data bytes themselves.
ghost use Rattle.std.specs.Prelude.{◌≡◌, ◌+◌, ◌*◌, slice_index_or};
ghost use Rattle.basis.specs.Bit.{up};
ghost use Rattle.cores.specs.Flow.{word_pushed};
ghost use Rattle.effects.specs.Parts.{seen};

// The low byte at SP and the high byte below; SP, two lower.
pub(crate) fn push_word(sp: u16, value: u16, data: &mut [u8]) -> u16
    ensures value { result ≡ (word_pushed (seen 0 sp) value «data».old).core.sp }
    ensures data_after { «data».new ≡ (word_pushed (seen 0 sp) value «data».old).bytes }
{
    let [high, low] = value.to_be_bytes();
    memory::write(data, sp as usize, low);
    memory::write(data, sp.wrapping_sub(1) as usize, high);
    sp.wrapping_sub(2)
}

// The high byte at SP+1 and the low byte at SP+2.
pub(crate) fn pop_word(sp: u16, data: &[u8]) -> u16
    ensures { result ≡ slice_index_or «data».now (up sp 1) 0 * 256 + slice_index_or «data».now (up sp 2) 0 }
{
    let bh = memory::read(data, sp.wrapping_add(1) as usize);
    let bl = memory::read(data, sp.wrapping_add(2) as usize);
    u16::from_be_bytes([bh, bl])
}
