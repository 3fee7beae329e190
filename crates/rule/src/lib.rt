// What the rule decides, a function each: the Rust's way under source, the chip's own under chip.
#![tactic(auto, unfolding(crate::specs::Rule::load_waits, crate::specs::Rule::store_waits))]

ghost use Rattle.std.specs.Prelude.{◌≡◌};
ghost use Rattle.rule.specs.Rule.{old_bit_clear, load_waits, store_waits, bset_inhibits};

// The bit of the old word that ADIW's V looks at: 15 in the chip, 7 in the Rust.
pub fn old_bit_clear(chip: bool, word: u16) -> bool
    ensures { result ≡ old_bit_clear chip word }
{
    if chip { word < 32768 } else { word % 256 < 128 }
}

// The waits of LD and LDD, from SRAM.
pub fn load_waits(chip: bool) -> u8
    ensures { result ≡ load_waits chip }
{
    if chip { 1 } else { 2 }
}

// The waits of ST and STD, to SRAM.
pub fn store_waits(chip: bool) -> u8
    ensures { result ≡ store_waits chip }
{
    if chip { 0 } else { 1 }
}

// Whether BSET makes the instruction behind it safe: SEI, in the chip.
pub fn bset_inhibits(chip: bool, s: u8) -> bool
    ensures { result ≡ bset_inhibits chip s }
{
    (s == 7) & chip
}
