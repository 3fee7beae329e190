// Flat memories: a lent slice of bytes, of any length. Outside it a byte reads 0 and nothing is written; who must refuse asks `has` first.
#![tactic(auto)]

ghost use Rattle.std.specs.Prelude.{◌≡◌, get_or, set};
ghost use Rattle.memory.specs.Memory.{has_of, word_of, program_word_of, has_word_of, bit_set_of};

// Whether the byte is in the slice.
pub fn has(bytes: &[u8], address: usize) -> bool
    ensures { result ≡ has_of bytes.now address }
{
    address < bytes.len()
}

pub fn read(bytes: &[u8], address: usize) -> u8
    ensures { result ≡ get_or bytes.now address 0 }
{
    bytes.get(address).copied().unwrap_or(0)
}

// By `get_mut` the proof of what a refused write leaves did not close.
pub fn write(bytes: &mut [u8], address: usize, value: u8)
    ensures { bytes.new ≡ set bytes.old address value }
{
    if address < bytes.len() {
        bytes[address] = value;
    }
}

// Low byte first.
pub fn read_word(bytes: &[u8], address: usize) -> u16
    ensures { result ≡ word_of bytes.now address }
{
    if address < bytes.len() {
        u16::from_le_bytes([read(bytes, address), read(bytes, address + 1)])
    } else {
        0
    }
}

// The word at a PC; of one that is cut off by the end, its low byte. A whole word is looked for once, so that it is read at once.
#[tactic(auto, unfolding(crate::specs::Memory::has_word_of, crate::specs::Memory::program_word_of))]
pub fn get_progmem(program: &[u8], pc: u32) -> u16
    ensures { result ≡ program_word_of program.now pc }
{
    let address = pc as usize * 2;
    if has_word(program, pc) {
        read_word(program, address)
    } else {
        read(program, address) as u16
    }
}

// Whether the word at a PC is wholly in the program.
#[tactic(auto, unfolding(crate::specs::Memory::has_word_of))]
pub fn has_word(program: &[u8], pc: u32) -> bool
    ensures { result ≡ has_word_of program.now pc }
{
    has(program, pc as usize * 2 + 1)
}

pub fn set_bit(bytes: &mut [u8], address: usize, bit: u8, state: bool)
    ensures { bytes.new ≡ bit_set_of bytes.old address bit state }
{
    let val = read(bytes, address);
    write(bytes, address, basis::with_bit(val, bit, state));
}
