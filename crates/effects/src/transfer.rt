// DATA TRANSFER INSTRUCTIONS over lent registers, in the order of cores.rs, by the instruction's word. 0x3D to 0x3F are SP and SREG, the lent bytes stand everywhere else.
// The same as methods that take a core by value, which the documents ask for, stand in crates/cores; a fast run has no core to copy.
ghost use Rattle.std.specs.Prelude.{◌≡◌, ◌+◌, slice_index, slice_set};
ghost use Rattle.basis.specs.Bit.{up};
ghost use Rattle.instruction.specs.Decode.{d5, A5, b3};
ghost use Rattle.memory.specs.Memory.{word_of, bit_set_of};
ghost use Rattle.rule.specs.Rule.{load_waits, store_waits};
ghost use Rattle.cores.specs.Transfer.{data_of};
ghost use Rattle.effects.specs.Parts.{seen, left_by, bytes_stored, pointer_set, pointed_at, lowered, loaded};

use cores::lent::put_word;
use cores::pointer;
use forms::fields::*;

// SREG and SP behind a store, which may be to them, and the ticks to wait.
#[derive(Clone, Copy)]
pub(crate) struct Left {
    pub sreg: u8,
    pub sp: u16,
    pub busy: u8,
}

pub(crate) fn leaves(sreg: u8, sp: u16, busy: u8) -> Left
    ensures { result ≡ record { sreg = sreg; sp = sp; busy = busy } }
{
    Left { sreg, sp, busy }
}

pub(crate) fn get_data_space(address: usize, sreg: u8, sp: u16, data: &[u8]) -> u8
    ensures { result ≡ data_of (seen sreg sp) address «data».now }
{
    match address {
        0x3F => sreg,
        0x3E => (sp / 256) as u8,
        0x3D => (sp % 256) as u8,
        _ => memory::read(data, address),
    }
}

pub(crate) fn set_data_space(address: usize, value: u8, sreg: u8, sp: u16, data: &mut [u8]) -> Left
    ensures value { result ≡ left_by address value sreg sp 0 }
    ensures data_after { «data».new ≡ bytes_stored address value «data».old }
{
    match address {
        0x3F => leaves(value, sp, 0),
        0x3E => leaves(sreg, value as u16 * 256 + sp % 256, 0),
        0x3D => leaves(sreg, sp / 256 * 256 + value as u16, 0),
        _ => {
            memory::write(data, address, value);
            leaves(sreg, sp, 0)
        }
    }
}

// The byte at the address, into the word's register.
pub(crate) fn load_to(regs: &mut [u8], opcode: u16, at: usize, sreg: u8, sp: u16, data: &[u8])
    ensures { regs.new ≡ slice_set regs.old (d5 opcode) (data_of (seen sreg sp) at «data».now) }
{
    memory::write(
        regs,
        d5(opcode) as usize,
        get_data_space(at, sreg, sp, data),
    );
}

// The word's register, to the address.
pub(crate) fn store_from(
    regs: &[u8],
    opcode: u16,
    at: usize,
    sreg: u8,
    sp: u16,
    data: &mut [u8],
) -> Left
    ensures value { result ≡ left_by at (slice_index regs.now (d5 opcode)) sreg sp 0 }
    ensures data_after { «data».new ≡ bytes_stored at (slice_index regs.now (d5 opcode)) «data».old }
{
    set_data_space(at, memory::read(regs, d5(opcode) as usize), sreg, sp, data)
}

// The pointer, one lower where dec.
pub fn pointed(regs: &[u8], pointer: u8, dec: bool) -> u16
    ensures { result ≡ pointed_at regs.now pointer dec }
{
    let address = memory::read_word(regs, pointer as usize);
    if dec {
        address.wrapping_sub(1)
    } else {
        address
    }
}

fn set_word_if(regs: &mut [u8], on: bool, pointer: u8, address: u16)
    ensures { regs.new ≡ pointer_set regs.old on pointer address }
{
    if on {
        put_word(regs, pointer, address);
    }
}

pub(crate) fn ld(
    regs: &mut [u8],
    opcode: u16,
    pointer: u8,
    q: u8,
    dec: bool,
    inc: bool,
    sreg: u8,
    sp: u16,
    chip: bool,
    data: &[u8],
) -> u8
    ensures value { result ≡ load_waits chip }
    ensures regs_after { regs.new ≡ loaded regs.old (d5 opcode) pointer q dec inc sreg sp «data».now }
{
    let address = pointed(regs, pointer, dec);
    set_word_if(regs, dec, pointer, address);
    let value = get_data_space(address as usize + q as usize, sreg, sp, data);
    memory::write(regs, d5(opcode) as usize, value);
    set_word_if(regs, inc, pointer, address.wrapping_add(1));
    rule::load_waits(chip)
}

pub(crate) fn st(
    regs: &mut [u8],
    opcode: u16,
    pointer: u8,
    q: u8,
    dec: bool,
    inc: bool,
    sreg: u8,
    sp: u16,
    chip: bool,
    data: &mut [u8],
) -> Left
    ensures value { result ≡ left_by (pointed_at regs.old pointer dec + q) (slice_index (lowered regs.old pointer dec) (d5 opcode)) sreg sp (store_waits chip) }
    ensures regs_after { regs.new ≡ pointer_set (lowered regs.old pointer dec) inc pointer (up (pointed_at regs.old pointer dec) 1) }
    ensures data_after { «data».new ≡ bytes_stored (pointed_at regs.old pointer dec + q) (slice_index (lowered regs.old pointer dec) (d5 opcode)) «data».old }
{
    let address = pointed(regs, pointer, dec);
    set_word_if(regs, dec, pointer, address);
    let stored = store_from(regs, opcode, address as usize + q as usize, sreg, sp, data);
    set_word_if(regs, inc, pointer, address.wrapping_add(1));
    leaves(stored.sreg, stored.sp, rule::store_waits(chip))
}

pub(crate) fn lpm(regs: &mut [u8], d: u8, inc: bool, program: &[u8]) -> u8
    ensures value { result ≡ 2 }
    ensures regs_after { regs.new ≡ (let at = word_of regs.old 30 in pointer_set (slice_set regs.old d (slice_index program.now at)) inc 30 (up at 1)) }
{
    let address = memory::read_word(regs, pointer::Z as usize);
    memory::write(regs, d as usize, memory::read(program, address as usize));
    set_word_if(regs, inc, pointer::Z, address.wrapping_add(1));
    2
}

// CBI and SBI: the bit of the data byte that the word names.
pub(crate) fn set_io_bit(data: &mut [u8], opcode: u16, on: bool)
    ensures { «data».new ≡ bit_set_of «data».old (A5 opcode) (b3 opcode) on }
{
    memory::set_bit(data, A5(opcode) as usize, b3(opcode), on);
}
