// An operand's text.
ghost use Rattle.std.specs.Prelude.{◌≡◌};
ghost use Rattle.page.specs.Gains.{Gains};
ghost use Rattle.listing.specs.Listing.{ahead, register_text, pair_text, byte_text, word_text, target_text, displaced_text, operand_text};

use page::Page;

#[derive(Clone, Copy)]
pub(crate) enum Operand {
    Register(u8),
    Pair(u8), // the lower register of two
    Byte(u8), // a constant or an I/O address
    Word(u16), // a data address, or a word that is no instruction
    Target(u32), // the 22 bits of CALL and JMP
    Number(u8), // a bit or a flag
    Branch(u8),
    Relative(u16),
    X,
    XInc,
    XDec,
    YInc,
    YDec,
    YPlus(u8),
    Z,
    ZInc,
    ZDec,
    ZPlus(u8),
}

// Where an offset leads from the instruction at this word address.
fn ahead(pc: u16, offset: u16) -> u16
    ensures { result ≡ ahead pc offset }
{
    pc.wrapping_add(1).wrapping_add(offset)
}

fn put_register(page: &mut Page<'_>, d: u16)
    ensures { Gains page.old (register_text d) page.new }
{
    page.put_byte(b'R');
    page.put_decimal(d);
}

fn put_pair(page: &mut Page<'_>, d: u8)
    ensures { Gains page.old (pair_text d) page.new }
{
    put_register(page, d as u16 + 1);
    page.put_byte(b':');
    put_register(page, d as u16);
}

fn put_byte_number(page: &mut Page<'_>, x: u8)
    ensures { Gains page.old (byte_text x) page.new }
{
    page.put_text(b"0x");
    page.put_hex2(x);
}

fn put_word_number(page: &mut Page<'_>, x: u16)
    ensures { Gains page.old (word_text x) page.new }
{
    page.put_text(b"0x");
    page.put_hex4(x);
}

fn put_target(page: &mut Page<'_>, k: u32)
    ensures { Gains page.old (target_text k) page.new }
{
    put_byte_number(page, (k / 65536 % 256) as u8);
    page.put_hex4((k % 65536) as u16);
}

fn put_displaced(page: &mut Page<'_>, pointer: u8, q: u8)
    ensures { Gains page.old (displaced_text pointer q) page.new }
{
    page.put_byte(pointer);
    page.put_byte(b'+');
    page.put_decimal(q as u16);
}

pub(crate) fn put_operand(page: &mut Page<'_>, pc: u16, operand: Operand)
    ensures { Gains page.old (operand_text pc operand) page.new }
{
    match operand {
        Operand::Register(d) => put_register(page, d as u16),
        Operand::Pair(d) => put_pair(page, d),
        Operand::Byte(x) => put_byte_number(page, x),
        Operand::Word(k) => put_word_number(page, k),
        Operand::Target(k) => put_target(page, k),
        Operand::Number(b) => page.put_decimal(b as u16),
        Operand::Branch(k) => put_word_number(page, ahead(pc, alu::signed(k))),
        Operand::Relative(k) => put_word_number(page, ahead(pc, k)),
        Operand::X => page.put_text(b"X"),
        Operand::XInc => page.put_text(b"X+"),
        Operand::XDec => page.put_text(b"-X"),
        Operand::YInc => page.put_text(b"Y+"),
        Operand::YDec => page.put_text(b"-Y"),
        Operand::YPlus(q) => put_displaced(page, b'Y', q),
        Operand::Z => page.put_text(b"Z"),
        Operand::ZInc => page.put_text(b"Z+"),
        Operand::ZDec => page.put_text(b"-Z"),
        Operand::ZPlus(q) => put_displaced(page, b'Z', q),
    }
}
