// A line: the word address, the words, and what they say, from the sixteenth column on.
ghost use Rattle.page.specs.Gains.{Gains};
ghost use Rattle.listing.specs.Listing.{row_text, line_text};
ghost use Rattle.listing.specs.Shown.{said_of};

use crate::operand::put_operand;
use crate::row::Row;
use crate::shown::{Shown, shown_of};
use page::Page;

fn put_shown(page: &mut Page<'_>, pc: u16, shown: Shown)
    ensures { Gains page.old (said_of pc shown) page.new }
{
    match shown {
        Shown::Bare(name) => page.put_text(name),
        Shown::One(name, first) => {
            page.put_text(name);
            page.put_byte(b' ');
            put_operand(page, pc, first);
        }
        Shown::Two(name, first, second) => {
            page.put_text(name);
            page.put_byte(b' ');
            put_operand(page, pc, first);
            page.put_text(b", ");
            put_operand(page, pc, second);
        }
    }
}

fn put_row(page: &mut Page<'_>, pc: u16, row: Row)
    ensures { Gains page.old (row_text pc row) page.new }
{
    match row {
        Row::Lone(b) => {
            page.put_hex2(b);
            page.put_text(b"        .byte 0x");
            page.put_hex2(b);
        }
        Row::Single(w, op) => {
            page.put_hex4(w);
            page.put_text(b"      ");
            put_shown(page, pc, shown_of(op, w));
        }
        Row::Double(w, s, op) => {
            page.put_hex4(w);
            page.put_byte(b' ');
            page.put_hex4(s);
            page.put_byte(b' ');
            put_shown(page, pc, shown_of(op, w));
        }
    }
}

pub(crate) fn put_line(page: &mut Page<'_>, pc: u16, row: Row)
    ensures { Gains page.old (line_text pc row) page.new }
{
    page.put_hex4(pc);
    page.put_byte(b' ');
    put_row(page, pc, row);
    page.put_byte(b'\n');
}
