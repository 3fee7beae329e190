// The lines of a program, one behind the other.
ghost use Rattle.std.specs.Prelude.{◌≤◌, length};
ghost use Rattle.page.specs.Gains.{Gains};
ghost use Rattle.listing.specs.Listing.{lines_of, text_of};

use crate::line::put_line;
use crate::row::Row;
use page::Page;

pub(crate) fn put_lines(page: &mut Page<'_>, program: &[u8])
    requires { length program.now ≤ 131072 }
    ensures { Gains page.old (text_of (lines_of program.now)) page.new }
{
    let mut pc: u32 = 0;
    // no `for`: a row says how far the next one stands, and an iterator of rows would hold this `pc` and this test
    while pc as usize * 2 < program.len() {
        let row = Row::at(program, pc as u16);
        put_line(page, pc as u16, row);
        pc += row.words();
    }
}
