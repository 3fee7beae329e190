// A program as text (02, W8): a line an instruction, with its word address, its words, its name and its operands.
#![tactic(auto)]

ghost use Rattle.page.specs.Gains.{Gains};
ghost use Rattle.page.specs.Page.{Prints};
ghost use Rattle.listing.specs.Listing.{listing_of};

use page::Page;

mod line;
mod lines;
mod operand;
mod row;
mod shown;

// Bytes past these have no word address.
const MOST: usize = 131072;

// The text into `out`, as far as it fits; how many bytes that is.
pub fn list(program: &[u8], out: &mut [u8]) -> usize
    ensures { Prints (listing_of program.now) out.old result out.new }
{
    let mut page = Page { out, at: 0 };
    put_listing(&mut page, program);
    page.at
}

fn put_listing(page: &mut Page<'_>, program: &[u8])
    ensures { Gains page.old (listing_of program.now) page.new }
{
    if program.len() > MOST {
        page.put_text(b"bad input\n");
    } else {
        lines::put_lines(page, program);
    }
}
