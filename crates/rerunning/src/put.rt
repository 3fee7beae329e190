// Numbers put on a page, four bytes each, high byte first.
ghost use Rattle.std.specs.Prelude.{◌∷◌};
ghost use Rattle.page.specs.Gains.{Gains};
ghost use Rattle.rerunning.specs.Rerun.{four, fours};

use page::Page;

pub fn put_number(page: &mut Page<'_>, n: usize)
    ensures { Gains page.old (four n) page.new }
{
    page.put_text(&n.to_be_bytes()[4..]);
}

pub fn put_numbers(page: &mut Page<'_>, numbers: &[u32])
    ensures { Gains page.old (fours numbers.now) page.new }
{
    for n in numbers {
        put_number(page, *n as usize);
    }
}

// A refusal of a text: which text, the number and the line.
pub fn put_refusal(page: &mut Page<'_>, text: u8, number: u8, line: usize)
    ensures { Gains page.old (text ∷ number ∷ four line) page.new }
{
    page.put_byte(text);
    page.put_byte(number);
    put_number(page, line);
}
