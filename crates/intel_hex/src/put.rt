// A text put line by line into a lent buffer that has room for it.
ghost use Rattle.std.specs.Prelude.{◌≡◌, ◌++◌, [], ◌∷◌, ◌+◌, ◌*◌, ◌%◌, ◌<◌, ◌≤◌, length, set};
ghost use Rattle.std.proofs.lemmas.List.Edits.{sets};
ghost use Rattle.hex_line.specs.Line.{sum_of};
ghost use Rattle.intel_hex.specs.Writing.{digits_of, sum_from, line_of, text_of};

use basis::hex_digit;

// A buffer, and where the next character goes.
#[derive(Drop)]
struct Page<'a> {
    out: &'a mut [u8],
    at: usize,
}

impl<'a> Page<'a> {
    fn put(&mut self, c: u8)
        requires { self.old.at < length self.old.out.now }
        ensures out { self.new.out.now ≡ set self.old.out.now self.old.at c }
        ensures at { self.new.at ≡ self.old.at + 1 }
        ensures same { self.new.out.ghost_name ≡ self.old.out.ghost_name }
    {
        self.out[self.at] = c;
        self.at += 1;
    }

    fn put_hex(&mut self, b: u8)
        requires { self.old.at + 2 ≤ length self.old.out.now }
        ensures out { self.new.out.now ≡ sets self.old.out.now self.old.at (digits_of (b ∷ [])) }
        ensures at { self.new.at ≡ self.old.at + 2 }
        ensures same { self.new.out.ghost_name ≡ self.old.out.ghost_name }
    {
        self.put(hex_digit(b / 16));
        self.put(hex_digit(b));
    }

    fn put_digits(&mut self, bytes: &[u8])
        requires { self.old.at + length bytes.now * 2 ≤ length self.old.out.now }
        ensures out { self.new.out.now ≡ sets self.old.out.now self.old.at (digits_of bytes.now) }
        ensures at { self.new.at ≡ self.old.at + length bytes.now * 2 }
        ensures same { self.new.out.ghost_name ≡ self.old.out.ghost_name }
    {
        for b in bytes {
            self.put_hex(*b);
        }
    }

    // A line, its LF too.
    fn put_line(&mut self, kind: u8, address: u16, bytes: &[u8])
        requires { (self.old.at + length bytes.now * 2 + 12 ≤ length self.old.out.now) × (length bytes.now ≤ 255) }
        ensures out { self.new.out.now ≡ sets self.old.out.now self.old.at (line_of kind address bytes.now ++ (10 ∷ [])) }
        ensures at { self.new.at ≡ self.old.at + length bytes.now * 2 + 12 }
        ensures same { self.new.out.ghost_name ≡ self.old.out.ghost_name }
    {
        let [high, low] = address.to_be_bytes();
        let head = [bytes.len() as u8, high, low, kind];
        self.put(b':');
        self.put_digits(&head);
        self.put_digits(bytes);
        self.put_hex(sum_byte(&head, bytes));
        self.put(b'\n');
    }
}

#[tactic(auto, using(crate::proofs::Pieces::fold_sum))]
fn sum(bytes: &[u8]) -> u8
    ensures { result ≡ sum_of bytes.now % 256 }
{
    bytes.iter().fold(0u8, |sum, b| sum.wrapping_add(*b))
}

// The byte that makes the line's sum 0.
fn sum_byte(head: &[u8], bytes: &[u8]) -> u8
    ensures { result ≡ sum_from (sum_of head.now + sum_of bytes.now) }
{
    sum(head).wrapping_add(sum(bytes)).wrapping_neg()
}

// The whole text of a program.
pub(crate) fn put_text(program: &[u8], out: &mut [u8])
    requires { (length program.now ≤ 65536) × (length (text_of program.now) ≤ length out.old) }
    ensures { out.new ≡ sets out.old 0 (text_of program.now) }
{
    let mut page = Page { out, at: 0 };
    let mut address: u16 = 0;
    for bytes in program.chunks(16) {
        page.put_line(0, address, bytes);
        address = address.wrapping_add(16);
    }
    page.put_line(1, 0, &[]);
}
