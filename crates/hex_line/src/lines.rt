// The lines of a text.
ghost use Rattle.std.specs.Prelude.{◌≡◌, drop};
ghost use Rattle.hex_line.specs.Line.{lines_of};
ghost use Rattle.hex_line.specs.Way.{end_length, line_at};

use crate::Line;

// How long the line's end is that stands here: an LF 1, a CR and an LF 2, anything else 0.
pub fn end_length(text: &[u8], at: usize) -> usize
    ensures { result ≡ end_length (drop at text.now) }
{
    match text.get(at) {
        Some(b'\n') => 1,
        Some(b'\r') => if text.get(at + 1) == Some(&b'\n') {
            2
        } else {
            0
        },
        _ => 0,
    }
}

// The line that starts at `at`.
pub fn line_at(text: &[u8], at: usize) -> Line
    ensures { result ≡ line_at text.now at }
{
    let end = text.len().max(at);
    for i in at..end {
        let n = end_length(text, i);
        if n > 0 {
            return Line {
                stop: i,
                next: i + n,
            };
        }
    }
    Line {
        stop: end,
        next: end,
    }
}

// The lines of a text, one after another: a text of no bytes has none.
#[derive(Clone, Copy)]
pub struct Lines<'a> {
    rest: &'a [u8],
}

impl<'a> Lines<'a> {
    ghost use Rattle.hex_line.specs.Left.{lines_left, text_left};

    pub fn of(text: &'a [u8]) -> Lines<'a>
        ensures text { text_left result ≡ text.now }
        ensures lines { lines_left result ≡ lines_of text.now }
    {
        Lines { rest: text }
    }
}

impl<'a> Iterator for Lines<'a> {
    ghost use Rattle.std.specs.Iterator.{item_count};
    ghost use Rattle.hex_line.specs.Left.{GivesLine, lines_left};

    type Item = &'a [u8];

    ghost next_gives = { GivesLine };

    ghost remaining = { item_count lines_left };

    fn next(&mut self) -> Option<&'a [u8]> {
        let text = self.rest;
        if text.is_empty() {
            return None;
        }
        let Line { stop, next } = line_at(text, 0);
        self.rest = &text[next..];
        Some(&text[..stop])
    }
}
