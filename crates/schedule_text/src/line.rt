// A line by its form: blanks, a tick, blanks, a vector, blanks, a remark.
ghost use Rattle.std.specs.Prelude.{◌≡◌, drop};
ghost use Rattle.schedule_text.specs.Reading.{blanks, is_over, firing_of, line_of};
ghost use Rattle.schedule_text.specs.Judged.{firing_said, line_said};

use crate::Fault;
use crate::number::number;

// A record as a line says it.
#[derive(Clone, Copy)]
pub struct Firing {
    pub tick: u32,
    pub vector: u32,
}

// What stands behind the blanks in front.
fn past_blanks(text: &[u8]) -> &[u8]
    ensures { result.now ≡ drop (blanks text.now) text.now }
{
    for (n, c) in text.iter().enumerate() {
        if (*c != b' ') & (*c != b'\t') {
            return &text[n..];
        }
    }
    &text[text.len()..]
}

// Whether nothing stands here but a remark.
fn is_over(text: &[u8]) -> bool
    ensures { result ≡ is_over text.now }
{
    matches!(text, [] | [b'#', ..])
}

// A tick and a vector, and nothing else.
fn two_numbers(text: &[u8]) -> Option<Firing>
    ensures { firing_said result ≡ firing_of text.now }
{
    let (tick, behind) = number(text)?;
    let second = past_blanks(behind);
    let (vector, end) = number(second)?;
    if (second.len() < behind.len()) & is_over(past_blanks(end)) {
        Some(Firing { tick, vector })
    } else {
        None
    }
}

#[tactic(auto, unfolding(crate::specs::Reading::line_of))]
pub fn said_by(line: &[u8]) -> Result<Option<Firing>, Fault>
    ensures { result ≡ line_said (line_of line.now) }
{
    let bare = past_blanks(line);
    if is_over(bare) {
        return Ok(None);
    }
    let said = two_numbers(bare).ok_or(Fault::Form)?;
    Ok(Some(said))
}
