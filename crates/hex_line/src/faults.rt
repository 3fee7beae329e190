// A line judged: document 02's refusals 50 to 55, the later ones of a line whose characters belong.
ghost use Rattle.std.specs.Prelude.{◌≡◌, true, false, drop, MatchResult};
ghost use Rattle.hex_line.specs.Line.{all_digits, wrong_character, wrong_length, wrong_sum, wrong_type, outside, falls, fault_of, number_of, number_said};

use crate::digits::pair;
use crate::records::{address, count, kind};

// What is wrong with a line.
#[derive(Clone, Copy, Debug, PartialEq, Eq)]
pub enum LineFault {
    Character,
    Length,
    Sum,
    Kind,
    Outside,
    Falls,
}

impl From<LineFault> for u8 {
    ghost from_gives = { λ fault n. n ≡ number_of fault };

    fn from(fault: LineFault) -> u8 {
        match fault {
            LineFault::Character => 50,
            LineFault::Length => 51,
            LineFault::Sum => 52,
            LineFault::Kind => 53,
            LineFault::Outside => 54,
            LineFault::Falls => 55,
        }
    }
}

// A line that is all digits behind its first character.
#[derive(Clone, Copy)]
struct Record<'a> {
    line: &'a [u8],
    ghost digits: { all_digits (drop 1 line.now) ≡ true },
}

fn wrong_character(line: &[u8]) -> bool
    ensures { result ≡ wrong_character line.now }
{
    let Some((colon, digits)) = line.split_first() else {
        return false;
    };
    let mut right = *colon == b':';
    for c in digits {
        // no way out of the loop, so that many characters are looked at at once
        right &= c.is_ascii_hexdigit();
    }
    !right
}

impl<'a> Record<'a> {
    fn of(line: &'a [u8]) -> Result<Record<'a>, LineFault>
        ensures { MatchResult result (λ r. (r.line.now ≡ line.now) × (wrong_character line.now ≡ false)) (λ e. (e ≡ LineFault.Character) × (wrong_character line.now ≡ true)) }
    {
        if wrong_character(line) {
            return Err(LineFault::Character);
        }
        Ok(Record { line })
    }

    fn wrong_length(&self) -> bool
        ensures { result ≡ wrong_length self.now.line.now }
    {
        let n = count(self.line);
        (self.line.len() != n as usize * 2 + 11) | (kind(self.line) == 1) & (0 < n)
    }

    fn wrong_sum(&self) -> bool
        ensures { result ≡ wrong_sum self.now.line.now }
    {
        let Some((_, digits)) = self.line.split_first() else {
            return false;
        };
        let mut sum: u8 = 0;
        for two in digits.chunks_exact(2) {
            sum = sum.wrapping_add(pair(two[0], two[1]));
        }
        sum != 0
    }

    fn wrong_type(&self) -> bool
        ensures { result ≡ wrong_type self.now.line.now }
    {
        1 < kind(self.line)
    }

    fn outside(&self, size: usize) -> bool
        ensures { result ≡ outside size self.now.line.now }
    {
        let at = address(self.line) as usize;
        let n = count(self.line) as usize;
        (0 < n) & (size < at + n)
    }

    fn falls(&self, end: usize) -> bool
        ensures { result ≡ falls end self.now.line.now }
    {
        let at = address(self.line) as usize;
        (kind(self.line) != 1) & (at < end)
    }
}

// The lowest fault of a line, for a buffer of `size` bytes, where the data line before ended at `end`.
#[tactic(auto, unfolding(crate::specs::Line::fault_of))]
pub fn fault(line: &[u8], size: usize, end: usize) -> Result<(), LineFault>
    ensures { number_said result ≡ fault_of size end line.now }
{
    let record = Record::of(line)?;
    if record.wrong_length() {
        return Err(LineFault::Length);
    }
    if record.wrong_sum() {
        return Err(LineFault::Sum);
    }
    if record.wrong_type() {
        return Err(LineFault::Kind);
    }
    if record.outside(size) {
        return Err(LineFault::Outside);
    }
    if record.falls(end) {
        return Err(LineFault::Falls);
    }
    Ok(())
}
