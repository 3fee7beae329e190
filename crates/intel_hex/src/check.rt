// The first pass: the first faulty line. Nothing is written.
ghost use Rattle.std.specs.Prelude.{◌≡◌};
ghost use Rattle.hex_line.specs.Line.{lines_of};
ghost use Rattle.intel_hex.specs.Reading.{checked, read_said};

use crate::errors::ReadError;
use hex_line::{Lines, address, count, fault, kind};

// Whether a text can be read into a program of `size` bytes.
pub fn check(text: &[u8], size: usize) -> Result<(), ReadError>
    ensures { read_said result ≡ checked size 1 0 (lines_of text.now) }
{
    let mut lines = Lines::of(text);
    let mut end: usize = 0;
    let mut number: usize = 1;
    // no `for`: the line behind an end record is asked for in the loop
    while let Some(line) = lines.next() {
        if let Err(fault) = fault(line, size, end) {
            return Err(ReadError::Fault {
                line: number,
                fault,
            });
        }
        number += 1;
        if kind(line) == 1 {
            return match lines.next() {
                None => Ok(()),
                Some(_) => Err(ReadError::End { line: number }),
            };
        }
        end = address(line) as usize + count(line) as usize;
    }
    Err(ReadError::End { line: number })
}
