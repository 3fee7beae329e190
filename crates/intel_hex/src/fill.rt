// The second pass: the bytes that the lines name, of a text that was checked.
ghost use Rattle.std.specs.Prelude.{◌≡◌, length, replicate};
ghost use Rattle.std.proofs.lemmas.List.Edits.{sets};
ghost use Rattle.hex_line.specs.Line.{lines_of, address_of, data_of};
ghost use Rattle.hex_line.specs.Way.{Fits};
ghost use Rattle.intel_hex.specs.Reading.{checked, filled};

use hex_line::{address, byte, count, end_length};

fn fill_line(line: &[u8], program: &mut [u8])
    requires { Fits (length program.old) line.now }
    ensures { program.new ≡ sets program.old (address_of line.now) (data_of line.now) }
{
    let at = address(line) as usize;
    for j in 0..count(line) {
        program[at + j as usize] = byte(line, j as u16 + 4);
    }
}

pub(crate) fn fill(text: &[u8], program: &mut [u8])
    requires { (checked (length program.old) 1 0 (lines_of text.now)).refusal ≡ 0 }
    ensures { program.new ≡ filled (lines_of text.now) (replicate (length program.old) 255) }
{
    program.fill(255);
    let mut rest = text;
    while !rest.is_empty() {
        // no search for the line's end: a line without a fault is as long as its count says
        let (line, behind) = rest.split_at(count(rest) as usize * 2 + 11);
        fill_line(line, program);
        rest = &behind[end_length(behind, 0)..];
    }
}
