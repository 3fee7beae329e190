// Intel HEX files: read into a lent program, and written from one.
#![tactic(auto)]

ghost use Rattle.std.specs.Prelude.{◌≡◌, length};
ghost use Rattle.intel_hex.specs.Reading.{read_of, read_said, program_of};
ghost use Rattle.intel_hex.specs.Writing.{write_of, write_said, buffer_of};

pub use errors::{ReadError, WriteError};

pub mod check;
mod errors;
mod fill;
mod put;

// Every line is checked before the first byte is filled, so that a refused text leaves the program as it was.
pub fn read(text: &[u8], program: &mut [u8]) -> Result<(), ReadError>
    ensures value { read_said result ≡ read_of text.now (length program.old) }
    ensures program_after { program.new ≡ program_of text.now program.old }
{
    if program.len() > 65536 {
        return Err(ReadError::TooLarge);
    }
    check::check(text, program.len())?;
    fill::fill(text, program);
    Ok(())
}

// The text's length, which is known before the first byte of it is written.
pub fn write(program: &[u8], text: &mut [u8]) -> Result<usize, WriteError>
    ensures value { write_said result ≡ write_of program.now (length text.old) }
    ensures text_after { text.new ≡ buffer_of program.now text.old }
{
    let size = program.len();
    if size > 65536 {
        return Err(WriteError::TooLarge);
    }
    let length = size * 2 + size.div_ceil(16) * 12 + 12;
    if text.len() < length {
        return Err(WriteError::NoRoom);
    }
    put::put_text(program, text);
    Ok(length)
}
