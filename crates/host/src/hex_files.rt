// HEX files, for C. A refused call changes no byte of the buffer.
ghost use Rattle.std.specs.Prelude.{◌≡◌, length};
ghost use Rattle.intel_hex.specs.Reading.{read_of, program_of};
ghost use Rattle.intel_hex.specs.Writing.{write_of, buffer_of};

// A text into `program`. `line` gets the number of the refused line, 0 where nothing is refused.
pub fn avr_hex_read(text: &[u8], program: &mut [u8], line: &mut usize) -> u32
    ensures value { result ≡ (read_of text.now (length program.old)).refusal }
    ensures program_after { program.new ≡ program_of text.now program.old }
    ensures line_after { line.new ≡ (read_of text.now (length program.old)).line }
{
    match intel_hex::read(text, program) {
        Ok(()) => {
            *line = 0;
            0
        }
        Err(error) => {
            *line = error.line();
            u8::from(error) as u32
        }
    }
}

// A program as a text. `written` gets the text's length, 0 where it is refused.
pub fn avr_hex_write(program: &[u8], text: &mut [u8], written: &mut usize) -> u32
    ensures value { result ≡ (write_of program.now (length text.old)).refusal }
    ensures text_after { text.new ≡ buffer_of program.now text.old }
    ensures written_after { written.new ≡ (write_of program.now (length text.old)).length }
{
    match intel_hex::write(program, text) {
        Ok(length) => {
            *written = length;
            0
        }
        Err(error) => {
            *written = 0;
            u8::from(error) as u32
        }
    }
}
