// Why a file is not read, and why none is written.
ghost use Rattle.std.specs.Prelude.{◌≡◌};
ghost use Rattle.intel_hex.specs.Reading as reading;
ghost use Rattle.intel_hex.specs.Writing as writing;

use hex_line::LineFault;

#[derive(Clone, Copy, Debug, PartialEq, Eq)]
pub enum ReadError {
    // The first faulty line, and its lowest fault.
    Fault { line: usize, fault: LineFault },
    // No end record, at the line after the last; or the line behind one.
    End { line: usize },
    TooLarge,
}

impl ReadError {
    // Lines are counted from 1; 0 is before any line.
    pub fn line(self) -> usize
        ensures { result ≡ reading.line_of self }
    {
        match self {
            ReadError::Fault { line, .. } | ReadError::End { line } => line,
            ReadError::TooLarge => 0,
        }
    }
}

impl From<ReadError> for u8 {
    ghost from_gives = { λ error n. n ≡ reading.number_of error };

    fn from(error: ReadError) -> u8 {
        match error {
            ReadError::Fault { fault, .. } => u8::from(fault),
            ReadError::End { .. } => 56,
            ReadError::TooLarge => 57,
        }
    }
}

#[derive(Clone, Copy, Debug, PartialEq, Eq)]
pub enum WriteError {
    TooLarge,
    NoRoom,
}

impl From<WriteError> for u8 {
    ghost from_gives = { λ error n. n ≡ writing.number_of error };

    fn from(error: WriteError) -> u8 {
        match error {
            WriteError::TooLarge => 57,
            WriteError::NoRoom => 58,
        }
    }
}
