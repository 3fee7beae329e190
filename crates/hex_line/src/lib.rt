// A line of an Intel HEX file: found in a text, its record read, and judged.
#![tactic(auto)]

mod digits;
mod faults;
mod lines;
mod records;

pub use faults::{LineFault, fault};
pub use lines::{Lines, end_length, line_at};
pub use records::{address, byte, count, kind};

// Where a line's characters end, and where the next line starts.
#[derive(Clone, Copy)]
pub struct Line {
    pub stop: usize,
    pub next: usize,
}
