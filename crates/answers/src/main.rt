// Answers cases from standard input, one after another: a snapshot, then offer, program length and data length, then program and data.
#![tactic(auto)]

use std::io::{self, BufReader, BufWriter, ErrorKind, Read, Write};

// The input and the output, each behind a buffer.
#[derive(Drop)]
struct Pipe<R: Read + Drop, W: Write + Drop> {
    input: BufReader<R>,
    output: BufWriter<W>,
}

impl<R: Read + Drop, W: Write + Drop> Pipe<R, W> {
    // Whether the input fills `bytes`. What was written goes out before a wait for input.
    fn fill(&mut self, bytes: &mut [u8]) -> io::Result<bool> {
        if self.input.buffer().len() < bytes.len() {
            self.output.flush()?;
        }
        match self.input.read_exact(bytes) {
            Ok(()) => Ok(true),
            Err(e) if e.kind() == ErrorKind::UnexpectedEof => Ok(false),
            Err(e) => Err(e),
        }
    }

    // One case; whether another may follow. A length above the limits writes 255.
    fn answer(&mut self, program: &mut [u8], data: &mut [u8]) -> io::Result<bool> {
        let mut snapshot = [0u8; 38];
        let mut numbers = [0u8; 12];
        if !self.fill(&mut snapshot)? || !self.fill(&mut numbers)? {
            return Ok(false);
        }
        let offer = number(&numbers, 0);
        let size = number(&numbers, 4) as usize;
        let room = number(&numbers, 8) as usize;
        if size > program.len() || room > data.len() {
            self.output.write_all(&[255])?;
            return Ok(false);
        }
        let (program, data) = (&mut program[..size], &mut data[..room]);
        if !self.fill(program)? || !self.fill(data)? {
            return Ok(false);
        }
        let answer = host::avr_tick(&mut snapshot, program, data, offer);
        self.output.write_all(&[(answer % 256) as u8])?;
        self.output.write_all(&snapshot)?;
        self.output.write_all(data)?;
        Ok(true)
    }
}

// The 32-bit number at `at`, high byte first.
fn number(bytes: &[u8], at: u8) -> u32 {
    let at = at as usize;
    u32::from_be_bytes([
        memory::read(bytes, at),
        memory::read(bytes, at + 1),
        memory::read(bytes, at + 2),
        memory::read(bytes, at + 3),
    ])
}

fn main(rt: HostRuntime) -> io::Result<()> {
    let mut pipe = Pipe {
        input: BufReader::with_capacity(rt.alloc(), 65536, rt.reader())?,
        output: BufWriter::with_capacity(rt.alloc(), 65536, io::writer(&rt))?,
    };
    let mut program = vec![in rt.alloc(); 0u8; 131072]?;
    let mut data = vec![in rt.alloc(); 0u8; 66000]?;
    // counted only so that the loop is shown to end
    for _ in 0..u64::MAX {
        if !pipe.answer(&mut program, &mut data)? {
            break;
        }
    }
    pipe.output.flush()
}
