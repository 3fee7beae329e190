// Prints the image that the HEX file on standard input says. Where it is refused, a line with the number and the refused line comes out instead, and no image.
#![tactic(auto)]

use hex_line::LineFault;
use intel_hex::ReadError;
use std::io::{self, Read};

// The longest program that `trace` takes.
const IMAGE: usize = 49152;
// A byte more than the longest file. A line for each byte of an image, with CR LF, takes 737,293 bytes.
const TEXT: usize = 1048576 + 1;

fn say_refused(rt: &impl Print, error: ReadError) -> io::Result<()> {
    let refusal = u8::from(error);
    let line = error.line();
    println!(rt; "refused-{refusal} at line {line}")?;
    if let ReadError::Fault {
        fault: LineFault::Kind,
        ..
    } = error
    {
        println!(rt;
            "avr-objcopy --set-start 0 leaves out type 03, srec_cat -address-length=2 type 04"
        )?;
    }
    Ok(())
}

fn convert(rt: &impl Print, text: &[u8], image: &mut [u8]) -> io::Result<()> {
    if text.len() == TEXT {
        return println!(rt; "too long: a file has at most 1,048,576 bytes");
    }
    match intel_hex::read(text, image) {
        Ok(()) => rt.write_all(image),
        Err(error) => say_refused(rt, error),
    }
}

fn main(rt: HostRuntime) -> io::Result<()> {
    let mut text = Vec::new(rt.alloc());
    rt.reader().take(TEXT as u64).read_to_end(&mut text)?;
    let mut image = vec![in rt.alloc(); 0u8; IMAGE]?;
    convert(&rt, &text, &mut image)
}
