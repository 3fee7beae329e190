// Prints the listing of the program on standard input.
#![tactic(auto)]

use std::io::{self, Read};

// A byte more than has word addresses.
const PROGRAM: u64 = 131072 + 1;
// The longest listing: a line for each word.
const TEXT: usize = 65536 * 49;

fn main(rt: HostRuntime) -> io::Result<()> {
    let mut program = Vec::new(rt.alloc());
    rt.reader().take(PROGRAM).read_to_end(&mut program)?;
    let mut out = vec![in rt.alloc(); 0u8; TEXT]?;
    let end = listing::list(&program, &mut out);
    rt.write_all(&out[..end])
}
