// Prints the trace of the image on standard input.
#![tactic(auto)]

use std::io::{self, Read};

// Three numbers and the longest program.
const IMAGE: u64 = 6 + 49152;
// The longest trace: a line for each tick of the largest budget.
const TEXT: usize = 65535 * 36;

// list and rerun have such a main too: one for all would be public, could promise nothing of what is written, and would have to test `end`.
fn main(rt: HostRuntime) -> io::Result<()> {
    let mut input = Vec::new(rt.alloc());
    rt.reader().take(IMAGE).read_to_end(&mut input)?;
    let mut out = vec![in rt.alloc(); 0u8; TEXT]?;
    let end = tracing::trace(&input, &mut out);
    rt.write_all(&out[..end])
}
