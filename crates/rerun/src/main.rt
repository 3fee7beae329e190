// Runs the image and the schedule on standard input from the state there, and writes the state that it leads to.
#![tactic(auto)]

use std::io::{self, Read};

// The head and a core, the entries of 65,536 records, data, a HEX text and a schedule.
const INPUT: u64 = 62 + 4 * 65536 + 65536 + 1048576 + 1048576;
// An answer, a state and the list of 65,536 records.
const OUTPUT: usize = 48 + 4 * 65536 + 65536 + 5 * 65536;

fn main(rt: HostRuntime) -> io::Result<()> {
    let mut input = Vec::new(rt.alloc());
    rt.reader().take(INPUT).read_to_end(&mut input)?;
    let mut out = vec![in rt.alloc(); 0u8; OUTPUT]?;
    let end = rerunning::rerun(&input, &mut out);
    rt.write_all(&out[..end])
}
