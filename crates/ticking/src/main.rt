// 01's bench loop, for bench/: one core, lent to every tick. So many ticks of an image from a fresh core, with no offer, whatever they answer; prints PC and R16 after them.
// Standard input: the ticks as 32 bits, high byte first, then the image.
#![tactic(auto)]

ghost use Rattle.std.specs.Prelude.{◌≡◌};
ghost use Rattle.ticking.specs.After.{after_of};

use cores::Core;
use std::io::{self, Read};

fn after(first: Core, program: &[u8], data: &mut [u8], offer: Option<u16>, ticks: u32) -> Core
    ensures { record { core = result; bytes = «data».new } ≡ after_of ticks first program.now «data».old offer }
{
    let mut core = first;
    for _ in 0..ticks {
        tick::tick_in_place(&mut core, program, data, offer);
    }
    core
}

fn main(rt: HostRuntime) -> io::Result<()> {
    let mut input = Vec::new(rt.alloc());
    rt.reader().take(4 + 131072).read_to_end(&mut input)?;
    let ticks = u32::from_be_bytes([
        memory::read(&input, 0),
        memory::read(&input, 1),
        memory::read(&input, 2),
        memory::read(&input, 3),
    ]);
    let mut data = [0u8; 16384];
    let last = after(
        Core::fresh(0),
        input.get(4..).unwrap_or(&[]),
        &mut data,
        None,
        ticks,
    );
    println!(rt; "{} {}", last.pc, last.get_register(16))
}
