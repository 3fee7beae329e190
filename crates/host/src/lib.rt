// The calls of the C interface, which crates/host_c exports: the tick and the run over a snapshot, and HEX files. Numbers are 01's and 02's; 65,536 is no offer.
#![tactic(auto)]

ghost use Rattle.std.specs.Prelude.{◌≡◌};
ghost use Rattle.host.specs.Host.{offer_of, avr_tick_of, avr_run_of, Tells, TellsTicks};

mod hex_files;
mod schedules;

pub use hex_files::{avr_hex_read, avr_hex_write};
pub use schedules::avr_run_schedule;

fn offer_of(offer: u32) -> Option<u16>
    ensures { result ≡ offer_of offer }
{
    u16::try_from(offer).ok()
}

// One tick: checks 10, 7, 8, 9, then the tick. A refused call changes no byte.
pub fn avr_tick(snapshot: &mut [u8], program: &[u8], data: &mut [u8], offer: u32) -> u32
    ensures { Tells (avr_tick_of snapshot.old program.now «data».old offer) result snapshot.new «data».new }
{
    if offer > 65536 {
        return 10;
    }
    run::tick_number_in(snapshot, program, data, offer_of(offer)) as u32
}

// What `avr_tick` would return, by the same checks. Every slice is only read.
pub fn avr_foretell(snapshot: &[u8], program: &[u8], data: &[u8], offer: u32) -> u32
    ensures { result ≡ (avr_tick_of snapshot.now program.now «data».now offer).number }
{
    if offer > 65536 {
        return 10;
    }
    match snapshot::read(snapshot) {
        Ok(core) => tick::number(tick::foretell(core, program, data, offer_of(offer))) as u32,
        Err(refusal) => u8::from(refusal) as u32,
    }
}

// A run: the same checks, then the run, its count into `ticks`. A call refused by a check leaves `ticks` as it was.
pub fn avr_run(
    snapshot: &mut [u8],
    program: &[u8],
    data: &mut [u8],
    offer: u32,
    budget: u32,
    ticks: &mut u32,
) -> u32
    ensures { TellsTicks (avr_run_of snapshot.old program.now «data».old offer budget ticks.old) result snapshot.new «data».new ticks.new }
{
    if offer > 65536 {
        return 10;
    }
    match run::run_in(snapshot, program, data, offer_of(offer), budget) {
        Ok(over) => {
            *ticks = over.ticks;
            u8::from(over.ended) as u32
        }
        Err(refusal) => u8::from(refusal) as u32,
    }
}
