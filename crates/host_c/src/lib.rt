// What C calls: the exports of include/avr_core.h, each the call of crates/host with the same name and clauses. A slice crosses as a pointer and a length.
#![tactic(auto)]

ghost use Rattle.std.specs.Prelude.{◌≡◌, length};
ghost use Rattle.schedule.specs.Schedule.{schedule_in};
ghost use Rattle.intel_hex.specs.Reading.{read_of, program_of};
ghost use Rattle.intel_hex.specs.Writing.{write_of, buffer_of};
ghost use Rattle.host.specs.Host.{avr_tick_of, avr_run_of, Tells, TellsTicks};
ghost use Rattle.host.specs.Schedules.{avr_run_schedule_of};

#[unsafe(no_mangle)]
pub extern "C" fn avr_tick(snapshot: &mut [u8], program: &[u8], data: &mut [u8], offer: u32) -> u32
    ensures { Tells (avr_tick_of snapshot.old program.now «data».old offer) result snapshot.new «data».new }
{
    host::avr_tick(snapshot, program, data, offer)
}

#[unsafe(no_mangle)]
pub extern "C" fn avr_foretell(snapshot: &[u8], program: &[u8], data: &[u8], offer: u32) -> u32
    ensures { result ≡ (avr_tick_of snapshot.now program.now «data».now offer).number }
{
    host::avr_foretell(snapshot, program, data, offer)
}

#[unsafe(no_mangle)]
pub extern "C" fn avr_run(
    snapshot: &mut [u8],
    program: &[u8],
    data: &mut [u8],
    offer: u32,
    budget: u32,
    ticks: &mut u32,
) -> u32
    ensures { TellsTicks (avr_run_of snapshot.old program.now «data».old offer budget ticks.old) result snapshot.new «data».new ticks.new }
{
    host::avr_run(snapshot, program, data, offer, budget, ticks)
}

#[unsafe(no_mangle)]
pub extern "C" fn avr_run_schedule(
    snapshot: &mut [u8],
    program: &[u8],
    data: &mut [u8],
    list: &[u8],
    budget: u32,
    entered: &mut [u32],
    ticks: &mut u32,
) -> u32
    ensures tells_ticks { TellsTicks (avr_run_schedule_of snapshot.old program.now «data».old list.now budget entered.old ticks.old) result snapshot.new «data».new ticks.new }
    ensures entered_after { entered.new ≡ (schedule_in snapshot.old program.now «data».old list.now budget entered.old).numbers }
{
    host::avr_run_schedule(snapshot, program, data, list, budget, entered, ticks)
}

#[unsafe(no_mangle)]
pub extern "C" fn avr_hex_read(text: &[u8], program: &mut [u8], line: &mut usize) -> u32
    ensures value { result ≡ (read_of text.now (length program.old)).refusal }
    ensures program_after { program.new ≡ program_of text.now program.old }
    ensures line_after { line.new ≡ (read_of text.now (length program.old)).line }
{
    host::avr_hex_read(text, program, line)
}

#[unsafe(no_mangle)]
pub extern "C" fn avr_hex_write(program: &[u8], text: &mut [u8], written: &mut usize) -> u32
    ensures value { result ≡ (write_of program.now (length text.old)).refusal }
    ensures text_after { text.new ≡ buffer_of program.now text.old }
    ensures written_after { written.new ≡ (write_of program.now (length text.old)).length }
{
    host::avr_hex_write(program, text, written)
}
