// A run by an interrupt schedule, for C.
ghost use Rattle.std.specs.Prelude.{◌≡◌};
ghost use Rattle.schedule.specs.Schedule.{schedule_in};
ghost use Rattle.host.specs.Host.{TellsTicks};
ghost use Rattle.host.specs.Schedules.{avr_run_schedule_of};

// `list` has five bytes a record: a tick's number, three bytes, and a vector, two, high byte first. Checks 7, 8, 9, 30, 31, 32, then the run, its count into `ticks` and the
// tick of each record's entry into `entered`. A call refused by a check changes nothing.
pub fn avr_run_schedule(
    snapshot: &mut [u8],
    program: &[u8],
    data: &mut [u8],
    list: &[u8],
    budget: u32,
    entered: &mut [u32],
    ticks: &mut u32,
) -> u32
    ensures tells_ticks { TellsTicks (avr_run_schedule_of snapshot.old program.now «data».old list.now budget entered.old ticks.old) result snapshot.new «data».new ticks.new }
    ensures entered_after { entered.new ≡ (schedule_in snapshot.old program.now «data».old list.now budget entered.old).numbers }
{
    match schedule::run_in(snapshot, program, data, list, budget, entered) {
        Ok(over) => {
            *ticks = over.ticks;
            u8::from(over.ended) as u32
        }
        Err(refusal) => u8::from(refusal) as u32,
    }
}
