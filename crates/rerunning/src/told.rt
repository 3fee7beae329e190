// The texts read, and what is told of them or of the run.
ghost use Rattle.page.specs.Gains.{Gains};
ghost use Rattle.rerunning.specs.Rerun.{told_of};
ghost use Rattle.rerunning.specs.Lent.{lent};

use crate::going::put_run;
use crate::put::put_refusal;
use crate::state::State;
use page::Page;

pub(crate) fn put_told(
    page: &mut Page<'_>,
    state: State<'_>,
    text: &[u8],
    schedule: &[u8],
    budget: u32,
)
    ensures { Gains page.old (told_of budget (lent state.entry) text.now schedule.now) page.new }
{
    let mut program = [0u8; 49152];
    if let Err(error) = intel_hex::read(text, &mut program) {
        return put_refusal(page, 2, error.into(), error.line());
    }
    let mut list = [0u8; 327680];
    let records = match schedule_text::read(schedule, &mut list) {
        Ok(records) => records,
        Err(refused) => return put_refusal(page, 3, refused.fault.into(), refused.line),
    };
    let end = 5 * records;
    put_run(page, state, &program, &list[..end], budget);
}
