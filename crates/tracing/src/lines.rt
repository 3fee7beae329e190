// The lines of a run from the fresh core, over data of 16,384 zeros and no offer.
ghost use Rattle.page.specs.Gains.{Gains};
ghost use Rattle.tracing.specs.Trace.{ticks_of};

use crate::line::put_line;
use cores::Core;
use page::Page;

pub fn put_lines(page: &mut Page<'_>, program: &[u8], sp: u16, budget: u16)
    ensures { Gains page.old (ticks_of sp budget program.now) page.new }
{
    let mut data = [0u8; 16384];
    let mut core = Core::fresh(sp);
    for number in 0..budget {
        let before = core.pc;
        let ticked = tick::tick(core, program, &mut data, None);
        let answer = ticked.answer;
        core = ticked.core;
        put_line(page, number + 1, before, answer, core);
        if tick::refuses(answer) || tick::stops(answer) {
            return;
        }
    }
}
