// What `rerun` writes for its input (docs/RERUN.md): an image, a schedule and the state of a run, and the state that the run leads to.
#![tactic(auto)]

ghost use Rattle.page.specs.Gains.{Gains};
ghost use Rattle.page.specs.Page.{Prints};
ghost use Rattle.rerunning.specs.Rerun.{rerun_of};

use job::Job;
use page::Page;
use state::State;

mod going;
mod job;
mod put;
mod state;
mod told;

// Into `out`, as far as it fits; how many bytes that is.
pub fn rerun(input: &[u8], out: &mut [u8]) -> usize
    ensures { Prints (rerun_of input.now) out.old result out.new }
{
    let mut page = Page { out, at: 0 };
    put_rerun(&mut page, input);
    page.at
}

fn put_rerun(page: &mut Page<'_>, input: &[u8])
    ensures { Gains page.old (rerun_of input.now) page.new }
{
    let Some(job) = job::job_of(input) else {
        return page.put_byte(1);
    };
    let at = 62 + 4 * job.entered;
    let text = at + job.size;
    let list = text + job.hex;
    let end = list + job.schedule;
    let state = State {
        done: job.done,
        core: &input[24..62],
        entered: &input[62..at],
        data: &input[at..text],
    };
    told::put_told(
        page,
        state,
        &input[text..list],
        &input[list..end],
        job.budget,
    );
}
