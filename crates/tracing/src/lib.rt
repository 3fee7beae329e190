// What `trace` prints for its input: a line for each tick.
#![tactic(auto)]

ghost use Rattle.page.specs.Gains.{Gains};
ghost use Rattle.page.specs.Page.{Prints};
ghost use Rattle.tracing.specs.Trace.{trace_of};

use job::Job;
use page::Page;

mod job;
mod line;
mod lines;

// The text into `out`, as far as it fits; how many bytes that is. `list` and `rerun` are such three lines too: one function for all would take a closure, and say what is put by its clause.
pub fn trace(input: &[u8], out: &mut [u8]) -> usize
    ensures { Prints (trace_of input.now) out.old result out.new }
{
    let mut page = Page { out, at: 0 };
    put_trace(&mut page, input);
    page.at
}

fn put_trace(page: &mut Page<'_>, input: &[u8])
    ensures { Gains page.old (trace_of input.now) page.new }
{
    let Some(Job { size, sp, budget }) = job::job_of(input) else {
        return page.put_text(b"bad input\n");
    };
    lines::put_lines(page, &input[6..size + 6], sp, budget);
}
