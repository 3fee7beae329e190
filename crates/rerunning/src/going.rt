// The run from a state, and the state that it leads to.
ghost use Rattle.std.specs.Prelude.{◌≡◌, ◌++◌, ◌*◌, ◌/◌, length, drop, nat_eq, not};
ghost use Rattle.std.specs.List.{take_while};
ghost use Rattle.page.specs.Gains.{Gains};
ghost use Rattle.schedule.specs.Laws.{entered_of};
ghost use Rattle.rerunning.specs.Rerun.{fours, state_of, gone_on};
ghost use Rattle.rerunning.specs.Lent.{lent, added, told_by};

use crate::put::{put_number, put_numbers};
use crate::state::State;
use page::Page;
use run::Over;
use schedule::Refused;

// `more` are the entries that a run added, and `list` all records.
fn put_state(page: &mut Page<'_>, state: State<'_>, more: &[u32], list: &[u8])
    ensures { Gains page.old (state_of (added (lent state.entry) more.now) ++ list.now) page.new }
{
    put_number(page, state.done as usize);
    put_number(page, state.entered.len() / 4 + more.len());
    page.put_text(state.core);
    page.put_text(state.entered);
    put_numbers(page, more);
    page.put_text(state.data);
    page.put_text(list);
}

// The records that are not entered.
fn left_of<'a>(entered: &[u8], list: &'a [u8]) -> &'a [u8]
    ensures { result.now ≡ drop (length entered.now / 4 * 5) list.now }
{
    let first = entered.len() / 4 * 5;
    list.get(first..).unwrap_or(&[])
}

fn count_entered(numbers: &[u32]) -> usize
    ensures { result ≡ length (take_while (λ n. not (nat_eq n 0)) numbers.now) }
{
    numbers.iter().take_while(|n| **n != 0).count()
}

// The numbers before the first 0.
fn entered_in(numbers: &[u32]) -> &[u32]
    ensures { result.now ≡ entered_of numbers.now }
{
    &numbers[..count_entered(numbers)]
}

// 01's number and the ticks done: a run's, or where none began the refusal's and those done before.
fn told(run: Result<Over, Refused>, done: u32) -> (u8, u32)
    ensures { result ≡ told_by run done }
{
    match run {
        Ok(Over { ended, ticks }) => (ended.into(), ticks),
        Err(refused) => (refused.into(), done),
    }
}

pub(crate) fn put_run(
    page: &mut Page<'_>,
    state: State<'_>,
    program: &[u8],
    list: &[u8],
    budget: u32,
)
    ensures { Gains page.old (gone_on budget (lent state.entry) program.now list.now) page.new }
{
    let mut core = [0u8; 38];
    core.copy_from_slice(state.core);
    let mut room = [0u8; 65536];
    let data = &mut room[..state.data.len()];
    data.copy_from_slice(state.data);
    let mut numbers = [0u32; 65536];
    let left = left_of(state.entered, list);
    let run = schedule::go_on(
        &mut core,
        program,
        data,
        left,
        state.done,
        budget,
        &mut numbers,
    );
    let (answer, done) = told(run, state.done);
    page.put_byte(0);
    page.put_byte(answer);
    let after = State {
        done,
        core: &core,
        entered: state.entered,
        data,
    };
    put_state(page, after, entered_in(&numbers), list);
}
