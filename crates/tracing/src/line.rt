// A tick's line, field by field.
ghost use Rattle.page.specs.Gains.{Gains};
ghost use Rattle.tracing.specs.Trace.{word_of, core_of, line_of};

use cores::Core;
use page::Page;
use tick::Answer;

fn put_word(page: &mut Page<'_>, answer: Answer)
    ensures { Gains page.old (word_of answer) page.new }
{
    match answer {
        Answer::Refused(n) => {
            page.put_text(b"refused-");
            page.put_byte(b'0' + n % 10);
        }
        Answer::Waited => page.put_text(b"waited"),
        Answer::Entered => page.put_text(b"entered"),
        Answer::Ran => page.put_text(b"ran"),
        Answer::Sleep => page.put_text(b"sleep"),
        Answer::Watchdog => page.put_text(b"watchdog"),
        Answer::Undefined => page.put_text(b"undefined"),
        Answer::Break => page.put_text(b"break"),
        Answer::End => page.put_text(b"end"),
    }
}

// PC, busy, SREG, SP.
fn put_core(page: &mut Page<'_>, core: Core)
    ensures { Gains page.old (core_of core) page.new }
{
    page.put_hex4(core.pc);
    page.put_byte(b' ');
    page.put_byte(b'0' + core.busy % 10);
    page.put_byte(b' ');
    page.put_hex2(core.sreg);
    page.put_byte(b' ');
    page.put_hex4(core.sp);
}

// The line of a tick: its number, PC before, the answer's word, the core after.
pub fn put_line(page: &mut Page<'_>, number: u16, before: u16, answer: Answer, core: Core)
    ensures { Gains page.old (line_of number before answer core) page.new }
{
    page.put_decimal(number);
    page.put_byte(b' ');
    page.put_hex4(before);
    page.put_byte(b' ');
    put_word(page, answer);
    page.put_byte(b' ');
    put_core(page, core);
    page.put_byte(b'\n');
}
