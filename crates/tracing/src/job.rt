// Standard input: three 16-bit numbers, high byte first (program bytes, SP, budget), then the program's bytes.
ghost use Rattle.std.specs.Prelude.{◌≡◌};
ghost use Rattle.tracing.specs.Trace.{word_in, job_of};

#[derive(Clone, Copy)]
pub struct Job {
    pub size: usize,
    pub sp: u16,
    pub budget: u16,
}

pub fn job_of(input: &[u8]) -> Option<Job>
    ensures { result ≡ job_of input.now }
{
    let size = word(input, 0) as usize;
    if size > 49152 || input.len() < size + 6 {
        return None;
    }
    Some(Job {
        size,
        sp: word(input, 2),
        budget: word(input, 4),
    })
}

fn word(input: &[u8], at: u8) -> u16
    ensures { result ≡ word_in input.now at }
{
    let at = at as usize;
    u16::from_be_bytes([memory::read(input, at), memory::read(input, at + 1)])
}
