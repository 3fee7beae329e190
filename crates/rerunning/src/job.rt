// The head of the input: numbers of four bytes, high byte first.
ghost use Rattle.std.specs.Prelude.{◌≡◌};
ghost use Rattle.rerunning.specs.Rerun.{number_in, job_of};

#[derive(Clone, Copy)]
pub struct Job {
    pub hex: usize,
    pub schedule: usize,
    pub size: usize,
    pub budget: u32,
    pub done: u32,
    pub entered: usize,
}

pub fn job_of(input: &[u8]) -> Option<Job>
    ensures { result ≡ job_of input.now }
{
    let hex = number(input, 0) as usize;
    let schedule = number(input, 4) as usize;
    let size = number(input, 8) as usize;
    let entered = number(input, 20) as usize;
    if hex > 1048576 || schedule > 1048576 || size > 65536 || entered > 65536 {
        return None;
    }
    if input.len() < 62 + 4 * entered + size + hex + schedule {
        return None;
    }
    Some(Job {
        hex,
        schedule,
        size,
        budget: number(input, 12),
        done: number(input, 16),
        entered,
    })
}

fn number(input: &[u8], at: u8) -> u32
    ensures { result ≡ number_in input.now at }
{
    let at = at as usize;
    u32::from_be_bytes([
        memory::read(input, at),
        memory::read(input, at + 1),
        memory::read(input, at + 2),
        memory::read(input, at + 3),
    ])
}
