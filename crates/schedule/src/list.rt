// A list's records, five bytes each.
ghost use Rattle.std.specs.Prelude.{◌≡◌, map};
ghost use Rattle.schedule.specs.Schedule.{record_at, rising, refusal_of, unlisted_number, said_check};

// The number of a tick, and a vector.
#[derive(Clone, Copy)]
pub struct Record {
    pub tick: u32,
    pub vector: u16,
}

// Why a list is not run: it is not whole records; its ticks do not rise from 1 on; the output is shorter than the records.
#[derive(Clone, Copy, Debug, PartialEq, Eq)]
pub enum Unlisted {
    Whole,
    Rising,
    Room,
}

impl From<Unlisted> for u8 {
    ghost from_gives = { λ e n. n ≡ unlisted_number e };

    fn from(refusal: Unlisted) -> u8 {
        match refusal {
            Unlisted::Whole => 30,
            Unlisted::Rising => 31,
            Unlisted::Room => 32,
        }
    }
}

// 24 bits and 16 bits, high byte first.
pub(crate) fn record_of(bytes: [u8; 5]) -> Record
    ensures { result ≡ record_at bytes 0 }
{
    let [tick2, tick1, tick0, vector1, vector0] = bytes;
    Record {
        tick: u32::from_be_bytes([0, tick2, tick1, tick0]),
        vector: u16::from_be_bytes([vector1, vector0]),
    }
}

// The ticks are 1 or above, and strictly rise.
fn rises(records: &[[u8; 5]]) -> bool
    ensures { result ≡ rising 0 (map (λ r. record_at r 0) records.now) }
{
    let mut last = 0;
    for bytes in records {
        let tick = record_of(*bytes).tick;
        if tick <= last {
            return false;
        }
        last = tick;
    }
    true
}

// `room` is how many numbers the output has.
#[tactic(auto, using(crate::proofs::Records::records_are))]
pub(crate) fn check(list: &[u8], room: usize) -> Result<(), Unlisted>
    ensures { said_check result ≡ refusal_of list.now room }
{
    let (records, rest) = list.as_chunks::<5>();
    if !rest.is_empty() {
        return Err(Unlisted::Whole);
    }
    if !rises(records) {
        return Err(Unlisted::Rising);
    }
    if room < records.len() {
        return Err(Unlisted::Room);
    }
    Ok(())
}
