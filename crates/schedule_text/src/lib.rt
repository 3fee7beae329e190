// A schedule as a text, a line `TICK VECTOR` each, read into a list of records.
#![tactic(auto)]

ghost use Rattle.std.specs.Prelude.{◌≡◌, ◌*◌, ◌/◌, ◌<◌, length};
ghost use Rattle.std.proofs.lemmas.List.Edits.{sets};
ghost use Rattle.schedule_text.specs.Reading.{outcome_of, list_of, five_of, fault_number, outcome_said};

use hex_line::Lines;
use judge::judge;
use line::Firing;

mod judge;
mod line;
mod number;

// What is wrong with a line.
#[derive(Clone, Copy, Debug, PartialEq, Eq)]
pub enum Fault {
    Form,
    Tick,
    Order,
    Vector,
    Room,
}

impl From<Fault> for u8 {
    ghost from_gives = { λ fault n. n ≡ fault_number fault };

    fn from(fault: Fault) -> u8 {
        match fault {
            Fault::Form => 1,
            Fault::Tick => 2,
            Fault::Order => 3,
            Fault::Vector => 4,
            Fault::Room => 5,
        }
    }
}

// The first faulty line, counted from 1, and how many records were read before it.
#[derive(Clone, Copy, Debug, PartialEq, Eq)]
pub struct Refused {
    pub fault: Fault,
    pub line: usize,
    pub records: usize,
}

fn put_record(list: &mut [u8], i: usize, firing: Firing)
    requires { (i < length list.old / 5) × (firing.tick < 16777216) × (firing.vector < 65536) }
    ensures { list.new ≡ sets list.old (5 * i) (five_of (record { tick = firing.tick; vector = firing.vector })) }
{
    let [_, high, middle, low] = firing.tick.to_be_bytes();
    let [_, _, above, below] = firing.vector.to_be_bytes();
    let at = 5 * i;
    list[at..at + 5].copy_from_slice(&[high, middle, low, above, below]);
}

// The records in front of the first faulty line go into the list, five bytes each; bytes behind them keep what they held. Answers how many records there are.
pub fn read(text: &[u8], list: &mut [u8]) -> Result<usize, Refused>
    ensures value { outcome_said result ≡ outcome_of text.now (length list.old) }
    ensures list_after { list.new ≡ list_of text.now list.old }
{
    let room = list.len() / 5;
    let mut number: usize = 1;
    let mut last: u32 = 0;
    let mut records: usize = 0;
    for line in Lines::of(text) {
        let given = match judge(line, last, room - records) {
            Ok(given) => given,
            Err(fault) => {
                return Err(Refused {
                    fault,
                    line: number,
                    records,
                });
            }
        };
        number += 1;
        if let Some(firing) = given {
            put_record(list, records, firing);
            records += 1;
            last = firing.tick;
        }
    }
    Ok(records)
}
