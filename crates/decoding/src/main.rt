// What decoding costs, for bench/: the words of an image, each with the word behind it, decoded so many times over, and how often one had a second word.
// Standard input: a byte for the way (0 `decode`, 1 by a lent table, 2 by a table built at each use, any other: nothing is decoded), the times as 16 bits, high byte first, the image.
#![tactic(auto)]

use instruction::Instruction;
use std::io::{self, Read};

#[derive(Clone, Copy)]
struct Words {
    first: u16,
    second: u16,
    third: u16,
}

fn words_at(image: &[u8], pc: u16) -> Words {
    Words {
        first: memory::get_progmem(image, pc as u32),
        second: memory::get_progmem(image, pc as u32 + 1),
        third: memory::get_progmem(image, pc as u32 + 2),
    }
}

// How many of two words have a second one. A decoder that is called from one place alone would become part of the loop, without the fields that nobody reads.
fn by<D: Fn(u16, u16) -> Instruction>(decode: D, words: Words) -> u64
    requires { D.IsAlwaysCallable decode }
{
    let op = decode(words.first, words.second);
    let next = decode(words.second, words.third);
    op.two_words() as u64 + next.two_words() as u64
}

fn by_nothing(words: Words) -> u64 {
    (words.first > words.second) as u64 + (words.second > words.third) as u64
}

// Once over the image, two words a turn; an odd last word is left out.
fn pass<T: Fn(Words) -> u64>(turn: &T, image: &[u8], before: u64) -> u64
    requires { T.IsAlwaysCallable turn.now }
{
    let mut count = before;
    for pair in 0..32768u16 {
        if !memory::has_word(image, pair as u32 * 2 + 1) {
            return count;
        }
        count = count.wrapping_add(turn(words_at(image, pair * 2)));
    }
    count
}

fn passes<T: Fn(Words) -> u64>(turn: T, times: u16, image: &[u8]) -> u64
    requires { T.IsAlwaysCallable turn }
{
    let mut count = 0u64;
    for _ in 0..times {
        count = pass(&turn, image, count);
    }
    count
}

fn counted(way: u8, times: u16, image: &[u8]) -> u64 {
    let table = form_table::forms();
    let by_table = |first, second| table_decode::decode(&table, first, second);
    let anew = |first, second| table_decode::decode(&form_table::forms(), first, second);
    match way {
        0 => passes(|words| by(Instruction::decode, words), times, image),
        1 => passes(|words| by(by_table, words), times, image),
        2 => passes(|words| by(anew, words), times, image),
        _ => passes(by_nothing, times, image),
    }
}

fn main(rt: HostRuntime) -> io::Result<()> {
    let mut input = Vec::new(rt.alloc());
    rt.reader().take(3 + 131072).read_to_end(&mut input)?;
    let way = memory::read(&input, 0);
    let times = memory::read_word(&[memory::read(&input, 2), memory::read(&input, 1)], 0);
    let image = input.get(3..).unwrap_or(&[]);
    rt.print(counted(way, times, image))
}
