// How many words of the program on standard input, each with the word behind it, `decode` knows and `encode` gives back: for tests.
#![tactic(auto)]

use encode::Words;
use instruction::Instruction;
use std::io::{self, Read};

fn comes_back(first: u16, second: u16) -> bool {
    let op = Instruction::decode(first, second);
    let words = if op.two_words() {
        Words::Two(first, second)
    } else {
        Words::One(first)
    };
    encode::encode(op) == Ok(words)
}

fn count(program: &[u8]) -> usize {
    let words = 0..65536u32;
    words
        .filter(|pc| {
            let first = memory::get_progmem(program, *pc);
            let second = memory::get_progmem(program, *pc + 1);
            memory::has_word(program, *pc) && comes_back(first, second)
        })
        .count()
}

fn main(rt: HostRuntime) -> io::Result<()> {
    let mut program = Vec::new(rt.alloc());
    rt.reader().take(131072).read_to_end(&mut program)?;
    rt.print(count(&program))
}
