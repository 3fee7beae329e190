// What stands at a word address: an instruction with its words, or a lone last byte.
ghost use Rattle.std.specs.Prelude.{◌≡◌};
ghost use Rattle.listing.specs.Listing.{row_at, words_in};

use instruction::Instruction;

#[derive(Clone, Copy)]
pub(crate) enum Row {
    Lone(u8),
    Single(u16, Instruction),
    Double(u16, u16, Instruction),
}

impl Row {
    // A first word whose second is missing counts as undefined.
    pub(crate) fn at(program: &[u8], pc: u16) -> Row
        ensures { result ≡ row_at program.now pc }
    {
        let pc = pc as u32;
        if !memory::has_word(program, pc) {
            return Row::Lone(memory::read(program, pc as usize * 2));
        }
        let w = memory::get_progmem(program, pc);
        let s = memory::get_progmem(program, pc + 1);
        let op = Instruction::decode(w, s);
        if !op.two_words() {
            return Row::Single(w, op);
        }
        if !memory::has_word(program, pc + 1) {
            return Row::Single(w, Instruction::UNDEF);
        }
        Row::Double(w, s, op)
    }

    // How many words further the next one stands.
    pub(crate) fn words(self) -> u32
        ensures { result ≡ words_in self }
    {
        match self {
            Row::Lone(_) | Row::Single(_, _) => 1,
            Row::Double(_, _, _) => 2,
        }
    }
}
