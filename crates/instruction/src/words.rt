// How many words an instruction has.
ghost use Rattle.std.specs.Prelude.{◌≡◌};
ghost use Rattle.instruction.specs.Code.{two_words};

use crate::Instruction;

impl Instruction {
    // CALL, JMP, LDS and STS have a second word.
    pub fn two_words(self) -> bool
        ensures { result ≡ two_words self }
    {
        matches!(
            self,
            Instruction::CALL { .. }
                | Instruction::JMP { .. }
                | Instruction::LDS { .. }
                | Instruction::STS { .. }
        )
    }
}
