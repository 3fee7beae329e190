// The form of a word (02, W10): which case of `Instruction` it is, as a number, found in a lent table by the word's high byte and low nibble.
#![tactic(auto)]

ghost use Rattle.std.specs.Prelude.{◌≡◌};
ghost use Rattle.forms.specs.Forms.{entry_at, form_by};

pub mod fields;
pub mod form;
pub mod further;

// What the table says of the word; behind its end every word is undefined.
fn entry_at(table: &[u8], opcode: u16) -> u8
    ensures { result ≡ entry_at table.now opcode }
{
    let index = (opcode / 256 * 16 + opcode % 16) as usize;
    table.get(index).copied().unwrap_or(form::UNDEF)
}

#[tactic(auto, unfolding(crate::specs::Forms::form_by))]
pub fn form_of(table: &[u8], opcode: u16) -> u8
    ensures { result ≡ form_by table.now opcode }
{
    let entry = entry_at(table, opcode);
    if entry == form::LOOK_FURTHER {
        return further::further(opcode);
    }
    entry
}
