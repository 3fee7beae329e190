// The table of forms (02, W10), to be lent to `forms::form_of`. A constant is built anew where it is used, so who decodes more than once keeps what `forms` hands over.
#![tactic(auto)]

ghost use Rattle.std.specs.Prelude.{◌≡◌};
ghost use Rattle.form_table.specs.Rule.{table_of};

mod table;

pub fn forms() -> [u8; 4096]
    ensures { result ≡ table_of }
{
    table::TABLE
}
