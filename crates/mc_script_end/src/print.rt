// What is printed for a journal.
ghost use Rattle.std.specs.Prelude.{◌≡◌, ◌++◌, All, OnOk};
ghost use Rattle.mc_journal.specs.Printed.{IsNamedLine};
ghost use Rattle.mc_script_end.specs.Printed.{journal_part};

use mc_journal::print_journal;
use mc_script::JournalLine;
use mc_table::put_line;
use mc_text::Names;
use std::alloc::{AllocError, Global};

/// Appends the line `journal` and the lines of a journal.
pub fn put_journal(
    alloc: Global,
    names: &Names,
    journal: &[JournalLine],
    out: &mut Vec<u8>,
) -> Result<(), AllocError>
    requires { All (IsNamedLine names.now) journal.now }
    ensures { OnOk result (out.new.items ≡ out.old.items ++ journal_part names.now journal.now) }
{
    let text = print_journal(alloc, names, journal)?;
    put_line(b"journal", &[], out)?;
    out.extend_from_slice(&text)
}
