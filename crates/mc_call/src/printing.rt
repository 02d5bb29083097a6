// What is printed for a faulty text or journal, and for a name that no box has.

ghost use Rattle.std.specs.Prelude.{◌≡◌, ◌∷◌, [], IfOk, codes};
ghost use Rattle.std.specs.Fmt.{decimal};
ghost use Rattle.mc_call.specs.Printed.{fault_line, journal_fault_line, no_box_line};
ghost use Rattle.mc_table.specs.Words.{line_of};

use mc_net::TextFault;
use mc_table::put_line;
use std::alloc::{AllocError, Global};

/// The line that is printed for a text's first fault.
pub fn print_fault(alloc: Global, fault: TextFault) -> Result<Vec<u8>, AllocError>
    ensures { IfOk result (λ line. line.items ≡ fault_line fault.number fault.line) }
{
    print_numbers(alloc, fault.number, b"line", fault.line)
}

/// The line that is printed where no box has a name.
pub fn print_no_box(alloc: Global, name: &[u8]) -> Result<Vec<u8>, AllocError>
    ensures { IfOk result (λ line. line.items ≡ no_box_line name.now) }
{
    let mut out = Vec::new(alloc);
    put_line(b"nobox", &[name], &mut out)?;
    Ok(out)
}

/// The line that is printed for a journal's first fault.
pub fn print_journal_fault(alloc: Global, number: u8, turn: u32) -> Result<Vec<u8>, AllocError>
    ensures { IfOk result (λ line. line.items ≡ journal_fault_line number turn) }
{
    print_numbers(alloc, number, b"turn", turn)
}

// A fault's line: its number, and where it is.
fn print_numbers(alloc: Global, number: u8, unit: &[u8], place: u32) -> Result<Vec<u8>, AllocError>
    ensures { IfOk result (λ line. line.items
        ≡ line_of (codes "fault" ∷ decimal number ∷ unit.now ∷ decimal place ∷ [])) }
{
    let number = format!(in alloc; "{number}")?;
    let place = format!(in alloc; "{place}")?;
    let mut out = Vec::new(alloc);
    put_line(
        b"fault",
        &[number.as_bytes(), unit, place.as_bytes()],
        &mut out,
    )?;
    Ok(out)
}
