// A pass more for each of several lists.

ghost use Rattle.std.specs.Prelude.{◌≡◌, ◌<◌, ◌++◌, ◌∷◌, [], length, slice_set, OnOk};
ghost use Rattle.mc_desks.specs.Passes.{list_at, lists_of, with_each};

use mc_desk::Operator;
use std::alloc::AllocError;

/// Gives each list one pass, in their order. It fails only for want of memory.
pub fn deal(row: Vec<Operator>, lists: &mut [Vec<Operator>]) -> Result<(), AllocError>
    requires { length row.items ≡ length lists.old }
    ensures { OnOk result (lists_of lists.new ≡ with_each (lists_of lists.old) row.items) }
{
    let mut at = 0;
    for pass in row {
        give(lists, at, pass)?;
        at += 1;
    }
    Ok(())
}

// Gives one list a pass.
fn give(lists: &mut [Vec<Operator>], at: usize, pass: Operator) -> Result<(), AllocError>
    requires { at < length lists.old }
    ensures { OnOk result (lists_of lists.new
        ≡ slice_set (lists_of lists.old) at (list_at (lists_of lists.old) at ++ pass ∷ [])) }
{
    lists[at].push(pass)?;
    Ok(())
}
