// Lines of words.
ghost use Rattle.std.specs.Prelude.{◌≡◌, ◌++◌, ◌∷◌, length, map, take, OnOk};
ghost use Rattle.mc_table.specs.Words.{line_of};

use std::alloc::AllocError;

/// Appends a line: its words with single spaces between them, and a line end. Where memory is wanting, a part of it
/// may have been appended after what was there.
pub fn put_line(first: &[u8], others: &[&[u8]], out: &mut Vec<u8>) -> Result<(), AllocError>
    ensures line { OnOk result (out.new.items
        ≡ out.old.items ++ line_of (first.now ∷ map (λ word. word.now) others.now)) }
    ensures before { take (length out.old.items) out.new.items ≡ out.old.items }
{
    out.extend_from_slice(first)?;
    for word in others {
        out.push(b' ')?;
        out.extend_from_slice(word)?;
    }
    out.push(b'\n')?;
    Ok(())
}
