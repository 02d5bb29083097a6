// Lines of a few words.

ghost use Rattle.std.specs.Prelude.{◌≡◌, ◌++◌, ◌∷◌, [], OnOk};
ghost use Rattle.mc_table.specs.Words.{line_of};
ghost use Rattle.mc_net_text.specs.Lines.{next_word};

use mc_table::put_line;
use std::alloc::AllocError;

// Appends a word after a space.
pub fn put_next(word: &[u8], out: &mut Vec<u8>) -> Result<(), AllocError>
    ensures { OnOk result (out.new.items ≡ out.old.items ++ next_word word.now) }
{
    out.push(b' ')?;
    out.extend_from_slice(word)
}

// Appends a line of three words.
pub fn put_three<'a>(
    first: &'a [u8],
    second: &'a [u8],
    third: &'a [u8],
    out: &mut Vec<u8>,
) -> Result<(), AllocError>
    ensures { OnOk result (out.new.items
        ≡ out.old.items ++ line_of (first.now ∷ second.now ∷ third.now ∷ [])) }
{
    put_line(first, &[second, third], out)
}

// Appends a line of four words.
pub fn put_four<'a>(
    first: &'a [u8],
    second: &'a [u8],
    third: &'a [u8],
    fourth: &'a [u8],
    out: &mut Vec<u8>,
) -> Result<(), AllocError>
    ensures { OnOk result (out.new.items
        ≡ out.old.items ++ line_of (first.now ∷ second.now ∷ third.now ∷ fourth.now ∷ [])) }
{
    put_line(first, &[second, third, fourth], out)
}

// Appends a line of five words.
pub fn put_five<'a>(
    first: &'a [u8],
    second: &'a [u8],
    third: &'a [u8],
    fourth: &'a [u8],
    fifth: &'a [u8],
    out: &mut Vec<u8>,
) -> Result<(), AllocError>
    ensures { OnOk result (out.new.items
        ≡ out.old.items ++ line_of (first.now ∷ second.now ∷ third.now ∷ fourth.now ∷ fifth.now ∷ [])) }
{
    put_line(first, &[second, third, fourth, fifth], out)
}

// Appends a line of six words.
pub fn put_six<'a>(
    first: &'a [u8],
    second: &'a [u8],
    third: &'a [u8],
    fourth: &'a [u8],
    fifth: &'a [u8],
    sixth: &'a [u8],
    out: &mut Vec<u8>,
) -> Result<(), AllocError>
    ensures { OnOk result (out.new.items
        ≡ out.old.items
        ++ line_of (first.now ∷ second.now ∷ third.now ∷ fourth.now ∷ fifth.now ∷ sixth.now ∷ [])) }
{
    put_line(first, &[second, third, fourth, fifth, sixth], out)
}
