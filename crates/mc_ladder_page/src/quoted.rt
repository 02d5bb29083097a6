// Words in JSON. No name has a byte that JSON would want escaped.

ghost use Rattle.std.specs.Prelude.{◌≡◌, ◌++◌, OnOk};
ghost use Rattle.mc_ladder_page.specs.Cells.{quoted};
ghost use Rattle.mc_ladder_page.specs.Data.{comma};

use std::alloc::AllocError;

// Appends bytes.
pub fn put_bytes(bytes: &[u8], out: &mut Vec<u8>) -> Result<(), AllocError>
    ensures { OnOk result (out.new.items ≡ out.old.items ++ bytes.now) }
{
    out.extend_from_slice(bytes)
}

// Appends a word more of a list.
pub fn put_quoted(word: &[u8], out: &mut Vec<u8>) -> Result<(), AllocError>
    ensures { OnOk result (out.new.items ≡ out.old.items ++ quoted word.now) }
{
    put_bytes(b",\"", out)?;
    put_bytes(word, out)?;
    put_bytes(b"\"", out)
}

// What stands before an entry of a list, by how many stand before it.
pub fn comma(before: usize) -> &'static [u8]
    ensures { result.now ≡ comma before }
{
    if before == 0 { b"" } else { b"," }
}
