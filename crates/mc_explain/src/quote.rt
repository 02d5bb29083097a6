// A line of a text, as a terminal can show it.
ghost use Rattle.std.specs.Prelude.{◌≡◌, ◌<◌, ◌++◌, OnOk, flat_map};
ghost use Rattle.mc_explain.specs.Quotes.{escaped, hex_digit, is_shown, quote};

use std::alloc::AllocError;

/// Appends a line that shows these bytes. Want of memory may come in the middle, here and below.
pub fn put_quote(bytes: &[u8], out: &mut Vec<u8>) -> Result<(), AllocError>
    ensures { OnOk result (out.new.items ≡ out.old.items ++ quote bytes.now) }
{
    out.extend_from_slice(b"mediactl: the line is: ")?;
    put_escaped(bytes, out)?;
    out.push(b'\n')?;
    Ok(())
}

/// Appends bytes as a terminal can show them.
pub fn put_escaped(bytes: &[u8], out: &mut Vec<u8>) -> Result<(), AllocError>
    ensures { OnOk result (out.new.items ≡ out.old.items ++ flat_map escaped bytes.now) }
{
    for byte in bytes {
        put_byte(*byte, out)?;
    }
    Ok(())
}

// Appends a byte as it is, or its two hexadecimal digits after `\x`.
fn put_byte(byte: u8, out: &mut Vec<u8>) -> Result<(), AllocError>
    ensures { OnOk result (out.new.items ≡ out.old.items ++ escaped byte) }
{
    if is_shown(byte) {
        out.push(byte)?;
    } else {
        out.extend_from_slice(&[b'\\', b'x', hex_digit(byte / 16), hex_digit(byte % 16)])?;
    }
    Ok(())
}

fn is_shown(byte: u8) -> bool
    ensures { result ≡ is_shown byte }
{
    (b' '..=b'~').contains(&byte)
}

fn hex_digit(value: u8) -> u8
    requires { value < 16 }
    ensures { result ≡ hex_digit value }
{
    b"0123456789abcdef"[usize::from(value)]
}
