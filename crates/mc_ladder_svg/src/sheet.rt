// What a picture begins with: its size, its stylesheet, the ground, and the lines of the boxes.

ghost use Rattle.std.specs.Prelude.{◌≡◌, ◌≤◌, ◌<◌, ◌+◌, ◌^◌, ◌++◌, OnOk};
ghost use Rattle.mc_ladder_svg.specs.Sheets.{ground, opening, page, size, style_sheet};

use crate::element::{put_bytes, put_uprights};
use crate::measure::{FOOT, width_of};
use std::alloc::{AllocError, Global};

// The one stylesheet: a class for each look, in light and in dark.
const STYLE_SHEET: &[u8] = b"<style>\n\
svg{background:#fff;color:#1c2128;font:11px ui-monospace,\"DejaVu Sans Mono\",Menlo,Consolas,\"Liberation Mono\",monospace}\n\
text{fill:currentColor;white-space:pre}\n\
.m{text-anchor:middle}.e{text-anchor:end}.h{font-weight:bold}.hd .h{font-size:12px}.z{font-size:10px}\n\
.o{paint-order:stroke;stroke:#fff;stroke-width:5px;stroke-linejoin:round}\n\
.p{fill:#fff}.v{fill:none;stroke:#8b939e}.u{fill:#f3f5f8}\n\
.se .o{stroke:#f3f5f8}.g{stroke-dasharray:6 3}\n\
.l{fill:none;stroke:currentColor;stroke-width:1.5px}.f{fill:currentColor}\n\
.x{fill:#fff;stroke:currentColor;stroke-width:2px}\n\
.k{fill:none;stroke:currentColor;stroke-width:4px}.q{fill:none;stroke:currentColor;stroke-width:1.5px;stroke-dasharray:2 4}\n\
.d{color:#57606a}.op{color:#0a53c4}.me{color:#7a3aa8}.cl{color:#b3261e}.cm{color:#1c2128}.pr{color:#8a4b00}.fl{color:#0f6b34}.si{color:#57606a}\n\
@media (prefers-color-scheme:dark){svg{background:#0f1318;color:#e3e8ee}.o{stroke:#0f1318}.se .o{stroke:#191f27}.p,.x{fill:#0f1318}.v{stroke:#66707d}.u{fill:#191f27}\n\
.d{color:#a0a9b5}.op{color:#7db1ff}.me{color:#d0a1f7}.cl{color:#ff938a}.cm{color:#e3e8ee}.pr{color:#f0b266}.fl{color:#5fd08a}.si{color:#a0a9b5}}\n\
</style>\n";

// Appends the stylesheet.
fn put_style_sheet(out: &mut Vec<u8>) -> Result<(), AllocError>
    ensures { OnOk result (out.new.items ≡ out.old.items ++ style_sheet) }
{
    put_bytes(STYLE_SHEET, out)
}

// Appends the size of a picture, and its title.
fn put_size(alloc: Global, width: u128, height: u128, out: &mut Vec<u8>) -> Result<(), AllocError>
    ensures { OnOk result (out.new.items ≡ out.old.items ++ size width height) }
{
    let tag = format!(in alloc;
        "<svg xmlns=\"http://www.w3.org/2000/svg\" viewBox=\"0 0 {width} {height}\" width=\"{width}\" height=\"{height}\" role=\"img\">\n<title>Call ladder</title>\n"
    )?;
    put_bytes(tag.as_bytes(), out)
}

// Appends the ground.
fn put_ground(alloc: Global, width: u128, height: u128, out: &mut Vec<u8>) -> Result<(), AllocError>
    ensures { OnOk result (out.new.items ≡ out.old.items ++ ground width height) }
{
    let drawn = format!(in alloc; "<rect class=\"p\" width=\"{width}\" height=\"{height}\"/>\n")?;
    put_bytes(drawn.as_bytes(), out)
}

// Appends a page of this size, with the lines of the boxes down to a height.
fn put_page(
    alloc: Global,
    columns: usize,
    width: u128,
    height: u128,
    end: u128,
    out: &mut Vec<u8>,
) -> Result<(), AllocError>
    ensures { OnOk result (out.new.items ≡ out.old.items ++ page columns width height end) }
{
    put_size(alloc, width, height, out)?;
    put_style_sheet(out)?;
    put_ground(alloc, width, height, out)?;
    put_uprights(alloc, columns, 34, end, out)?;
    put_bytes(b"\n", out)
}

// Appends all that stands before the heads. The last row ends at this height.
pub fn put_opening(
    alloc: Global,
    columns: usize,
    end: u128,
    out: &mut Vec<u8>,
) -> Result<(), AllocError>
    requires { end + FOOT < 2 ^ 128 }
    ensures { OnOk result (out.new.items ≡ out.old.items ++ opening columns end) }
{
    put_page(alloc, columns, width_of(columns), end + FOOT, end, out)
}
