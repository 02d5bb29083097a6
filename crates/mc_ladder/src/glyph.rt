// What one cell of a ladder shows, and its bytes.

ghost use Rattle.std.specs.Prelude.{◌≡◌, ◌++◌, OnOk};
ghost use Rattle.mc_ladder.specs.Glyphs.{ascii_bytes, cells, glyph_bytes, utf8_bytes};

use std::alloc::AllocError;

/// The bytes that a ladder is drawn in: UTF-8, with lines and heads, or ASCII alone.
#[derive(Clone, Copy)]
pub enum Style {
    Utf8,
    Ascii,
}

/// What one cell shows.
#[derive(Clone, Copy)]
pub enum Glyph {
    Blank,
    /// The line of a box.
    Line,
    /// A rule, or an arrow between the lines.
    Dash,
    /// Where an arrow to the right begins.
    BeginsRight,
    /// Where an arrow to the left begins.
    BeginsLeft,
    /// An arrow or a rule over the line of a box.
    Crossing,
    HeadRight,
    HeadLeft,
    /// Where the arrow of a dropped signal ends.
    Cross,
    /// A command.
    Square,
    /// A Shift.
    Down,
    /// A Retry.
    Up,
    /// An end of a path.
    End,
    /// A box that links two slots of a path.
    Through,
    /// A path that flows.
    Double,
    /// A path that flows over the line of a box.
    DoubleCrossing,
    /// A path that is closed.
    Dot,
}

impl Style {
    // The bytes of a cell.
    pub fn bytes(self, glyph: Glyph) -> &'static [u8]
        ensures { result.now ≡ glyph_bytes self glyph }
    {
        match self {
            Style::Utf8 => utf8_bytes(glyph),
            Style::Ascii => ascii_bytes(glyph),
        }
    }
}

// A cell in UTF-8.
fn utf8_bytes(glyph: Glyph) -> &'static [u8]
    ensures { result.now ≡ utf8_bytes glyph }
{
    match glyph {
        Glyph::Blank => b" ",
        Glyph::Line => b"\xe2\x94\x82",
        Glyph::Dash => b"\xe2\x94\x80",
        Glyph::BeginsRight => b"\xe2\x94\x9c",
        Glyph::BeginsLeft => b"\xe2\x94\xa4",
        Glyph::Crossing => b"\xe2\x94\xbc",
        Glyph::HeadRight => b"\xe2\x96\xba",
        Glyph::HeadLeft => b"\xe2\x97\x84",
        Glyph::Cross => b"\xc3\x97",
        Glyph::Square => b"\xe2\x96\xa0",
        Glyph::Down => b"\xe2\x96\xbc",
        Glyph::Up => b"\xe2\x96\xb2",
        Glyph::End => b"\xe2\x97\x8f",
        Glyph::Through => b"\xe2\x97\x8b",
        Glyph::Double => b"\xe2\x95\x90",
        Glyph::DoubleCrossing => b"\xe2\x95\xaa",
        Glyph::Dot => b"\xc2\xb7",
    }
}

// A cell in ASCII.
fn ascii_bytes(glyph: Glyph) -> &'static [u8]
    ensures { result.now ≡ ascii_bytes glyph }
{
    match glyph {
        Glyph::Blank => b" ",
        Glyph::Line => b"|",
        Glyph::Dash => b"-",
        Glyph::BeginsRight => b"|",
        Glyph::BeginsLeft => b"|",
        Glyph::Crossing => b"+",
        Glyph::HeadRight => b">",
        Glyph::HeadLeft => b"<",
        Glyph::Cross => b"x",
        Glyph::Square => b"#",
        Glyph::Down => b"v",
        Glyph::Up => b"^",
        Glyph::End => b"@",
        Glyph::Through => b"o",
        Glyph::Double => b"=",
        Glyph::DoubleCrossing => b"+",
        Glyph::Dot => b".",
    }
}

// Appends a cell.
pub fn put_cell(style: Style, glyph: Glyph, out: &mut Vec<u8>) -> Result<(), AllocError>
    ensures { OnOk result (out.new.items ≡ out.old.items ++ glyph_bytes style glyph) }
{
    out.extend_from_slice(style.bytes(glyph))
}

// Appends so many cells that are alike.
pub fn put_cells(
    style: Style,
    glyph: Glyph,
    count: usize,
    out: &mut Vec<u8>,
) -> Result<(), AllocError>
    ensures { OnOk result (out.new.items ≡ out.old.items ++ cells style glyph count) }
{
    for _done in 0..count {
        put_cell(style, glyph, out)?;
    }
    Ok(())
}
