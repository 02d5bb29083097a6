// Where everything stands, in px. A number of px is wide enough for as many columns and rows as memory can hold.

ghost use Rattle.std.specs.Prelude.{◌≡◌, ◌≤◌, ◌<◌, ◌+◌, ◌^◌};
ghost use Rattle.mc_ladder_svg.specs.Measures.{anchor, beside, opposite, settle_height, width_of, x_of};

// The line of the first box, and from one to the next.
pub const FIRST_COLUMN: u128 = 176;

pub const COLUMN: u128 = 136;

// The px that a picture is wider than its columns.
pub const MARGINS: u128 = 200;

// The heights of the heads, of a turn, of a settle without paths, of a path, and below the last row.
pub const HEADS: u128 = 44;

pub const TURN: u128 = 26;

pub const SETTLE: u128 = 38;

pub const PATH: u128 = 44;

pub const FOOT: u128 = 8;

// A side of a line.
#[derive(Clone, Copy)]
pub enum TextSide {
    Left,
    Right,
}

impl TextSide {
    // The other side.
    pub fn opposite(self) -> TextSide
        ensures { result ≡ opposite self }
    {
        match self {
            TextSide::Left => TextSide::Right,
            TextSide::Right => TextSide::Left,
        }
    }

    // The class of a text that stands there: it ends at the left of the line, or starts at its right.
    pub fn anchor(self) -> &'static str
        ensures { result.now ≡ anchor self }
    {
        match self {
            TextSide::Left => "e",
            TextSide::Right => "s",
        }
    }

    // So far from a line.
    pub fn beside(self, x: u128, distance: u128) -> u128
        requires within { distance ≤ x }
        requires few { x + distance < 2 ^ 128 }
        ensures { result ≡ beside self x distance }
    {
        match self {
            TextSide::Left => x - distance,
            TextSide::Right => x + distance,
        }
    }
}

// The line of a column.
pub fn x_of(column: usize) -> u128
    ensures few { result < 2 ^ 72 }
    ensures least { FIRST_COLUMN ≤ result }
    ensures line { result ≡ x_of column }
{
    FIRST_COLUMN + COLUMN * column as u128
}

// The width of a picture with so many columns.
pub fn width_of(columns: usize) -> u128
    ensures { result ≡ width_of columns }
{
    COLUMN * columns as u128 + MARGINS
}

// The height of a settle with so many paths.
pub fn settle_height(paths: usize) -> u128
    ensures few { result < 2 ^ 72 }
    ensures height { result ≡ settle_height paths }
{
    SETTLE + PATH * paths as u128
}
