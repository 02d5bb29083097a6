// What all rows of a ladder have in common.

ghost use Rattle.std.specs.Prelude.{◌≡◌, ◌<◌, ◌≤◌, ◌+◌, ◌*◌, length};
ghost use Rattle.mc_ladder.specs.Frames.{frame_of, has_long_name};
ghost use Rattle.mc_ladder.specs.Placing.{place_width, place_word, take_cells, widest_name};
ghost use Rattle.mc_model.specs.Worlds.{slot_count};
ghost use Rattle.mc_text.specs.declared.limit.TheConstants.{NAME_LIMIT};

use crate::glyph::Style;
use crate::place::{box_word, place_of, slot_word};
use mc_text::Names;
use mc_world::World;
use std::marker::Model;

// The most bytes of a name for which all heads find room in one line.
pub const SHORT_NAME: usize = 11;

/// What all rows of a ladder have in common: in which bytes it is drawn, the boxes by their columns, the cells for the
/// place of a turn, and whether the heads need two lines.
#[derive(Drop)]
pub struct Frame {
    pub style: Style,
    pub columns: Vec<u32>,
    pub width: usize,
    pub long: bool,
}

impl Model for Frame {
    ghost use Rattle.mc_ladder.specs.Frames.{FrameState};

    ghost Value = { FrameState };

    ghost view = { λ f. record { style = f.style; columns = f.columns.items; width = f.width; long = f.long } };
}

impl Frame {
    /// The frame for these columns of a network.
    pub fn new(style: Style, names: &Names, world: &World, columns: Vec<u32>) -> Frame
        ensures { result ≡ frame_of style names.now world.now columns.items }
    {
        Frame {
            style,
            columns,
            width: place_width(style, names, world),
            long: has_long_name(names),
        }
    }
}

// Whether the name of some box is too long for heads in one line.
fn has_long_name(names: &Names) -> bool
    ensures { result ≡ has_long_name names.now }
{
    widest_name(names) > SHORT_NAME
}

// The length of the longest name of a box.
fn widest_name(names: &Names) -> usize
    ensures { result ≡ widest_name names.now }
{
    let mut widest = 0;
    for who in 0..names.box_count() {
        widest = box_word(names, who as u32).len().max(widest);
    }
    widest
}

// How many cells the place of a Take takes, by the slot that takes.
fn take_cells(style: Style, names: &Names, world: &World, slot: u32) -> usize
    requires { slot < slot_count world.now }
    ensures { result ≡ take_cells style names.now world.now slot }
{
    place_cells(names, world, world.far(slot)) + style.to_cells() + place_cells(names, world, slot)
}

// How many cells a slot's place takes.
fn place_cells(names: &Names, world: &World, slot: u32) -> usize
    ensures cells { result ≡ length (place_word names.now world.now slot) }
    ensures few { result ≤ 2 * NAME_LIMIT + 1 }
{
    let (who, local) = place_of(world, slot);
    box_word(names, who).len() + 1 + slot_word(names, who, local).len()
}

// The width of the longest place that a turn of a network can have.
fn place_width(style: Style, names: &Names, world: &World) -> usize
    ensures { result ≡ place_width style names.now world.now }
{
    world.keeps();
    let mut widest = 0;
    for slot in 0..world.slot_count() {
        widest = take_cells(style, names, world, slot as u32).max(widest);
    }
    widest_name(names).max(widest)
}
