// The names of boxes, slots and codecs, and what stands after the lanes of a row: where its turn happens.

ghost use Rattle.std.specs.Prelude.{◌≡◌, ◌≤◌, ◌++◌, [], slice_index_or, length, IfOk, OnOk};
ghost use Rattle.mc_ladder.specs.Placing.{box_place, place_word, take_place, to_cells, to_word};
ghost use Rattle.mc_model.specs.Worlds.{place};
ghost use Rattle.mc_script.specs.Meaning.{slot_name};
ghost use Rattle.mc_table.specs.Words.{codec_word};
ghost use Rattle.mc_text.specs.NameLists.{slot_word};
ghost use Rattle.mc_text.specs.declared.limit.TheConstants.{NAME_LIMIT};

use crate::glyph::{Glyph, Style, put_cells};
use mc_text::Names;
use mc_world::World;
use std::alloc::{AllocError, Global};

/// The name of a box; none where there is no such box.
#[tactic(auto, using(crate::proofs::Named::name_few))]
pub fn box_word(names: &Names, who: u32) -> &[u8]
    ensures few { length result.now ≤ NAME_LIMIT }
    ensures name { result.now ≡ slice_index_or names.now.boxes who [] }
{
    if (who as usize) < names.box_count() {
        names.box_name(who)
    } else {
        b""
    }
}

/// The name of a slot; none where there is no such slot.
#[tactic(auto, using(crate::proofs::Named::name_few))]
pub fn slot_word(names: &Names, who: u32, local: u8) -> &[u8]
    ensures few { length result.now ≤ NAME_LIMIT }
    ensures name { result.now ≡ slot_name names.now who local }
{
    if (who as usize) < names.box_count() && (local as usize) < names.slot_count(who) {
        names.slot_name(who, local)
    } else {
        b""
    }
}

// The name of a told word; none where there is no such word.
pub fn told_word(names: &Names, word: u8) -> &[u8]
    ensures { result.now ≡ slice_index_or names.now.told word [] }
{
    if (word as usize) < names.told_count() {
        names.told_name(word)
    } else {
        b""
    }
}

/// The name of a codec, or the word for none.
pub fn codec_word(names: &Names, codec: Option<u8>) -> &[u8]
    ensures { result.now ≡ codec_word names.now codec }
{
    match codec {
        Some(codec) if (codec as usize) < names.codec_count() => names.codec_name(codec),
        Some(_) => b"",
        None => b"none",
    }
}

/// The box of a slot, and its local number there.
pub fn place_of(world: &World, slot: u32) -> (u32, u8)
    ensures { result ≡ place world.now slot }
{
    if (slot as usize) < world.slot_count() {
        world.place(slot)
    } else {
        (0, 0)
    }
}

// A slot by its box and local number, as `box/slot`.
pub fn slot_place(alloc: Global, names: &Names, who: u32, local: u8) -> Result<Vec<u8>, AllocError>
    ensures { IfOk result (λ word. word.items ≡ slot_word names.now who local) }
{
    let mut word = Vec::from_slice(alloc, box_word(names, who))?;
    word.push(b'/')?;
    word.extend_from_slice(slot_word(names, who, local))?;
    Ok(word)
}

/// A slot by its number, as `box/slot`.
pub fn place_word(
    alloc: Global,
    names: &Names,
    world: &World,
    slot: u32,
) -> Result<Vec<u8>, AllocError>
    ensures { IfOk result (λ word. word.items ≡ place_word names.now world.now slot) }
{
    let (who, local) = place_of(world, slot);
    slot_place(alloc, names, who, local)
}

impl Style {
    // What stands between the two places of a Take.
    fn to_word(self) -> &'static [u8]
        ensures { result.now ≡ to_word self }
    {
        match self {
            Style::Utf8 => b" \xe2\x86\x92 ",
            Style::Ascii => b" -> ",
        }
    }

    // How many cells that takes.
    pub fn to_cells(self) -> usize
        ensures { result ≡ to_cells self }
    {
        match self {
            Style::Utf8 => 3,
            Style::Ascii => 4,
        }
    }
}

// Appends the place of a Take: the slot that sent, and the slot that takes, in a field of so many cells.
pub fn put_take_place(
    style: Style,
    from: &[u8],
    to: &[u8],
    width: usize,
    out: &mut Vec<u8>,
) -> Result<(), AllocError>
    ensures { OnOk result (out.new.items ≡ out.old.items ++ take_place style from.now to.now width) }
{
    out.extend_from_slice(from)?;
    out.extend_from_slice(style.to_word())?;
    out.extend_from_slice(to)?;
    let left = width
        .saturating_sub(from.len())
        .saturating_sub(style.to_cells())
        .saturating_sub(to.len());
    put_cells(style, Glyph::Blank, left, out)
}

// Appends the place of any other turn: its box, in a field of so many cells.
pub fn put_box_place(
    style: Style,
    name: &[u8],
    width: usize,
    out: &mut Vec<u8>,
) -> Result<(), AllocError>
    ensures { OnOk result (out.new.items ≡ out.old.items ++ box_place style name.now width) }
{
    out.extend_from_slice(name)?;
    put_cells(style, Glyph::Blank, width.saturating_sub(name.len()), out)
}
