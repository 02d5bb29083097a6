// What stays the same from row to row: the boxes by their columns, and the slots by their numbers.

ghost use Rattle.std.specs.Prelude.{◌≡◌, ◌<◌, ◌++◌, length, OnOk};
ghost use Rattle.std.specs.List.{flat_map, range_with_len};
ghost use Rattle.mc_ladder.specs.Columns.{columns_of};
ghost use Rattle.mc_model.specs.Worlds.{slot_count};
ghost use Rattle.mc_ladder_svg.specs.Heads.{is_device_at};
ghost use Rattle.mc_ladder_page.specs.Data.{box_entry, column_entries, column_entry, entry_opening, kind_word, network_text, slot_entries, slot_entry, slot_entry_by};

use crate::quoted::{comma, put_bytes, put_quoted};
use mc_box::Kind;
use mc_ladder::{box_word, columns_of, medium_word, slot_word};
use mc_text::Names;
use mc_world::World;
use std::alloc::{AllocError, Global};

// Whether a box is a device.
fn is_device_at(world: &World, who: u32) -> bool
    ensures { result ≡ is_device_at world.now who }
{
    match world.boxes().get(who as usize) {
        Some(home) => matches!(home.kind(), Kind::Device),
        None => false,
    }
}

fn kind_word(device: bool) -> &'static [u8]
    ensures { result.now ≡ kind_word device }
{
    if device { b"device" } else { b"feature" }
}

// Appends the beginning of an entry, with the number of a box.
fn put_opening(alloc: Global, who: u32, out: &mut Vec<u8>) -> Result<(), AllocError>
    ensures { OnOk result (out.new.items ≡ out.old.items ++ entry_opening who) }
{
    let opening = format!(in alloc; "[{who}")?;
    put_bytes(opening.as_bytes(), out)
}

// Appends a box.
fn put_box(
    alloc: Global,
    names: &Names,
    world: &World,
    who: u32,
    out: &mut Vec<u8>,
) -> Result<(), AllocError>
    ensures { OnOk result (out.new.items ≡ out.old.items ++ box_entry names.now world.now who) }
{
    put_opening(alloc, who, out)?;
    put_quoted(box_word(names, who), out)?;
    put_quoted(kind_word(is_device_at(world, who)), out)?;
    put_bytes(b"]", out)
}

// Appends the box of a column.
fn put_column(
    alloc: Global,
    names: &Names,
    world: &World,
    columns: &[u32],
    column: usize,
    out: &mut Vec<u8>,
) -> Result<(), AllocError>
    requires { column < length columns.now }
    ensures { OnOk result (out.new.items ≡ out.old.items ++ column_entry names.now world.now columns.now column) }
{
    put_bytes(comma(column), out)?;
    put_box(alloc, names, world, columns[column], out)
}

// Appends the boxes in the order of their columns.
fn put_columns(
    alloc: Global,
    names: &Names,
    world: &World,
    columns: &[u32],
    out: &mut Vec<u8>,
) -> Result<(), AllocError>
    ensures { OnOk result (out.new.items ≡ out.old.items ++ column_entries names.now world.now columns.now) }
{
    for column in 0..columns.len() {
        put_column(alloc, names, world, columns, column, out)?;
    }
    Ok(())
}

// Appends a slot of a box.
fn put_slot_by(
    alloc: Global,
    names: &Names,
    world: &World,
    slot: u32,
    who: u32,
    local: u8,
    out: &mut Vec<u8>,
) -> Result<(), AllocError>
    requires { slot < slot_count world.now }
    ensures { OnOk result (out.new.items ≡ out.old.items ++ slot_entry_by names.now world.now slot who local) }
{
    put_opening(alloc, who, out)?;
    put_quoted(slot_word(names, who, local), out)?;
    put_quoted(medium_word(world.slot(slot).medium), out)?;
    put_bytes(b"]", out)
}

// Appends a slot.
fn put_slot(
    alloc: Global,
    names: &Names,
    world: &World,
    slot: u32,
    out: &mut Vec<u8>,
) -> Result<(), AllocError>
    requires { slot < slot_count world.now }
    ensures { OnOk result (out.new.items ≡ out.old.items ++ slot_entry names.now world.now slot) }
{
    let (who, local) = world.place(slot);
    put_bytes(comma(slot as usize), out)?;
    put_slot_by(alloc, names, world, slot, who, local, out)
}

// Appends the slots by their numbers.
fn put_slots(
    alloc: Global,
    names: &Names,
    world: &World,
    out: &mut Vec<u8>,
) -> Result<(), AllocError>
    ensures { OnOk result (out.new.items ≡ out.old.items ++ slot_entries names.now world.now) }
{
    world.keeps();
    for slot in 0..world.slot_count() {
        put_slot(alloc, names, world, slot as u32, out)?;
    }
    Ok(())
}

// Appends the boxes and slots of a network.
pub fn put_network(
    alloc: Global,
    names: &Names,
    world: &World,
    out: &mut Vec<u8>,
) -> Result<(), AllocError>
    ensures { OnOk result (out.new.items ≡ out.old.items ++ network_text names.now world.now) }
{
    let columns = columns_of(alloc, names, world)?;
    put_bytes(b"{\"boxes\":[", out)?;
    put_columns(alloc, names, world, &columns, out)?;
    put_bytes(b"],\n\"slots\":[", out)?;
    put_slots(alloc, names, world, out)?;
    put_bytes(b"],\n", out)
}
