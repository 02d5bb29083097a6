// What a page shows of a world: a cell for each thing that a turn may change.

ghost use Rattle.std.specs.Prelude.{◌≡◌, ◌<◌, ◌++◌, length, IfOk, OnOk};
ghost use Rattle.std.specs.List.{flat_map, range_with_len};
ghost use Rattle.mc_model.specs.Worlds.{box_at, for_tunnel, own_descriptor, own_sender, slot_count};
ghost use Rattle.mc_program_lines.specs.Programs.{words_of};
ghost use Rattle.mc_signal.specs.Choice.{codecs_of};
ghost use Rattle.mc_ladder.specs.Signals.{codecs_text, signal_text};
ghost use Rattle.mc_ladder_choice.specs.Choices.{views_of};
ghost use Rattle.mc_ladder_page.specs.Cells.{all_box_cells, all_slot_cells, box_cell, cells_of, goal_text, media_cell, path_cell, path_text, path_words, signal_quoted, slot_cell, slot_state_word, slot_words, told_text, under_way};

use crate::quoted::{put_bytes, put_quoted};
use mc_ladder::{
    codec_word, flow_word, put_codecs, put_signal, put_word, slot_word, state_at, state_word,
};
use mc_lane::Lane;
use mc_path::paths;
use mc_program_lines::Block;
use mc_script::goal_word;
use mc_signal::{CodecList, Signal, Tagged};
use mc_slot::{SlotGoal, State};
use mc_text::Names;
use mc_view::PathView;
use mc_world::World;
use std::alloc::{AllocError, Global};

// ---- a slot

fn slot_state_word(state: State) -> &'static [u8]
    ensures { result.now ≡ slot_state_word state }
{
    match state {
        State::Closed => b"closed",
        State::Opening => b"opening",
        State::Opened => b"opened",
        State::Flowing => b"flowing",
        State::Closing => b"closing",
    }
}

// The goal of an end, or the slot of the same box with which a slot is linked.
fn goal_text(alloc: Global, names: &Names, who: u32, goal: SlotGoal) -> Result<Vec<u8>, AllocError>
    ensures { IfOk result (λ text. text.items ≡ goal_text names.now who goal) }
{
    match goal {
        SlotGoal::End(goal) => Vec::from_slice(alloc, goal_word(goal)),
        SlotGoal::Link(other) => {
            let mut text = Vec::from_slice(alloc, b"link")?;
            put_word(slot_word(names, who, other), &mut text)?;
            Ok(text)
        }
    }
}

// Appends a signal under way.
fn put_signal_quoted(
    alloc: Global,
    names: &Names,
    world: &World,
    signal: &Signal,
    out: &mut Vec<u8>,
) -> Result<(), AllocError>
    ensures { OnOk result (out.new.items ≡ out.old.items ++ signal_quoted names.now world.now signal.now) }
{
    let mut text = Vec::new(alloc);
    put_signal(alloc, names, world, signal, false, &mut text)?;
    put_quoted(&text, out)
}

// Appends what a lane has for one of its tunnels.
fn put_lane(
    alloc: Global,
    names: &Names,
    world: &World,
    lane: &Lane<Tagged>,
    tunnel: u8,
    out: &mut Vec<u8>,
) -> Result<(), AllocError>
    ensures { OnOk result (out.new.items
        ≡ out.old.items ++ flat_map (signal_quoted names.now world.now) (for_tunnel tunnel lane.now.items)) }
{
    for i in 0..lane.len() {
        let tagged = lane.get(i);
        if tagged.tunnel == tunnel {
            put_signal_quoted(alloc, names, world, &tagged.signal, out)?;
        }
    }
    Ok(())
}

// Appends all signals under way to a slot.
fn put_under_way(
    alloc: Global,
    names: &Names,
    world: &World,
    slot: u32,
    out: &mut Vec<u8>,
) -> Result<(), AllocError>
    requires { slot < slot_count world.now }
    ensures { OnOk result (out.new.items ≡ out.old.items ++ under_way names.now world.now slot) }
{
    let (channel, tunnel) = world.channel(slot);
    put_lane(
        alloc,
        names,
        world,
        world.lane(channel, slot % 2 == 0),
        tunnel,
        out,
    )
}

// Appends the state of a slot, and its goal.
fn put_slot_words(
    alloc: Global,
    names: &Names,
    world: &World,
    slot: u32,
    out: &mut Vec<u8>,
) -> Result<(), AllocError>
    requires { slot < slot_count world.now }
    ensures { OnOk result (out.new.items ≡ out.old.items ++ slot_words names.now world.now slot) }
{
    let goal = goal_text(alloc, names, world.place(slot).0, world.goal(slot))?;
    put_quoted(slot_state_word(world.slot(slot).state), out)?;
    put_quoted(&goal, out)
}

fn slot_cell(alloc: Global, names: &Names, world: &World, slot: u32) -> Result<Vec<u8>, AllocError>
    requires { slot < slot_count world.now }
    ensures { IfOk result (λ cell. cell.items ≡ slot_cell names.now world.now slot) }
{
    let mut cell = Vec::from_slice(alloc, b"[\"slot\"")?;
    put_slot_words(alloc, names, world, slot, &mut cell)?;
    put_under_way(alloc, names, world, slot, &mut cell)?;
    put_bytes(b"]", &mut cell)?;
    Ok(cell)
}

// ---- its media

// The codecs of a list, each behind a space.
fn codecs_text(alloc: Global, names: &Names, codecs: &CodecList) -> Result<Vec<u8>, AllocError>
    ensures { IfOk result (λ text. text.items ≡ codecs_text names.now (codecs_of codecs.now)) }
{
    let mut text = Vec::new(alloc);
    put_codecs(names, codecs, &mut text)?;
    Ok(text)
}

// The codecs that a slot can receive.
fn received_text(
    alloc: Global,
    names: &Names,
    world: &World,
    slot: u32,
) -> Result<Vec<u8>, AllocError>
    requires { slot < slot_count world.now }
    ensures { IfOk result (λ text.
        text.items ≡ codecs_text names.now (codecs_of (own_descriptor world.now slot).codecs)) }
{
    world.keeps();
    let (who, local) = world.place(slot);
    codecs_text(alloc, names, &world.boxes()[who as usize].own(local).codecs)
}

// The codecs that it can send.
fn sent_text(alloc: Global, names: &Names, world: &World, slot: u32) -> Result<Vec<u8>, AllocError>
    requires { slot < slot_count world.now }
    ensures { IfOk result (λ text.
        text.items ≡ codecs_text names.now (codecs_of (own_sender world.now slot).codecs)) }
{
    world.keeps();
    let (who, local) = world.place(slot);
    codecs_text(
        alloc,
        names,
        &world.boxes()[who as usize].sender(local).codecs,
    )
}

fn media_cell(alloc: Global, names: &Names, world: &World, slot: u32) -> Result<Vec<u8>, AllocError>
    requires { slot < slot_count world.now }
    ensures { IfOk result (λ cell. cell.items ≡ media_cell names.now world.now slot) }
{
    let received = received_text(alloc, names, world, slot)?;
    let sent = sent_text(alloc, names, world, slot)?;
    let mut cell = Vec::from_slice(alloc, b"[\"media\"")?;
    put_quoted(&received, &mut cell)?;
    put_quoted(&sent, &mut cell)?;
    put_bytes(b"]", &mut cell)?;
    Ok(cell)
}

// ---- the path of which it is the lower end

// Appends whether a path flows, and what its ends hear.
fn put_path_words(names: &Names, view: &PathView, out: &mut Vec<u8>) -> Result<(), AllocError>
    ensures { OnOk result (out.new.items ≡ out.old.items ++ path_words names.now view.now) }
{
    put_quoted(flow_word(view.flowing), out)?;
    put_quoted(codec_word(names, view.low.hears), out)?;
    put_quoted(codec_word(names, view.high.hears), out)
}

// The cell of a path.
fn path_text(alloc: Global, names: &Names, view: &PathView) -> Result<Vec<u8>, AllocError>
    ensures { IfOk result (λ cell. cell.items ≡ path_text names.now view.now) }
{
    let opening = format!(in alloc; "[\"path\",{}", view.high.slot)?;
    let mut cell = opening.into_bytes();
    put_path_words(names, view, &mut cell)?;
    put_bytes(b"]", &mut cell)?;
    Ok(cell)
}

// The cell of the path of which a slot is the lower end, among these paths.
fn path_cell(
    alloc: Global,
    names: &Names,
    views: &[PathView],
    slot: u32,
) -> Result<Vec<u8>, AllocError>
    ensures { IfOk result (λ cell. cell.items ≡ path_cell names.now views.now slot) }
{
    for view in views {
        if view.low.slot == slot {
            return path_text(alloc, names, view);
        }
    }
    Vec::from_slice(alloc, b"[\"none\"]")
}

// ---- a box

// The name of a told word, if there is one.
fn told_text(names: &Names, told: Option<u8>) -> &[u8]
    ensures { result.now ≡ told_text names.now told }
{
    match told {
        Some(word) if (word as usize) < names.told_count() => names.told_name(word),
        _ => b"",
    }
}

// The told word that waits at a box.
fn told_at(world: &World, who: u32) -> Option<u8>
    ensures { result ≡ (box_at world.now who).told }
{
    match world.boxes().get(who as usize) {
        Some(home) => home.told(),
        None => None,
    }
}

fn box_cell(
    alloc: Global,
    names: &Names,
    blocks: &[Block],
    world: &World,
    who: u32,
) -> Result<Vec<u8>, AllocError>
    ensures { IfOk result (λ cell. cell.items ≡ box_cell names.now blocks.now world.now who) }
{
    let mut cell = Vec::from_slice(alloc, b"[\"box\"")?;
    put_quoted(state_word(blocks, who, state_at(world, who)), &mut cell)?;
    put_quoted(told_text(names, told_at(world, who)), &mut cell)?;
    put_bytes(b"]", &mut cell)?;
    Ok(cell)
}

// ---- all of them

// Appends the cells of each slot.
fn put_slot_cells(
    alloc: Global,
    names: &Names,
    world: &World,
    views: &[PathView],
    cells: &mut Vec<Vec<u8>>,
) -> Result<(), AllocError>
    ensures { OnOk result (words_of cells.new.items
        ≡ words_of cells.old.items ++ all_slot_cells names.now world.now views.now (slot_count world.now)) }
{
    world.keeps();
    for slot in 0..world.slot_count() {
        cells.push(slot_cell(alloc, names, world, slot as u32)?)?;
        cells.push(media_cell(alloc, names, world, slot as u32)?)?;
        cells.push(path_cell(alloc, names, views, slot as u32)?)?;
    }
    Ok(())
}

// Appends the cell of each box.
fn put_box_cells(
    alloc: Global,
    names: &Names,
    blocks: &[Block],
    world: &World,
    cells: &mut Vec<Vec<u8>>,
) -> Result<(), AllocError>
    ensures { OnOk result (words_of cells.new.items
        ≡ words_of cells.old.items ++ all_box_cells names.now blocks.now world.now (length names.now.boxes)) }
{
    for who in 0..names.box_count() {
        cells.push(box_cell(alloc, names, blocks, world, who as u32)?)?;
    }
    Ok(())
}

// The cells of a world.
pub fn cells_of(
    alloc: Global,
    names: &Names,
    blocks: &[Block],
    world: &World,
) -> Result<Vec<Vec<u8>>, AllocError>
    ensures { IfOk result (λ cells. words_of cells.items ≡ cells_of names.now blocks.now world.now) }
{
    let views = paths(alloc, world)?;
    let mut cells = Vec::new(alloc);
    put_slot_cells(alloc, names, world, &views, &mut cells)?;
    put_box_cells(alloc, names, blocks, world, &mut cells)?;
    Ok(cells)
}
