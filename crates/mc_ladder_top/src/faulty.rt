// The ladder of a faulty journal, up to its first fault.

ghost use Rattle.std.specs.Prelude.{◌≡◌, ◌-◌, ◌<◌, ◌^◌, length, map, IfOk};
ghost use Rattle.mc_ladder_top.specs.Drawn.{IsInGrammar};
ghost use Rattle.mc_ladder_top.specs.Faulty.{AreLinesBeforeFault, IsLadderUpToFault, StandBeforeFault, comment_of, fault_note};
ghost use Rattle.mc_ladder_top.specs.Requests.{asked};
ghost use Rattle.mc_model.specs.Shapes.{AreAllAllowed};
ghost use Rattle.mc_net.specs.Nets.{batch_turns};
ghost use Rattle.mc_replay.specs.Faults.{StandsFor};
ghost use Rattle.mc_script.specs.Places.{Fits};

use crate::drawing::{draw_journal, net_of};
use crate::picture::Picture;
use crate::words::LadderRequest;
use mc_call::{TailPlace, journal_behind, print_journal_fault};
use mc_net::Net;
use mc_replay::{ReplayFault, Viewer, check_lines};
use mc_script::{Batch, JournalLine, JournalText};
use mc_view::PathView;
use mc_world::World;
use std::alloc::{AllocError, Global};

// Shows nothing of a world: a journal is checked for its fault alone.
#[derive(Clone, Copy)]
struct NoViewer;

impl Viewer for NoViewer {
    ghost shows = { λ viewer world views. Unit {0} };

    fn views(&self, alloc: Global, _world: &World) -> Result<Vec<PathView>, AllocError> {
        Ok(Vec::new(alloc))
    }
}

// How many lines of a journal stand before its first fault: all, where it has none.
fn count_before(
    alloc: Global,
    world: World,
    batches: &[Batch],
    journal: &JournalText,
) -> Result<usize, AllocError>
    requires allowed { AreAllAllowed world (map batch_turns batches.now) }
    requires few { length journal.now.lines.items < 2 ^ 32 - 1 }
    ensures { IfOk result (λ count.
        StandsFor world (map batch_turns batches.now) journal.now.lines.items count) }
{
    match check_lines(alloc, &NoViewer, world, batches, journal) {
        Ok(_) => Ok(journal.lines.len()),
        Err(ReplayFault::At(fault)) => Ok(fault.before as usize),
        Err(ReplayFault::NoMemory(wanting)) => Err(wanting),
    }
}

// The lines of the journal after a text that stand before its first fault, by the network that the text declares.
fn lines_by_net(alloc: Global, text: &[u8], net: Net) -> Result<Vec<JournalLine>, AllocError>
    requires fits { Fits net.names net.shape }
    requires allowed { AreAllAllowed net.world (map batch_turns net.batches.items) }
    ensures lines { IfOk result (λ lines. AreLinesBeforeFault text.now net lines.items) }
    ensures few { IfOk result (λ lines. length lines.items < 2 ^ 32 - 1) }
{
    let Net {
        world,
        names,
        shape,
        batches,
        rest,
    } = net;
    let mut journal = journal_behind(alloc, &names, &shape, text, rest)?;
    let count = count_before(alloc, world, &batches, &journal)?;
    journal.lines.truncate(count);
    Ok(journal.lines)
}

// The same of a text in the grammar.
fn lines_before_fault(alloc: Global, text: &[u8]) -> Result<Vec<JournalLine>, AllocError>
    requires { IsInGrammar text.now }
    ensures lines { IfOk result (λ lines. StandBeforeFault text.now lines.items) }
    ensures few { IfOk result (λ lines. length lines.items < 2 ^ 32 - 1) }
{
    let net = net_of(alloc, text)?;
    lines_by_net(alloc, text, net)
}

// A line as a comment of a picture or a page.
fn comment_of(alloc: Global, line: &[u8]) -> Result<Vec<u8>, AllocError>
    ensures { IfOk result (λ comment. comment.items ≡ comment_of line.now) }
{
    let mut comment = Vec::from_slice(alloc, b"<!--\n")?;
    comment.extend_from_slice(line)?;
    comment.extend_from_slice(b"-->\n")?;
    Ok(comment)
}

// What stands after the ladder of the lines before a fault.
fn fault_note(alloc: Global, picture: Picture, place: TailPlace) -> Result<Vec<u8>, AllocError>
    ensures { IfOk result (λ note. note.items ≡ fault_note picture place.number place.turn) }
{
    let line = print_journal_fault(alloc, place.number, place.turn)?;
    match picture {
        Picture::Text(_) => Ok(line),
        Picture::Svg | Picture::Page => comment_of(alloc, &line),
    }
}

// Draws what is asked for of the journal after a text up to its first fault, and says which that is.
pub fn draw_up_to_fault(
    alloc: Global,
    request: &LadderRequest,
    text: &[u8],
    place: TailPlace,
) -> Result<Vec<u8>, AllocError>
    requires { IsInGrammar text.now }
    ensures { IfOk result (λ output.
        IsLadderUpToFault (asked request.now) text.now place.number place.turn output.items) }
{
    let before = lines_before_fault(alloc, text)?;
    let mut output = draw_journal(alloc, request, text, &before)?;
    let note = fault_note(alloc, request.picture, place)?;
    output.extend_from_slice(&note)?;
    Ok(output)
}
