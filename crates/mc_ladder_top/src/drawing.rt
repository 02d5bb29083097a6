// The ladder of the journal after a text.

ghost use Rattle.std.specs.Prelude.{◌≡◌, ◌-◌, ◌<◌, ◌≤◌, ◌^◌, false, length, map, IfErr, IfOk};
ghost use Rattle.mc_cause.specs.CauseLaws.{NoneCloses};
ghost use Rattle.mc_ladder_top.specs.Drawn.{IsInGrammar, IsLadder, framed, ladder_bytes};
ghost use Rattle.mc_ladder_top.specs.Requests.{asked, choice_of};
ghost use Rattle.mc_ladder_top.specs.declared.picture.Picture.TheVariants.{Page};
ghost use Rattle.mc_ladder_choice.specs.Surveys.{survey_of};
ghost use Rattle.mc_lines.specs.Rules.{read_limit};
ghost use Rattle.mc_lines.specs.declared.tail.Tail.TheVariants.{Journal};
ghost use Rattle.mc_model.specs.Shapes.{AreAllAllowed};
ghost use Rattle.mc_net.specs.Nets.{DeclaresBlocks, DeclaresNet, NamesAll, batch_turns};
ghost use Rattle.mc_net.specs.declared.net.Net.{Net};
ghost use Rattle.mc_replay.specs.Journals.{IsJournal};
ghost use Rattle.mc_call.specs.Behind.{HasJournal};
ghost use Rattle.mc_top.specs.Refusals.{RefusesCheckBy};

use crate::choosing::choice_of;
use crate::picture::{Picture, draw};
use crate::words::LadderRequest;
use mc_ladder_choice::{Choice, Survey, look_through};
use mc_ladder_page::draw_page;
use mc_net::{Net, NetFault, Tail, read_blocks, read_net};
use mc_program_lines::Block;
use mc_script::JournalLine;
use mc_text::Names;
use mc_top::{TailFault, check_by_net};
use mc_world::World;
use std::alloc::{AllocError, Global};

// What was drawn: the ladder, and the journal that it shows.
#[derive(Drop)]
pub struct Drawn {
    pub ladder: Vec<u8>,
    pub journal: Vec<JournalLine>,
}

// Checks the journal after a text by the network that the text declares, and draws what is asked for of it.
pub fn draw_checked(
    alloc: Global,
    request: &LadderRequest,
    text: &[u8],
    net: Net,
) -> Result<Drawn, TailFault>
    requires short { length text.now ≤ read_limit Journal }
    requires declares { DeclaresNet Journal text.now net }
    requires named { NamesAll net.names net.world }
    requires allowed { AreAllAllowed net.world (map batch_turns net.batches.items) }
    ensures ladder { IfOk result (λ drawn. IsLadder (asked request.now) text.now drawn.journal.items drawn.ladder.items) }
    ensures has { IfOk result (λ drawn. HasJournal text.now net drawn.journal.items) }
    ensures journal { IfOk result (λ drawn.
        IsJournal net.world (map batch_turns net.batches.items) drawn.journal.items) }
    ensures refused { IfErr result (RefusesCheckBy text.now net) }
{
    let (_, journal) = check_by_net(alloc, false, text, net)?;
    match draw_journal(alloc, request, text, &journal) {
        Ok(ladder) => Ok(Drawn { ladder, journal }),
        Err(wanting) => Err(TailFault::NoMemory(wanting)),
    }
}

// Draws the journal after a text. The check has used up the network that was read for it, so the text is read anew: once
// to look through the journal, once to draw the ladder, and once for the page round it, if there is one.
pub fn draw_journal(
    alloc: Global,
    request: &LadderRequest,
    text: &[u8],
    journal: &[JournalLine],
) -> Result<Vec<u8>, AllocError>
    requires declared { IsInGrammar text.now }
    requires few { length journal.now < 2 ^ 32 - 1 }
    ensures { IfOk result (λ ladder. IsLadder (asked request.now) text.now journal.now ladder.items) }
{
    let chosen = choose_in_text(alloc, request, text, journal)?;
    let blocks = blocks_of(alloc, text)?;
    let net = net_of(alloc, text)?;
    let ladder = draw_net(alloc, request.picture, &chosen, &blocks, net, journal)?;
    framed(alloc, request.picture, text, &blocks, journal, ladder)
}

// What is chosen of a journal, and what was found of it.
#[derive(Drop)]
struct Chosen {
    choice: Choice,
    found: Survey,
}

// What is asked for of the journal after a text.
fn choose_in_text(
    alloc: Global,
    request: &LadderRequest,
    text: &[u8],
    journal: &[JournalLine],
) -> Result<Chosen, AllocError>
    requires declared { IsInGrammar text.now }
    requires few { length journal.now < 2 ^ 32 - 1 }
    ensures choice { IfOk result (λ chosen. (net : Net) → DeclaresNet Journal text.now net
        → chosen.choice ≡ choice_of net.names (asked request.now)) }
    ensures found { IfOk result (λ chosen. (net : Net) → DeclaresNet Journal text.now net
        → chosen.found ≡ survey_of chosen.choice net.world journal.now) }
{
    let net = net_of(alloc, text)?;
    choose_by_net(alloc, request, net, journal)
}

// The same by a network.
fn choose_by_net(
    alloc: Global,
    request: &LadderRequest,
    mut net: Net,
    journal: &[JournalLine],
) -> Result<Chosen, AllocError>
    requires few { length journal.now < 2 ^ 32 - 1 }
    requires none { NoneCloses net.world }
    ensures choice { IfOk result (λ chosen. chosen.choice ≡ choice_of net.names (asked request.now)) }
    ensures found { IfOk result (λ chosen. chosen.found ≡ survey_of chosen.choice net.world journal.now) }
{
    let chosen = choose(alloc, request, &net.names, &mut net.world, journal);
    // by name, since what drops at a return is proved part by part
    drop(net);
    chosen
}

// The same by names, and the first world.
fn choose(
    alloc: Global,
    request: &LadderRequest,
    names: &Names,
    world: &mut World,
    journal: &[JournalLine],
) -> Result<Chosen, AllocError>
    requires few { length journal.now < 2 ^ 32 - 1 }
    requires none { NoneCloses world.old }
    ensures choice { IfOk result (λ chosen. chosen.choice ≡ choice_of names.now (asked request.now)) }
    ensures found { IfOk result (λ chosen. chosen.found ≡ survey_of chosen.choice world.old journal.now) }
{
    let choice = choice_of(alloc, names, request)?;
    let found = look_through(alloc, &choice, world, journal)?;
    Ok(Chosen { choice, found })
}

// Draws what is chosen of a journal, by a network and the blocks of its programs.
fn draw_net(
    alloc: Global,
    picture: Picture,
    chosen: &Chosen,
    blocks: &[Block],
    mut net: Net,
    journal: &[JournalLine],
) -> Result<Vec<u8>, AllocError>
    requires few { length journal.now < 2 ^ 32 - 1 }
    requires none { NoneCloses net.world }
    requires found { chosen.now.found ≡ survey_of chosen.now.choice net.world journal.now }
    ensures { IfOk result (λ ladder.
        ladder.items ≡ ladder_bytes picture net.names blocks.now net.world chosen.now.choice journal.now) }
{
    let Chosen { choice, found } = chosen;
    let Net { names, world, .. } = &mut net;
    let ladder = draw(alloc, picture, names, blocks, choice, found, world, journal);
    drop(net);
    ladder
}

// A ladder as it is handed out: in a page, if one is asked for.
fn framed(
    alloc: Global,
    picture: Picture,
    text: &[u8],
    blocks: &[Block],
    journal: &[JournalLine],
    ladder: Vec<u8>,
) -> Result<Vec<u8>, AllocError>
    requires declared { IsInGrammar text.now }
    requires few { length journal.now < 2 ^ 32 - 1 }
    ensures { IfOk result (λ drawn. (net : Net) → DeclaresNet Journal text.now net
        → drawn.items ≡ framed picture net.names blocks.now net.world journal.now ladder.items) }
{
    match picture {
        Picture::Text(_) | Picture::Svg => Ok(ladder),
        Picture::Page => {
            let net = net_of(alloc, text)?;
            page_by_net(alloc, &ladder, blocks, net, journal)
        }
    }
}

// The page of a journal with its ladder, by a network and the blocks of its programs.
fn page_by_net(
    alloc: Global,
    ladder: &[u8],
    blocks: &[Block],
    mut net: Net,
    journal: &[JournalLine],
) -> Result<Vec<u8>, AllocError>
    requires { length journal.now < 2 ^ 32 - 1 }
    ensures { IfOk result (λ page.
        page.items ≡ framed Page net.names blocks.now net.world journal.now ladder.now) }
{
    let Net { names, world, .. } = &mut net;
    let page = draw_page(alloc, ladder, names, blocks, world, journal);
    drop(net);
    page
}

// The network of a text in the grammar.
pub fn net_of(alloc: Global, text: &[u8]) -> Result<Net, AllocError>
    requires { IsInGrammar text.now }
    ensures declares { IfOk result (DeclaresNet Journal text.now) }
    ensures allowed { IfOk result (λ net. AreAllAllowed net.world (map batch_turns net.batches.items)) }
{
    match read_net(alloc, text, Tail::Journal) {
        Ok(net) => Ok(net),
        Err(NetFault::NoMemory(wanting)) => Err(wanting),
        Err(NetFault::Line(_)) => unreachable!(),
    }
}

// The blocks of its programs.
fn blocks_of(alloc: Global, text: &[u8]) -> Result<Vec<Block>, AllocError>
    requires { IsInGrammar text.now }
    ensures { IfOk result (λ blocks. DeclaresBlocks Journal text.now blocks.items) }
{
    match read_blocks(alloc, text, Tail::Journal) {
        Ok(blocks) => Ok(blocks),
        Err(NetFault::NoMemory(wanting)) => Err(wanting),
        Err(NetFault::Line(_)) => unreachable!(),
    }
}
