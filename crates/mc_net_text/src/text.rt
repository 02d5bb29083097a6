// The text of a network, and whether a text is that of one.

ghost use Rattle.std.specs.Prelude.{◌≡◌, ◌++◌, [], IfErr, IfOk, MatchBool, OnOk, map};
ghost use Rattle.mc_lines.specs.BoxLines.{box_seen};
ghost use Rattle.mc_net_text.specs.Lines.{net_text};
ghost use Rattle.mc_net_text.specs.Texts.{ReadsAs, RefusesNet, Tells};
ghost use Rattle.mc_net_text.specs.declared.text.NoText.TheVariants as no_text;

use crate::lines::{put_boxes, put_channels, put_codecs, put_media};
use crate::programs::put_programs;
use crate::same::are_same;
use crate::same_names::are_same_names;
use mc_lines::{Declarations, Tail};
use mc_net::{NetFault, read_text};
use mc_plan::Plan;
use mc_program_lines::Block;
use mc_text::Names;
use std::alloc::{AllocError, Global};

/// Why no text was made of a network.
#[derive(Debug, Drop)]
pub enum NoText {
    /// The lines of the network don't read as the network: a name is missing, a limit of texts is passed, a program is
    /// unfinished, or the told words have other numbers than the order of the lines gives them.
    NotReadBack,
    /// Memory ran out.
    NoMemory(AllocError),
}

impl From<AllocError> for NoText {
    ghost from_gives = { λ e why. why ≡ no_text.NoMemory e };

    fn from(e: AllocError) -> Self {
        NoText::NoMemory(e)
    }
}

/// The text of a network: its codecs, boxes, channels and programs, line by line, and no command. It was read again and
/// compared, so that it declares just this network. `NotReadBack` says that these lines don't read as the network; of
/// which networks that is so isn't proved.
pub fn write_net(
    alloc: Global,
    names: &Names,
    plan: &Plan,
    blocks: &[Block],
) -> Result<Vec<u8>, NoText>
    ensures reads { IfOk result (λ text. ReadsAs names.now plan.now blocks.now text.items) }
    ensures lines { IfOk result (λ text. text.items ≡ net_text names.now plan.now blocks.now) }
    ensures refused { IfErr result (RefusesNet names.now plan.now blocks.now) }
{
    let text = print_net(alloc, names, plan, blocks)?;
    if !reads_as(alloc, &text, names, plan, blocks)? {
        return Err(NoText::NotReadBack);
    }
    Ok(text)
}

/// Whether a text declares this network, and no command.
pub fn reads_as(
    alloc: Global,
    text: &[u8],
    names: &Names,
    plan: &Plan,
    blocks: &[Block],
) -> Result<bool, AllocError>
    ensures { IfOk result (λ reads. MatchBool reads (ReadsAs names.now plan.now blocks.now text.now)
        (ReadsAs names.now plan.now blocks.now text.now → ⊥)) }
{
    match read_text(alloc, text, Tail::Nothing) {
        Ok((reader, _)) => {
            let parts = reader.into_parts();
            let told = are_told(&parts, names, plan, blocks);
            // by name, since what drops at a return is proved part by part
            drop(parts);
            Ok(told)
        }
        Err(NetFault::Line(_)) => Ok(false),
        Err(NetFault::NoMemory(wanting)) => Err(wanting),
    }
}

// Whether what was declared is this network, without a command.
fn are_told(parts: &Declarations, names: &Names, plan: &Plan, blocks: &[Block]) -> bool
    ensures { MatchBool result
        (Tells names.now plan.now blocks.now
        parts.now.names (map box_seen parts.now.plan.boxes) parts.now.plan.channels parts.now.blocks.items
        parts.now.commands.items)
        (Tells names.now plan.now blocks.now
        parts.now.names (map box_seen parts.now.plan.boxes) parts.now.plan.channels parts.now.blocks.items
        parts.now.commands.items → ⊥) }
{
    parts.commands.is_empty()
        && are_same_names(&parts.names, names)
        && are_same(parts.plan.boxes(), plan.boxes())
        && are_same(parts.plan.channels(), plan.channels())
        && are_same(&parts.blocks, blocks)
}

// The lines of a network.
fn print_net(
    alloc: Global,
    names: &Names,
    plan: &Plan,
    blocks: &[Block],
) -> Result<Vec<u8>, AllocError>
    ensures { IfOk result (λ text. text.items ≡ net_text names.now plan.now blocks.now) }
{
    let mut text = Vec::new(alloc);
    put_media(plan.boxes(), &mut text)?;
    put_codecs(names, &mut text)?;
    put_boxes(alloc, names, plan.boxes(), &mut text)?;
    put_channels(names, plan.channels(), &mut text)?;
    put_programs(names, blocks, &mut text)?;
    text.extend_from_slice(b"begin\n")?;
    Ok(text)
}
