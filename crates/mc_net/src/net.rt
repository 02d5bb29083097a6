//! The network that a text declares.

ghost use Rattle.std.specs.Prelude.{◌≡◌, ◌≤◌, IfErr, IfOk, None, OnOk, length, map};
ghost use Rattle.mc_model.specs.Shapes.{AreAllAllowed};
ghost use Rattle.mc_plan.specs.Plans.{world_of};
ghost use Rattle.mc_net.specs.Nets.{DeclaresBlocks, DeclaresNet, IsMadeOf, MayHavePrograms, NamesAll, batches_of, batch_turns, with_programs};
ghost use Rattle.mc_plan.specs.Layouts.{program_fault, with_program};
ghost use Rattle.mc_program_lines.specs.Finished.{program_of};
ghost use Rattle.mc_rule.specs.Programs.{IsProgram};
ghost use Rattle.mc_net.specs.Texts.{RefusesText};

use crate::fault::NetFault;
use crate::text::read_text;
use mc_box::Shape;
use mc_lines::limit::COMMAND_LIMIT;
use mc_lines::{Declarations, Tail};
use mc_plan::{Layout, Plan};
use mc_program_lines::Block;
use mc_script::{Batch, Command};
use mc_text::Names;
use mc_world::World;
use std::alloc::{AllocError, Global};

/// The network that a text declares: its first world, the names and shapes of its boxes, and the commands up to each
/// settle. `rest` is where the line after the one that ends the commands begins, and else the end of the text.
#[derive(Drop)]
pub struct Net {
    pub world: World,
    pub names: Names,
    pub shape: Shape,
    pub batches: Vec<Batch>,
    pub rest: usize,
}

/// Reads a text, and makes the network that it declares. Where a journal may stand after the commands, nothing is
/// read after the line `journal` that ends them.
pub fn read_net(alloc: Global, text: &[u8], tail: Tail) -> Result<Net, NetFault>
    ensures declares { IfOk result (DeclaresNet tail text.now) }
    ensures named { IfOk result (λ net. NamesAll net.names net.world) }
    ensures allowed { IfOk result (λ net. AreAllAllowed net.world (map batch_turns net.batches.items)) }
    ensures few { IfOk result (λ net. length net.batches.items ≤ COMMAND_LIMIT) }
    ensures within { IfOk result (λ net. net.rest ≤ length text.now) }
    ensures refused { IfErr result (RefusesText tail text.now) }
{
    let (reader, end) = read_text(alloc, text, tail)?;
    let parts = reader.into_parts();
    Ok(make_net(alloc, parts, end.before)?)
}

/// Reads a text, and answers the blocks of lines with the programs that it declares: one for each box with a program.
/// Where a journal may stand after the commands, nothing is read after the line `journal` that ends them.
pub fn read_blocks(alloc: Global, text: &[u8], tail: Tail) -> Result<Vec<Block>, NetFault>
    ensures declares { IfOk result (λ blocks. DeclaresBlocks tail text.now blocks.items) }
    ensures refused { IfErr result (RefusesText tail text.now) }
{
    let (reader, _) = read_text(alloc, text, tail)?;
    let Declarations {
        names,
        shape,
        plan,
        blocks,
        commands,
    } = reader.into_parts();
    // each is dropped by name, since what drops at a return is proved part by part
    drop(names);
    drop(shape);
    drop(plan);
    drop(commands);
    Ok(blocks)
}

// The network of what a text declares.
fn make_net(alloc: Global, parts: Declarations, rest: usize) -> Result<Net, AllocError>
    requires { MayHavePrograms (world_of parts.plan) parts.blocks.items }
    ensures { IfOk result (IsMadeOf parts rest) }
{
    let Declarations {
        names,
        shape,
        plan,
        blocks,
        commands,
    } = parts;
    let made = world_and_batches(alloc, plan, &blocks, &commands);
    // each is dropped by name, since what drops at a return is proved part by part
    drop(blocks);
    drop(commands);
    match made {
        Ok((world, batches)) => Ok(Net {
            world,
            names,
            shape,
            batches,
            rest,
        }),
        Err(wanting) => {
            drop(names);
            drop(shape);
            Err(wanting)
        }
    }
}

// The first world of a plan with these programs, and the batches of commands.
fn world_and_batches(
    alloc: Global,
    plan: Plan,
    blocks: &[Block],
    commands: &[Command],
) -> Result<(World, Vec<Batch>), AllocError>
    requires { MayHavePrograms (world_of plan) blocks.now }
    ensures world { IfOk result (λ both. both.0 ≡ with_programs (world_of plan) blocks.now) }
    ensures batches { IfOk result (λ both. map batch_turns both.1.items ≡ batches_of commands.now) }
{
    let batches = batches_of(alloc, commands)?;
    let mut layout = plan.layout()?;
    lay_programs(alloc, &mut layout, blocks)?;
    Ok((layout.world()?, batches))
}

// Each block gives its box its program.
fn lay_programs(alloc: Global, layout: &mut Layout, blocks: &[Block]) -> Result<(), AllocError>
    requires { MayHavePrograms layout.old blocks.now }
    ensures { OnOk result (layout.new ≡ with_programs layout.old blocks.now) }
{
    for block in blocks {
        lay_program(alloc, layout, block)?;
    }
    Ok(())
}

// A block does.
fn lay_program(alloc: Global, layout: &mut Layout, block: &Block) -> Result<(), AllocError>
    requires program { IsProgram (program_of block.now) }
    requires kept { program_fault layout.old block.now.who (program_of block.now) ≡ None }
    ensures { OnOk result (layout.new ≡ with_program layout.old block.now.who (program_of block.now)) }
{
    let program = block.program(alloc)?;
    match layout.program(block.who, program) {
        Ok(()) => Ok(()),
        Err(_) => unreachable!(),
    }
}

// One batch for each settle, with the commands before it.
fn batches_of(alloc: Global, commands: &[Command]) -> Result<Vec<Batch>, AllocError>
    ensures { IfOk result (λ batches. map batch_turns batches.items ≡ batches_of commands.now) }
{
    let mut batches = Vec::new(alloc);
    let mut turns = Vec::new(alloc);
    for command in commands {
        match *command {
            Command::Stimulus(turn) => turns.push(turn)?,
            Command::Settle => {
                batches.push(Batch { turns })?;
                turns = Vec::new(alloc);
            }
        }
    }
    Ok(batches)
}
