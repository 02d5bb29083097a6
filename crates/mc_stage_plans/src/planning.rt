// What a script is to do, by the lines of its text.

ghost use Rattle.std.specs.Prelude.{◌≡◌, ◌++◌, map, IfOk, OnOk};
ghost use Rattle.mc_net.specs.Nets.{batch_turns};
ghost use Rattle.mc_stages.specs.Plans.{batch_of, growths_of};
ghost use Rattle.mc_stage_plans.specs.Planned.{ArePlansOf, MoreArePlanned, no_growths};

use mc_box::Turn;
use mc_script::{Batch, Command};
use mc_stages::{ChannelChange, StagePlan};
use mc_tail::Item;
use std::alloc::{AllocError, Global};

/// The plans that the batches of a text and its lines after `grow` make: one for each batch, without joins and cuts,
/// and then one for each settle, with the joins, cuts and commands since the one before. What stands after the last
/// settle is in none.
pub fn stage_plans(
    alloc: Global,
    batches: &[Batch],
    items: &[Item],
) -> Result<Vec<StagePlan>, AllocError>
    ensures { IfOk result (λ plans. ArePlansOf (map batch_turns batches.now) items.now plans.items) }
{
    let mut plans = batch_plans(alloc, batches)?;
    plan_items(alloc, &mut plans, items)?;
    Ok(plans)
}

// One plan for each batch, without joins and cuts.
fn batch_plans(alloc: Global, batches: &[Batch]) -> Result<Vec<StagePlan>, AllocError>
    ensures growths { IfOk result (λ plans. map growths_of plans.items ≡ no_growths (map batch_turns batches.now)) }
    ensures batches { IfOk result (λ plans. map batch_of plans.items ≡ map batch_turns batches.now) }
{
    let mut plans = Vec::new(alloc);
    for batch in batches {
        plans.push(StagePlan {
            growths: Vec::new(alloc),
            batch: copied(alloc, &batch.turns)?,
        })?;
    }
    Ok(plans)
}

// The same turns once more.
fn copied(alloc: Global, turns: &[Turn]) -> Result<Vec<Turn>, AllocError>
    ensures { IfOk result (λ copied. copied.items ≡ turns.now) }
{
    let mut copied = Vec::new(alloc);
    copied.extend_from_slice(turns)?;
    Ok(copied)
}

// One plan more for each settle among items.
fn plan_items(alloc: Global, plans: &mut Vec<StagePlan>, items: &[Item]) -> Result<(), AllocError>
    ensures { OnOk result (MoreArePlanned plans.old.items items.now plans.new.items) }
{
    let mut growths = Vec::new(alloc);
    let mut batch = Vec::new(alloc);
    for item in items {
        match *item {
            Item::Join { medium, from, to } => {
                growths.push(ChannelChange::Join { medium, from, to })?
            }
            Item::Cut { channel } => growths.push(ChannelChange::Cut { channel })?,
            Item::Line(command) => match command {
                Command::Stimulus(turn) => batch.push(turn)?,
                Command::Settle => {
                    plans.push(StagePlan { growths, batch })?;
                    growths = Vec::new(alloc);
                    batch = Vec::new(alloc);
                }
            },
        }
    }
    Ok(())
}
