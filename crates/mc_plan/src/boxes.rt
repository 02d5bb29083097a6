// The new boxes that a plan gives: a slot for each tunnel that leads to a box.

ghost use Rattle.std.specs.Prelude.{◌≡◌, ◌+◌, ◌==◌, ◌<◌, ◌≤◌, ◌^◌, [], All, IfOk, OnOk, length, map, replicate};
ghost use Rattle.mc_plan.specs.Setups.{lists_of, setup_if, setups_at, setups_of, with_more};
ghost use Rattle.mc_model.specs.Worlds.{HasTunnels};
ghost use Rattle.mc_plan.specs.LaidOut.{HasBoxes, IsLaidOut};
ghost use Rattle.mc_plan.specs.Plans.{box_given, boxes_from, boxes_given};
ghost use Rattle.mc_model.specs.Sound.{AreNew};
ghost use Rattle.mc_box.specs.Boxes.{set_up};
ghost use Rattle.mc_plan.specs.declared.limit.TheConstants.{PLAN_BOX_LIMIT, PLAN_CHANNEL_LIMIT};

use crate::plan::BoxPlan;
use mc_box::{MediaBox, Setup, SlotSetup};
use mc_world::Channel;
use std::alloc::{AllocError, Global};

// What the boxes of these plans are made of, in the order of their numbers.
pub fn setups_from(
    alloc: Global,
    plans: &[BoxPlan],
    channels: &[Channel],
) -> Result<Vec<Setup>, AllocError>
    requires { IsLaidOut (record { boxes = plans.now; channels = channels.now }) }
    ensures { IfOk result (λ setups. map set_up setups.items ≡ boxes_from channels.now 0 plans.now) }
{
    let lists = slots_by_box(alloc, channels, plans.len())?;
    setups_with(alloc, plans, lists)
}

// What the boxes of these plans are made of, each with its slots.
fn setups_with(
    alloc: Global,
    plans: &[BoxPlan],
    lists: Vec<Vec<SlotSetup>>,
) -> Result<Vec<Setup>, AllocError>
    requires few { length plans.now ≤ PLAN_BOX_LIMIT }
    requires each { length lists.items ≡ length plans.now }
    ensures { IfOk result (λ setups. map set_up setups.items ≡ boxes_given 0 (lists_of lists.items) plans.now) }
{
    let mut setups = Vec::new(alloc);
    for slots in lists {
        let who = setups.len();
        setups.push(setup_from(who as u32, plans[who], slots))?;
    }
    Ok(setups)
}

// What a planned box with these slots is made of.
fn setup_from(who: u32, planned: BoxPlan, slots: Vec<SlotSetup>) -> Setup
    ensures { set_up result ≡ box_given slots.items who planned }
{
    Setup {
        kind: planned.kind,
        number: who,
        codecs: planned.codecs,
        sends: planned.sends,
        first_version: planned.first_version,
        slots,
        program: None,
    }
}

// The boxes that are made of these.
pub fn boxes_of(alloc: Global, setups: Vec<Setup>) -> Result<Vec<MediaBox>, AllocError>
    requires { AreNew (map set_up setups.items) }
    ensures { IfOk result (λ boxes. boxes.items ≡ map set_up setups.items) }
{
    let mut boxes = Vec::new(alloc);
    for setup in setups {
        boxes.push(MediaBox::new(alloc, setup)?)?;
    }
    Ok(boxes)
}

// The slots of each of so many boxes, in the order of their local numbers.
fn slots_by_box(
    alloc: Global,
    channels: &[Channel],
    boxes: usize,
) -> Result<Vec<Vec<SlotSetup>>, AllocError>
    requires channels { length channels.now ≤ PLAN_CHANNEL_LIMIT }
    requires tunnels { All HasTunnels channels.now }
    requires there { All (HasBoxes boxes) channels.now }
    ensures { IfOk result (λ lists. lists_of lists.items ≡ with_more (setups_of channels.now) 0 (replicate boxes [])) }
{
    let mut lists = empty_lists(alloc, boxes)?;
    let mut count = 0;
    for channel in channels {
        add_channel(channel, count, &mut lists)?;
        count += channel.tunnels.len() as u32;
    }
    Ok(lists)
}

// As many empty lists.
fn empty_lists(alloc: Global, boxes: usize) -> Result<Vec<Vec<SlotSetup>>, AllocError>
    ensures { IfOk result (λ lists. lists_of lists.items ≡ replicate boxes []) }
{
    let mut lists = Vec::with_capacity(alloc, boxes)?;
    for _done in 0..boxes {
        lists.push(Vec::new(alloc))?;
    }
    Ok(lists)
}

// Adds the slots of a channel, whose tunnels are counted from `count` on, to those of its boxes.
fn add_channel(
    channel: &Channel,
    count: u32,
    lists: &mut Vec<Vec<SlotSetup>>,
) -> Result<(), AllocError>
    requires tunnels { count + length channel.now.tunnels ≤ 2 ^ 31 }
    requires there { HasBoxes (length lists.old.items) channel.now }
    ensures slots { OnOk result (lists_of lists.new.items
        ≡ with_more (λ who. setups_at who count channel.now) 0 (lists_of lists.old.items)) }
    ensures boxes { OnOk result (length lists.new.items ≡ length lists.old.items) }
{
    for i in 0..channel.tunnels.len() {
        let medium = channel.tunnels[i].medium;
        let origin = 2 * (count + i as u32);
        let near = SlotSetup {
            origin,
            medium,
            initiator: true,
            address: None,
        };
        let far = SlotSetup {
            origin: origin + 1,
            medium,
            initiator: false,
            address: None,
        };
        add_slot(channel.from, near, lists)?;
        add_slot(channel.to, far, lists)?;
    }
    Ok(())
}

// Adds a slot to those of a box.
fn add_slot(who: u32, setup: SlotSetup, lists: &mut Vec<Vec<SlotSetup>>) -> Result<(), AllocError>
    requires { who < length lists.old.items }
    ensures slots { OnOk result (lists_of lists.new.items
        ≡ with_more (λ other. setup_if (who == other) setup) 0 (lists_of lists.old.items)) }
    ensures boxes { OnOk result (length lists.new.items ≡ length lists.old.items) }
{
    let list = &mut lists[who as usize];
    list.push(setup)?;
    Ok(())
}
