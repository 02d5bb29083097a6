// The legs of a conference.
ghost use Rattle.std.specs.Prelude.{◌≡◌, ◌-◌, ◌^◌, IfOk, OnOk, ◌++◌, min};
ghost use Rattle.mc_conf.specs.Legs.{in_order, leg_of, leg_to, legs, legs_in};

use mc_signal::Medium;
use mc_view::{EndView, PathView};
use std::alloc::{AllocError, Global};

/// A leg of a box, by its party: the far end of a path that flows, which is a device's. Exactly one end of the path,
/// and not the party, is on the box.
#[derive(Clone, Copy, Debug)]
pub struct Leg {
    pub party: EndView,
    pub medium: Medium,
}

/// How many of the paths are legs of a box, up to the greatest number of the type.
pub fn legs(views: &[PathView], who: u32) -> u32
    ensures { result ≡ min (legs views.now who) (2 ^ 32 - 1) }
{
    leg_count(views, who).min(u32::MAX as usize) as u32
}

// How many of the paths are legs of a box.
pub fn leg_count(views: &[PathView], who: u32) -> usize
    ensures { result ≡ legs views.now who }
{
    views
        .iter()
        .filter(|view| leg_of(who, view).is_some())
        .count()
}

// The legs of a box, by the numbers of their parties' slots.
pub fn legs_in_order(alloc: Global, views: &[PathView], who: u32) -> Result<Vec<Leg>, AllocError>
    ensures { IfOk result (λ found. found.items ≡ in_order (legs_in views.now who)) }
{
    let mut found = Vec::new(alloc);
    add_legs(views, who, &mut found)?;
    sort_legs(&mut found)?;
    Ok(found)
}

// The legs of a box come to the end, in the order of the paths.
fn add_legs(views: &[PathView], who: u32, found: &mut Vec<Leg>) -> Result<(), AllocError>
    ensures { OnOk result (found.new.items ≡ found.old.items ++ legs_in views.now who) }
{
    for view in views {
        if let Some(leg) = leg_of(who, view) {
            found.push(leg)?;
        }
    }
    Ok(())
}

// Sorts legs by the numbers of their parties' slots.
fn sort_legs(found: &mut Vec<Leg>) -> Result<(), AllocError>
    ensures { OnOk result (found.new.items ≡ in_order found.old.items) }
{
    found.sort_by_key(|leg| leg.party.slot)?;
    Ok(())
}

// The leg that a path is, if it is one.
fn leg_of(who: u32, view: &PathView) -> Option<Leg>
    ensures { result ≡ leg_of who view.now }
{
    if !view.flowing {
        return None;
    }
    match (view.low.who == who, view.high.who == who) {
        (true, false) => leg_to(view.medium, view.high),
        (false, true) => leg_to(view.medium, view.low),
        _ => None,
    }
}

// The leg to an end, if it is a device's.
fn leg_to(medium: Medium, party: EndView) -> Option<Leg>
    ensures { result ≡ leg_to medium party }
{
    if party.device {
        Some(Leg { party, medium })
    } else {
        None
    }
}
