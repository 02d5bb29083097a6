//! The paths of a world, and the laws that they keep where nothing is under way.
#![tactic(auto)]

ghost use Rattle.std.specs.Prelude.{◌≡◌, ◌<◌, map, All, IfOk, IsTrue, Some};
ghost use Rattle.std.specs.Option.{option_map};
ghost use Rattle.mc_path_laws.specs.PathLaws.{IsQuietPath};
ghost use Rattle.mc_path.specs.Reached.{AreReached};
ghost use Rattle.mc_path.specs.Views.{end_view, shown_codec, is_flowing, path_flows, view_of};
ghost use Rattle.mc_path.specs.Walks.{walk_from};
ghost use Rattle.mc_model.specs.Paths.{end_goal_of, path_from, paths};
ghost use Rattle.mc_model.specs.Settles.{is_quiet};
ghost use Rattle.mc_model.specs.Worlds.{slot_count};

pub mod laws;
mod network;
mod walk;

use crate::network::{goal_in, slot_in};
use crate::walk::{Walked, walk_from};
use mc_box::Kind;
use mc_signal::Selector;
use mc_slot::{Goal, SlotGoal, State};
use mc_view::{EndView, PathView};
pub use network::Network;
use std::alloc::{AllocError, Global};

/// Each path of a network once, in the order of the lower ends: both ends, whether it flows, its medium, and how
/// many tunnels it goes over. No end hears anything on a path that doesn't flow. Where nothing is under way, each path
/// is closed at all its slots, or flows at all of them with ends that hear each other.
pub fn paths<N: Network>(alloc: Global, network: &N) -> Result<Vec<PathView>, AllocError>
    ensures views { IfOk result (λ views. views.items
        ≡ map (view_of (N.world network.now)) (paths (N.world network.now))) }
    ensures quiet { IsTrue (is_quiet (N.world network.now))
        → All (IsQuietPath (N.world network.now)) (paths (N.world network.now)) }
{
    network.keeps();
    let mut views = Vec::new(alloc);
    let mut reached = vec![in alloc; false; network.slot_count()]?;
    for slot in 0..network.slot_count() {
        if let Some(view) = next_path(network, &mut reached, slot as u32) {
            views.push(view)?;
        }
    }
    Ok(views)
}

// The path of which a slot is the lower end. Its other end is reached then, and so nobody walks from there: that walk
// leads back to a lower slot.
fn next_path<N: Network>(network: &N, reached: &mut [bool], low: u32) -> Option<PathView>
    requires inside { low < slot_count (N.world network.now) }
    requires reached { AreReached (N.world network.now) reached.old }
    ensures path { result ≡ option_map (view_of (N.world network.now)) (path_from (N.world network.now) low) }
    ensures reached { AreReached (N.world network.now) reached.new }
{
    network.keeps();
    if reached[low as usize] {
        return None;
    }
    let path = path_from(network, low)?;
    reached[path.high.slot as usize] = true;
    Some(path)
}

// The path of which a slot is the lower end.
fn path_from<N: Network>(network: &N, low: u32) -> Option<PathView>
    requires { low < slot_count (N.world network.now) }
    ensures { result ≡ option_map (view_of (N.world network.now)) (path_from (N.world network.now) low) }
{
    match goal_in(network, low) {
        SlotGoal::End(_) => {
            let walk = walk_from(network, low)?;
            if low < walk.end {
                Some(path_view(network, low, walk))
            } else {
                None
            }
        }
        SlotGoal::Link(_) => None,
    }
}

// The path from a slot, its lower end, by the walk from there.
fn path_view<N: Network>(network: &N, low: u32, walk: Walked) -> PathView
    requires low { low < slot_count (N.world network.now) }
    requires high { walk.end < slot_count (N.world network.now) }
    requires walk { walk_from (N.world network.now) low ≡ Some walk }
    ensures { result ≡ view_of (N.world network.now) (record { low = low; high = walk.end }) }
{
    network.keeps();
    let flowing = path_flows(network, low, walk.end);
    PathView {
        low: end_view(network, flowing, low),
        high: end_view(network, flowing, walk.end),
        flowing,
        medium: slot_in(network, low).medium,
        tunnels: walk.tunnels,
    }
}

// Whether a path flows: both its ends' slots do.
fn path_flows<N: Network>(network: &N, low: u32, high: u32) -> bool
    requires low { low < slot_count (N.world network.now) }
    requires high { high < slot_count (N.world network.now) }
    ensures { result ≡ path_flows (N.world network.now) (record { low = low; high = high }) }
{
    is_flowing(slot_in(network, low).state) && is_flowing(slot_in(network, high).state)
}

// Whether media flow.
fn is_flowing(state: State) -> bool
    ensures { result ≡ is_flowing state }
{
    matches!(state, State::Flowing)
}

// The codec that an end hears, by the selector that it last got.
fn shown_codec(flowing: bool, selector: Option<Selector>) -> Option<u8>
    ensures { result ≡ shown_codec flowing selector }
{
    if flowing {
        selector.and_then(|chosen| chosen.codec)
    } else {
        None
    }
}

// An end of a path that flows, or of one that doesn't.
fn end_view<N: Network>(network: &N, flowing: bool, slot: u32) -> EndView
    requires { slot < slot_count (N.world network.now) }
    ensures { result ≡ end_view (N.world network.now) flowing slot }
{
    network.keeps();
    let (who, local) = network.place(slot);
    let home = network.home(who);
    EndView {
        slot,
        who,
        local,
        goal: end_goal(goal_in(network, slot)),
        own: home.own(local),
        hears: shown_codec(flowing, slot_in(network, slot).sel_in),
        sends: home.sender(local).codecs,
        device: home.kind() == Kind::Device,
    }
}

// The goal of an end, which no slot of a link has.
fn end_goal(goal: SlotGoal) -> Goal
    ensures { result ≡ end_goal_of goal }
{
    match goal {
        SlotGoal::End(goal) => goal,
        SlotGoal::Link(_) => Goal::Close,
    }
}
