// The network of a script while it runs.

ghost use Rattle.std.specs.Prelude.{◌≡◌, ◌≤◌, ℕ, length, map, All, IfErr, IfOk, IsTrue};
ghost use Rattle.mc_model.specs.Paths.{paths};
ghost use Rattle.mc_model.specs.Settles.{IsSettled, is_quiet};
ghost use Rattle.mc_model.specs.Shapes.{AreAllowed};
ghost use Rattle.mc_model.specs.Sound.{IsSound};
ghost use Rattle.mc_divided.specs.declared.limit.TheConstants.{NETWORK_LIMIT};
ghost use Rattle.mc_path.specs.Views.{view_of};
ghost use Rattle.mc_path_laws.specs.PathLaws.{IsQuietPath};
ghost use Rattle.mc_rounds.specs.Stops.{Stops};
ghost use Rattle.mc_seq.specs.Draws.{IsScheduled, StopsByDraws};
ghost use Rattle.mc_seq.specs.ShiftLimit.{KeepsShiftLimit};
ghost use Rattle.mc_top.specs.Drawn.{StopsDrawn, draws_state};
ghost use Rattle.mc_top.specs.Scripts.{FollowSchedule, network_draws, network_world};

use mc_box::Turn;
use mc_io::Gate;
use mc_path::{Network, paths};
use mc_rounds::{InParts, part_count};
use mc_seq::{SettleFault, settle_one};
use mc_text::Draws;
use mc_view::PathView;
use mc_world::{Settled, World};
use std::alloc::{AllocError, Global};
use std::thread::Threads;

/// The network of a script while it runs.
#[derive(Drop)]
pub enum ScriptNetwork {
    /// The order of its boxes' turns is drawn; it is settled on one thread.
    Drawn(World, Draws),
    /// The order of its boxes' turns is free; its parts are settled side by side.
    Free(InParts),
}

impl ScriptNetwork {
    /// A network of this world. It fails only for want of memory; the world is gone then.
    pub fn new<R: Threads>(
        rt: &R,
        alloc: Global,
        world: World,
        draws: Option<Draws>,
    ) -> Result<ScriptNetwork, AllocError>
        requires few { length world.boxes ≤ NETWORK_LIMIT }
        ensures world { IfOk result (λ network. network_world network ≡ world) }
        ensures draws { IfOk result (λ network. network_draws network ≡ draws_state draws) }
    {
        match draws {
            Some(draws) => Ok(ScriptNetwork::Drawn(world, draws)),
            None => {
                let parts = InParts::new(alloc, world, part_count(rt))?;
                Ok(ScriptNetwork::Free(parts))
            }
        }
    }

    /// Its world is sound.
    pub fn keeps(&self)
        ensures sound { IsSound (network_world self.now) }
    {
        match self {
            ScriptNetwork::Drawn(world, _) => world.keeps(),
            ScriptNetwork::Free(parts) => parts.keeps(),
        }
    }

    /// Settles a batch, which the network allows: by draws, where there are some, and else by its parts. The network is
    /// gone where it doesn't rest.
    pub fn settle<R: Threads + Sync, G: Gate + Sync>(
        self,
        rt: &R,
        alloc: Global,
        gate: &G,
        batch: &[Turn],
    ) -> Result<(ScriptNetwork, Vec<Turn>), SettleFault>
        requires allowed { AreAllowed (network_world self) batch.now }
        ensures settled { IfOk result (λ done.
            IsSettled (network_world self) batch.now done.1.items (network_world done.0)) }
        ensures shift_limit { IfOk result (λ done. KeepsShiftLimit done.1.items) }
        ensures scheduled { IfOk result (λ done. FollowSchedule (network_draws self) (network_draws done.0)
            (network_world self) batch.now done.1.items (network_world done.0)) }
        ensures stops { IfErr result (Stops (network_world self) batch.now) }
        ensures drawn { IfErr result (StopsDrawn (network_draws self) (network_world self) batch.now) }
    {
        match self {
            ScriptNetwork::Drawn(world, mut draws) => {
                let Settled { world, turns } = settle_drawn(alloc, world, batch, &mut draws)?;
                Ok((ScriptNetwork::Drawn(world, draws), turns))
            }
            ScriptNetwork::Free(parts) => {
                let (parts, turns) = parts.settle(rt, alloc, gate, batch)?;
                Ok((ScriptNetwork::Free(parts), turns))
            }
        }
    }

    /// All its paths.
    pub fn views(&self, alloc: Global) -> Result<Vec<PathView>, AllocError>
        ensures views { IfOk result (λ views. views.items
            ≡ map (view_of (network_world self.now)) (paths (network_world self.now))) }
        ensures quiet { IsTrue (is_quiet (network_world self.now))
            → All (IsQuietPath (network_world self.now)) (paths (network_world self.now)) }
    {
        match self {
            ScriptNetwork::Drawn(world, _) => paths(alloc, world),
            ScriptNetwork::Free(parts) => paths(alloc, parts),
        }
    }
}

// Settles a batch by draws, which go on from there.
fn settle_drawn(
    alloc: Global,
    world: World,
    batch: &[Turn],
    draws: &mut Draws,
) -> Result<Settled, SettleFault>
    requires allowed { AreAllowed world batch.now }
    ensures settled { IfOk result (λ done. IsSettled world batch.now done.turns.items done.world) }
    ensures shift_limit { IfOk result (λ done. KeepsShiftLimit done.turns.items) }
    ensures scheduled { IfOk result (λ done.
        IsScheduled world batch.now draws.old.state done.turns.items done.world draws.new.state) }
    ensures stops { IfErr result (Stops world batch.now) }
    ensures drawn { IfErr result (λ fault.
        (end : ℕ) × StopsByDraws world batch.now draws.old.state end fault) }
{
    settle_one(alloc, world, batch, draws)
}
