// Rounds.

ghost use Rattle.std.specs.Prelude.{◌≡◌, ◌<◌, ◌≤◌, ◌↔◌, [], MatchBool};
ghost use Rattle.mc_box.specs.BoxShapes.{box_shape};
ghost use Rattle.mc_worker.specs.Account.{IsWork};
ghost use Rattle.mc_worker.specs.Ready.{IsReady, IsShaped};
ghost use Rattle.mc_worker.specs.Rounds.{AllIdle, HasWaitingWork, HasWork, HasStopped, IsRound};
ghost use Rattle.mc_worker.specs.Turns.{AreTurns, IsUnderWay};
ghost use Rattle.mc_worker.specs.declared.limit.TheConstants.{FIRST_STAMP_LIMIT, TURN_LIMIT};
ghost use Rattle.mc_worker.specs.declared.stop.Stop.{Stop};

use crate::limit::TURN_LIMIT;
use crate::progress::{Progress, START};
use crate::stop::{RoundEnd, Stop};
use crate::worker::Worker;
use mc_io::Gate;

impl Worker {
    /// Makes turns, 64 at most: first the retries that slots owe, where they are asked for, then the first stimulus
    /// that is left, and then further ones, shifts, and what has come. Where memory is wanting for a retry, nothing else
    /// is made. Where there is work it makes a turn, or says what is in its way.
    ///
    /// The gate is told of each turn before memory for it is asked for. Want of memory loses nothing: the worker can be
    /// called again, and goes on where it was.
    pub fn round<G: Gate>(&mut self, gate: &G, retries: bool) -> RoundEnd
        requires ready { IsReady self.old }
        requires stamp { self.old.stamp ≤ FIRST_STAMP_LIMIT }
        // Its account, with the numbers of turns and of signals sent and taken.
        ensures round { IsRound retries self.old self.new result }
        // It can be called again, its stamp permitting; scratch is empty, and the box allows the commands that it did.
        ensures ready { IsReady self.new }
        ensures shape { box_shape self.new.part ≡ box_shape self.old.part }
        ensures most { result.turns ≤ TURN_LIMIT }
        // Why it ended, and that it ended so only then.
        ensures cause { result.turns < TURN_LIMIT → HasStopped (AllIdle self.old self.new) self.new result.stop }
        ensures spent { (result.stop ≡ Stop.Spent) ↔ (result.turns ≡ TURN_LIMIT) }
        // Where there is work it makes a turn, or says what is in its way.
        ensures works { HasWork retries self.old → result.turns ≡ 0 → result.stop ≡ Stop.Rested → ⊥ }
    {
        self.part.keeps();
        let mut progress = START;
        if let Some(stop) = self.begin(gate, retries, &mut progress) {
            return progress.ended(stop);
        }
        let stop = self.go_on(gate, &mut progress);
        progress.ended(stop)
    }

    // Turns up to the last one of the round.
    fn go_on<G: Gate>(&mut self, gate: &G, progress: &mut Progress) -> Stop
        requires under_way { IsUnderWay self.old progress.old }
        requires passed { progress.old.passed ≡ 0 }
        ensures turns { AreTurns self.old self.new progress.old progress.new }
        ensures under_way { IsUnderWay self.new progress.new }
        ensures cause { progress.new.turns < TURN_LIMIT → HasStopped (AllIdle self.old self.new) self.new result }
        ensures spent { (result ≡ Stop.Spent) ↔ (progress.new.turns ≡ TURN_LIMIT) }
    {
        for _ in progress.turns..TURN_LIMIT {
            if let Some(stop) = self.turn(gate, progress) {
                return stop;
            }
        }
        Stop::Spent
    }

    /// Whether there is something to do before any ring is looked at: a stimulus, a shift, a signal in an inbox, or,
    /// where retries are asked for, a retry that is owed. Where all rings are empty that is all the work there is.
    pub fn has_waiting_work(&self, retries: bool) -> bool
        ensures { MatchBool result (HasWaitingWork retries self.now) (HasWaitingWork retries self.now → ⊥) }
    {
        if !self.stimuli.is_empty() || self.can_shift() || self.owes(retries) {
            return true;
        }
        self.inboxes.first().is_some()
    }

    /// Whether a round would find something to do: a stimulus, a shift, a signal at some channel end, or, where retries
    /// are asked for, a retry that is owed. It changes only what the ends know of their rings, and how often they
    /// looked.
    pub fn has_work(&mut self, retries: bool) -> bool
        requires shaped { IsShaped self.old }
        ensures exact { MatchBool result (HasWork retries self.new) (HasWork retries self.new → ⊥) }
        ensures same { self.new ≡ record self.old { ins = self.new.ins } }
        ensures work { IsWork self.old self.new [] }
        ensures shaped { IsShaped self.new }
    {
        if !self.stimuli.is_empty() || self.can_shift() || self.owes(retries) {
            return true;
        }
        let mut progress = START;
        self.look(&mut progress).is_some()
    }
}
