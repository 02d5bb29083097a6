// The retries that a round begins with.

ghost use Rattle.std.specs.Prelude.{◌≡◌, ◌≢◌, ◌+◌, ◌<◌, ◌≤◌, ℕ, [], length, IsTrue, IfNone, IfSome, MatchBool, MatchOption};
ghost use Rattle.mc_box.specs.BoxEvents.{is_enabled};
ghost use Rattle.mc_box.specs.declared.event.Event.{Event};
ghost use Rattle.mc_worker.specs.Account.{owed_below, owed_retry_of, retries_below};
ghost use Rattle.mc_worker.specs.Rounds.{OwesRetry};
ghost use Rattle.mc_worker.specs.Turns.{AreRetried, IsCutShort, IsUnderWay, is_memory};
ghost use Rattle.mc_worker.specs.declared.limit.TheConstants.{TURN_LIMIT};

use crate::progress::Progress;
use crate::stop::Stop;
use crate::worker::Worker;
use mc_box::Event;
use mc_io::Gate;

impl Worker {
    /// The retries that the slots owe, where they are asked for. A stop comes only for want of memory.
    pub(crate) fn begin<G: Gate>(
        &mut self,
        gate: &G,
        retries: bool,
        progress: &mut Progress,
    ) -> Option<Stop>
        requires under_way { IsUnderWay self.old progress.old }
        requires turns { progress.old.turns ≡ 0 }
        ensures made { MatchOption result
            (AreRetried self.old self.new progress.old progress.new
            (retries_below retries self.old.part (length self.old.part.slots)))
            (λ stop. IsTrue retries × IsCutShort self.old self.new progress.old progress.new stop) }
        ensures under_way { IsUnderWay self.new progress.new }
        ensures passed { progress.new.passed ≡ progress.old.passed }
        ensures fewer { IfSome result (λ stop. progress.new.turns < TURN_LIMIT) }
    {
        if retries {
            self.retry_all(gate, progress)
        } else {
            None
        }
    }

    // A retry of each slot that owes one.
    fn retry_all<G: Gate>(&mut self, gate: &G, progress: &mut Progress) -> Option<Stop>
        requires under_way { IsUnderWay self.old progress.old }
        requires turns { progress.old.turns ≡ 0 }
        ensures made { MatchOption result
            (AreRetried self.old self.new progress.old progress.new
            (owed_below self.old.part (length self.old.part.slots)))
            (λ stop. IsCutShort self.old self.new progress.old progress.new stop) }
        ensures under_way { IsUnderWay self.new progress.new }
        ensures passed { progress.new.passed ≡ progress.old.passed }
        ensures fewer { IfSome result (λ stop. progress.new.turns < TURN_LIMIT) }
    {
        for slot in 0..self.part.slots().len() {
            if let Some(stop) = self.retry_one(gate, slot as u8, progress) {
                return Some(stop);
            }
        }
        None
    }

    // The retry of a slot, where it owes one.
    fn retry_one<G: Gate>(&mut self, gate: &G, slot: u8, progress: &mut Progress) -> Option<Stop>
        requires under_way { IsUnderWay self.old progress.old }
        requires fewer { progress.old.turns < TURN_LIMIT }
        ensures made { MatchOption result
            (AreRetried self.old self.new progress.old progress.new (owed_retry_of self.old.part slot))
            (λ stop. AreRetried self.old self.new progress.old progress.new [] × IsTrue (is_memory stop)) }
        ensures under_way { IsUnderWay self.new progress.new }
        ensures passed { progress.new.passed ≡ progress.old.passed }
        ensures slots { length self.new.part.slots ≡ length self.old.part.slots }
        ensures others { IfNone result ((other : ℕ) → other ≢ slot
            → is_enabled self.new.part (Event.Retry other) ≡ is_enabled self.old.part (Event.Retry other)) }
        ensures turns { progress.new.turns ≤ progress.old.turns + 1 }
        ensures stopped { IfSome result (λ stop. progress.new.turns ≡ progress.old.turns) }
    {
        let retry = Event::Retry(slot);
        if !self.part.enabled(&retry) {
            return None;
        }
        gate.reached(self.part.number(), progress.turns + 1);
        self.turn_act(retry, progress)
    }

    /// Whether a slot owes a retry, where retries are asked for.
    pub(crate) fn owes(&self, retries: bool) -> bool
        ensures { MatchBool result (IsTrue retries × OwesRetry self.now.part)
            (IsTrue retries × OwesRetry self.now.part → ⊥) }
    {
        retries && self.owes_any()
    }

    // Whether a slot owes a retry.
    fn owes_any(&self) -> bool
        ensures { MatchBool result (OwesRetry self.now.part) (OwesRetry self.now.part → ⊥) }
    {
        for slot in 0..self.part.slots().len() {
            if self.part.enabled(&Event::Retry(slot as u8)) {
                return true;
            }
        }
        false
    }
}
