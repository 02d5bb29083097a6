// Whether boxes, channels and programs are the same.

ghost use Rattle.std.specs.Prelude.{◌≡◌, MatchBool};
ghost use Rattle.mc_program_lines.specs.Programs.{words_of};

use crate::same::{Compared, are_same};
use mc_box::Kind;
use mc_plan::BoxPlan;
use mc_program_lines::{Block, StatePart};
use mc_rule::{Guard, Rule};
use mc_signal::Medium;
use mc_slot::{Goal, SlotGoal, State};
use mc_world::{Channel, Tunnel};

fn is_same_kind(kind: Kind, other: Kind) -> bool
    ensures { MatchBool result (kind ≡ other) (kind ≡ other → ⊥) }
{
    match kind {
        Kind::Device => matches!(other, Kind::Device),
        Kind::Feature => matches!(other, Kind::Feature),
    }
}

fn is_same_medium(medium: Medium, other: Medium) -> bool
    ensures { MatchBool result (medium ≡ other) (medium ≡ other → ⊥) }
{
    match medium {
        Medium::Audio => matches!(other, Medium::Audio),
        Medium::Video => matches!(other, Medium::Video),
    }
}

fn is_same_state(state: State, other: State) -> bool
    ensures { MatchBool result (state ≡ other) (state ≡ other → ⊥) }
{
    match state {
        State::Closed => matches!(other, State::Closed),
        State::Opening => matches!(other, State::Opening),
        State::Opened => matches!(other, State::Opened),
        State::Flowing => matches!(other, State::Flowing),
        State::Closing => matches!(other, State::Closing),
    }
}

fn is_same_goal(goal: Goal, other: Goal) -> bool
    ensures { MatchBool result (goal ≡ other) (goal ≡ other → ⊥) }
{
    match goal {
        Goal::Open => matches!(other, Goal::Open),
        Goal::Close => matches!(other, Goal::Close),
        Goal::Hold => matches!(other, Goal::Hold),
    }
}

fn is_same_slot_goal(goal: SlotGoal, other: SlotGoal) -> bool
    ensures { MatchBool result (goal ≡ other) (goal ≡ other → ⊥) }
{
    match (goal, other) {
        (SlotGoal::End(goal), SlotGoal::End(other)) => is_same_goal(goal, other),
        (SlotGoal::Link(partner), SlotGoal::Link(other)) => partner == other,
        _ => false,
    }
}

fn is_same_guard(guard: Guard, other: Guard) -> bool
    ensures { MatchBool result (guard ≡ other) (guard ≡ other → ⊥) }
{
    match (guard, other) {
        (Guard::SlotIs(local, state), Guard::SlotIs(other, there)) => {
            local == other && is_same_state(state, there)
        }
        (Guard::Told(word), Guard::Told(other)) => word == other,
        _ => false,
    }
}

impl Compared for Vec<u8> {
    ghost use Rattle.std.specs.Prelude.{List, ℕ};

    ghost Seen = { List ℕ };

    ghost seen = { λ word. word.items };

    fn is_same(&self, other: &Vec<u8>) -> bool {
        self.as_slice() == other.as_slice()
    }
}

impl Compared for BoxPlan {
    ghost use Rattle.mc_lines.specs.BoxLines.{box_seen};
    ghost use Rattle.mc_lines.specs.SoFar.{DeclaredBox};

    ghost Seen = { DeclaredBox };

    ghost seen = { box_seen };

    fn is_same(&self, other: &BoxPlan) -> bool {
        is_same_kind(self.kind, other.kind)
            && self.first_version == other.first_version
            && self.codecs.as_slice() == other.codecs.as_slice()
            && self.sends.as_slice() == other.sends.as_slice()
    }
}

impl Compared for Tunnel {
    ghost use Rattle.mc_model.specs.declared.channel.Tunnel.{Tunnel};

    ghost Seen = { Tunnel };

    ghost seen = { λ tunnel. tunnel };

    fn is_same(&self, other: &Tunnel) -> bool {
        is_same_medium(self.medium, other.medium) && self.from == other.from && self.to == other.to
    }
}

impl Compared for Channel {
    ghost use Rattle.mc_model.specs.Worlds.{ChannelState};

    ghost Seen = { ChannelState };

    ghost seen = { λ channel. channel };

    fn is_same(&self, other: &Channel) -> bool {
        self.from == other.from && self.to == other.to && are_same(&self.tunnels, &other.tunnels)
    }
}

impl Compared for Option<SlotGoal> {
    ghost use Rattle.std.specs.Prelude.{Option};
    ghost use Rattle.mc_slot.specs.declared.SlotGoal.{SlotGoal};

    ghost Seen = { Option SlotGoal };

    ghost seen = { λ goal. goal };

    fn is_same(&self, other: &Option<SlotGoal>) -> bool {
        match (self, other) {
            (None, None) => true,
            (Some(goal), Some(other)) => is_same_slot_goal(*goal, *other),
            _ => false,
        }
    }
}

impl Compared for Rule {
    ghost use Rattle.mc_rule.specs.declared.Rule.{Rule};

    ghost Seen = { Rule };

    ghost seen = { λ rule. rule };

    fn is_same(&self, other: &Rule) -> bool {
        is_same_guard(self.guard, other.guard) && self.target == other.target
    }
}

impl Compared for StatePart {
    ghost use Rattle.mc_program_lines.specs.Programs.{PartState};

    ghost Seen = { PartState };

    ghost seen = { λ part. part };

    fn is_same(&self, other: &StatePart) -> bool {
        are_same(&self.goals, &other.goals) && are_same(&self.transitions, &other.transitions)
    }
}

impl Compared for Block {
    ghost use Rattle.mc_program_lines.specs.Programs.{BlockState};

    ghost Seen = { BlockState };

    ghost seen = { λ block. block };

    fn is_same(&self, other: &Block) -> bool {
        self.who == other.who
            && are_same(&self.states, &other.states)
            && are_same(&self.parts, &other.parts)
    }
}
