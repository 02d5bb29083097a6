// A network that grows and shrinks.

ghost use Rattle.std.specs.Prelude.{◌≡◌, ◌↔◌, ◌∷◌, [], not, filter, IfOk, IsFalse, IsTrue, OnErr, OnOk, Some};
ghost use Rattle.mc_box.specs.BoxEvents.{turn_of};
ghost use Rattle.mc_growth.specs.Growths.{grown_from, with_cut, with_join};
ghost use Rattle.mc_growth.specs.Joins.{MayJoin};
ghost use Rattle.mc_growth.specs.Outs.{is_out, least_used, AreOut, MayCut, SetNoneOut};
ghost use Rattle.mc_grow.specs.Asked.{is_out_at, names_out};
ghost use Rattle.mc_grow.specs.Cuts.{unless_used};
ghost use Rattle.mc_model.specs.Steps.{step};
ghost use Rattle.mc_world.specs.StepAnswers.{CannotHappen, LacksVersion};

use crate::channels::{has_room, is_there, least_used, may_leave, take_out};
use mc_box::{Change, Event};
use mc_signal::Medium;
use mc_view::PathView;
use mc_world::{StepFault, World};
use std::alloc::{AllocError, Global};
use std::marker::Model;

// The greatest number that a channel may have.
const LAST_CHANNEL: u32 = (1 << 28) - 1;

/// A slot of a channel that was to be cut isn't closed, or has another goal than close.
#[derive(Clone, Copy, PartialEq, Eq, Debug)]
pub struct InUse {
    pub slot: u32,
}

/// A network whose channels come and go between settles. Its world has all channels that ever were; those that are out
/// have their slots closed there, with goal close, and nothing comes to them.
#[derive(Debug, Drop)]
pub struct Grown {
    world: World,
    out: Vec<bool>,
}

impl Model for Grown {
    ghost use Rattle.mc_growth.specs.Growths.{GrownState};

    ghost Value = { GrownState };

    ghost use Rattle.mc_growth.specs.Outs.{AreOut};

    ghost view = { λ g. record { world = g.world; out = g.out.items } };

    ghost invariant = { λ g. AreOut g.world g.out.items };
}

impl Grown {
    /// A network of which nothing is out.
    pub fn new(alloc: Global, world: World) -> Result<Grown, AllocError>
        ensures { IfOk result (λ grown. grown ≡ grown_from world) }
    {
        let out = vec![in alloc; false; world.slot_count()]?;
        Ok(Grown { world, out })
    }

    /// What every network keeps, for a caller to rest on: the slots of a channel are all out or none of them is, and
    /// each slot that is out is idle.
    pub fn keeps(&self)
        ensures { AreOut self.now.world self.now.out }
    {
        let _ = self.out.len();
    }

    /// The world, with all channels that ever were.
    pub fn world(&self) -> &World
        ensures { result.now ≡ self.now.world }
    {
        &self.world
    }

    /// Whether a slot is out.
    pub fn is_out(&self, slot: u32) -> bool
        ensures { result ≡ is_out self.now.out slot }
    {
        match self.out.get(slot as usize) {
            Some(out) => *out,
            None => false,
        }
    }

    /// Whether a channel may join two boxes, as `join` asks: both are there, they differ, each has fewer slots than the
    /// limit and no program, and there is a number for the channel.
    pub fn may_join(&self, from: u32, to: u32) -> bool
        ensures { IsTrue result ↔ MayJoin self.now.world from to }
    {
        let boxes = self.world.boxes();
        (from as usize) < boxes.len()
            && (to as usize) < boxes.len()
            && from != to
            && has_room(&boxes[from as usize])
            && has_room(&boxes[to as usize])
            && !is_there(&self.world, LAST_CHANNEL)
    }

    /// Whether a channel may be cut, as `cut` asks: it is there, none of its slots is out, and neither of its boxes has
    /// a program.
    pub fn may_cut(&self, channel: u32) -> bool
        ensures { IsTrue result ↔ MayCut self.now.world self.now.out channel }
    {
        is_there(&self.world, channel) && may_leave(&self.world, &self.out, channel)
    }

    /// Whether an event of a box is a Set on a slot that is out.
    pub fn sets_out(&self, who: u32, event: &Event) -> bool
        ensures { IsFalse result ↔ SetNoneOut self.now.world self.now.out (turn_of who event.now ∷ []) }
    {
        self.world.keeps();
        self.names_out(who, event)
    }

    // Whether the slots that a Set of a box names are out, or one of them.
    fn names_out(&self, who: u32, event: &Event) -> bool
        ensures { result ≡ names_out self.now.world self.now.out who event.now }
    {
        match event {
            Event::Set(Change::End(local, _)) => self.is_out_at(who, *local),
            Event::Set(Change::Link(first, second)) => {
                self.is_out_at(who, *first) || self.is_out_at(who, *second)
            }
            Event::Take(_) | Event::Media(_) | Event::Tell(_) | Event::Retry(_) | Event::Shift => {
                false
            }
        }
    }

    // Whether a slot of a box is out.
    fn is_out_at(&self, who: u32, local: u8) -> bool
        ensures { result ≡ is_out_at self.now.world self.now.out who local }
    {
        match self.world.number(who, local) {
            Some(slot) => self.is_out(slot),
            None => false,
        }
    }

    /// One event of one box that is no Set on a slot that is out, as the world makes it.
    pub fn step(&mut self, who: u32, event: Event) -> Result<(), StepFault>
        requires { SetNoneOut self.old.world self.old.out (turn_of who event ∷ []) }
        ensures ok { OnOk result (step self.old.world (turn_of who event) ≡ Some self.new.world) }
        ensures unchanged { OnErr result (self.new ≡ self.old) }
        ensures out { self.new.out ≡ self.old.out }
        ensures version_end { (result ≡ Err StepFault.VersionEnd) ↔ LacksVersion self.old.world (turn_of who event) }
        ensures not_enabled { (result ≡ Err StepFault.NotEnabled) ↔ CannotHappen self.old.world (turn_of who event) }
    {
        self.world.keeps();
        self.world.step(who, event)
    }

    /// A channel of one tunnel joins two boxes: its two slots have the next numbers, the initiator's, `from`'s, first,
    /// and come last in their boxes. All else stays, whatever is under way. It fails only for want of memory; the
    /// network is gone then. It costs what it adds, and now and then the growth of a table.
    pub fn join(
        self,
        alloc: Global,
        medium: Medium,
        from: u32,
        to: u32,
    ) -> Result<Grown, AllocError>
        requires { MayJoin self.world from to }
        ensures { IfOk result (λ grown. grown ≡ with_join self medium from to) }
    {
        self.world.keeps();
        let world = self.world.join(alloc, medium, from, to)?;
        let mut out = self.out;
        out.push(false)?;
        out.push(false)?;
        Ok(Grown { world, out })
    }

    /// A channel is cut: all its slots are out from now on, whatever is under way elsewhere. It is refused where one of
    /// them is in use, by the least that is, and changes nothing then. It looks at the slots of this channel alone, and
    /// takes no memory.
    pub fn cut(&mut self, channel: u32) -> Result<(), InUse>
        requires { MayCut self.old.world self.old.out channel }
        ensures answer { result ≡ unless_used (least_used self.old.world channel) }
        ensures cut { OnOk result (self.new ≡ with_cut self.old channel) }
        ensures unchanged { OnErr result (self.new ≡ self.old) }
    {
        self.world.keeps();
        if let Some(slot) = least_used(&self.world, channel) {
            return Err(InUse { slot });
        }
        take_out(&self.world, &mut self.out, channel);
        Ok(())
    }

    /// The world and the flags of slots, so that a settle can run in between.
    pub fn open_up(self) -> (World, Vec<bool>)
        ensures world { result.0 ≡ self.world }
        ensures out { result.1.items ≡ self.out }
        ensures keeps { AreOut self.world self.out }
    {
        (self.world, self.out)
    }

    /// The network of a world and of flags that fit it.
    pub fn put_back(world: World, out: Vec<bool>) -> Grown
        requires { AreOut world out.items }
        ensures { result ≡ record { world = world; out = out.items } }
    {
        Grown { world, out }
    }

    /// The paths that aren't out, in their order. It takes no memory.
    pub fn present(&self, views: Vec<PathView>) -> Vec<PathView>
        ensures { result.items ≡ filter (λ view. not (is_out self.now.out view.low.slot)) views.items }
    {
        let mut views = views;
        views.retain(|view| !self.is_out(view.low.slot));
        views
    }
}
