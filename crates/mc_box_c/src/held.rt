//! A box, and a queue with room for what it sends in one event.

ghost use Rattle.std.specs.Prelude.{[], ◌≡◌, ◌≢◌, ◌+◌, ◌*◌, ◌<◌, ◌≤◌, ◌++◌, drop, is_some, length, map, IfOk, IsTrue};
ghost use Rattle.mc_slot.specs.Moves.{slot_take};
ghost use Rattle.mc_slot.specs.Sending.{sends_of};
ghost use Rattle.mc_box.specs.Boxes.{slot_at};
ghost use Rattle.mc_box_c.specs.Answers.{HasActed, HasTaken, WhyNotActed, WhyNotTaken};
ghost use Rattle.mc_plain.specs.Asked.{is_box, SaysBox};
ghost use Rattle.mc_plain.specs.Numbers.{sent_of};
ghost use Rattle.mc_plain.specs.declared.answer.TheConstants.{OK};

use mc_box::{MediaBox, VersionEnd};
use mc_lane::Lane;
use mc_plain::answer;
use mc_plain::asked::{PlainEvent, PlainSetup, PlainSlot};
use mc_plain::program::PlainState;
use mc_plain::signals::{PlainSent, PlainSignal};
use mc_signal::Signal;
use mc_slot::Sends;
use std::alloc::{AllocError, Global};

/// A box, a queue with room for what it sends in one event, and a list for what it sends when it takes a signal. Both
/// are empty between calls. So no event wants memory, and no call makes a list. The signal that a slot takes is read into
/// `signal`, which says nothing between calls: a variable would be kept as its fields, and these cost more to move.
#[derive(Drop)]
pub struct HeldBox {
    pub part: MediaBox,
    pub out: Lane<(u8, Signal)>,
    pub sends: Sends,
    pub signal: Signal,
    pub ghost idle: { out.items ≡ [] },
    pub ghost room: { 2 * length part.slots ≤ out.spare },
    pub ghost unsent: { sends.len ≡ 0 },
}

impl HeldBox {
    /// The box that these numbers say.
    pub fn new(
        alloc: Global,
        setup: &PlainSetup,
        slots: &[PlainSlot],
        states: &[PlainState],
    ) -> Result<HeldBox, AllocError>
        requires { IsTrue (is_box setup.now slots.now states.now) }
        ensures { IfOk result (λ made. SaysBox setup.now slots.now states.now made.part) }
    {
        let part = MediaBox::new(alloc, setup.setup(alloc, slots, states)?)?;
        let out = queue_for(alloc, part.slots().len())?;
        Ok(HeldBox {
            part,
            out,
            sends: Sends::none(),
            signal: Signal::Close,
        })
    }

    /// A slot takes a signal, and what is sent comes into `out`. Answers a code.
    pub fn take(
        &mut self,
        slot: u8,
        plain: &PlainSignal,
        out: &mut [PlainSent],
        count: &mut usize,
    ) -> u32
        ensures ok { result ≡ OK → HasTaken self.old.part slot plain.now self.new.part out.old out.new count.new }
        ensures why_not { result ≢ OK → WhyNotTaken self.old.part slot plain.now (length out.old) result }
        ensures unchanged { result ≢ OK → (self.new.part ≡ self.old.part) × (out.new ≡ out.old) × (count.new ≡ 0) }
    {
        if self.part.slots().len() <= slot as usize {
            *count = 0;
            return answer::NO_SLOT;
        }
        if out.len() < 3 {
            // Numbers that say no signal are told first.
            if plain.is_signal() {
                *count = 0;
                return answer::NO_ROOM;
            }
            *count = 0;
            return answer::INVALID;
        }
        if !plain.read(&mut self.signal) {
            *count = 0;
            return answer::INVALID;
        }
        if !self.is_lawful(slot) {
            *count = 0;
            return answer::UNLAWFUL;
        }
        self.part.keeps();
        self.part.send_take(slot, self.signal, &mut self.sends);
        *count = empty_list_into(&mut self.sends, out);
        answer::OK
    }

    // Whether a slot can take the signal that was read.
    fn is_lawful(&self, slot: u8) -> bool
        requires { slot < length self.now.part.slots }
        ensures { result ≡ is_some (slot_take (slot_at self.now.part slot) self.now.signal) }
    {
        self.part.slots()[slot as usize].lawful(&self.signal)
    }

    /// An event that takes no signal happens, and what is sent comes into `out`. Answers a code.
    pub fn act(&mut self, plain: &PlainEvent, out: &mut [PlainSent], count: &mut usize) -> u32
        ensures ok { result ≡ OK → HasActed self.old.part plain.now self.new.part out.old out.new count.new }
        ensures why_not { result ≢ OK → WhyNotActed self.old.part plain.now (length out.old) result }
        ensures unchanged { result ≢ OK → (self.new.part ≡ self.old.part) × (out.new ≡ out.old) × (count.new ≡ 0) }
    {
        *count = 0;
        let event = match plain.event() {
            Some(event) => event,
            None => return answer::INVALID,
        };
        let most = 2 * self.part.slots().len();
        if out.len() < most {
            return answer::NO_ROOM;
        }
        if !self.part.enabled(&event) {
            return answer::DISABLED;
        }
        self.part.keeps();
        match self.part.act(event, &mut self.out) {
            Ok(()) => {
                *count = empty_into(&mut self.out, out);
                answer::OK
            }
            Err(VersionEnd) => answer::VERSION_END,
        }
    }
}

// A queue with room for what a box of so many slots sends in one event.
fn queue_for(alloc: Global, slots: usize) -> Result<Lane<(u8, Signal)>, AllocError>
    requires { slots ≤ 64 }
    ensures { IfOk result (λ made. (made.items ≡ []) × (2 * slots ≤ made.spare)) }
{
    let mut queue = Lane::new(alloc);
    queue.reserve(2 * slots)?;
    Ok(queue)
}

// What is listed comes into `out`, and is no longer listed.
fn empty_list_into(sends: &mut Sends, out: &mut [PlainSent]) -> usize
    requires room { sends.old.len ≤ length out.old }
    requires few { sends.old.len ≤ 3 }
    ensures written { out.new ≡ map sent_of (sends_of sends.old) ++ drop sends.old.len out.old }
    ensures empty { sends.new.len ≡ 0 }
    ensures count { result ≡ sends.old.len }
{
    let count = sends.as_slice().len();
    if count == 0 {
        return 0;
    }
    let mut i = 0;
    // That it ends at 3 lets the compiler unroll the loop.
    while i < 3 && i < count {
        out[i].set(&sends.at[i]);
        sends.at[i] = (0, Signal::Close);
        i += 1;
    }
    sends.len = 0;
    count
}

// What is queued comes into `out`, and is no longer queued.
fn empty_into(queue: &mut Lane<(u8, Signal)>, out: &mut [PlainSent]) -> usize
    requires { length queue.old.items ≤ length out.old }
    ensures written { out.new ≡ map sent_of queue.old.items ++ drop (length queue.old.items) out.old }
    ensures empty { queue.new.items ≡ [] }
    ensures room { queue.new.spare ≡ queue.old.spare + length queue.old.items }
    ensures count { result ≡ length queue.old.items }
{
    let count = queue.len();
    for i in 0..count {
        if let Some(sent) = queue.pop() {
            out[i].set(&sent);
        }
    }
    count
}
