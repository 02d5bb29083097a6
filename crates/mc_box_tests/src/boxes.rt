// Worked events of boxes. Each expected signal is by the rules of slots, ends and links.
ghost use Rattle.std.specs.Prelude.{◌≡◌};
ghost use Rattle.mc_box.specs.BoxEvents.{is_take};

use crate::equal::is_equal;
use mc_box::{Change, Event, Kind, MediaBox, MediaChange, Setup, SlotSetup, VersionEnd};
use mc_lane::Lane;
use mc_signal::{CodecList, Descriptor, Medium, Sender, Signal, choose};
use mc_slot::{Goal, Slot, SlotGoal, State};
use std::alloc::{AllocError, Global};
use std::process::Abort;
use std::test::Fail;

// A descriptor of another box.
fn far() -> Descriptor {
    Descriptor {
        origin: 9,
        version: 1,
        addr: 7,
        port: 5001,
        codecs: CodecList::none(),
    }
}

fn slot(origin: u32, medium: Medium) -> SlotSetup {
    SlotSetup {
        origin,
        medium,
        initiator: false,
        address: None,
    }
}

// A box with three slots of audio and one of video, in that order.
fn made(alloc: Global, kind: Kind, first_version: u32) -> Result<MediaBox, AllocError> {
    let mut slots = Vec::new(alloc);
    slots.extend_from_slice(&[
        slot(0, Medium::Audio),
        slot(1, Medium::Audio),
        slot(2, Medium::Audio),
        slot(3, Medium::Video),
    ])?;
    let setup = Setup {
        kind,
        number: 0,
        codecs: CodecList::none(),
        sends: CodecList::none(),
        first_version,
        slots,
        program: None,
    };
    MediaBox::new(alloc, setup)
}

// A slot, its goal, its newest descriptor and what it can send.
fn shown(rt: &impl Abort, part: &MediaBox, slot: u8) -> (Slot, SlotGoal, Descriptor, Sender) {
    assert!(rt; (slot as usize) < part.slots().len());
    (
        part.slots()[slot as usize],
        part.goal(slot),
        part.own(slot),
        part.sender(slot),
    )
}

fn takes(e: Event) -> bool
    ensures { result ≡ is_take e }
{
    matches!(e, Event::Take(_))
}

// How an event ends that takes nothing, and what it sends.
fn outcome(
    rt: &impl Abort,
    alloc: Global,
    part: &mut MediaBox,
    e: Event,
) -> Result<(Result<(), VersionEnd>, Lane<(u8, Signal)>), Fail> {
    let mut out = Lane::new(alloc);
    out.reserve(128)?;
    let count = part.slots().len();
    assert!(rt; part.enabled(&e));
    assert!(rt; !takes(e));
    let ended = part.act(e, &mut out);
    assert!(rt; out.len() <= 2 * count);
    Ok((ended, out))
}

// Whether just this is sent in an event that takes nothing.
fn acts(
    rt: &impl Abort,
    alloc: Global,
    part: &mut MediaBox,
    e: Event,
    want: &[(u8, Signal)],
) -> Result<(), Fail> {
    let (ended, mut out) = outcome(rt, alloc, part, e)?;
    is_equal(rt, &ended, &Ok(()));
    for sending in want {
        is_equal(rt, &out.pop(), &Some(*sending));
    }
    is_equal(rt, &out.pop(), &None);
    Ok(())
}

// Whether just this is sent where a slot takes a signal.
fn takes_signal(rt: &impl Abort, part: &mut MediaBox, slot: u8, s: Signal, want: &[(u8, Signal)]) {
    assert!(rt; (slot as usize) < part.slots().len());
    assert!(rt; part.slots()[slot as usize].lawful(&s));
    let sends = part.take(slot, s);
    is_equal(rt, &sends.as_slice(), &want);
}

// The slots are linked, and just this is sent then.
fn links(
    rt: &impl Abort,
    alloc: Global,
    part: &mut MediaBox,
    slots: (u8, u8),
    want: &[(u8, Signal)],
) -> Result<(), Fail> {
    acts(
        rt,
        alloc,
        part,
        Event::Set(Change::Link(slots.0, slots.1)),
        want,
    )
}

fn has_goal(rt: &impl Abort, part: &MediaBox, slot: u8, goal: SlotGoal) {
    is_equal(rt, &shown(rt, part, slot).1, &goal);
}

fn has_state(rt: &impl Abort, part: &MediaBox, slot: u8, state: State) {
    is_equal(rt, &shown(rt, part, slot).0.state, &state);
}

fn has_sent(rt: &impl Abort, part: &MediaBox, slot: u8, sent: Descriptor) {
    is_equal(rt, &shown(rt, part, slot).0.sent, &Some(sent));
}

fn has_version(rt: &impl Abort, part: &MediaBox, slot: u8, version: u32) {
    is_equal(rt, &shown(rt, part, slot).2.version, &version);
}

// Slot 0 is linked with slot 1, and takes an open, which is passed on.
fn opens_through(rt: &impl Abort, alloc: Global, part: &mut MediaBox) -> Result<(), Fail> {
    links(rt, alloc, part, (1, 0), &[])?;
    has_goal(rt, part, 0, SlotGoal::Link(1));
    has_goal(rt, part, 1, SlotGoal::Link(0));
    let open = Signal::Open(Medium::Audio, far());
    takes_signal(rt, part, 0, open, &[(1, open)]);
    has_state(rt, part, 1, State::Opening);
    has_sent(rt, part, 1, far());
    // the same link again, in the other order
    links(rt, alloc, part, (0, 1), &[])
}

fn closes_through(rt: &impl Abort, part: &mut MediaBox) {
    let passed_on = [(0, Signal::Closeack), (1, Signal::Close)];
    takes_signal(rt, part, 0, Signal::Close, &passed_on);
    has_state(rt, part, 0, State::Closed);
    has_state(rt, part, 1, State::Closing);
}

fn opens_and_closes_through(
    rt: &impl Abort,
    alloc: Global,
    part: &mut MediaBox,
) -> Result<(), Fail> {
    opens_through(rt, alloc, part)?;
    closes_through(rt, part);
    Ok(())
}

#[test]
fn a_link_passes_on_what_its_slots_take(rt: HostRuntime) -> Result<(), Fail> {
    let mut part = made(rt.alloc(), Kind::Feature, 1)?;
    opens_and_closes_through(&rt, rt.alloc(), &mut part)
}

// Slot 2 is opened and holds from now on, and slot 0 still asks for media.
fn links_elsewhere(rt: &impl Abort, alloc: Global, part: &mut MediaBox) -> Result<(), Fail> {
    let (_, _, own, sender) = shown(rt, part, 2);
    let answered = [
        (2, Signal::Oack(own)),
        (2, Signal::Select(choose(far(), &sender))),
    ];
    links(rt, alloc, part, (0, 1), &answered)
}

fn hands_over(rt: &impl Abort, alloc: Global, part: &mut MediaBox) -> Result<(), Fail> {
    links(rt, alloc, part, (0, 2), &[])?;
    let open = Signal::Open(Medium::Audio, far());
    takes_signal(rt, part, 2, open, &[(0, open)]);
    links_elsewhere(rt, alloc, part)
}

fn links_no_more(rt: &impl Abort, part: &MediaBox) {
    for (first, second) in [(1, 1), (1, 3), (1, 4)] {
        is_equal(
            rt,
            &part.enabled(&Event::Set(Change::Link(first, second))),
            &false,
        );
    }
}

fn hands_over_and_back(rt: &impl Abort, alloc: Global, part: &mut MediaBox) -> Result<(), Fail> {
    hands_over(rt, alloc, part)?;
    has_goal(rt, part, 0, SlotGoal::Link(1));
    has_goal(rt, part, 1, SlotGoal::Link(0));
    has_goal(rt, part, 2, SlotGoal::End(Goal::Hold));
    links_no_more(rt, part);
    Ok(())
}

#[test]
fn a_former_partner_holds(rt: HostRuntime) -> Result<(), Fail> {
    let mut part = made(rt.alloc(), Kind::Feature, 1)?;
    hands_over_and_back(&rt, rt.alloc(), &mut part)
}

fn opens_and_asks_again(rt: &impl Abort, alloc: Global, part: &mut MediaBox) -> Result<(), Fail> {
    let open = Signal::Open(Medium::Audio, shown(rt, part, 1).2);
    let set = Event::Set(Change::End(1, Goal::Open));
    acts(rt, alloc, part, set, &[(1, open)])?;
    takes_signal(rt, part, 1, Signal::Close, &[(1, Signal::Closeack)]);
    acts(rt, alloc, part, Event::Retry(1), &[(1, open)])
}

// A hear that leaves the flag raises the version, up to the last.
fn hears_to_the_last(rt: &impl Abort, alloc: Global, part: &mut MediaBox) -> Result<(), Fail> {
    let hear = Event::Media(MediaChange::Hear(1, true));
    acts(rt, alloc, part, hear, &[])?;
    has_version(rt, part, 1, 4294967295);
    let count = part.slots().len();
    let (ended, out) = outcome(rt, alloc, part, hear)?;
    is_equal(rt, &ended, &Err(VersionEnd));
    is_equal(rt, &out.len(), &0);
    is_equal(rt, &part.slots().len(), &count);
    has_version(rt, part, 1, 4294967295);
    Ok(())
}

fn is_accepted(rt: &impl Abort, alloc: Global, part: &mut MediaBox) -> Result<(), Fail> {
    let (_, _, own, sender) = shown(rt, part, 1);
    let accepted = [
        (1, Signal::Describe(own)),
        (1, Signal::Select(choose(far(), &sender))),
    ];
    takes_signal(rt, part, 1, Signal::Oack(far()), &accepted);
    let talk = Event::Media(MediaChange::Talk(1, false));
    acts(rt, alloc, part, talk, &[])
}

fn opens_and_hears(rt: &impl Abort, alloc: Global, part: &mut MediaBox) -> Result<(), Fail> {
    opens_and_asks_again(rt, alloc, part)?;
    hears_to_the_last(rt, alloc, part)?;
    is_accepted(rt, alloc, part)?;
    is_equal(rt, &(part.kind(), part.number()), &(Kind::Device, 0));
    Ok(())
}

#[test]
fn a_device_opens_hears_and_asks_again(rt: HostRuntime) -> Result<(), Fail> {
    let mut part = made(rt.alloc(), Kind::Device, 4294967294)?;
    opens_and_hears(&rt, rt.alloc(), &mut part)
}
