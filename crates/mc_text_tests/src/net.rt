use crate::equal::{is_count, is_equal, is_within};
use crate::look::look_at_made;
use mc_box::{Change, Event, Kind, MediaBox, Shape, Turn};
use mc_net::{Net, NetFault, Tail, read_net};
use mc_script::Batch;
use mc_signal::{CodecList, Descriptor, Medium, Sender};
use mc_slot::{Goal, Slot, SlotGoal, State};
use mc_text::Names;
use mc_world::World;
use std::alloc::{AllocError, Global};
use std::process::Abort;

const CODECS: &[u8] = b"media 1\ncodec g711\ncodec g722\n";

const PHONES: &[u8] =
    b"media 1\ncodec g711\ncodec g729\ndev alice g711 g729\ndev bob g729\nchan audio alice a bob a\nbegin\n";

const SENDERS: &[u8] = b"media 2\ncodec g711\ncodec g729\ndev alice g711 g729\n";

// Two phones of which the first sends less than it receives, after the version line.
const SENDS: &[u8] =
    b"codec g711\ncodec g729\ndev alice g711 g729\nsend alice g729\ndev bob g729\nchan audio alice a bob a\nbegin\n";

const NINE: &[u8] =
    b"media 2\ncodec a\ncodec b\ncodec c\ncodec d\ncodec e\ncodec f\ncodec g\ncodec h\ncodec i\ndev d\n";

/// The number and the line of a fault.
pub type Place = (u8, u32);

/// The network that a text declares, of which nothing is said beforehand.
pub fn net_of(alloc: Global, text: &[u8], tail: Tail) -> Result<Net, NetFault> {
    read_net(alloc, text, tail)
}

/// A text that is put together of these parts.
pub fn joined(alloc: Global, parts: &[&[u8]]) -> Result<Vec<u8>, AllocError> {
    let mut text = Vec::new(alloc);
    for part in parts {
        text.extend_from_slice(*part)?;
    }
    Ok(text)
}

/// Where what isn't read of a text begins, or its fault. The text is put together of these parts.
pub fn rest_of(alloc: Global, parts: &[&[u8]], tail: Tail) -> Result<usize, Place> {
    let Ok(text) = joined(alloc, parts) else {
        return Err((0, 0));
    };
    match look_at_made((), net_of(alloc, &text, tail), |(), net| net.rest) {
        Ok(rest) => Ok(rest),
        Err(NetFault::Line(fault)) => Err((fault.number, fault.line)),
        Err(NetFault::NoMemory(_)) => Err((0, 0)),
    }
}

// After the first lines, the lines of each row are refused by its number and line.
fn are_refused(rt: &impl Abort, alloc: Global, first: &[u8], rows: &[(&[u8], Place)]) {
    for (lines, want) in rows {
        is_equal(
            rt,
            &rest_of(alloc, &[first, *lines], Tail::Nothing),
            &Err(*want),
        );
    }
}

// Declarations after the codecs.
const DECLARATIONS: [(&[u8], Place); 10] = [
    (b"", (16, 4)),
    (b"dev alice g723\n", (4, 4)),
    (
        b"dev alice g711\ndev bob\nchan sound alice a bob a\n",
        (5, 6),
    ),
    (b"dev alice 01 g711\n", (8, 4)),
    (b"codec g711\n", (9, 4)),
    (b"dev alice\nchan audio alice a alice b\n", (10, 5)),
    (b"feat abcdefghijklmnopq\n", (18, 4)),
    (b"# none\n\nfly\n", (5, 6)),
    (b"codec g723\t\n", (3, 4)),
    (b"feat f\nprog f s\nbegin\n", (15, 6)),
];

// Commands after the phones.
const COMMANDS: [(&[u8], Place); 6] = [
    (b"set alice a\n", (6, 8)),
    (b"set bob a hold\nsettle now\n", (7, 9)),
    (b"set alice z open\n", (11, 8)),
    (b"settle\nsettle\nlink alice a a\n", (5, 10)),
    (b"begin\n", (5, 8)),
    // a word may be told only where a program has it
    (b"tell alice swap\n", (4, 8)),
];

// Send lines after their codecs and a device.
const SEND_LINES: [(&[u8], Place); 9] = [
    (b"send alice g723\n", (4, 5)),
    (b"send carol g711\n", (4, 5)),
    (b"feat pbx\nsend pbx g711\n", (5, 6)),
    (
        b"dev bob\nchan audio alice a bob a\nsend bob g711\n",
        (5, 7),
    ),
    (b"send\n", (6, 5)),
    (b"send alice g711 g711\n", (9, 5)),
    (b"send alice\nsend alice g711\n", (9, 6)),
    (
        b"send alice g711 g729\ndev bob\nsend bob g729\nbegin\nend\n",
        (5, 9),
    ),
    (b"send alice 2 g711\n", (4, 5)),
];

// Send lines of nine codecs, of which at most eight are sent.
const SENT_CODECS: [(&[u8], Place); 3] = [
    (b"send d a b c d e f g h\n", (16, 13)),
    (b"send d a b c d e f g h i\n", (14, 12)),
    (b"send d a b c d e f g h h\n", (9, 12)),
];

#[test]
fn lines_break_these_rules(rt: HostRuntime) {
    are_refused(&rt, rt.alloc(), CODECS, &DECLARATIONS);
    are_refused(&rt, rt.alloc(), PHONES, &COMMANDS);
    are_refused(&rt, rt.alloc(), SENDERS, &SEND_LINES);
    are_refused(&rt, rt.alloc(), NINE, &SENT_CODECS);
}

// After the first lines, none of these has a fault.
fn have_no_fault(rt: &impl Abort, alloc: Global, first: &[u8], rows: &[&[u8]]) {
    for lines in rows {
        is_equal(
            rt,
            &rest_of(alloc, &[first, *lines], Tail::Nothing).err(),
            &None,
        );
    }
}

const BEHIND_CODECS: [&[u8]; 5] = [
    b"feat f\nprog f s\nstate s\nwhen told go s\nbegin\ntell f go\n",
    b"dev alice 7 g711\ndev bob 4294967295\nchan audio alice a bob a\nbegin\n",
    b"begin\nsettle\n",
    b"dev alice g711\ndev bob\ndev carol\nchan audio alice a bob a\nchan audio alice b carol a\nbegin\n",
    b"dev alice\nfeat f\ndev bob\nchan audio alice a f w\nchan audio f e bob a\nbegin\nlink f w e\nsettle\nlink f e w\n",
];

const BEHIND_PHONES: [&[u8]; 2] = [
    b"hear alice a off\ntalk bob a on\nsettle\nset bob a hold\n",
    b"",
];

#[test]
fn these_have_no_fault(rt: HostRuntime) {
    have_no_fault(&rt, rt.alloc(), CODECS, &BEHIND_CODECS);
    have_no_fault(&rt, rt.alloc(), PHONES, &BEHIND_PHONES);
}

const VERSION_LINES: [(&[u8], Option<Place>); 4] = [
    (b"media 1\n", Some((5, 5))),
    (b"media 2\n", None),
    (b"media 3\n", Some((17, 1))),
    (b"media 2 2\n", Some((17, 1))),
];

#[test]
fn version_lines_say_whether_there_are_send_lines(rt: HostRuntime) {
    let sends = SENDS;
    for (first, want) in &VERSION_LINES {
        let got = rest_of(rt.alloc(), &[*first, sends], Tail::Nothing);
        is_equal(&rt, &got.err(), want);
    }
}

// A list of these codecs, as far as they are new and fit.
fn list_of(codecs: &[u8]) -> CodecList {
    let mut list = CodecList::none();
    for codec in codecs {
        if *codec < 64 && !list.has(*codec) {
            let _ = list.add(*codec);
        }
    }
    list
}

fn is_codec(rt: &impl Abort, names: &Names, codec: u8, name: &[u8]) {
    is_within(rt, codec as usize, names.codec_count());
    is_equal(rt, &names.codec_name(codec), &name);
}

// The box of this name has one slot, named as a phone's is.
fn is_box(rt: &impl Abort, names: &Names, who: u32, name: &[u8]) {
    is_within(rt, who as usize, names.box_count());
    is_count(rt, names.slot_count(who), 1);
    is_equal(
        rt,
        &(names.box_name(who), names.slot_name(who, 0)),
        &(name, b"a".as_slice()),
    );
}

// A name of each codec, of each box and of each slot of the phones, and none of a told word.
fn names_phones(rt: &impl Abort, names: &Names) {
    let counts = (names.codec_count(), names.box_count(), names.told_count());
    is_equal(rt, &counts, &(2, 2, 0));
    is_codec(rt, names, 0, b"g711");
    is_codec(rt, names, 1, b"g729");
    is_box(rt, names, 0, b"alice");
    is_box(rt, names, 1, b"bob");
}

// A new device with one slot of audio, which offers this descriptor and sends the same codecs.
fn is_phone(rt: &impl Abort, home: &MediaBox, number: u32, initiator: bool, own: Descriptor) {
    is_equal(rt, &(home.kind(), home.number()), &(Kind::Device, number));
    let slot = Slot {
        state: State::Closed,
        medium: Medium::Audio,
        initiator,
        sent: None,
        got: None,
        sel_out: None,
        sel_in: None,
    };
    let sender = Sender {
        addr: own.addr,
        port: own.port,
        codecs: own.codecs,
    };
    is_count(rt, home.slots().len(), 1);
    is_equal(
        rt,
        &(home.slots()[0], home.goal(0), home.own(0), home.sender(0)),
        &(slot, SlotGoal::End(Goal::Close), own, sender),
    );
}

// The boxes of the world are the two phones.
fn has_phones(rt: &impl Abort, world: &World) {
    let boxes = world.boxes();
    is_count(rt, boxes.len(), 2);
    let alice = Descriptor {
        origin: 0,
        version: 1,
        addr: 1,
        port: 5000,
        codecs: list_of(&[0, 1]),
    };
    is_phone(rt, &boxes[0], 0, true, alice);
    let bob = Descriptor {
        origin: 1,
        version: 1,
        addr: 2,
        port: 5000,
        codecs: list_of(&[1]),
    };
    is_phone(rt, &boxes[1], 1, false, bob);
}

// One channel of one tunnel leads from the one phone to the other, and nothing is under way.
fn has_channel(rt: &impl Abort, world: &World) {
    is_count(rt, world.slot_count(), 2);
    is_equal(rt, &[world.place(0), world.place(1)], &[(0, 0), (1, 0)]);
    is_equal(rt, &[world.channel(0), world.channel(1)], &[(0, 0), (0, 0)]);
    is_equal(rt, &world.quiet(), &true);
}

// The command that sets the goal of a phone's slot.
fn set(who: u32, goal: Goal) -> Turn {
    Turn {
        who,
        event: Event::Set(Change::End(0, goal)),
    }
}

// The shapes of the two phones: devices with one slot of audio each, without programs.
fn has_shapes(rt: &impl Abort, shape: &Shape) {
    is_equal(rt, &shape.boxes.len(), &2);
    for shape in &shape.boxes {
        is_equal(
            rt,
            &(shape.kind, shape.media.as_slice(), shape.programmed),
            &(Kind::Device, [Medium::Audio].as_slice(), false),
        );
    }
}

// One batch of two commands.
fn has_batch(rt: &impl Abort, batches: &[Batch]) {
    is_count(rt, batches.len(), 1);
    let batch = [set(0, Goal::Open), set(1, Goal::Hold)];
    is_equal(rt, &&batches[0].turns[..], &&batch[..]);
}

// The two phones, with commands after them.
const DECLARED: &[u8] =
    b"media 1\ncodec g711\ncodec g729\ndev alice g711 g729\ndev bob g729\nchan audio alice a bob a\nbegin\nset alice a open\nset bob a hold\nsettle\nset alice a close";

// The parts of the network of the two phones, whose text is so long.
fn has_parts<R: Abort>(context: (&R, usize), net: &mut Net) {
    let (rt, length) = context;
    names_phones(rt, &net.names);
    has_phones(rt, &net.world);
    has_channel(rt, &net.world);
    has_shapes(rt, &net.shape);
    has_batch(rt, &net.batches);
    is_equal(rt, &net.rest, &length);
}

#[test]
fn two_phones_make_a_net(rt: HostRuntime) -> Result<(), NetFault> {
    let text = DECLARED;
    let net = net_of(rt.alloc(), text, Tail::Nothing);
    look_at_made((&rt, text.len()), net, has_parts)
}
