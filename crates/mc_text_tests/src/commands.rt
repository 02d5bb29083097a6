// Commands that are read or refused, and one that is printed.
ghost use Rattle.mc_script.specs.Places.{Fits};

use crate::equal::{is_count, is_equal, is_within};
use crate::look::look_at_made;
use crate::net::net_of;
use mc_box::{Change, Event, Shape, Turn};
use mc_net::{Net, NetFault, Tail};
use mc_script::{Command, print_command, read_command};
use mc_slot::Goal;
use mc_text::Names;
use std::alloc::Global;
use std::process::Abort;

// A device `alice` with a slot `a`, and a feature `f` with a slot `w`.
const EXAMPLE: &[u8] = b"media 1\ndev alice\nfeat f\nchan audio alice a f w\nbegin\n";

// The command that opens the first slot is printed so.
fn is_printed<R: Abort>(context: (&R, Global), net: &mut Net) {
    let (rt, alloc) = context;
    let names = &net.names;
    is_within(rt, 0, names.box_count());
    is_within(rt, 0, names.slot_count(0));
    let command = Command::Stimulus(Turn {
        who: 0,
        event: Event::Set(Change::End(0, Goal::Open)),
    });
    let mut out = Vec::new(alloc);
    let put = print_command(names, &command, &mut out);
    is_equal(rt, &put.is_ok(), &true);
    is_equal(rt, &out.as_slice(), &b"set alice a open".as_slice());
}

#[test]
fn a_command_is_printed(rt: HostRuntime) -> Result<(), NetFault> {
    let net = net_of(rt.alloc(), EXAMPLE, Tail::Nothing);
    look_at_made((&rt, rt.alloc()), net, is_printed)
}

// The number of the rule that a line breaks, or 0.
fn number_of(names: &Names, shape: &Shape, line: &[u8]) -> u8
    requires { Fits names.now shape.now }
{
    match read_command(names, shape, line) {
        Ok(_) => 0,
        Err(fault) => fault.number,
    }
}

// Each line is read, or refused by its number.
fn are_numbered(rt: &impl Abort, names: &Names, shape: &Shape, rows: &[(&[u8], u8)])
    requires { Fits names.now shape.now }
{
    for (line, number) in rows {
        is_equal(rt, &number_of(names, shape, *line), number);
    }
}

// The example's boxes have one slot each, by their names and by their shapes.
#[tactic(auto, using(crate::proofs::Example::fits_two))]
fn fits(rt: &impl Abort, names: &Names, shape: &Shape)
    ensures { Fits names.now shape.now }
{
    is_count(rt, names.box_count(), 2);
    is_count(rt, names.slot_count(0), 1);
    is_count(rt, names.slot_count(1), 1);
    let boxes = &shape.boxes;
    is_count(rt, boxes.len(), 2);
    is_count(rt, boxes[0].media.len(), 1);
    is_count(rt, boxes[1].media.len(), 1);
}

const ROWS: [(&[u8], u8); 5] = [
    (b" set  alice a open ", 0),
    (b"set alice a", 6),
    (b"settle now", 7),
    (b"set alice z open", 11),
    (b"link f w w", 12),
];

// The rows hold in the example.
fn rows_hold<R: Abort>(rt: &R, net: &mut Net) {
    fits(rt, &net.names, &net.shape);
    are_numbered(rt, &net.names, &net.shape, &ROWS);
}

#[test]
fn lines_are_read_or_refused(rt: HostRuntime) -> Result<(), NetFault> {
    let net = net_of(rt.alloc(), EXAMPLE, Tail::Nothing);
    look_at_made(&rt, net, rows_hold)
}
