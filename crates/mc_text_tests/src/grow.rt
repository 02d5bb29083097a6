use crate::equal::is_equal;
use crate::net::{Place, joined};
use mc_net::{NetFault, Tail, read_net};
use mc_tail::read_tail;
use std::alloc::Global;

// Three phones, and a box with a program beside them, in twelve lines: a function, since each proof that names a
// constant is told all of its bytes.
fn phones() -> &'static [u8] {
    b"media 1\ncodec g711\ndev alice g711\ndev bob g711\ndev carol g711\nfeat pbx\nchan audio alice a bob a\nchan audio carol p pbx c\nprog pbx on\nstate on\ngoal c hold\nbegin\n"
}

// How many items stand after the line `grow` of a text that is put together of these parts, or the text's first fault.
fn items_of(alloc: Global, parts: &[&[u8]]) -> Result<usize, Place> {
    let Ok(text) = joined(alloc, parts) else {
        return Err((0, 0));
    };
    match read_net(alloc, &text, Tail::Grow) {
        Ok(net) => drop(net),
        Err(NetFault::Line(fault)) => return Err((fault.number, fault.line)),
        Err(NetFault::NoMemory(_)) => return Err((0, 0)),
    }
    match read_tail(alloc, &text) {
        Ok(tail) => Ok(tail.items.len()),
        Err(NetFault::Line(fault)) => Err((fault.number, fault.line)),
        Err(NetFault::NoMemory(_)) => Err((0, 0)),
    }
}

// Lines after the twelve, and how many items they have after `grow`, or their fault.
const LINES: [(&[u8], Result<usize, Place>); 28] = [
    (b"settle\n", Ok(0)),
    (b"grow\n", Ok(0)),
    (b"grow", Ok(0)),
    (b"grow\ncut alice a\n", Ok(1)),
    (
        b"settle\ngrow\n# a call\ncut bob a\njoin audio alice b carol a\n\nset alice b open\nset carol a open\nsettle",
        Ok(5),
    ),
    (b"grow\ncut alice a\nset bob a open\n", Err((11, 15))),
    (b"grow\ncut alice a\nhear bob a off\n", Err((11, 15))),
    (b"grow\ncut alice a\ncut bob a\n", Err((11, 15))),
    (b"grow\ncut alice z\n", Err((11, 14))),
    (b"set alice a open\ngrow\n", Err((20, 14))),
    (
        b"grow\nset alice a close\njoin audio alice b carol a\n",
        Err((20, 15)),
    ),
    (b"grow\nset alice a close\ncut alice a\n", Err((20, 15))),
    (b"grow\nset alice a close\ncut alice z\n", Err((11, 15))),
    (b"grow\nset alice a close\ngrow\n", Err((5, 15))),
    (
        b"grow\nset alice a close\njoin audio alice a carol a\n",
        Err((9, 15)),
    ),
    (
        b"grow\ncut alice a\njoin audio alice a carol a\n",
        Err((9, 15)),
    ),
    (b"grow\njoin audio alice b pbx d\n", Err((5, 14))),
    (b"grow\ncut carol p\n", Err((5, 14))),
    (b"grow\njoin sound alice b carol a\n", Err((5, 14))),
    (b"grow\njoin audio alice b alice c\n", Err((10, 14))),
    (b"grow\ncut zed a\n", Err((4, 14))),
    (b"grow\ncut alice\n", Err((6, 14))),
    (b"grow\ncut alice a a\n", Err((7, 14))),
    (b"grow\ndev dan zed\n", Err((4, 14))),
    (b"grow\ndev dan g711\n", Err((5, 14))),
    (b"grow\nfly\n", Err((5, 14))),
    (b"join audio alice b carol a\ngrow\n", Err((5, 13))),
    (b"grow now\n", Err((7, 13))),
];

#[test]
fn what_stands_after_grow_has_items_or_a_fault(rt: HostRuntime) {
    for (lines, want) in &LINES {
        is_equal(&rt, &items_of(rt.alloc(), &[phones(), *lines]), want);
    }
}
