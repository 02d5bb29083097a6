use crate::equal::is_equal;
use crate::net::{Place, rest_of};
use mc_net::Tail;
use std::alloc::{AllocError, Global};
use std::process::Abort;

// Two phones, in five lines: a function, since each proof that names a constant is told all of its bytes.
fn phones() -> &'static [u8] {
    b"media 1\ndev alice\ndev bob\nchan audio alice a bob a\nbegin\n"
}

// Where what is read of a text ends, or its fault: where a journal may stand after its commands, and where none may.
type Ends = (Result<usize, Place>, Result<usize, Place>);

// The text that is put together of these parts ends so.
fn ends_so(rt: &impl Abort, alloc: Global, parts: &[&[u8]], want: Ends) {
    let with = rest_of(alloc, parts, Tail::Journal);
    let without = rest_of(alloc, parts, Tail::Nothing);
    is_equal(rt, &(with, without), &want);
}

// Commands of the two phones, what stands after the line that ends them, and the line of the fault that they have
// where no journal may stand after them.
const ENDED: [(&[u8], &[u8], u32); 5] = [
    (b"journal\n", b"", 6),
    (b"journal", b"", 6),
    (b"settle\njournal\n", b"turn alice set a open\nsettle\n", 7),
    (
        b"set alice a open\n# done\n\n journal \n",
        b"journal\nfly\t\n",
        9,
    ),
    (
        b"settle\njournal\n",
        b"set alice a flowing\nbegin\njournal 1\n",
        7,
    ),
];

#[test]
fn what_stands_behind_journal_is_not_read(rt: HostRuntime) {
    for (commands, behind, line) in &ENDED {
        let want = (Ok(phones().len() + commands.len()), Err((5, *line)));
        ends_so(&rt, rt.alloc(), &[phones(), *commands, *behind], want);
    }
}

// Commands that no line ends, and their fault, whatever may stand after them.
const UNENDED: [(&[u8], Option<Place>); 4] = [
    (b"", None),
    (b"settle\n# journal\n", None),
    (b"settle\nset alice a open", None),
    (b"#\n\njournals\n", Some((5, 8))),
];

#[test]
fn a_text_may_lack_its_journal(rt: HostRuntime) {
    for (commands, fault) in &UNENDED {
        let want = fault.map_or(Ok(phones().len() + commands.len()), Err);
        ends_so(&rt, rt.alloc(), &[phones(), *commands], (want, want));
    }
}

// Lines that have a fault, where a journal may stand after the commands and where none may.
const WITHOUT_PHONES: [(&[u8], Place, Place); 3] = [
    (b"journal\n", (17, 1), (17, 1)),
    (b"media 1\njournal\nbegin\n", (5, 2), (5, 2)),
    (b"media 1\njournal x\nbegin\n", (5, 2), (5, 2)),
];

const BEHIND_PHONES: [(&[u8], Place, Place); 5] = [
    (b"journal x\n", (7, 6), (5, 6)),
    (b"settle now\njournal\n", (7, 6), (7, 6)),
    (b"settle\njournal\t\n", (3, 7), (3, 7)),
    (b"Journal\n", (5, 6), (5, 6)),
    (b"begin\njournal\n", (5, 6), (5, 6)),
];

fn are_refused(rt: &impl Abort, alloc: Global, first: &[u8], rows: &[(&[u8], Place, Place)]) {
    for (lines, with, without) in rows {
        ends_so(rt, alloc, &[first, *lines], (Err(*with), Err(*without)));
    }
}

#[test]
fn journal_opens_a_line_behind_begin_alone(rt: HostRuntime) {
    are_refused(&rt, rt.alloc(), b"", &WITHOUT_PHONES);
    are_refused(&rt, rt.alloc(), phones(), &BEHIND_PHONES);
}

// The two phones, and 4,081 comments of 256 bytes each, which are 1,048,874 bytes.
fn long_text(alloc: Global) -> Result<Vec<u8>, AllocError> {
    let mut comment = [b'#'; 257];
    comment[256] = b'\n';
    let mut text = Vec::from_slice(alloc, phones())?;
    for _ in 0..4081 {
        text.extend_from_slice(&comment)?;
    }
    Ok(text)
}

#[test]
fn a_text_with_a_journal_may_be_longer(rt: HostRuntime) -> Result<(), AllocError> {
    let text = long_text(rt.alloc())?;
    let want = (Ok(text.len()), Err((1, 4085)));
    ends_so(&rt, rt.alloc(), &[&text], want);
    Ok(())
}
