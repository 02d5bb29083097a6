// Each limit of a text, reached and passed.

use super::{Piece, is_answered_in_pieces};
use std::alloc::{AllocError, Global};
use std::process::Abort;
use std::thread::Threads;

const PAIR: &str = "dev a\ndev b\nchan audio a x b y\nbegin\n";

const PHONES: &str = "media 1\ndev a\ndev b\nchan audio a x b y\nbegin\n";

const CODECS: &str = "media 1\n\
    codec c0\n\
    codec c1\n\
    codec c2\n\
    codec c3\n\
    codec c4\n\
    codec c5\n\
    codec c6\n\
    codec c7\n\
    codec c8\n\
    dev a";

// The part of a state with sixteen words of its own.
const SIXTEEN_WORDS: &str = "state s%\n\
    when told a% s0\n\
    when told b% s0\n\
    when told c% s0\n\
    when told d% s0\n\
    when told e% s0\n\
    when told f% s0\n\
    when told g% s0\n\
    when told h% s0\n\
    when told i% s0\n\
    when told j% s0\n\
    when told k% s0\n\
    when told l% s0\n\
    when told m% s0\n\
    when told n% s0\n\
    when told o% s0\n\
    when told p% s0\n";

// Eight channels of two boxes.
const EIGHT_CHANNELS: &str = "chan audio l% a r% a\n\
    chan video l% b r% b\n\
    chan audio l% c r% c\n\
    chan video l% d r% d\n\
    chan audio l% e r% e\n\
    chan video l% f r% f\n\
    chan audio l% g r% g\n\
    chan video l% h r% h\n";

const COMMENT: &str = "# twenty-five bytes here\n";

const CLOSED: &str = "settle 1\npath a/x b/y close close closed audio\n";

// The beginning of a text, how often a piece follows, the piece, the rest of the text, and what is written.
type Counted = (&'static str, u32, &'static str, &'static str, &'static str);

const ROWS: [Counted; 33] = [
    // codec names
    ("media 1\n", 64, "codec c%\n", PAIR, ""),
    ("media 1\n", 65, "codec c%\n", PAIR, "fault 14 line 66\n"),
    (
        "media 1\n",
        64,
        "codec c%\n",
        "codec abcdefghijklmnopq\n",
        "fault 14 line 66\n",
    ),
    // codecs of a list
    (CODECS, 8, " c%", "\ndev b\nchan audio a x b y\nbegin\n", ""),
    (CODECS, 9, " c%", "\n", "fault 14 line 11\n"),
    // boxes
    ("media 1\n", 256, "dev d%\n", "begin\n", ""),
    ("media 1\n", 257, "dev d%\n", "", "fault 14 line 258\n"),
    ("media 1\n", 256, "feat f%\n", "begin\n", ""),
    (
        "media 1\n",
        256,
        "feat f%\n",
        "dev d\n",
        "fault 14 line 258\n",
    ),
    // slots of a box, at either end of a channel
    (
        "media 1\ndev a\ndev b\n",
        64,
        "chan audio a s% b s%\n",
        "begin\n",
        "",
    ),
    (
        "media 1\ndev a\ndev b\n",
        65,
        "chan audio a s% b s%\n",
        "",
        "fault 14 line 68\n",
    ),
    (
        "media 1\ndev a\ndev b\ndev c\n",
        64,
        "chan audio a s% b s%\n",
        "chan audio c s a s\n",
        "fault 14 line 69\n",
    ),
    // told words
    (
        "media 1\nfeat f\nprog f s0 s1 s2 s3 s4\n",
        4,
        SIXTEEN_WORDS,
        "state s4\nwhen told a0 s0\nbegin\n",
        "",
    ),
    (
        "media 1\nfeat f\nprog f s0 s1 s2 s3 s4\n",
        4,
        SIXTEEN_WORDS,
        "state s4\nwhen told a0 s0\nwhen told a s0\n",
        "fault 14 line 74\n",
    ),
    // transitions of a state
    (
        "media 1\nfeat f\nprog f s t\nstate s\n",
        16,
        "when told w s\n",
        "state t\nwhen told w s\nbegin\n",
        "",
    ),
    (
        "media 1\nfeat f\nprog f s t\nstate s\n",
        17,
        "when told w s\n",
        "",
        "fault 14 line 21\n",
    ),
    (
        "media 1\ndev d\nfeat f\nchan audio d a f a\nprog f s\nstate s\ngoal a hold\n",
        16,
        "when told w s\n",
        "when is a closed s\n",
        "fault 14 line 24\n",
    ),
    // commands, settles among them
    (PHONES, 4096, "set a x hold\n", "", ""),
    (PHONES, 4095, "set a x close\n", "settle\n", CLOSED),
    (PHONES, 4097, "set a x hold\n", "", "fault 14 line 4102\n"),
    (
        PHONES,
        4096,
        "set a x hold\n",
        "settle\n",
        "fault 14 line 4102\n",
    ),
    // bytes of a line
    ("#", 255, "c", "\nmedia 1\n", "fault 16 line 3\n"),
    ("#", 256, "c", "\nmedia 1\n", "fault 2 line 1\n"),
    ("#\u{7f}", 255, "c", "", "fault 2 line 1\n"),
    ("media 1\n", 256, " ", "", "fault 16 line 3\n"),
    ("media 1\n", 257, " ", "", "fault 2 line 2\n"),
    (
        "media 1\ndev a\ndev b\nchan audio a x b y\nbegin\nsettle",
        250,
        " ",
        "\n",
        CLOSED,
    ),
    (
        "media 1\ndev a\ndev b\nchan audio a x b y\nbegin\nsettle now",
        247,
        " ",
        "",
        "fault 2 line 6\n",
    ),
    // bytes of a name
    (
        "media 1\ndev ",
        16,
        "n",
        "\ndev b\nchan audio nnnnnnnnnnnnnnnn x b y\nbegin\n",
        "",
    ),
    ("media 1\ndev ", 17, "n", "\n", "fault 18 line 2\n"),
    // a first version
    ("media 1\ndev a 4294967295\n", 1, "begin\n", "", ""),
    (
        "media 1\ndev a 4294967296\n",
        1,
        "begin\n",
        "",
        "fault 8 line 2\n",
    ),
    (
        "media 1\ndev a 10000000000\n",
        1,
        "begin\n",
        "",
        "fault 8 line 2\n",
    ),
];

// The phones are 45 bytes in five lines, and with 41,941 comments of 25 bytes the six of `settle` end at the limit.
const LONG_ROWS: [Counted; 4] = [
    (PHONES, 41_941, COMMENT, "settle", CLOSED),
    (PHONES, 41_941, COMMENT, "settle\n", "fault 1 line 41947\n"),
    (
        PHONES,
        41_941,
        COMMENT,
        "settle now\r\nfly\n",
        "fault 1 line 41947\n",
    ),
    (PHONES, 42_000, COMMENT, "fly\n", "fault 1 line 41947\n"),
];

const STATES: [Piece; 5] = [
    (1, "media 1\nfeat f\nprog f"),
    (64, " s%"),
    (1, "\n"),
    (64, "state s%\n"),
    (1, "begin\n"),
];

const STATE_TOO_MANY: [Piece; 5] = [
    (1, "media 1\nfeat f\nprog f"),
    (65, " s%"),
    (1, "\n"),
    (65, "state s%\n"),
    (1, "begin\n"),
];

const CHANNELS: [Piece; 4] = [
    (1, "media 1\n"),
    (128, "dev l%\ndev r%\n"),
    (128, EIGHT_CHANNELS),
    (1, "begin\n"),
];

const CHANNEL_TOO_MANY: [Piece; 4] = [
    (1, "media 1\n"),
    (128, "dev l%\ndev r%\n"),
    (128, EIGHT_CHANNELS),
    (1, "chan audio l0 z r0 z\n"),
];

// A call on the text of each row prints what the row says.
fn are_counted<R: Threads + Sync + Abort>(
    rt: &R,
    alloc: Global,
    rows: &[Counted],
) -> Result<(), AllocError> {
    for (before, count, line, rest, printed) in rows {
        let pieces = [(1, *before), (*count, *line), (1, *rest)];
        let status = u8::from(printed.starts_with("fault"));
        is_answered_in_pieces(rt, alloc, &["run"], &pieces, status, printed, line)?;
    }
    Ok(())
}

#[test]
fn counts_reach_their_limits_and_pass_them(rt: HostRuntime) -> Result<(), AllocError> {
    are_counted(&rt, rt.alloc(), &ROWS)
}

#[test]
fn states_channels_and_bytes_reach_their_limits_and_pass_them(
    rt: HostRuntime,
) -> Result<(), AllocError> {
    let alloc = rt.alloc();
    are_counted(&rt, alloc, &LONG_ROWS)?;
    is_answered_in_pieces(&rt, alloc, &["run"], &STATES, 0, "", "states")?;
    let printed = "fault 14 line 3\n";
    is_answered_in_pieces(&rt, alloc, &["run"], &STATE_TOO_MANY, 1, printed, "states")?;
    is_answered_in_pieces(&rt, alloc, &["run"], &CHANNELS, 0, "", "channels")?;
    let printed = "fault 14 line 1282\n";
    is_answered_in_pieces(
        &rt,
        alloc,
        &["run"],
        &CHANNEL_TOO_MANY,
        1,
        printed,
        "channels",
    )
}
