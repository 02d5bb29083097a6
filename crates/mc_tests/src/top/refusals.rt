// Texts that are refused: the number and the line that are written.

use super::{Row, are_answered, is_answered};
use std::alloc::{AllocError, Global};
use std::process::Abort;
use std::thread::Threads;

// A line of a text, what stands in its place, and the number and the line of the fault.
type Fault = (&'static str, &'static str, u8, u32);

// Two phones, which can be run.
const PHONES: &str = "media 1\n\
    codec g711\n\
    codec g729\n\
    dev alice g711 g729\n\
    dev bob g729\n\
    chan audio alice a bob a\n\
    begin\n\
    set alice a open\n\
    set bob a hold\n\
    settle\n";

const PHONE_ROWS: [Fault; 36] = [
    // A tunnel more, of the last channel.
    ("chan audio alice a bob a", "also video v v", 5, 6),
    ("set bob a hold", "also video v v", 5, 9),
    ("begin", "also video v\nbegin", 6, 7),
    ("begin", "also video v v v\nbegin", 7, 7),
    ("begin", "also video v a\nbegin", 9, 7),
    ("begin", "also video v abcdefghijklmnopq\nbegin", 18, 7),
    (
        "chan audio alice a bob a",
        "chan audio alice a carol a",
        4,
        6,
    ),
    ("dev alice g711 g729", "dev alice g711 g722", 4, 4),
    ("chan audio alice a bob a", "chan sound alice a bob a", 5, 6),
    ("settle", "link alice a a", 5, 10),
    ("set alice a open", "set alice a", 6, 8),
    ("settle", "settle now", 7, 10),
    ("dev alice g711 g729", "dev alice 01 g711", 8, 4),
    ("codec g729", "codec g711", 9, 3),
    (
        "chan audio alice a bob a",
        "chan audio alice a alice b",
        10,
        6,
    ),
    ("set alice a open", "set alice z open", 11, 8),
    (
        "codec g729",
        "codec g729\ncodec a\ncodec b\ncodec c\ncodec d\ncodec e\ncodec f\ncodec g\ndev al g711 g729 a b c d e f g",
        14,
        11,
    ),
    // The first line that isn't skipped is the version line.
    ("media 1", "media 3", 17, 1),
    ("media 1", "media", 17, 1),
    ("media 1", "media 1 1", 17, 1),
    ("media 1", "# one\n\ncodec g722", 17, 3),
    // A command before `begin` is read as one, and `begin` is too late then.
    ("begin\nset alice a open", "set alice a open\nbegin", 5, 8),
    ("begin\nset alice a open", "set alice z open\nbegin", 11, 7),
    ("begin\n", "", 16, 10),
    // Commands after the last settle are read, and a last line without its end.
    ("settle", "settle\nset carol a open", 4, 11),
    ("settle\n", "sleep", 5, 10),
    // Bytes that no line has, not even a comment.
    ("media 1", "media 1\r", 3, 1),
    ("codec g729", "codec\tg729", 3, 3),
    ("codec g729", "# caf\u{e9}\ncodec g729", 3, 3),
    ("settle", "settle now\u{7f}", 3, 10),
    ("settle", "settle\n\0", 3, 11),
    // A fault on a later line, after lines that break no rule.
    ("dev bob g729", "dev bob 1 g729\nfeat f\nfeat f", 9, 7),
    ("settle", "hear alice a off\nsettle now", 7, 11),
    ("begin", "chan video alice v bob v", 16, 11),
    ("chan audio", "feat f\nprog f s\nchan audio", 5, 8),
    ("begin", "talk alice a off\nbegin", 5, 8),
];

// Two phones, two features between them and a program, with a line of each kind.
const SWITCH: &str = "media 1\n\
    codec g711\n\
    codec g729\n\
    dev alice g711 g729\n\
    dev bob 7 g729\n\
    feat f\n\
    feat g\n\
    chan audio alice a f w\n\
    chan audio f e g p\n\
    chan audio g q bob a\n\
    chan video f v alice v\n\
    prog f talk wait\n\
    state talk\n\
    link w e\n\
    goal v close\n\
    when told swap wait\n\
    state wait\n\
    goal w hold\n\
    goal e open\n\
    goal v hold\n\
    when is w closed talk\n\
    begin\n\
    set alice a open\n\
    tell f swap\n\
    hear alice v off\n\
    talk bob a on\n\
    link g p q\n\
    settle\n";

// Codecs, boxes and channels.
const NETWORK_ROWS: [Fault; 38] = [
    ("dev alice g711 g729", "dev alice g711 G729", 4, 4),
    ("dev bob 7 g729", "dev bob 7 7 g729", 4, 5),
    ("dev bob 7 g729", "dev bob g729 7", 4, 5),
    ("chan audio f e g p", "chan audio f e g711 p", 4, 9),
    ("codec g729", "codec 9g", 5, 3),
    ("codec g729", "codec g.729", 5, 3),
    ("codec g729", "codec #g729", 5, 3),
    ("codec g729", "codecs g729", 5, 3),
    ("dev alice g711 g729", "dev Alice g711 g729", 5, 4),
    ("feat f", "feat _f", 5, 6),
    ("chan audio alice a f w", "chan audio alice -a f w", 5, 8),
    ("chan audio alice a f w", "chan audio alice a f W", 5, 8),
    ("feat g", "media 1", 5, 7),
    ("feat g", "codec g722", 5, 7),
    ("chan audio f e g p", "dev dan g711", 5, 9),
    ("chan audio f e g p", "feat h", 5, 9),
    ("state wait", "chan audio alice b g r", 5, 17),
    ("codec g729", "codec", 6, 3),
    ("dev bob 7 g729", "dev", 6, 5),
    ("feat f", "feat", 6, 6),
    ("chan audio alice a f w", "chan", 6, 8),
    ("chan audio alice a f w", "chan audio alice a f", 6, 8),
    ("codec g729", "codec g729 g722", 7, 3),
    ("feat f", "feat f 1", 7, 6),
    ("chan audio alice a f w", "chan audio alice a f w e", 7, 8),
    ("dev bob 7 g729", "dev bob 0 g729", 8, 5),
    ("dev bob 7 g729", "dev bob 7th g729", 8, 5),
    ("dev bob 7 g729", "dev alice", 9, 5),
    ("dev bob 7 g729", "dev bob 7 g729 g729", 9, 5),
    ("feat g", "feat alice", 9, 7),
    ("chan audio f e g p", "chan audio f w g p", 9, 9),
    ("chan video f v alice v", "chan video f v alice a", 9, 11),
    (
        "chan audio alice a f w",
        "chan audio alice a alice a",
        10,
        8,
    ),
    (
        "chan video f v alice v",
        "chan video alice a alice a",
        9,
        11,
    ),
    ("codec g729", "codec abcdefghijklmnopq", 18, 3),
    ("dev bob 7 g729", "dev abcdefghijklmnopq", 18, 5),
    ("feat f", "feat abcdefghijklmnopq", 18, 6),
    (
        "chan audio alice a f w",
        "chan audio alice a f abcdefghijklmnopq",
        18,
        8,
    ),
];

// Programs, and the line that ends them.
const PROGRAM_ROWS: [Fault; 51] = [
    ("prog f talk wait", "prog h talk wait", 4, 12),
    ("when told swap wait", "when told swap stop", 4, 16),
    ("when is w closed talk", "when is w closed Talk", 4, 21),
    ("prog f talk wait", "prog alice talk wait", 5, 12),
    ("prog f talk wait", "prog f talk 2", 5, 12),
    ("prog f talk wait", "state talk", 5, 12),
    ("prog f talk wait", "goal w hold", 5, 12),
    ("prog f talk wait", "when told swap wait", 5, 12),
    ("prog f talk wait", "link g p q", 5, 13),
    ("state talk", "state wait", 5, 13),
    ("state talk", "goal w hold", 5, 13),
    ("state talk", "when told swap wait", 5, 13),
    ("state talk", "link w e", 5, 13),
    ("begin", "state talk", 5, 22),
    ("goal v close", "goal v closed", 5, 15),
    ("when is w closed talk", "when is w close talk", 5, 21),
    ("when told swap wait", "when told 1 wait", 5, 16),
    ("when told swap wait", "when heard swap stop", 5, 16),
    ("prog f talk wait", "prog", 6, 12),
    ("prog f talk wait", "prog f", 6, 12),
    ("prog f talk wait", "state", 6, 12),
    ("state talk", "state", 6, 13),
    ("begin", "state", 6, 22),
    ("goal v close", "goal v", 6, 15),
    ("link w e", "link w", 6, 14),
    ("when told swap wait", "when", 6, 16),
    ("when told swap wait", "when told swap", 6, 16),
    ("when is w closed talk", "when is w closed", 6, 21),
    ("state talk", "state talk wait", 7, 13),
    ("goal v close", "goal v close now", 7, 15),
    ("link w e", "link w e v", 7, 14),
    ("when told swap wait", "when told swap wait talk", 7, 16),
    ("when is w closed talk", "when is w closed talk wait", 7, 21),
    ("begin", "begin now", 7, 22),
    ("prog f talk wait", "prog f talk talk", 9, 12),
    ("begin", "prog f talk", 9, 22),
    ("goal v close", "goal w close", 9, 15),
    ("goal e open", "goal w hold", 9, 19),
    ("goal e open", "link e w", 9, 19),
    ("goal v close", "goal p close", 11, 15),
    ("link w e", "link w z", 11, 14),
    ("when is w closed talk", "when is z closed talk", 11, 21),
    ("link w e", "link w w", 12, 14),
    ("link w e", "link w v", 13, 14),
    ("goal v close", "", 15, 17),
    ("goal v close", "settle", 15, 15),
    ("state wait", "prog g on", 15, 17),
    ("goal e open", "\n# none", 15, 23),
    ("prog f talk wait", "prog f talk wait stop", 15, 22),
    ("prog f talk wait", "prog f talk abcdefghijklmnopq", 18, 12),
    (
        "when told swap wait",
        "when told abcdefghijklmnopq wait",
        18,
        16,
    ),
];

// Commands. Any program's word may be told to each box that has a program.
const COMMAND_ROWS: [Fault; 39] = [
    ("tell f swap", "tell h swap", 4, 24),
    ("tell f swap", "tell f talk", 4, 24),
    ("hear alice v off", "hear carol v off", 4, 25),
    ("talk bob a on", "talk carol a on", 4, 26),
    ("link g p q", "link h p q", 4, 27),
    ("set alice a open", "set alice a flowing", 5, 23),
    ("tell f swap", "tell g swap", 5, 24),
    ("tell f swap", "tell bob swap", 5, 24),
    ("hear alice v off", "hear f v off", 5, 25),
    ("hear alice v off", "hear alice v no", 5, 25),
    ("talk bob a on", "talk g q on", 5, 26),
    ("talk bob a on", "talk bob a open", 5, 26),
    ("link g p q", "link alice a v", 5, 27),
    ("settle", "Settle", 5, 28),
    ("settle", "media 1", 5, 28),
    ("settle", "codec g722", 5, 28),
    ("settle", "dev dan", 5, 28),
    ("settle", "feat h", 5, 28),
    ("settle", "chan audio alice b g r", 5, 28),
    ("settle", "prog g on", 5, 28),
    ("settle", "state talk", 5, 28),
    ("settle", "goal w hold", 5, 28),
    ("settle", "when told swap wait", 5, 28),
    ("settle", "begin", 5, 28),
    ("set alice a open", "set", 6, 23),
    ("tell f swap", "tell f", 6, 24),
    ("hear alice v off", "hear alice v", 6, 25),
    ("talk bob a on", "talk bob", 6, 26),
    ("link g p q", "link g p", 6, 27),
    ("set alice a open", "set alice a open now", 7, 23),
    ("tell f swap", "tell f swap swap", 7, 24),
    ("hear alice v off", "hear alice v off on", 7, 25),
    ("link g p q", "link g p q p", 7, 27),
    ("set alice a open", "set alice w open", 11, 23),
    ("hear alice v off", "hear alice w off", 11, 25),
    ("talk bob a on", "talk bob v on", 11, 26),
    ("link g p q", "link g p w", 11, 27),
    ("link g p q", "link f w w", 12, 27),
    ("link g p q", "link f w v", 13, 27),
];

// Lines that break several rules, and several such lines.
const LEAST_ROWS: [Fault; 21] = [
    ("settle", "dev x zed", 4, 28),
    ("chan audio alice a f w", "chan sound carol", 4, 8),
    ("dev bob 7 g729", "dev bob 0 g722", 4, 5),
    ("tell f swap", "tell alice stop", 4, 24),
    ("set alice a open", "set carol w open", 4, 23),
    ("chan audio alice a f w", "chan sound", 5, 8),
    ("set alice a open", "set alice w opens now", 5, 23),
    ("feat f", "feat 1bcdefghijklmnopq", 5, 6),
    ("state talk", "when told swap zed", 5, 13),
    ("set alice a open", "set alice w open now", 7, 23),
    (
        "goal v close\nwhen told swap wait\nstate wait",
        "state wait now",
        7,
        15,
    ),
    ("dev bob 7 g729", "dev alice 0", 8, 5),
    (
        "chan video f v alice v",
        "chan video alice a alice v",
        9,
        11,
    ),
    ("goal e open", "link w w", 9, 19),
    ("goal e open", "link w v", 9, 19),
    ("state wait", "prog f on", 9, 17),
    (
        "prog f talk wait",
        "prog f abcdefghijklmnopq abcdefghijklmnopq",
        9,
        12,
    ),
    ("link g p q", "link g z z", 11, 27),
    ("state wait", "prog g abcdefghijklmnopq", 15, 17),
    ("settle", "settle now\r", 3, 28),
    (
        "set alice a open\ntell f swap",
        "set alice w open\ntell h swap",
        11,
        23,
    ),
];

// Short texts, and the number and the line of the fault. The end of a text is one more line.
const SHORT: [Row; 15] = [
    ("", "", 1, "fault 17 line 1\n"),
    ("\n", "", 1, "fault 17 line 2\n"),
    ("   \n# none", "", 1, "fault 17 line 3\n"),
    ("fly\nmedia 1", "", 1, "fault 17 line 1\n"),
    ("media 1", "", 1, "fault 16 line 2\n"),
    ("media 1\n", "", 1, "fault 16 line 2\n"),
    ("media 1\n\n# none\n", "", 1, "fault 16 line 4\n"),
    ("media 1\nsettle\n", "", 1, "fault 16 line 3\n"),
    ("media 1\nsettle\nbegin\n", "", 1, "fault 5 line 3\n"),
    ("media 1\nfly", "", 1, "fault 5 line 2\n"),
    // no channel is declared yet
    (
        "media 1\ncodec g711\ndev a g711\nalso audio a f\n",
        "",
        1,
        "fault 5 line 4\n",
    ),
    ("media 1\n\n  # none\n  \nfly", "", 1, "fault 5 line 5\n"),
    ("media 1\nfeat f\nprog f s\n", "", 1, "fault 15 line 4\n"),
    (
        "media 1\nfeat f\nprog f s\nfly\n",
        "",
        1,
        "fault 5 line 4\n",
    ),
    (
        "media 1\ndev a\nfeat f\nchan audio a s f s\nprog f s\nstate s\n",
        "",
        1,
        "fault 15 line 7\n",
    ),
];

// What is written for the two phones.
const FLOWING: &str = "settle 1\n\
    path alice/a bob/a open hold flowing audio\n\
    hears alice/a g729\n\
    hears bob/a g729\n";

// Texts that can be run, and what is written for each.
const RUN: [Row; 7] = [
    (PHONES, "", 0, FLOWING),
    // blank lines, comments and spare spaces
    (
        "# two phones\n\
        \n\
        \x20 media   1\n\
        codec g711 \n\
        \x20codec  g729\n\
        \x20 #their codecs\n\
        dev alice  g711   g729\n\
        dev bob g729\n\
        \x20 \n\
        #\n\
        chan audio  alice a  bob a\n\
        begin  \n\
        \x20# settle\n\
        set alice a open\n\
        set bob a hold\n\
        \n\
        \x20settle\n\
        # no more",
        "",
        0,
        FLOWING,
    ),
    // a word may be a name in each list, fixed words too
    (
        "media 1\n\
        codec codec\n\
        dev dev codec\n\
        dev begin codec\n\
        chan audio dev begin begin set\n\
        begin\n\
        set dev begin open\n\
        set begin set hold\n\
        settle\n",
        "",
        0,
        "settle 1\n\
        path dev/begin begin/set open hold flowing audio\n\
        hears dev/begin codec\n\
        hears begin/set codec\n",
    ),
    // video, from the box that was declared last
    (
        "media 1\n\
        codec h264\n\
        codec vp8\n\
        dev desk vp8 h264\n\
        dev room-2_ h264 vp8\n\
        chan video room-2_ cam desk cam\n\
        begin\n\
        set desk cam open\n\
        set room-2_ cam open\n\
        settle\n",
        "",
        0,
        "settle 1\n\
        path room-2_/cam desk/cam open open flowing video\n\
        hears room-2_/cam h264\n\
        hears desk/cam vp8\n",
    ),
    // boxes without channels, and none at all
    ("media 1\nbegin\n", "", 0, ""),
    ("media 1\ndev a\nbegin\nsettle", "", 0, "settle 1\n"),
    // two devices of three
    (
        "media 1\n\
        codec g711\n\
        dev a g711\n\
        dev b g711\n\
        dev c g711\n\
        chan audio a x c y\n\
        begin\n\
        set c y open\n\
        set a x hold\n\
        settle\n",
        "",
        0,
        "settle 1\n\
        path a/x c/y hold open flowing audio\n\
        hears a/x g711\n\
        hears c/y g711\n",
    ),
];

const OVER_THE_SWITCH: &str = "settle 1\n\
    path alice/a bob/a open hold flowing audio\n\
    hears alice/a g729\n\
    hears bob/a g729\n\
    path f/v alice/v close close closed video\n";

const ALL_CLOSED: &str = "settle 1\n\
    path alice/a bob/a close close closed audio\n\
    path f/v alice/v close close closed video\n";

// The switch with other lines in place of some, and what is written for it.
const SWITCHED: [(&str, &str, &str); 4] = [
    ("settle\n", "", ""),
    ("tell f swap", "set bob a hold", OVER_THE_SWITCH),
    (
        "begin\nset alice a open\ntell f swap",
        "\n   # begin\n begin  \nset alice a open\nset bob a hold",
        OVER_THE_SWITCH,
    ),
    // A word is told that another box's program has.
    (
        "begin\nset alice a open\ntell f swap",
        "prog g on\nstate on\nlink p q\nbegin\ntell g swap",
        ALL_CLOSED,
    ),
];

// With each row's lines in place of its line, the text is refused by the row's number and line.
fn are_refused<R: Threads + Sync + Abort>(
    rt: &R,
    alloc: Global,
    text: &str,
    rows: &[Fault],
) -> Result<(), AllocError> {
    for (line, instead, number, at) in rows {
        let faulty = text.replacen(alloc, *line, instead, 1)?;
        let printed = format!(in alloc; "fault {number} line {at}\n")?;
        is_answered(
            rt,
            alloc,
            &["run"],
            faulty.as_str(),
            1,
            printed.as_str(),
            instead,
        )?;
    }
    Ok(())
}

#[test]
fn the_first_faulty_line_is_named_by_the_least_rule(rt: HostRuntime) -> Result<(), AllocError> {
    are_refused(&rt, rt.alloc(), PHONES, &PHONE_ROWS)?;
    are_refused(&rt, rt.alloc(), SWITCH, &NETWORK_ROWS)?;
    are_refused(&rt, rt.alloc(), SWITCH, &PROGRAM_ROWS)?;
    are_refused(&rt, rt.alloc(), SWITCH, &COMMAND_ROWS)?;
    are_refused(&rt, rt.alloc(), SWITCH, &LEAST_ROWS)
}

#[test]
fn the_end_of_a_text_is_one_more_line(rt: HostRuntime) -> Result<(), AllocError> {
    are_answered(&rt, rt.alloc(), &["run"], &SHORT)
}

#[test]
fn skipped_lines_and_spare_spaces_change_nothing(rt: HostRuntime) -> Result<(), AllocError> {
    are_answered(&rt, rt.alloc(), &["run"], &RUN)
}

#[test]
fn a_text_with_programs_is_run(rt: HostRuntime) -> Result<(), AllocError> {
    for (line, instead, printed) in &SWITCHED {
        let text = SWITCH.replacen(rt.alloc(), *line, instead, 1)?;
        is_answered(
            &rt,
            rt.alloc(),
            &["run"],
            text.as_str(),
            0,
            printed,
            instead,
        )?;
    }
    Ok(())
}
