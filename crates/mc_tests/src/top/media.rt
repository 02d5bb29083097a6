// Who hears what: muted and unmuted phones, send lists, and scripts that stop at a last version.

use super::{PHONES, Row, are_answered, is_kept};
use mc_box::{Change, Event, Turn};
use mc_script::JournalLine;
use mc_slot::Goal;
use std::alloc::AllocError;

// Two phones that send what the lines of the rows say.
const SENDERS: &str = "media 2\n\
    codec g711\n\
    codec g729\n\
    dev alice g711 g729\n";

const FIRST_SENDERS: &str = "media 1\n\
    codec g711\n\
    codec g729\n\
    dev alice g711 g729\n";

// Scripts of the phones, and who hears what at their settles.
const SCRIPTS: [Row; 7] = [
    // bob is muted in the call
    (
        PHONES,
        "set alice a open\nset bob a hold\nhear bob a off\nsettle\n",
        0,
        "settle 1\npath alice/a bob/a open hold flowing audio\nhears alice/a g729\nhears bob/a none\n",
    ),
    // alice doesn't talk from the beginning
    (
        PHONES,
        "talk alice a off\nset alice a open\nset bob a hold\nsettle\n",
        0,
        "settle 1\npath alice/a bob/a open hold flowing audio\nhears alice/a g729\nhears bob/a none\n",
    ),
    // muted while the slots open, and unmuted before the settle
    (
        PHONES,
        "set alice a open\nhear alice a off\nset bob a hold\nhear alice a on\nsettle\n",
        0,
        "settle 1\npath alice/a bob/a open hold flowing audio\nhears alice/a g729\nhears bob/a g729\n",
    ),
    // muted, and unmuted after a settle
    (
        PHONES,
        "set alice a open\nset bob a hold\ntalk bob a off\nsettle\ntalk bob a on\nsettle\n",
        0,
        "settle 1\npath alice/a bob/a open hold flowing audio\nhears alice/a none\nhears bob/a g729\nsettle 2\npath alice/a bob/a open hold flowing audio\nhears alice/a g729\nhears bob/a g729\n",
    ),
    // both ways
    (
        PHONES,
        "set alice a open\nset bob a open\nhear alice a off\ntalk alice a off\nsettle\n",
        0,
        "settle 1\npath alice/a bob/a open open flowing audio\nhears alice/a none\nhears bob/a none\n",
    ),
    // nobody hears on a closed path
    (
        PHONES,
        "hear alice a off\ntalk bob a off\nsettle\n",
        0,
        "settle 1\npath alice/a bob/a close close closed audio\n",
    ),
    // after the last settle nothing is run
    (
        PHONES,
        "settle\nhear alice a off\n",
        0,
        "settle 1\npath alice/a bob/a close close closed audio\n",
    ),
];

const SEND_LISTS: [Row; 6] = [
    (
        SENDERS,
        "send alice g729\ndev bob g729 g711\nchan audio alice a bob a\nbegin\nset alice a open\nset bob a hold\nsettle\n",
        0,
        "settle 1\npath alice/a bob/a open hold flowing audio\nhears alice/a g711\nhears bob/a g729\n",
    ),
    (
        SENDERS,
        "send alice g729\ndev bob g729 g711\nsend bob\nchan audio alice a bob a\nbegin\nset alice a open\nset bob a hold\nsettle\n",
        0,
        "settle 1\npath alice/a bob/a open hold flowing audio\nhears alice/a none\nhears bob/a g729\n",
    ),
    (
        SENDERS,
        "dev bob g729 g711\nchan audio alice a bob a\nbegin\nset alice a open\nset bob a hold\nsettle\n",
        0,
        "settle 1\npath alice/a bob/a open hold flowing audio\nhears alice/a g711\nhears bob/a g729\n",
    ),
    // Without the second version there are no send lists.
    (
        FIRST_SENDERS,
        "send alice g729\ndev bob g729 g711\nchan audio alice a bob a\nbegin\nset alice a open\nset bob a hold\nsettle\n",
        1,
        "fault 5 line 5\n",
    ),
    (
        FIRST_SENDERS,
        "send alice g729\ndev bob g729 g711\nsend bob\nchan audio alice a bob a\nbegin\nset alice a open\nset bob a hold\nsettle\n",
        1,
        "fault 5 line 5\n",
    ),
    (
        FIRST_SENDERS,
        "dev bob g729 g711\nchan audio alice a bob a\nbegin\nset alice a open\nset bob a hold\nsettle\n",
        0,
        "settle 1\npath alice/a bob/a open hold flowing audio\nhears alice/a g711\nhears bob/a g729\n",
    ),
];

// Two phones with first versions, and a script.
const LAST_VERSIONS: [Row; 5] = [
    (
        "media 1\ndev alice 4294967295\ndev bob 1\nchan audio alice a bob a\nbegin\n",
        "hear alice a off\nsettle\n",
        1,
        "version alice/a\n",
    ),
    (
        "media 1\ndev alice 1\ndev bob 4294967295\nchan audio alice a bob a\nbegin\n",
        "hear bob a on\nsettle\n",
        1,
        "version bob/a\n",
    ),
    (
        "media 1\ndev alice 4294967294\ndev bob 1\nchan audio alice a bob a\nbegin\n",
        "settle\nhear alice a on\nsettle\nhear alice a on\nsettle\n",
        1,
        "version alice/a\n",
    ),
    (
        "media 1\ndev alice 4294967294\ndev bob 1\nchan audio alice a bob a\nbegin\n",
        "hear alice a off\nsettle\nhear alice a off\n",
        0,
        "settle 1\npath alice/a bob/a close close closed audio\n",
    ),
    (
        "media 1\ndev alice 4294967295\ndev bob 4294967295\nchan audio alice a bob a\nbegin\n",
        "talk alice a off\nsettle\n",
        0,
        "settle 1\npath alice/a bob/a close close closed audio\n",
    ),
];

#[test]
fn who_is_muted_is_not_heard(rt: HostRuntime) -> Result<(), AllocError> {
    are_answered(&rt, rt.alloc(), &["run"], &SCRIPTS)
}

#[test]
fn send_lists_stand_apart(rt: HostRuntime) -> Result<(), AllocError> {
    are_answered(&rt, rt.alloc(), &["run"], &SEND_LISTS)
}

#[test]
fn a_hear_at_the_last_version_stops_the_script(rt: HostRuntime) -> Result<(), AllocError> {
    are_answered(&rt, rt.alloc(), &["run"], &LAST_VERSIONS)
}

const STOPPED: &str =
    "media 1\ndev alice 4294967295\ndev bob\nchan audio alice a bob a\nbegin\nsettle\nset alice a open\nhear alice a off\nsettle\n";

const KEPT: [JournalLine; 2] = [
    JournalLine::Settled,
    JournalLine::Turn(Turn {
        who: 0,
        event: Event::Set(Change::End(0, Goal::Open)),
    }),
];

#[test]
fn a_stopped_script_keeps_its_turns(rt: HostRuntime) -> Result<(), AllocError> {
    is_kept(
        &rt,
        rt.alloc(),
        &["one", "0"],
        STOPPED,
        1,
        &KEPT,
        "version alice/a\n",
    )
}
