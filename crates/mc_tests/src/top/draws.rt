// Settles by draws that begin at a state that is told: which turns they make, in which order.

use super::{CALLED, FLOWING, is_kept};
use mc_box::{Change, Event, Turn};
use mc_script::JournalLine;
use mc_slot::Goal;
use std::alloc::AllocError;

const ALICE: u32 = 0;

const BOB: u32 = 1;

const ALICE_OPENS: JournalLine = JournalLine::Turn(Turn {
    who: ALICE,
    event: Event::Set(Change::End(0, Goal::Open)),
});

const ALICE_CLOSES: JournalLine = JournalLine::Turn(Turn {
    who: ALICE,
    event: Event::Set(Change::End(0, Goal::Close)),
});

const ALICE_TAKES: JournalLine = JournalLine::Turn(Turn {
    who: ALICE,
    event: Event::Take(0),
});

const ALICE_RETRIES: JournalLine = JournalLine::Turn(Turn {
    who: ALICE,
    event: Event::Retry(0),
});

const BOB_HOLDS: JournalLine = JournalLine::Turn(Turn {
    who: BOB,
    event: Event::Set(Change::End(0, Goal::Hold)),
});

const BOB_CLOSES: JournalLine = JournalLine::Turn(Turn {
    who: BOB,
    event: Event::Set(Change::End(0, Goal::Close)),
});

const BOB_TAKES: JournalLine = JournalLine::Turn(Turn {
    who: BOB,
    event: Event::Take(0),
});

const DRAWN_FROM_1: [JournalLine; 7] = [
    ALICE_OPENS,
    BOB_HOLDS,
    BOB_TAKES,
    ALICE_TAKES,
    BOB_TAKES,
    ALICE_TAKES,
    JournalLine::Settled,
];

const ASKED_AGAIN: [JournalLine; 9] = [
    ALICE_OPENS,
    BOB_TAKES,
    ALICE_TAKES,
    BOB_TAKES,
    ALICE_RETRIES,
    BOB_TAKES,
    ALICE_TAKES,
    BOB_TAKES,
    JournalLine::Settled,
];

const TWO_SETTLES: [JournalLine; 12] = [
    ALICE_OPENS,
    BOB_HOLDS,
    BOB_TAKES,
    ALICE_TAKES,
    BOB_TAKES,
    ALICE_TAKES,
    JournalLine::Settled,
    ALICE_CLOSES,
    BOB_TAKES,
    ALICE_TAKES,
    BOB_CLOSES,
    JournalLine::Settled,
];

const DRAWN_FROM_0: [JournalLine; 7] = [
    ALICE_OPENS,
    BOB_HOLDS,
    BOB_TAKES,
    ALICE_TAKES,
    ALICE_TAKES,
    BOB_TAKES,
    JournalLine::Settled,
];

// As CALLED, but that bob does nothing.
const REFUSED: &str =
    "media 1\ncodec g711\ncodec g729\ndev alice g711 g729\ndev bob g729\nchan audio alice a bob a\nbegin\nset alice a open\nsettle\n";

// As CALLED, and then both close their slots.
const CALLED_AND_CLOSED: &str =
    "media 1\ncodec g711\ncodec g729\ndev alice g711 g729\ndev bob g729\nchan audio alice a bob a\nbegin\nset alice a open\nset bob a hold\nsettle\nset alice a close\nset bob a close\nsettle\n";

// As CALLED, but that both do nothing.
const UNCALLED: &str =
    "media 1\ncodec g711\ncodec g729\ndev alice g711 g729\ndev bob g729\nchan audio alice a bob a\nbegin\nsettle\n";

// The draws from 1 are 16838, 5758, 10113, 17515, 31051, 5627: alice's command of two candidates, bob's command of two,
// then what alone can come, and of two Takes bob's.
#[test]
fn an_accepted_call_is_drawn_from_1(rt: HostRuntime) -> Result<(), AllocError> {
    is_kept(
        &rt,
        rt.alloc(),
        &["one", "1"],
        CALLED,
        0,
        &DRAWN_FROM_1,
        FLOWING,
    )
}

#[test]
fn a_refused_call_is_asked_again_once(rt: HostRuntime) -> Result<(), AllocError> {
    is_kept(
        &rt,
        rt.alloc(),
        &["--", "one", "1"],
        REFUSED,
        0,
        &ASKED_AGAIN,
        "settle 1\npath alice/a bob/a open close closed audio\n",
    )
}

// After the six draws of the first settle come 23010, 7419, 16212 and 4086: alice's command of two candidates, bob's
// Take before his command, alice's Take before it, and then it. From the first draws on, bob's command would come
// second.
#[test]
fn draws_go_on_from_one_settle_to_the_next(rt: HostRuntime) -> Result<(), AllocError> {
    is_kept(
        &rt,
        rt.alloc(),
        &["one", "1"],
        CALLED_AND_CLOSED,
        0,
        &TWO_SETTLES,
        "settle 1\npath alice/a bob/a open hold flowing audio\nhears alice/a g729\nhears bob/a g729\nsettle 2\npath alice/a bob/a close close closed audio\n",
    )
}

// The draws from 0 are 0, 21468, 9988, 22117, 3498 and 16927: as from 1, but that of the two Takes alice's comes first.
#[test]
fn draws_may_begin_at_0(rt: HostRuntime) -> Result<(), AllocError> {
    is_kept(
        &rt,
        rt.alloc(),
        &["one", "0"],
        CALLED,
        0,
        &DRAWN_FROM_0,
        FLOWING,
    )
}

#[test]
fn draws_may_begin_at_the_last_state(rt: HostRuntime) -> Result<(), AllocError> {
    is_kept(
        &rt,
        rt.alloc(),
        &["one", "2147483647"],
        UNCALLED,
        0,
        &[JournalLine::Settled],
        "settle 1\npath alice/a bob/a close close closed audio\n",
    )
}
