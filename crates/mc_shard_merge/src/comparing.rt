// Whether each take has its sending.

ghost use Rattle.std.specs.Prelude.{◌≡◌, ◌<◌, IfErr, IfNone, IfSome, MatchBool, MatchOption, OnOk, drop, length};
ghost use Rattle.std.specs.List.{AllByRecursion};
ghost use Rattle.mc_shard.specs.Journals.{AreAllAmong, IsAmong, items_at, sent_at, taken_at, taken_list};
ghost use Rattle.mc_shard_merge.specs.Compared.{AgreeOn, IsFirstUnjoined, IsFirstUnsent, IsUnjoined, TookUnsent, journal_at, journals_of};

use crate::joined::JoinedEnds;
use crate::unjoined::{Unjoined, WhyUnjoined};
use mc_lane::Lane;
use mc_shard::{AtEnd, Entry};

// Whether this signal is among those sent at its end.
fn was_sent(sent: &Lane<AtEnd>, wanted: AtEnd) -> bool
    ensures { MatchBool result (IsAmong (items_at wanted.end sent.now.items) wanted.item)
        (IsAmong (items_at wanted.end sent.now.items) wanted.item → ⊥) }
{
    for place in 0..sent.len() {
        if sent.get(place) == wanted {
            return true;
        }
    }
    false
}

// Whether an entry sent it.
fn entry_sent(entry: &Entry, wanted: AtEnd) -> bool
    ensures { MatchBool result (IsAmong (items_at wanted.end entry.now.sent) wanted.item)
        (IsAmong (items_at wanted.end entry.now.sent) wanted.item → ⊥) }
{
    was_sent(&entry.sent, wanted)
}

// The first entry, from this place on, that sent the signal.
fn find_at_or_after(journal: &[Entry], start: usize, wanted: AtEnd) -> Option<usize>
    ensures some { IfSome result (λ index. IsAmong (sent_at wanted.end journal.now) wanted.item) }
    ensures none { IfNone result (IsAmong (sent_at wanted.end (drop start journal.now)) wanted.item → ⊥) }
{
    for index in start..journal.len() {
        if entry_sent(&journal[index], wanted) {
            return Some(index);
        }
    }
    None
}

// An entry that sent the signal, sought from this place on first: where signals are taken in the order in which they
// were sent, a journal is gone over once.
fn find_sent(journal: &[Entry], start: usize, wanted: AtEnd) -> Option<usize>
    ensures some { IfSome result (λ index. IsAmong (sent_at wanted.end journal.now) wanted.item) }
    ensures none { IfNone result (IsAmong (sent_at wanted.end journal.now) wanted.item → ⊥) }
{
    match find_at_or_after(journal, start, wanted) {
        Some(index) => Some(index),
        None => find_at_or_after(journal, 0, wanted),
    }
}

// Where the sender's journal is gone on with after an entry of the taker's: none where that took what wasn't sent.
fn next_place(sender: &[Entry], out: u32, place: usize, entry: &Entry, into: u32) -> Option<usize>
    ensures { MatchOption result (TookUnsent into (sent_at out sender.now) entry.now)
        (λ next. AreAllAmong (items_at into (taken_list entry.now.taken)) (sent_at out sender.now)) }
{
    match entry.taken {
        None => Some(place),
        Some(at) => {
            if at.end != into {
                return Some(place);
            }
            let wanted = AtEnd {
                end: out,
                item: at.item,
            };
            find_sent(sender, place, wanted)
        }
    }
}

// The first entry of the taker's journal that took what wasn't sent.
fn first_unsent(taker: &[Entry], into: u32, sender: &[Entry], out: u32) -> Option<usize>
    ensures { MatchOption result (AreAllAmong (taken_at into taker.now) (sent_at out sender.now))
        (λ index. IsFirstUnsent into taker.now (sent_at out sender.now) index) }
{
    let mut place = 0;
    for (index, entry) in taker.iter().enumerate() {
        match next_place(sender, out, place, entry, into) {
            Some(next) => place = next,
            None => return Some(index),
        }
    }
    None
}

/// The journal of a shard that is there.
pub fn journal_at(journals: &[Vec<Entry>], shard: usize) -> &[Entry]
    requires { shard < length journals.now }
    ensures { result.now ≡ journal_at (journals_of journals.now) shard }
{
    &journals[shard]
}

// Whether journals agree on one lane.
fn compare_ends(journals: &[Vec<Entry>], ends: &JoinedEnds) -> Result<(), WhyUnjoined>
    ensures ok { OnOk result (AgreeOn (journals_of journals.now) ends.now) }
    ensures why { IfErr result (λ why. IsUnjoined why (journals_of journals.now) ends.now) }
{
    let from = ends.from as usize;
    if from >= journals.len() {
        return Err(WhyUnjoined::NoShard);
    }
    let to = ends.to as usize;
    if to >= journals.len() {
        return Err(WhyUnjoined::NoShard);
    }
    let taker = journal_at(journals, to);
    let sender = journal_at(journals, from);
    match first_unsent(taker, ends.into, sender, ends.out) {
        None => Ok(()),
        Some(index) => Err(WhyUnjoined::NotSent(index)),
    }
}

/// Whether the journals agree on the lanes that these ends join: each signal that was taken at the far end was sent at
/// the near one, as it stands there. Else the fault names the first ends of which this isn't so, and the first entry
/// that took what wasn't sent; or it says that a shard isn't there. It takes time in proportion to the journals where
/// each took its signals in the order in which they were sent.
pub fn compare(journals: &[Vec<Entry>], joined: &[JoinedEnds]) -> Result<(), Unjoined>
    ensures ok { OnOk result (AllByRecursion (AgreeOn (journals_of journals.now)) joined.now) }
    ensures why { IfErr result (λ fault. IsFirstUnjoined (journals_of journals.now) joined.now fault) }
{
    for (place, ends) in joined.iter().enumerate() {
        if let Err(why) = compare_ends(journals, ends) {
            return Err(Unjoined { place, why });
        }
    }
    Ok(())
}
