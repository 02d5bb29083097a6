//! The words of a `dev` line after the name: a version, where the first begins with a digit, and codecs.

ghost use Rattle.std.specs.Prelude.{◌≡◌, ◌≤◌, ◌++◌, [], ◌∷◌, IsTrue, false, length, map, nat_lt};
ghost use Rattle.std.specs.List.{list_any};
ghost use Rattle.std.specs.Str.{bytes_eq};
ghost use Rattle.mc_signal.specs.Choice.{codecs_of};
ghost use Rattle.mc_lines.specs.Listing.{can_add};
ghost use Rattle.mc_lines.specs.Meaning.{codec_number, version_of};
ghost use Rattle.mc_program_lines.specs.WordLists.{has_repeat};
ghost use Rattle.mc_lines.specs.Rules.{codec_words, has_bad_version, lists_undeclared};

use crate::limit::LIST_LIMIT;
use crate::places::begins_digit;
use mc_program_lines::word_list::are_more_than;
use mc_signal::CodecList;
use mc_text::{Names, Words, read_number};

/// Whether the first word is a version, and isn't a number from 1 on.
pub fn has_bad_version<'a>(mut words: Words<'a>) -> bool
    ensures { result ≡ has_bad_version words.entry }
{
    match words.next_word() {
        Some(first) => begins_digit(first) && !(0 < read_number(first).unwrap_or(0)),
        None => false,
    }
}

/// The version that the first word gives, and else 1.
pub fn version_of<'a>(mut words: Words<'a>) -> u32
    ensures { result ≡ version_of words.entry }
{
    match words.next_word() {
        Some(first) if begins_digit(first) => read_number(first).unwrap_or(1),
        _ => 1,
    }
}

/// The words less a version.
pub fn codec_words<'a>(mut words: Words<'a>) -> Words<'a>
    ensures { result ≡ codec_words words.entry }
{
    let all = words.again();
    match words.next_word() {
        Some(first) if begins_digit(first) => words,
        _ => all,
    }
}

/// Whether some word is no codec's name.
pub fn lists_undeclared<'a>(names: &Names, mut words: Words<'a>) -> bool
    ensures { result ≡ lists_undeclared names.now words.entry }
{
    words.any(|word| names.find_codec(word).is_none())
}

/// Whether there are more words than a list may have codecs.
pub fn is_overfull<'a>(words: Words<'a>) -> bool
    ensures { result ≡ nat_lt LIST_LIMIT (length words.entry) }
{
    are_more_than(LIST_LIMIT, words)
}

/// The codecs that at most eight words name, each a different one.
pub fn listed<'a>(names: &Names, mut words: Words<'a>) -> CodecList
    requires declared { lists_undeclared names.now words ≡ false }
    requires different { has_repeat words ≡ false }
    requires few { length words ≤ LIST_LIMIT }
    ensures { codecs_of result ≡ map (codec_number names.now) words.entry }
{
    let mut list = CodecList::none();
    while let Some(word) = words.next_word() {
        add_word(names, &mut list, word);
    }
    list
}

// Adds the codec that a word names. It adds none where the word names none, or one that is listed, and to a full list.
#[tactic(auto, using(crate::proofs::CodecLists::has_codec_contains))]
fn add_word(names: &Names, list: &mut CodecList, word: &[u8]) -> bool
    ensures could { result ≡ can_add names.now (codecs_of list.old) word.now }
    ensures added { IsTrue result
        → codecs_of list.new ≡ codecs_of list.old ++ codec_number names.now word.now ∷ [] }
{
    // there are at most 64 codecs
    let _ = names.codec_count();
    match names.find_codec(word) {
        None => false,
        Some(codec) => !list.has(codec) && list.len < LIST_LIMIT && list.add(codec).is_ok(),
    }
}
