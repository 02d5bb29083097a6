// Modes that read nothing: what they print, and which words are theirs.

use super::{answered, are_no_command, is_answered_unread, is_equal};
use std::alloc::AllocError;

// Words, and what is printed for them.
const PRINTED: [(&[&str], &str); 3] = [
    (
        &["scene", "pbx"],
        "settle 1\n\
        path alice/a bob/a open hold flowing audio\n\
        hears alice/a g711\n\
        hears bob/a g711\n\
        path carol/a pbx/c open hold flowing audio\n\
        hears carol/a none\n\
        hears pbx/c none\n\
        settle 2\n\
        path alice/a carol/a open open flowing audio\n\
        hears alice/a g711\n\
        hears carol/a g711\n\
        path bob/a pbx/b hold hold flowing audio\n\
        hears bob/a none\n\
        hears pbx/b none\n\
        settle 3\n\
        path alice/a bob/a open hold flowing audio\n\
        hears alice/a g711\n\
        hears bob/a g711\n\
        path carol/a pbx/c open hold flowing audio\n\
        hears carol/a none\n\
        hears pbx/c none\n\
        settle 4\n\
        path alice/a bob/a open close closed audio\n\
        path carol/a pbx/c open hold flowing audio\n\
        hears carol/a none\n\
        hears pbx/c none\n",
    ),
    (
        &["--", "scene", "prepaid"],
        "settle 1\n\
        path caller/a callee/a open hold flowing audio\n\
        hears caller/a g729\n\
        hears callee/a g729\n\
        path pc/v voice/a close hold closed audio\n\
        settle 2\n\
        path caller/a voice/a open hold flowing audio\n\
        hears caller/a g711\n\
        hears voice/a g711\n\
        path pc/c callee/a hold hold flowing audio\n\
        hears pc/c none\n\
        hears callee/a none\n\
        settle 3\n\
        path caller/a callee/a open hold flowing audio\n\
        hears caller/a g729\n\
        hears callee/a g729\n\
        path pc/v voice/a close hold closed audio\n",
    ),
    (
        &["gen", "1", "3"],
        "gen 1 3\n\
        boxes 10 channels 7\n\
        settle 1 flowing 1 closed 2 heard 2\n\
        settle 2 flowing 3 closed 0 heard 6\n\
        settle 3 flowing 0 closed 3 heard 0\n",
    ),
];

#[test]
fn scenes_and_chains_read_nothing(rt: HostRuntime) -> Result<(), AllocError> {
    for (words, printed) in &PRINTED {
        is_answered_unread(&rt, rt.alloc(), words, 0, printed)?;
    }
    Ok(())
}

#[test]
fn the_most_chains_are_drawn_twice_alike(rt: HostRuntime) -> Result<(), AllocError> {
    let first = answered(&rt, rt.alloc(), &["gen", "7", "50"], b"fly\n")?;
    let second = answered(&rt, rt.alloc(), &["gen", "7", "50"], b"fly\n")?;
    is_equal(&rt, &first.written.as_slice(), &second.written.as_slice());
    is_equal(&rt, &(first.done.status, first.reads), &(0, 0));
    is_equal(&rt, &(second.done.status, second.reads), &(0, 0));
    assert!(rt; first.written.starts_with(b"gen 7 50\nboxes "));
    Ok(())
}

const OTHER_WORDS: [&[&str]; 16] = [
    &["gen"],
    &["gen", "1"],
    &["gen", "1", "0"],
    &["gen", "1", "51"],
    &["gen", "1", "03"],
    &["gen", "2147483648", "3"],
    &["gen", "1", "3", "3"],
    &["gen", "one", "3"],
    &["gen", "--journal", "1", "3"],
    &["scene"],
    &["scene", "park"],
    &["scene", "Pbx"],
    &["scene", "pbx", "prepaid"],
    &["--journal", "scene", "pbx"],
    &["pbx"],
    &["run", "--journal", "--fast"],
];

#[test]
fn other_words_are_no_scene(rt: HostRuntime) -> Result<(), AllocError> {
    are_no_command(&rt, rt.alloc(), &OTHER_WORDS)
}
