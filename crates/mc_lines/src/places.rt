//! The places of a line that declares: what the word in a place must be. A word that is missing isn't asked anything.

ghost use Rattle.std.specs.Prelude.{◌≡◌};
ghost use Rattle.std.specs.Option.{option_copied};
ghost use Rattle.mc_script.specs.Places.{fixed_word};
ghost use Rattle.mc_lines.specs.LineReadings.{overlong};
ghost use Rattle.mc_lines.specs.Rules.{begins_digit, is_second, is_version, spelt_medium};

use mc_program_lines::ReadFault;
use mc_script::LineFault;
use mc_script::rule::{GIVEN_TWICE, LIMIT_PASSED, NAME_TOO_LONG, WRONG_WORD};
use mc_signal::Medium;
use mc_text::Words;

/// The medium that a word spells. Fault 5 where it spells none.
pub fn fixed_medium(word: Option<&[u8]>) -> Result<Option<Medium>, LineFault>
    ensures { result ≡ fixed_word spelt_medium (option_copied word.entry) }
{
    let Some(word) = word else { return Ok(None) };
    match spelt_medium(word) {
        Some(medium) => Ok(Some(medium)),
        None => Err(LineFault { number: WRONG_WORD }),
    }
}

fn spelt_medium(word: &[u8]) -> Option<Medium>
    ensures { result ≡ spelt_medium word.now }
{
    if word == b"audio".as_slice() {
        Some(Medium::Audio)
    } else if word == b"video".as_slice() {
        Some(Medium::Video)
    } else {
        None
    }
}

/// Whether a word begins with a digit.
pub fn begins_digit(word: &[u8]) -> bool
    ensures { result ≡ begins_digit word.now }
{
    match word {
        [] => false,
        [first, ..] => b'0' <= *first && *first <= b'9',
    }
}

/// Whether the words of a line are `media` and `1`, or `media` and `2`.
pub fn is_version<'a>(mut words: Words<'a>) -> bool
    ensures { result ≡ is_version words.entry }
{
    let (Some(first), Some(second), None) = (
        words.next_word(),
        words.next_word(),
        words.next_word(),
    ) else {
        return false;
    };
    first == b"media".as_slice() && (second == b"1".as_slice() || second == b"2".as_slice())
}

/// Whether the number of a version line is 2.
pub fn is_second<'a>(mut words: Words<'a>) -> bool
    ensures { result ≡ is_second words.entry }
{
    words.next_word();
    match words.next_word() {
        Some(second) => second == b"2".as_slice(),
        None => false,
    }
}

/// The fault of a name that is too long to be added to a list: what is asked of a name before its length comes first.
pub fn overlong(used: bool, full: bool) -> ReadFault
    ensures { result ≡ ReadFault.Line (record { number = overlong used full }) }
{
    let number = if used {
        GIVEN_TWICE
    } else if full {
        LIMIT_PASSED
    } else {
        NAME_TOO_LONG
    };
    ReadFault::Line(LineFault { number })
}
