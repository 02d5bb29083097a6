//! Tests on the words that are left of a line, however many.

ghost use Rattle.std.specs.Prelude.{◌≡◌, nat_lt, length, not};
ghost use Rattle.std.specs.List.{list_any};
ghost use Rattle.std.specs.Str.{bytes_eq};
ghost use Rattle.mc_text.specs.Spelling.{is_spelt};
ghost use Rattle.mc_script.specs.Places.{is_overlong};
ghost use Rattle.mc_program_lines.specs.WordLists.{has_repeat};

use mc_text::limit::NAME_LIMIT;
use mc_text::{Words, is_spelt};

/// Whether some word stands there twice.
pub fn has_repeat<'a>(mut words: Words<'a>) -> bool
    ensures { result ≡ has_repeat words.entry }
{
    while let Some(word) = words.next_word() {
        if has_word(words.again(), word) {
            return true;
        }
    }
    false
}

/// Whether some word isn't spelt as a name, whatever its length.
pub fn has_misspelt<'a>(mut words: Words<'a>) -> bool
    ensures { result ≡ list_any (λ word. not (is_spelt word)) words.entry }
{
    words.any(|word| !is_spelt(word))
}

/// Whether some word is spelt as a name but for its more than 16 bytes.
pub fn has_overlong<'a>(mut words: Words<'a>) -> bool
    ensures { result ≡ list_any (λ word. is_overlong (Some word)) words.entry }
{
    words.any(|word| is_spelt(word) && NAME_LIMIT < word.len())
}

/// Whether there are more words than `limit`.
pub fn are_more_than<'a>(limit: u8, mut words: Words<'a>) -> bool
    ensures { result ≡ nat_lt limit (length words.entry) }
{
    for _passed in 0..limit {
        words.next_word();
    }
    words.next_word().is_some()
}

// Whether a word is among these.
fn has_word<'a>(mut words: Words<'a>, wanted: &[u8]) -> bool
    ensures { result ≡ list_any (bytes_eq wanted.now) words.entry }
{
    words.any(|word| wanted == word)
}
