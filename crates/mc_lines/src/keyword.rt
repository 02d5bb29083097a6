//! The words that open lines.

ghost use Rattle.std.specs.Prelude.{◌≡◌};
ghost use Rattle.mc_lines.specs.Rules.{keyword_of, keyword_of_program, keyword_of_script};

use crate::section::Keyword;
use mc_script::keyword::command_word;

/// The kind of line that a word opens. None where it opens none. Where `send`, `journal` and `grow` open one is for the
/// rules of their lines to say.
pub fn keyword_of(word: &[u8]) -> Option<Keyword>
    ensures { result ≡ keyword_of word.now }
{
    if word == b"media".as_slice() {
        Some(Keyword::Media)
    } else if word == b"codec".as_slice() {
        Some(Keyword::Codec)
    } else if word == b"dev".as_slice() {
        Some(Keyword::Dev)
    } else if word == b"feat".as_slice() {
        Some(Keyword::Feat)
    } else if word == b"send".as_slice() {
        Some(Keyword::Send)
    } else if word == b"chan".as_slice() {
        Some(Keyword::Chan)
    } else if word == b"also".as_slice() {
        Some(Keyword::Also)
    } else {
        keyword_of_program(word)
    }
}

// The kind of line that a word opens after the channels.
fn keyword_of_program(word: &[u8]) -> Option<Keyword>
    ensures { result ≡ keyword_of_program word.now }
{
    if word == b"prog".as_slice() {
        Some(Keyword::Prog)
    } else if word == b"state".as_slice() {
        Some(Keyword::State)
    } else if word == b"goal".as_slice() {
        Some(Keyword::Goal)
    } else if word == b"when".as_slice() {
        Some(Keyword::When)
    } else if word == b"begin".as_slice() {
        Some(Keyword::Begin)
    } else {
        keyword_of_script(word)
    }
}

// The kind of line that a word opens after `begin`.
fn keyword_of_script(word: &[u8]) -> Option<Keyword>
    ensures { result ≡ keyword_of_script word.now }
{
    if word == b"journal".as_slice() {
        Some(Keyword::Journal)
    } else if word == b"grow".as_slice() {
        Some(Keyword::Grow)
    } else {
        command_word(word).map(Keyword::Command)
    }
}
