//! What may stand after the commands of a text.

ghost use Rattle.std.specs.Prelude.{◌≡◌};
ghost use Rattle.mc_lines.specs.Rules.{ends_commands, has_growth, has_journal, is_grow, is_journal, text_limit};

use crate::limit::{JOURNAL_TEXT_LIMIT, TEXT_LIMIT};
use mc_text::Words;

/// What may stand after the commands of a text.
#[derive(Clone, Copy, PartialEq, Eq, Debug)]
pub enum Tail {
    /// Nothing.
    Nothing,
    /// A journal, after a line whose only word is `journal`.
    Journal,
    /// Lines by which the network grows and shrinks, and commands, after a line whose only word is `grow`.
    Grow,
}

impl Tail {
    /// The most bytes of a text, with what stands after its commands.
    pub fn text_limit(self) -> usize
        ensures { result ≡ text_limit self }
    {
        match self {
            Tail::Nothing => TEXT_LIMIT,
            Tail::Journal => JOURNAL_TEXT_LIMIT,
            Tail::Grow => TEXT_LIMIT,
        }
    }

    /// Whether a journal may stand after the commands.
    pub fn has_journal(self) -> bool
        ensures { result ≡ has_journal self }
    {
        match self {
            Tail::Nothing => false,
            Tail::Journal => true,
            Tail::Grow => false,
        }
    }

    /// Whether lines by which the network grows may.
    pub fn has_growth(self) -> bool
        ensures { result ≡ has_growth self }
    {
        match self {
            Tail::Grow => true,
            Tail::Nothing | Tail::Journal => false,
        }
    }
}

/// Whether a line ends the commands of a text: its only word is `journal` or `grow`, and what that word announces may
/// stand after it.
pub fn ends_commands(tail: Tail, line: &[u8]) -> bool
    ensures { result ≡ ends_commands tail line.now }
{
    match tail {
        Tail::Nothing => false,
        Tail::Journal => is_journal(Words::new(line)),
        Tail::Grow => is_grow(Words::new(line)),
    }
}

fn is_journal<'a>(mut words: Words<'a>) -> bool
    ensures { result ≡ is_journal words.entry }
{
    match (words.next_word(), words.next_word()) {
        (Some(first), None) => first == b"journal".as_slice(),
        _ => false,
    }
}

fn is_grow<'a>(mut words: Words<'a>) -> bool
    ensures { result ≡ is_grow words.entry }
{
    match (words.next_word(), words.next_word()) {
        (Some(first), None) => first == b"grow".as_slice(),
        _ => false,
    }
}
