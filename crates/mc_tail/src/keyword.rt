// The words that open lines after `grow`.

ghost use Rattle.std.specs.Prelude.{◌≡◌};
ghost use Rattle.mc_tail.specs.Rules.{tail_keyword, tail_kind};

use mc_lines::{Keyword, keyword_of};
use mc_script::keyword::CommandWord;

/// The word that opens a line after `grow`.
#[derive(Clone, Copy, PartialEq, Eq, Debug)]
pub enum TailKeyword {
    Join,
    Cut,
    Command(CommandWord),
    /// A word that opens lines before `grow` alone.
    Earlier(Keyword),
}

/// The kind of line that a word opens. None where it opens none.
pub fn tail_keyword(word: &[u8]) -> Option<TailKeyword>
    ensures { result ≡ tail_keyword word.now }
{
    if word == b"join".as_slice() {
        Some(TailKeyword::Join)
    } else if word == b"cut".as_slice() {
        Some(TailKeyword::Cut)
    } else {
        keyword_of(word).map(tail_kind)
    }
}

// The kind of a line that its word opens before `grow`, too.
fn tail_kind(kind: Keyword) -> TailKeyword
    ensures { result ≡ tail_kind kind }
{
    match kind {
        Keyword::Command(kind) => TailKeyword::Command(kind),
        other => TailKeyword::Earlier(other),
    }
}
