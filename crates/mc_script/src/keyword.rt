//! The words that open a command.

ghost use Rattle.std.specs.Prelude.{◌≡◌};
ghost use Rattle.mc_script.specs.Rules.{command_word};

/// The first word of a command, which tells its kind.
#[derive(Clone, Copy, PartialEq, Eq, Debug)]
pub enum CommandWord {
    Set,
    Link,
    Hear,
    Talk,
    Tell,
    Settle,
}

/// The kind of command that a word opens. None where it opens none.
pub fn command_word(word: &[u8]) -> Option<CommandWord>
    ensures { result ≡ command_word word.now }
{
    if word == b"set".as_slice() {
        Some(CommandWord::Set)
    } else if word == b"link".as_slice() {
        Some(CommandWord::Link)
    } else if word == b"hear".as_slice() {
        Some(CommandWord::Hear)
    } else if word == b"talk".as_slice() {
        Some(CommandWord::Talk)
    } else if word == b"tell".as_slice() {
        Some(CommandWord::Tell)
    } else if word == b"settle".as_slice() {
        Some(CommandWord::Settle)
    } else {
        None
    }
}
