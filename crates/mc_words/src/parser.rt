// The words as the parser of command lines takes them.

ghost use Rattle.std.specs.Prelude.{◌≡◌, ◌≢◌, IfNone, IfOk, IfSome, None, map, string_bytes};
ghost use Rattle.clap.specs.Words.{app_of, found_of, kind_of, rows_of};
ghost use Rattle.mc_words.specs.Arguments.{AreFew, HasNoOtherFlag, has_journal_flag, plain_words};
ghost use Rattle.mc_words.specs.Parser.{HasWords, words_command};

use clap::error::ErrorKind;
use clap::{Arg, ArgAction, ArgMatches, Command, Error};
use std::alloc::{AllocError, Global};

// A counted flag and three plain words.
fn words_command<'a>(alloc: Global) -> Result<Command<'a>, AllocError>
    ensures { IfOk result (λ command. app_of command ≡ words_command) }
{
    let journal = Arg::new(alloc, "journal")
        .long("journal")
        .action(ArgAction::Count);
    Command::new(alloc, "mediactl")
        .no_binary_name(true)
        .disable_help_flag(true)
        .arg(journal)?
        .arg(Arg::new(alloc, "first"))?
        .arg(Arg::new(alloc, "second"))?
        .arg(Arg::new(alloc, "third"))
}

// The matches of the words. None where they aren't taken.
pub fn parse_words<'a>(
    alloc: Global,
    words: &'a [String],
) -> Result<Option<ArgMatches<'a>>, AllocError>
    ensures some { IfOk result (λ parsed. IfSome parsed (λ matches.
        HasWords (plain_words (map string_bytes words.now)) (has_journal_flag (map string_bytes words.now))
        (rows_of (found_of matches))
        × HasNoOtherFlag (map string_bytes words.now))) }
    ensures none { IfOk result (λ parsed. IfNone parsed (¬ AreFew (map string_bytes words.now))) }
{
    match words_command(alloc)?.try_get_matches_from(words) {
        Ok(matches) => Ok(Some(matches)),
        Err(error) => none_unless_memory(&error),
    }
}

// What stands for an error of the parser: want of memory is one, and a refusal of the words is none.
fn none_unless_memory<'a>(error: &Error) -> Result<Option<ArgMatches<'a>>, AllocError>
    ensures { IfOk result (λ parsed. (parsed ≡ None) × (kind_of error.now ≢ ErrorKind.OutOfMemory)) }
{
    if matches!(error.kind(), ErrorKind::OutOfMemory) {
        Err(AllocError)
    } else {
        Ok(None)
    }
}
