// The plain words of the command line, and its flag.

ghost use Rattle.std.specs.Prelude.{IfNone, IfOk, IfSome, map, option_map, string_bytes};
ghost use Rattle.mc_words.specs.Arguments.{AreArguments, AreFew};

use crate::parser::parse_words;
use std::alloc::{AllocError, Global};

/// The plain words of the command line, each None where it has no such word, and whether the journal is asked for.
#[derive(Drop)]
pub struct Arguments<'a> {
    pub first: Option<&'a str>,
    pub second: Option<&'a str>,
    pub third: Option<&'a str>,
    pub journal: bool,
}

/// The plain words, three at most, and whether the flag `--journal` stands among them: anywhere in front of a first
/// `--`, and maybe more than once. That says nothing but that the words after it are plain. None where there are more
/// plain words, or another flag; an error where memory is wanting.
pub fn read_arguments<'a>(
    alloc: Global,
    words: &'a [String],
) -> Result<Option<Arguments<'a>>, AllocError>
    ensures some { IfOk result (λ read. IfSome read (λ arguments. AreArguments (map string_bytes words.now)
        (option_map (λ s. s.now) arguments.first)
        (option_map (λ s. s.now) arguments.second)
        (option_map (λ s. s.now) arguments.third)
        arguments.journal)) }
    ensures none { IfOk result (λ read. IfNone read (¬ AreFew (map string_bytes words.now))) }
{
    let Some(matches) = parse_words(alloc, words)? else {
        return Ok(None);
    };
    Ok(Some(Arguments {
        first: matches.get_str("first"),
        second: matches.get_str("second"),
        third: matches.get_str("third"),
        journal: matches.get_count("journal") > 0,
    }))
}
