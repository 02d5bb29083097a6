// What the words of the command line ask for.

ghost use Rattle.std.specs.Prelude.{◌≡◌, ◌≢◌, ◌<◌, [], IfNone, IfOk, IfSome, None, Some, false, length, map, option_map, position};
ghost use Rattle.std.specs.Option.{unwrap_or};
ghost use Rattle.clap.specs.Words.{all_of, app_of, found_of, kind_of, rows_of, rule_of};
ghost use Rattle.mc_ladder_top.specs.Requests.{asked};
ghost use Rattle.mc_ladder_top.specs.Words.{AreTaken, AskFor, flag, is_dash, ladder_command, picture_of, request_by, settles_of, span_around, span_between, span_of, valued};

use crate::picture::Picture;
use clap::error::ErrorKind;
use clap::{Arg, ArgAction, ArgMatches, Command, Error};
use mc_ladder::Style;
use mc_ladder_choice::Span;
use mc_text::read_number;
use std::alloc::{AllocError, Global};

/// What is asked for: the form of the ladder, the settles that are drawn, where not all, the names of the boxes, where
/// not all, and whether a faulty journal is drawn up to its first fault.
#[derive(Drop)]
pub struct LadderRequest<'a> {
    pub picture: Picture,
    pub settles: Option<Span>,
    pub boxes: Vec<&'a str>,
    pub up_to_fault: bool,
}

/// What the words ask for: a ladder as text in ASCII where the flag `--ascii` stands among them, once or more often, as
/// SVG where the flag `--svg` does, as a page where the flag `--html` does, and else as text in UTF-8; after
/// `--settles A-B` of the settles from A to B alone, which are counted from 1; after `--box NAME`, once or more often, of
/// what concerns these boxes alone; where `--up-to-fault` stands there, also of a faulty journal, up to its first fault.
/// None where two of the first three flags stand there, or another word; an error where memory is wanting.
pub fn read_request<'a>(
    alloc: Global,
    words: &'a [String],
) -> Result<Option<LadderRequest<'a>>, AllocError>
    ensures some { IfOk result (λ read. IfSome read (λ request. AskFor words.now (asked request))) }
    ensures none { IfOk result (λ read. IfNone read (¬ AreTaken words.now)) }
{
    match ladder_command(alloc)?.try_get_matches_from(words) {
        Ok(matches) => {
            let ascii = matches.get_count("ascii");
            let svg = matches.get_count("svg");
            let html = matches.get_count("html");
            let settles = settles_of(&values_of(alloc, &matches, "settles")?);
            let boxes = values_of(alloc, &matches, "box")?;
            let up_to_fault = matches.get_count("up-to-fault") > 0;
            let picture = picture_of(ascii > 0, svg > 0, html > 0);
            Ok(request_by(picture, settles, boxes, up_to_fault))
        }
        Err(error) => none_unless_memory(&error),
    }
}

// A flag that is counted.
fn flag<'a>(alloc: Global, name: &'a str) -> Arg<'a>
    ensures rule { rule_of result ≡ flag name.entry.now }
    ensures local { result.global ≡ false }
{
    Arg::new(alloc, name).long(name).action(ArgAction::Count)
}

// An option, each use of which has a value.
fn valued<'a>(alloc: Global, name: &'a str) -> Arg<'a>
    ensures rule { rule_of result ≡ valued name.entry.now }
    ensures local { result.global ≡ false }
{
    Arg::new(alloc, name).long(name).action(ArgAction::Append)
}

// The command line: four counted flags and two options.
fn ladder_command<'a>(alloc: Global) -> Result<Command<'a>, AllocError>
    ensures { IfOk result (λ command. app_of command ≡ ladder_command) }
{
    let ascii = flag(alloc, "ascii");
    let svg = flag(alloc, "svg");
    let html = flag(alloc, "html");
    let up_to_fault = flag(alloc, "up-to-fault");
    let settles = valued(alloc, "settles");
    let boxes = valued(alloc, "box");
    Command::new(alloc, "medialadder")
        .no_binary_name(true)
        .disable_help_flag(true)
        .arg(ascii)?
        .arg(svg)?
        .arg(html)?
        .arg(up_to_fault)?
        .arg(settles)?
        .arg(boxes)
}

// The values of an option, of all its uses.
fn values_of<'a>(
    alloc: Global,
    matches: &ArgMatches<'a>,
    name: &str,
) -> Result<Vec<&'a str>, AllocError>
    ensures { IfOk result (λ values. map (λ value. value.now) values.items
        ≡ unwrap_or (all_of name.now (rows_of (found_of matches.now))) []) }
{
    match matches.get_strs(name) {
        Some(values) => Vec::from_slice(alloc, values),
        None => Ok(Vec::new(alloc)),
    }
}

// The form for which these flags ask, of which one may be there.
fn picture_of(ascii: bool, svg: bool, html: bool) -> Option<Picture>
    ensures { result ≡ picture_of ascii svg html }
{
    match (ascii, svg, html) {
        (false, false, false) => Some(Picture::Text(Style::Utf8)),
        (true, false, false) => Some(Picture::Text(Style::Ascii)),
        (false, true, false) => Some(Picture::Svg),
        (false, false, true) => Some(Picture::Page),
        _ => None,
    }
}

// The settles that these words name; all where there is no word.
fn settles_of(words: &[&str]) -> Option<Option<Span>>
    ensures { result ≡ settles_of (map (λ word. word.now) words.now) }
{
    match words {
        [] => Some(None),
        [word] => Some(Some(span_of(word.as_bytes())?)),
        _ => None,
    }
}

// The settles from one number to another, with a dash between them.
fn span_of(word: &[u8]) -> Option<Span>
    ensures { result ≡ span_of word.now }
{
    match dash_in(word) {
        Some(dash) => span_around(word, dash),
        None => None,
    }
}

// The place of the first dash.
fn dash_in(word: &[u8]) -> Option<usize>
    ensures { result ≡ position is_dash word.now }
{
    word.iter().position(|byte| *byte == b'-')
}

// The same around a dash.
fn span_around(word: &[u8], dash: usize) -> Option<Span>
    requires { dash < length word.now }
    ensures { result ≡ span_around word.now (Some dash) }
{
    span_between(read_number(&word[..dash]), read_number(&word[dash + 1..]))
}

fn span_between(first: Option<u32>, last: Option<u32>) -> Option<Span>
    ensures { result ≡ span_between first last }
{
    match (first, last) {
        (Some(first), Some(last)) if 1 <= first && first <= last => Some(Span { first, last }),
        _ => None,
    }
}

// What is asked for, if for anything.
fn request_by<'a>(
    picture: Option<Picture>,
    settles: Option<Option<Span>>,
    boxes: Vec<&'a str>,
    up_to_fault: bool,
) -> Option<LadderRequest<'a>>
    ensures { option_map (λ request. asked request) result
        ≡ request_by picture settles (map (λ name. name.now) boxes.entry.items) up_to_fault }
{
    let picture = picture?;
    let settles = settles?;
    Some(LadderRequest {
        picture,
        settles,
        boxes,
        up_to_fault,
    })
}

// What stands for an error of the parser: want of memory is one, and a refusal of the words is none.
fn none_unless_memory<'a>(error: &Error) -> Result<Option<LadderRequest<'a>>, AllocError>
    ensures { IfOk result (λ read. (read ≡ None) × (kind_of error.now ≢ ErrorKind.OutOfMemory)) }
{
    if matches!(error.kind(), ErrorKind::OutOfMemory) {
        Err(AllocError)
    } else {
        Ok(None)
    }
}
