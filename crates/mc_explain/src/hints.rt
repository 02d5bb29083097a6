// What else helps where a line breaks a rule.

ghost use Rattle.std.specs.Prelude.{◌≡◌, ◌++◌, ◌∷◌, [], OnOk, codes, flat_map, map};
ghost use Rattle.mc_explain.specs.Hints.{at_most, detail_hint, first_word, form_hint, form_of, hints, limit_says, said_of, wants_form, why_says, word_at, word_says};
ghost use Rattle.mc_explain.specs.Quotes.{told_line};

use crate::explanation::put_line;
use crate::quote::put_escaped;
use mc_lines::limit::{CHANNEL_LIMIT, COMMAND_LIMIT, LIST_LIMIT};
use mc_lines::{Detail, Limit, Why};
use mc_model::TUNNEL_LIMIT;
use mc_program_lines::limit::{STATE_LIMIT, TRANSITION_LIMIT};
use mc_script::rule::{
    EXTRA_WORD, MISSING_WORD, NO_SUCH_SLOT, UNDECLARED, WRONG_VERSION, WRONG_WORD,
};
use mc_text::limit::{BOX_LIMIT, CODEC_LIMIT, SLOT_LIMIT, TOLD_LIMIT};
use mc_text::{Words, next_word};
use std::alloc::{AllocError, Global};

// The forms of the lines that a word opens.
const FORMS: [(&str, &str); 22] = [
    ("media", "media 1, or media 2: the first line alone"),
    ("codec", "codec NAME"),
    ("dev", "dev NAME CODEC .., or dev NAME VERSION CODEC .."),
    ("feat", "feat NAME"),
    ("send", "send DEVICE CODEC .., in version 2 alone"),
    (
        "chan",
        "chan MEDIUM BOX SLOT BOX SLOT, with audio or video for MEDIUM",
    ),
    ("also", "also MEDIUM SLOT SLOT, after a chan line"),
    ("prog", "prog FEATURE STATE STATE .."),
    ("state", "state STATE, in the order of the prog line"),
    (
        "goal",
        "goal SLOT GOAL after a state line, with open, close or hold for GOAL",
    ),
    (
        "when",
        "when told WORD STATE, or when is SLOT IT STATE with closed, opening, opened, flowing or closing for IT, after a state line",
    ),
    ("begin", "begin, once"),
    (
        "journal",
        "journal, after the commands, under check and why alone",
    ),
    (
        "set",
        "set BOX SLOT GOAL after begin, with open, close or hold for GOAL",
    ),
    (
        "link",
        "link FEATURE SLOT SLOT after begin, or link SLOT SLOT after a state line",
    ),
    (
        "hear",
        "hear DEVICE SLOT on, or hear DEVICE SLOT off, after begin",
    ),
    (
        "talk",
        "talk DEVICE SLOT on, or talk DEVICE SLOT off, after begin",
    ),
    (
        "tell",
        "tell FEATURE WORD after begin, for a feature with a program",
    ),
    ("settle", "settle, after begin"),
    ("grow", "grow, after the commands, under grow alone"),
    (
        "join",
        "join MEDIUM BOX SLOT BOX SLOT after grow, with audio or video for MEDIUM",
    ),
    ("cut", "cut BOX SLOT, after grow"),
];

/// Appends what helps with a rule that a line breaks: the word at fault or the limit, and the form of such a line. Want
/// of memory may come in the middle, here and below.
pub fn put_hints(
    alloc: Global,
    number: u8,
    line: &[u8],
    detail: Detail,
    out: &mut Vec<u8>,
) -> Result<(), AllocError>
    ensures { OnOk result (out.new.items
        ≡ out.old.items ++ flat_map told_line (hints number line.now detail)) }
{
    put_detail(alloc, detail, line, out)?;
    put_form(alloc, number, line, out)
}

fn put_detail(
    alloc: Global,
    detail: Detail,
    line: &[u8],
    out: &mut Vec<u8>,
) -> Result<(), AllocError>
    ensures { OnOk result (out.new.items
        ≡ out.old.items ++ flat_map told_line (detail_hint detail line.now)) }
{
    match detail {
        Detail::Nothing => Ok(()),
        Detail::Word { place, why } => put_word(word_at(line, place), why, out),
        Detail::Limit(limit) => put_limit(alloc, limit, out),
    }
}

// Appends a word, and why it is at fault.
fn put_word(word: &[u8], why: Why, out: &mut Vec<u8>) -> Result<(), AllocError>
    ensures { OnOk result (out.new.items ≡ out.old.items ++ told_line (word_says word.now why)) }
{
    out.extend_from_slice(b"mediactl: at fault is ")?;
    put_escaped(word, out)?;
    out.extend_from_slice(b": ")?;
    out.extend_from_slice(why_says(why).as_bytes())?;
    out.push(b'\n')?;
    Ok(())
}

fn why_says(why: Why) -> &'static str
    ensures { result.now ≡ why_says why }
{
    match why {
        Why::Undeclared => "it isn't declared",
        Why::NoSlot => "the box has no slot of that name",
        Why::Opening => "no line may begin with it here",
        Why::Fixed => "another word must stand in its place",
        Why::Misspelt => {
            "a name begins with a small letter, and has small letters, digits, - and _ alone"
        }
        Why::NotNext => "another state of the prog line is next",
        Why::NoDevice => "this box is no device",
        Why::NoFeature => "this box is no feature",
        Why::NoProgram => "this box has no program",
    }
}

// Appends which limit was passed, and its value.
fn put_limit(alloc: Global, limit: Limit, out: &mut Vec<u8>) -> Result<(), AllocError>
    ensures { OnOk result (out.new.items
        ≡ out.old.items ++ told_line (codes "the limit: " ++ limit_says limit)) }
{
    match limit {
        Limit::Codecs => put_most(alloc, "a text", CODEC_LIMIT, "codecs", out),
        Limit::ListedCodecs => put_most(
            alloc,
            "a dev or send line",
            LIST_LIMIT as usize,
            "codecs",
            out,
        ),
        Limit::Boxes => put_most(alloc, "a text", BOX_LIMIT, "boxes", out),
        Limit::Channels => put_most(alloc, "a text", CHANNEL_LIMIT, "channels", out),
        Limit::Tunnels => put_most(alloc, "a channel", TUNNEL_LIMIT, "tunnels", out),
        Limit::Slots => put_most(alloc, "a box", SLOT_LIMIT, "slots", out),
        Limit::States => put_most(alloc, "a program", STATE_LIMIT as usize, "states", out),
        Limit::Transitions => put_most(alloc, "a state", TRANSITION_LIMIT, "transitions", out),
        Limit::ToldWords => put_most(alloc, "a text", TOLD_LIMIT, "told words", out),
        Limit::Commands => put_most(alloc, "a text", COMMAND_LIMIT, "commands", out),
    }
}

// Appends how many of some things another may have.
fn put_most(
    alloc: Global,
    whole: &str,
    most: usize,
    parts: &str,
    out: &mut Vec<u8>,
) -> Result<(), AllocError>
    ensures { OnOk result (out.new.items
        ≡ out.old.items ++ told_line (codes "the limit: " ++ at_most whole.now most parts.now)) }
{
    let sentence = format!(in alloc; "the limit: {whole} has at most {most} {parts}")?;
    put_line(&sentence, out)
}

// The word at a place of a line; none where the line has no such word.
fn word_at(line: &[u8], place: usize) -> &[u8]
    ensures { result.now ≡ word_at line.now place }
{
    let mut words = Words::new(line);
    for _ in 0..place {
        let _ = words.next_word();
    }
    words.next_word().unwrap_or(&[])
}

// Appends the form of such a line, where it helps with the rule.
fn put_form(alloc: Global, number: u8, line: &[u8], out: &mut Vec<u8>) -> Result<(), AllocError>
    ensures { OnOk result (out.new.items ≡ out.old.items ++ flat_map told_line (form_hint number line.now)) }
{
    if !wants_form(number) {
        return Ok(());
    }
    let form = form_of(first_word(line));
    let sentence = format!(in alloc; "such a line: {form}")?;
    put_line(&sentence, out)
}

fn wants_form(number: u8) -> bool
    ensures { result ≡ wants_form number }
{
    number == UNDECLARED
        || number == WRONG_WORD
        || number == MISSING_WORD
        || number == EXTRA_WORD
        || number == WRONG_VERSION
        || number == NO_SUCH_SLOT
}

// The first word of a line; none where it has no word.
fn first_word(line: &[u8]) -> &[u8]
    ensures { result.now ≡ first_word line.now }
{
    match next_word(line, 0) {
        Some((start, end)) => &line[start..end],
        None => &[],
    }
}

fn form_of(word: &[u8]) -> &'static str
    ensures { result.now ≡ form_of word.now }
{
    said_of(&FORMS, word)
}

// What is said of the lines that a word opens, among words with that.
fn said_of(entries: &[(&'static str, &'static str)], word: &[u8]) -> &'static str
    ensures { result.now ≡ said_of (map (λ entry. (entry.0.now, entry.1.now)) entries.now) word.now }
{
    for (keyword, said) in entries {
        if keyword.as_bytes() == word {
            return *said;
        }
    }
    "no line of a text begins with this word"
}
