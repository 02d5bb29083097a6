// How a call ended, in words.
ghost use Rattle.std.specs.Prelude.{◌≡◌, ◌≢◌, ◌++◌, ◌-◌, ◌∷◌, [], IfOk, OnOk, flat_map, map};
ghost use Rattle.mc_explain.specs.Explained.{commands, explained, features_told, is_of_turns, journal_fault, line_fault, line_shown, no_box, sentences, shown, stop, text_fault, text_shown, turn_fault};
ghost use Rattle.mc_explain.specs.Quotes.{told_line};
ghost use Rattle.mc_explain.specs.declared.reason.Reason.TheVariants.{Worked};

use crate::hints::put_hints;
use crate::quote::put_quote;
use crate::reason::Reason;
use crate::sentences::{journal_rule, text_rule};
use mc_lines::Detail;
use mc_replay::rule::{NOT_ENABLED, NOT_NEXT};
use std::alloc::{AllocError, Global};

// How the program is called.
const COMMANDS: [&str; 11] = [
    "  mediactl run [--journal]      settles the text on standard input, and prints its paths",
    "  mediactl one N [--journal]    the same, in an order that the number N draws",
    "  mediactl check                checks the journal that stands after the text on standard input",
    "  mediactl why                  the same, and tells of each closed path which turn closed it",
    "  mediactl gen N SIZE           draws SIZE chains of features by the number N, and prints a summary",
    "  mediactl scene pbx            prints the paths of one phone that speaks with two others in turn",
    "  mediactl scene prepaid        prints the paths of a prepaid call that a voice interrupts",
    "  mediactl conf BOX             runs the text, and prints whom a mixer at the feature BOX would let each party hear",
    "  mediactl grow                 runs the text, in which channels join and are cut after a line grow",
    "N is a number from 0 to 2147483647, and SIZE one from 1 to 50.",
    "With --journal each turn is printed after the paths. The manual page mediactl(1) says more.",
];

/// What a person is told of how a call ended: nothing where all was done, and else lines that each begin with
/// `mediactl: `.
pub fn explain(alloc: Global, reason: &Reason) -> Result<Vec<u8>, AllocError>
    ensures explained { IfOk result (λ words. words.items ≡ explained reason.now) }
    ensures nothing { reason.now ≡ Worked → IfOk result (λ words. words.items ≡ []) }
    ensures something { reason.now ≢ Worked → IfOk result (λ words. words.items ≢ []) }
{
    let mut told = Vec::new(alloc);
    put_sentences(alloc, reason, &mut told)?;
    put_shown(alloc, reason, &mut told)?;
    Ok(told)
}

// Appends the line that is shown for a reason, and what helps with its rule. Want of memory may come in the middle,
// here and below.
fn put_shown(alloc: Global, reason: &Reason, out: &mut Vec<u8>) -> Result<(), AllocError>
    ensures { OnOk result (out.new.items ≡ out.old.items ++ shown reason.now) }
{
    match reason {
        Reason::FaultyText {
            number,
            text,
            detail,
            ..
        } => put_text_shown(alloc, *number, text, *detail, out),
        Reason::FaultyJournal { text, .. } => put_line_shown(text, out),
        _ => Ok(()),
    }
}

fn put_line_shown(text: &[u8], out: &mut Vec<u8>) -> Result<(), AllocError>
    ensures { OnOk result (out.new.items ≡ out.old.items ++ line_shown text.now) }
{
    if text.is_empty() {
        return Ok(());
    }
    put_quote(text, out)
}

fn put_text_shown(
    alloc: Global,
    number: u8,
    text: &[u8],
    detail: Detail,
    out: &mut Vec<u8>,
) -> Result<(), AllocError>
    ensures { OnOk result (out.new.items ≡ out.old.items ++ text_shown number text.now detail) }
{
    if text.is_empty() {
        return Ok(());
    }
    put_quote(text, out)?;
    put_hints(alloc, number, text, detail, out)
}

// Appends the sentences for a reason.
fn put_sentences(alloc: Global, reason: &Reason, out: &mut Vec<u8>) -> Result<(), AllocError>
    ensures { OnOk result (out.new.items ≡ out.old.items ++ flat_map told_line (sentences reason.now)) }
{
    match reason {
        Reason::Worked => Ok(()),
        Reason::Help => put_commands("the commands are:", out),
        Reason::Usage => put_commands(
            "the words after the program's name are no command; the commands are:",
            out,
        ),
        Reason::FaultyText { number, line, .. } => put_text_fault(alloc, *number, *line, out),
        Reason::VersionEnd { place, settle } => put_stop(
            alloc,
            *settle,
            place,
            "a hear command of this slot would need a version past the last one, 4294967295. Look at the first version of its device.",
            out,
        ),
        Reason::Ring { place, settle } => put_stop(
            alloc,
            *settle,
            place,
            "this slot is on a ring of links, so a path has no ends. Look at the links that lead on from it.",
            out,
        ),
        Reason::Restless { place, settle } => put_stop(
            alloc,
            *settle,
            place,
            "the program of this box made 256 steps in this settle, which is the most, and could make one more. Look at its when lines: they may lead round in a circle.",
            out,
        ),
        Reason::ChannelInUse { place, settle } => put_stop(
            alloc,
            *settle,
            place,
            "a slot that is to be cut off must be closed, with goal close. Set both ends of its channel to close, and settle before the cut.",
            out,
        ),
        Reason::FaultyJournal {
            number,
            turn,
            line,
            ..
        } => put_journal_fault(alloc, *number, *turn, *line, out),
        Reason::NoBox { place, features } => put_no_box(place, features, out),
        Reason::NoMemory => put_line("there wasn't enough memory. Nothing was printed.", out),
        Reason::ReadFault => {
            put_line("standard input couldn't be read. Nothing was printed.", out)
        }
        Reason::WriteFault => put_line(
            "standard output couldn't be written. What was printed is only a part.",
            out,
        ),
    }
}

// Appends a line, and then how the program is called.
fn put_commands(head: &str, out: &mut Vec<u8>) -> Result<(), AllocError>
    ensures { OnOk result (out.new.items ≡ out.old.items ++ flat_map told_line (head.now ∷ commands)) }
{
    put_line(head, out)?;
    put_lines(&COMMANDS, out)
}

fn put_lines(lines: &[&'static str], out: &mut Vec<u8>) -> Result<(), AllocError>
    ensures { OnOk result (out.new.items
        ≡ out.old.items ++ flat_map told_line (map (λ line. line.now) lines.now)) }
{
    for line in lines {
        put_line(line, out)?;
    }
    Ok(())
}

/// Appends a line that begins with the program's name.
pub fn put_line(line: &str, out: &mut Vec<u8>) -> Result<(), AllocError>
    ensures { OnOk result (out.new.items ≡ out.old.items ++ told_line line.now) }
{
    out.extend_from_slice(b"mediactl: ")?;
    out.extend_from_slice(line.as_bytes())?;
    out.push(b'\n')?;
    Ok(())
}

fn put_text_fault(alloc: Global, number: u8, line: u32, out: &mut Vec<u8>) -> Result<(), AllocError>
    ensures { OnOk result (out.new.items ≡ out.old.items ++ told_line (text_fault number line)) }
{
    let rule = text_rule(number);
    let sentence = format!(in alloc; "line {line} of the text breaks rule {number}: {rule}.")?;
    put_line(&sentence, out)
}

// Of a rule that turns break, the turn is told, and else how many turns stand before.
fn put_journal_fault(
    alloc: Global,
    number: u8,
    turn: u32,
    line: u32,
    out: &mut Vec<u8>,
) -> Result<(), AllocError>
    ensures { OnOk result (out.new.items ≡ out.old.items ++ told_line (journal_fault number turn line)) }
{
    if is_of_turns(number) {
        put_turn_fault(alloc, number, turn, line, out)
    } else {
        put_line_fault(alloc, number, turn.saturating_sub(1), line, out)
    }
}

fn is_of_turns(number: u8) -> bool
    ensures { result ≡ is_of_turns number }
{
    number == NOT_ENABLED || number == NOT_NEXT
}

fn put_turn_fault(
    alloc: Global,
    number: u8,
    turn: u32,
    line: u32,
    out: &mut Vec<u8>,
) -> Result<(), AllocError>
    ensures { OnOk result (out.new.items ≡ out.old.items ++ told_line (turn_fault number turn line)) }
{
    let rule = journal_rule(number);
    let sentence = format!(in alloc;
        "line {line} of the text, turn {turn} of its journal, breaks rule {number}: {rule}."
    )?;
    put_line(&sentence, out)
}

fn put_line_fault(
    alloc: Global,
    number: u8,
    turns: u32,
    line: u32,
    out: &mut Vec<u8>,
) -> Result<(), AllocError>
    ensures { OnOk result (out.new.items ≡ out.old.items ++ told_line (line_fault number turns line)) }
{
    let rule = journal_rule(number);
    let sentence = format!(in alloc;
        "line {line} of the text, with {turns} turns of its journal made, breaks rule {number}: {rule}."
    )?;
    put_line(&sentence, out)
}

// Appends where a script stopped, and why.
fn put_stop(
    alloc: Global,
    settle: usize,
    place: &[u8],
    why: &str,
    out: &mut Vec<u8>,
) -> Result<(), AllocError>
    ensures { OnOk result (out.new.items
        ≡ out.old.items ++ flat_map told_line (stop settle place.now why.now ∷ [])) }
{
    let head = format!(in alloc; "mediactl: settle {settle} of the script stopped at ")?;
    out.extend_from_slice(head.as_bytes())?;
    out.extend_from_slice(place)?;
    out.extend_from_slice(b": ")?;
    out.extend_from_slice(why.as_bytes())?;
    out.push(b'\n')?;
    Ok(())
}

// Appends that no feature has a name, and which features there are.
fn put_no_box(place: &[u8], features: &[u8], out: &mut Vec<u8>) -> Result<(), AllocError>
    ensures { OnOk result (out.new.items
        ≡ out.old.items ++ flat_map told_line (no_box place.now features.now ∷ [])) }
{
    out.extend_from_slice(b"mediactl: the text declares no feature ")?;
    out.extend_from_slice(place)?;
    put_features(features, out)?;
    out.push(b'\n')?;
    Ok(())
}

fn put_features(features: &[u8], out: &mut Vec<u8>) -> Result<(), AllocError>
    ensures { OnOk result (out.new.items ≡ out.old.items ++ features_told features.now) }
{
    if features.is_empty() {
        out.extend_from_slice(b", nor any other.")?;
    } else {
        out.extend_from_slice(b". Its features are:")?;
        out.extend_from_slice(features)?;
        out.push(b'.')?;
    }
    Ok(())
}
