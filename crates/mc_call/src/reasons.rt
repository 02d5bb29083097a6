// What a person is to be told of a script that was run, and of a name that no feature has.

ghost use Rattle.std.specs.Prelude.{◌≡◌, ◌≤◌, ◌<◌, ◌∷◌, ◌++◌, [], IfOk, OnOk, codes, length};
ghost use Rattle.mc_call.specs.Answers.{TellsNothing};
ghost use Rattle.mc_call.specs.Printed.{feature_word, feature_words};
ghost use Rattle.mc_call.specs.Reasons.{ExplainsDue, HasPlace, IsNoBox, PrintsStop};
ghost use Rattle.mc_call.specs.Statuses.{due_by};
ghost use Rattle.mc_call.specs.declared.status.TheConstants.{CHANNEL_IN_USE};
ghost use Rattle.mc_net.specs.Nets.{NamesAll};
ghost use Rattle.mc_replay.specs.Points.{is_mark, marks_in};
ghost use Rattle.mc_table.specs.Words.{line_of};

use mc_box::Kind;
use mc_explain::Reason;
use mc_script::JournalLine;
use mc_seq::SettleStop;
use mc_text::Names;
use mc_world::World;
use std::alloc::{AllocError, Global};

/// What is to be told of a script that stopped, or came to its end: of a stop, what was printed for it, and the settle.
pub fn stop_reason(
    alloc: Global,
    stop: Option<SettleStop>,
    output: &[u8],
    journal: &[JournalLine],
) -> Result<Reason, AllocError>
    requires { PrintsStop stop output.now }
    ensures { IfOk result (λ reason. ExplainsDue TellsNothing reason (due_by stop) output.now journal.now) }
{
    let settle = marks_in(journal) + 1;
    match stop {
        None => Ok(Reason::Worked),
        Some(SettleStop::VersionEnd(_)) => {
            let place = Vec::from_slice(alloc, place_in(b"version", output))?;
            Ok(Reason::VersionEnd { place, settle })
        }
        Some(SettleStop::Ring(_)) => {
            let place = Vec::from_slice(alloc, place_in(b"ring", output))?;
            Ok(Reason::Ring { place, settle })
        }
        Some(SettleStop::Restless(_)) => {
            let place = Vec::from_slice(alloc, place_in(b"restless", output))?;
            Ok(Reason::Restless { place, settle })
        }
    }
}

/// The same of a script that stopped at a cut.
pub fn cut_reason(
    alloc: Global,
    output: &[u8],
    journal: &[JournalLine],
) -> Result<Reason, AllocError>
    requires { HasPlace (codes "cut") output.now }
    ensures { IfOk result (λ reason. ExplainsDue TellsNothing reason CHANNEL_IN_USE output.now journal.now) }
{
    let settle = marks_in(journal) + 1;
    let place = Vec::from_slice(alloc, place_in(b"cut", output))?;
    Ok(Reason::ChannelInUse { place, settle })
}

/// What is to be told where no feature has a name: the name, and those of the features.
pub fn no_box_reason(
    alloc: Global,
    name: &[u8],
    names: &Names,
    world: &World,
) -> Result<Reason, AllocError>
    requires { NamesAll names.now world.now }
    ensures { IfOk result (IsNoBox name.now (feature_words names.now world.now)) }
{
    let place = Vec::from_slice(alloc, name)?;
    let features = feature_words(alloc, names, world)?;
    Ok(Reason::NoBox { place, features })
}

// The names of the features, each after a space.
fn feature_words(alloc: Global, names: &Names, world: &World) -> Result<Vec<u8>, AllocError>
    requires { NamesAll names.now world.now }
    ensures { IfOk result (λ words. words.items ≡ feature_words names.now world.now) }
{
    let mut words = Vec::new(alloc);
    for who in 0..names.box_count() {
        put_feature(names, world, who as u32, &mut words)?;
    }
    Ok(words)
}

// Appends the name of a box after a space, if it is a feature.
fn put_feature(
    names: &Names,
    world: &World,
    who: u32,
    words: &mut Vec<u8>,
) -> Result<(), AllocError>
    requires named { NamesAll names.now world.now }
    requires who { who < length names.now.boxes }
    ensures { OnOk result (words.new.items ≡ words.old.items ++ feature_word names.now world.now who) }
{
    if world.boxes()[who as usize].kind() == Kind::Feature {
        words.push(b' ')?;
        words.extend_from_slice(names.box_name(who))?;
    }
    Ok(())
}

// The second word of a line of two, of which this is the first.
fn place_in<'a>(word: &[u8], line: &'a [u8]) -> &'a [u8]
    requires { HasPlace word.now line.now }
    ensures { line.now ≡ line_of (word.now ∷ result.now ∷ []) }
{
    &line[word.len() + 1..line.len() - 1]
}

// How many settles a journal has.
fn marks_in(journal: &[JournalLine]) -> usize
    ensures marks { result ≡ marks_in journal.now }
    ensures few { result ≤ length journal.now }
{
    let mut count = 0;
    for line in journal {
        if is_mark(line) {
            count += 1;
        }
    }
    count
}

fn is_mark(line: &JournalLine) -> bool
    ensures { result ≡ is_mark line.now }
{
    matches!(line, JournalLine::Settled)
}
