// What the words of the command line ask for.

ghost use Rattle.std.specs.Prelude.{◌≡◌, ◌<◌, ◌∷◌, [], ℕ, Bool, IfNone, IfOk, IfSome, option_map};
ghost use Rattle.mc_livetop.specs.Words.{IsLiveCommand, SpellsLive};
ghost use Rattle.mc_words.specs.Arguments.{words_met};
ghost use Rattle.mc_words.specs.Commands.{SpellsWithin};

use mc_desk::limit::OPERATOR_LIMIT;
use mc_text::read_number;
use mc_words::read_arguments;
use std::alloc::{AllocError, Global};

/// A live run: how many operators ask, 1 to 8, and whether the journal is printed after the paths.
#[derive(Clone, Copy, Debug, PartialEq, Eq)]
pub struct LiveCommand {
    pub operators: u32,
    pub journal: bool,
}

/// The live run that the words ask for: `live N`, with the flag `--journal` where `mediactl run` takes it. None where
/// they ask for none; an error where memory is wanting.
pub fn read_live(alloc: Global, words: &[String]) -> Result<Option<LiveCommand>, AllocError>
    ensures some { IfOk result (λ read. IfSome read (λ command.
        IsLiveCommand words.now command.operators command.journal)) }
    ensures none { IfOk result (λ read. IfNone read ((operators : ℕ) (journal : Bool)
        → ¬ IsLiveCommand words.now operators journal)) }
{
    let Some(arguments) = read_arguments(alloc, words)? else {
        return Ok(None);
    };
    let asked = operators_of(arguments.first, arguments.second, arguments.third);
    Ok(command_of(asked, arguments.journal))
}

// The live run with so many operators, if there is one.
fn command_of(operators: Option<u32>, journal: bool) -> Option<LiveCommand>
    ensures { result ≡ option_map (λ operators. record { operators = operators; journal = journal }) operators }
{
    let operators = operators?;
    Some(LiveCommand { operators, journal })
}

// How many operators plain words ask for.
fn operators_of(first: Option<&str>, second: Option<&str>, third: Option<&str>) -> Option<u32>
    ensures some { IfSome result (λ operators. SpellsLive operators (words_met
        (option_map (λ s. s.now) first.entry)
        (option_map (λ s. s.now) second.entry)
        (option_map (λ s. s.now) third.entry))) }
    ensures none { IfNone result ((operators : ℕ) → ¬ SpellsLive operators (words_met
        (option_map (λ s. s.now) first.entry)
        (option_map (λ s. s.now) second.entry)
        (option_map (λ s. s.now) third.entry))) }
{
    match (first, second, third) {
        (Some(first), Some(second), None) => operators_by(first, second),
        _ => None,
    }
}

// The same of two words.
fn operators_by(first: &str, second: &str) -> Option<u32>
    ensures some { IfSome result (λ operators. SpellsLive operators (first.now ∷ second.now ∷ [])) }
    ensures none { IfNone result ((operators : ℕ) → ¬ SpellsLive operators (first.now ∷ second.now ∷ [])) }
{
    if first == "live" {
        read_operators(second)
    } else {
        None
    }
}

// How many operators a word asks for, one at least.
fn read_operators(word: &str) -> Option<u32>
    ensures some { IfSome result (λ operators. SpellsWithin OPERATOR_LIMIT word.now operators × (0 < operators)) }
    ensures none { IfNone result ((operators : ℕ) → SpellsWithin OPERATOR_LIMIT word.now operators
        → ¬ (0 < operators)) }
{
    let operators = read_number(word.as_bytes())?;
    if 0 < operators && operators <= OPERATOR_LIMIT {
        Some(operators)
    } else {
        None
    }
}
