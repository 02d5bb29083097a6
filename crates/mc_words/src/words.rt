// What the words of the command line ask for.

ghost use Rattle.std.specs.Prelude.{◌≡◌, ◌↔◌, ◌≤◌, ◌∷◌, [], ℕ, List, Option, IfNone, IfOk, IfSome, IsFalse, IsTrue, option_map};
ghost use Rattle.mc_words.specs.declared.words.Mode.{Mode};
ghost use Rattle.mc_words.specs.Commands.{AsksFor, AsksToGrow, IsCommand, SpellsGrow, SpellsWithin, bytes_of, name_for, prints_journal, scene_word};
ghost use Rattle.mc_text.specs.Spelling.{is_name};
ghost use Rattle.mc_words.specs.Arguments.{words_met};

use crate::arguments::{Arguments, read_arguments};
use crate::box_name::BoxName;
use mc_scene::Scene;
use mc_scene::limit::{NUMBER_LIMIT, SIZE_LIMIT};
use mc_text::{is_name, read_number};
use std::alloc::{AllocError, Global};

/// What the program is to do.
#[derive(Clone, Copy, Debug, PartialEq, Eq)]
pub enum Mode {
    /// Reads a text, settles its calls, and prints them; and after them the journal, if it is asked for.
    Run { journal: bool },
    /// The same, by draws that begin at a state.
    One { state: u32, journal: bool },
    /// Reads a text with a journal after its commands, checks the journal, and prints what it settles; and why closed
    /// paths closed, if it is asked for.
    Check { why: bool },
    /// Runs a text of so many chains, drawn by a number.
    Gen { number: u32, size: u32 },
    /// Runs the text of a scene.
    Scene { scene: Scene },
    /// Reads a text, settles its calls, and prints them, and after each settle whom a mixer at a box would let each
    /// party hear.
    Conf { name: BoxName },
}

impl Mode {
    /// Whether the journal is asked for.
    pub fn prints_journal(self) -> bool
        ensures { result ≡ prints_journal self }
    {
        match self {
            Mode::Run { journal } => journal,
            Mode::One { journal, .. } => journal,
            Mode::Check { .. } => false,
            Mode::Gen { .. } => false,
            Mode::Scene { .. } => false,
            Mode::Conf { .. } => false,
        }
    }

    /// The name of the box that it is about, and no bytes where it is about none.
    pub fn box_name(&self) -> &[u8]
        ensures { result.now ≡ name_for self.now }
    {
        match self {
            Mode::Conf { name } => name.as_slice(),
            _ => &[],
        }
    }
}

/// The mode that the words ask for. None where they ask for none; an error where memory is wanting. A first `--` says
/// nothing but that the words after it are plain; in front of it `--journal` may stand anywhere, and more than once.
pub fn read_mode(alloc: Global, words: &[String]) -> Result<Option<Mode>, AllocError>
    ensures some { IfOk result (λ read. IfSome read (IsCommand words.now)) }
    ensures none { IfOk result (λ read. IfNone read ((mode : Mode) → ¬ IsCommand words.now mode)) }
{
    let Some(arguments) = read_arguments(alloc, words)? else {
        return Ok(None);
    };
    Ok(mode_of(
        arguments.first,
        arguments.second,
        arguments.third,
        arguments.journal,
    ))
}

/// Whether the words ask for a script in which channels join and are cut. An error where memory is wanting. They are read
/// as those of a mode are.
pub fn asks_to_grow(alloc: Global, words: &[String]) -> Result<bool, AllocError>
    ensures { IfOk result (λ asks. IsTrue asks ↔ AsksToGrow words.now) }
{
    match read_arguments(alloc, words)? {
        Some(arguments) => {
            Ok(!arguments.journal && spells_grow(arguments.first, arguments.second))
        }
        None => Ok(false),
    }
}

// Whether the first plain word says that the script grows, and there is no second one.
fn spells_grow(first: Option<&str>, second: Option<&str>) -> bool
    ensures { (third : Option (List ℕ)) → IsTrue result ↔ SpellsGrow (words_met
        (option_map (λ s. s.now) first.entry)
        (option_map (λ s. s.now) second.entry)
        third) }
{
    match (first, second) {
        (Some(first), None) => first == "grow",
        _ => false,
    }
}

// The mode that plain words ask for.
fn mode_of(
    first: Option<&str>,
    second: Option<&str>,
    third: Option<&str>,
    journal: bool,
) -> Option<Mode>
    ensures some { IfSome result (λ mode. AsksFor mode journal (words_met
        (option_map (λ s. s.now) first.entry)
        (option_map (λ s. s.now) second.entry)
        (option_map (λ s. s.now) third.entry))) }
    ensures none { IfNone result ((mode : Mode) → ¬ AsksFor mode journal (words_met
        (option_map (λ s. s.now) first.entry)
        (option_map (λ s. s.now) second.entry)
        (option_map (λ s. s.now) third.entry))) }
{
    let first = first?;
    let Some(second) = second else {
        return mode_of_word(first, journal);
    };
    match third {
        None => mode_of_pair(first, second, journal),
        Some(third) => mode_of_triple(first, second, third, journal),
    }
}

// The mode that a single word asks for.
fn mode_of_word(word: &str, journal: bool) -> Option<Mode>
    ensures some { IfSome result (λ mode. AsksFor mode journal (word.now ∷ [])) }
    ensures none { IfNone result ((mode : Mode) → ¬ AsksFor mode journal (word.now ∷ [])) }
{
    if word == "run" {
        Some(Mode::Run { journal })
    } else if word == "check" && !journal {
        Some(Mode::Check { why: false })
    } else if word == "why" && !journal {
        Some(Mode::Check { why: true })
    } else {
        None
    }
}

// The mode that two words ask for.
fn mode_of_pair(first: &str, second: &str, journal: bool) -> Option<Mode>
    ensures some { IfSome result (λ mode. AsksFor mode journal (first.now ∷ second.now ∷ [])) }
    ensures none { IfNone result ((mode : Mode) → ¬ AsksFor mode journal (first.now ∷ second.now ∷ [])) }
{
    if first == "one" {
        let state = number_within(NUMBER_LIMIT, second)?;
        Some(Mode::One { state, journal })
    } else if first == "scene" && !journal {
        let scene = read_scene(second)?;
        Some(Mode::Scene { scene })
    } else if first == "conf" && !journal {
        let name = read_box_name(second)?;
        Some(Mode::Conf { name })
    } else {
        None
    }
}

// The mode that three words ask for.
fn mode_of_triple(first: &str, second: &str, third: &str, journal: bool) -> Option<Mode>
    ensures some { IfSome result (λ mode. AsksFor mode journal (first.now ∷ second.now ∷ third.now ∷ [])) }
    ensures none { IfNone result ((mode : Mode) → ¬ AsksFor mode journal (first.now ∷ second.now ∷ third.now ∷ [])) }
{
    if first == "gen" && !journal {
        let number = number_within(NUMBER_LIMIT, second)?;
        let size = read_size(third)?;
        Some(Mode::Gen { number, size })
    } else {
        None
    }
}

// The scene that a word names.
fn read_scene(word: &str) -> Option<Scene>
    ensures some { IfSome result (λ scene. word.now ≡ scene_word scene) }
    ensures none { IfNone result ((scene : Scene) → ¬ (word.now ≡ scene_word scene)) }
{
    if word == "pbx" {
        Some(Scene::Pbx)
    } else if word == "prepaid" {
        Some(Scene::Prepaid)
    } else {
        None
    }
}

// The name of a box that a word is.
fn read_box_name(word: &str) -> Option<BoxName>
    ensures some { IfSome result (λ name. (bytes_of name ≡ word.now) × IsTrue (is_name word.now)) }
    ensures none { IfNone result (IsFalse (is_name word.now)) }
{
    let bytes = word.as_bytes();
    if is_name(bytes) {
        Some(BoxName::new(bytes))
    } else {
        None
    }
}

// How many chains a word asks for, one at least.
fn read_size(word: &str) -> Option<u32>
    ensures some { IfSome result (λ size. SpellsWithin SIZE_LIMIT word.now size × (1 ≤ size)) }
    ensures none { IfNone result ((size : ℕ) → SpellsWithin SIZE_LIMIT word.now size → ¬ (1 ≤ size)) }
{
    let size = number_within(SIZE_LIMIT, word)?;
    if size == 0 { None } else { Some(size) }
}

// The number that a word spells, if it is within a limit.
fn number_within(limit: u32, word: &str) -> Option<u32>
    ensures some { IfSome result (λ number. SpellsWithin limit word.now number) }
    ensures none { IfNone result ((number : ℕ) → ¬ SpellsWithin limit word.now number) }
{
    let number = read_number(word.as_bytes())?;
    if number <= limit { Some(number) } else { None }
}
