//! The places of a line: what the word in a place must be. A word that is missing isn't asked anything.

ghost use Rattle.std.specs.Prelude.{◌≡◌, ◌<◌, length, IfSome};
ghost use Rattle.std.specs.Option.{option_copied, ok_or};
ghost use Rattle.mc_text.specs.NameLists.{place_of, slot_names};
ghost use Rattle.mc_script.specs.Places.{fixed_word, is_misspelt, is_overlong, known_name, unless};
ghost use Rattle.mc_script.specs.Rules.{spelt_goal, spelt_switch, is_no_device, is_no_feature, has_no_program};

use crate::command::LineFault;
use crate::rule::{NO_SUCH_SLOT, UNDECLARED, WRONG_WORD};
use mc_box::{Kind, Shape};
use mc_slot::Goal;
use mc_text::limit::NAME_LIMIT;
use mc_text::{Names, is_spelt};

/// The box that a word names. Fault 4 where no box has the name.
pub fn known_box(names: &Names, word: Option<&[u8]>) -> Result<Option<u32>, LineFault>
    ensures { result ≡ known_name names.now.boxes (option_copied word.entry) }
{
    let Some(word) = word else { return Ok(None) };
    match names.find_box(word) {
        Some(who) => Ok(Some(who)),
        None => Err(LineFault { number: UNDECLARED }),
    }
}

/// The number of a told word. Fault 4 where no program uses the word.
pub fn known_told(names: &Names, word: Option<&[u8]>) -> Result<Option<u8>, LineFault>
    ensures { result ≡ known_name names.now.told (option_copied word.entry) }
{
    let Some(word) = word else { return Ok(None) };
    match names.find_told(word) {
        Some(told) => Ok(Some(told)),
        None => Err(LineFault { number: UNDECLARED }),
    }
}

/// The slot of a box that a word names. Fault 11 where the box has no slot of that name.
pub fn known_slot(names: &Names, who: u32, word: &[u8]) -> Result<u8, LineFault>
    requires { who < length names.now.boxes }
    ensures { result ≡ ok_or (place_of (slot_names names.now who) word.now) (record { number = NO_SUCH_SLOT }) }
{
    match names.find_slot(who, word) {
        Some(local) => Ok(local),
        None => Err(LineFault {
            number: NO_SUCH_SLOT,
        }),
    }
}

/// The goal that a word spells. Fault 5 where it spells none.
pub fn fixed_goal(word: Option<&[u8]>) -> Result<Option<Goal>, LineFault>
    ensures { result ≡ fixed_word spelt_goal (option_copied word.entry) }
{
    let Some(word) = word else { return Ok(None) };
    match spelt_goal(word) {
        Some(goal) => Ok(Some(goal)),
        None => Err(LineFault { number: WRONG_WORD }),
    }
}

/// Whether a word is `on` and not `off`. Fault 5 where it is neither.
pub fn fixed_switch(word: Option<&[u8]>) -> Result<Option<bool>, LineFault>
    ensures { result ≡ fixed_word spelt_switch (option_copied word.entry) }
{
    let Some(word) = word else { return Ok(None) };
    match spelt_switch(word) {
        Some(on) => Ok(Some(on)),
        None => Err(LineFault { number: WRONG_WORD }),
    }
}

/// Fault 5 where a box is known and is no device.
pub fn needs_device(shape: &Shape, who: Option<u32>) -> Result<(), LineFault>
    requires { IfSome who (λ known. known < length shape.now) }
    ensures { result ≡ unless (is_no_device shape.now who) WRONG_WORD tt }
{
    let Some(who) = who else { return Ok(()) };
    let shape = &shape.boxes[who as usize];
    match shape.kind {
        Kind::Device => Ok(()),
        Kind::Feature => Err(LineFault { number: WRONG_WORD }),
    }
}

/// Fault 5 where a box is known and is no feature.
pub fn needs_feature(shape: &Shape, who: Option<u32>) -> Result<(), LineFault>
    requires { IfSome who (λ known. known < length shape.now) }
    ensures { result ≡ unless (is_no_feature shape.now who) WRONG_WORD tt }
{
    let Some(who) = who else { return Ok(()) };
    let shape = &shape.boxes[who as usize];
    match shape.kind {
        Kind::Feature => Ok(()),
        Kind::Device => Err(LineFault { number: WRONG_WORD }),
    }
}

/// Fault 5 where a box is known and has no program.
pub fn needs_program(shape: &Shape, who: Option<u32>) -> Result<(), LineFault>
    requires { IfSome who (λ known. known < length shape.now) }
    ensures { result ≡ unless (has_no_program shape.now who) WRONG_WORD tt }
{
    let Some(who) = who else { return Ok(()) };
    let shape = &shape.boxes[who as usize];
    if shape.programmed {
        Ok(())
    } else {
        Err(LineFault { number: WRONG_WORD })
    }
}

/// Whether a word stands there that isn't spelt as a name, whatever its length.
pub fn is_misspelt(word: Option<&[u8]>) -> bool
    ensures { result ≡ is_misspelt (option_copied word.entry) }
{
    match word {
        Some(word) => !is_spelt(word),
        None => false,
    }
}

/// Whether a word stands there that is spelt as a name, but for its more than 16 bytes.
pub fn is_overlong(word: Option<&[u8]>) -> bool
    ensures { result ≡ is_overlong (option_copied word.entry) }
{
    match word {
        Some(word) => is_spelt(word) && NAME_LIMIT < word.len(),
        None => false,
    }
}

fn spelt_goal(word: &[u8]) -> Option<Goal>
    ensures { result ≡ spelt_goal word.now }
{
    if word == b"open".as_slice() {
        Some(Goal::Open)
    } else if word == b"close".as_slice() {
        Some(Goal::Close)
    } else if word == b"hold".as_slice() {
        Some(Goal::Hold)
    } else {
        None
    }
}

fn spelt_switch(word: &[u8]) -> Option<bool>
    ensures { result ≡ spelt_switch word.now }
{
    if word == b"on".as_slice() {
        Some(true)
    } else if word == b"off".as_slice() {
        Some(false)
    } else {
        None
    }
}
