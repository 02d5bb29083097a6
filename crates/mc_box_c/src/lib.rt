//! A box of a call for programs in C: `include/media_box.h` declares what is exported here, in the words of C.
#![tactic(auto)]

ghost use Rattle.std.specs.Prelude.{◌≡◌, ◌≢◌, ◌≤◌, ◌==◌, ◌||◌, [], IsTrue, is_some, length, true, false, None};
ghost use Rattle.mc_box_c.specs.Answers.{HasActed, HasTaken, WhyNotActed, WhyNotTaken};
ghost use Rattle.mc_plain.specs.Asked.{is_box, SaysBox};
ghost use Rattle.mc_box_c.specs.Exports.{box_in, NothingDone};
ghost use Rattle.mc_box_c.specs.Handles.{Between, OfBox};
ghost use Rattle.mc_plain.specs.Texts.{is_code, padded, text_of};
ghost use Rattle.mc_plain.specs.Views.{box_view, slot_view};
ghost use Rattle.mc_plain.specs.declared.answer.TheConstants.{OK, NO_BOX, HAS_BOX, MEMORY, INVALID, NO_SLOT};

mod handle;
mod held;
mod kept;

use handle::Handle;
use held::HeldBox;
use mc_plain::answer;
use mc_plain::asked::{PlainEvent, PlainSetup, PlainSlot};
use mc_plain::program::PlainState;
use mc_plain::signals::{PlainSent, PlainSignal};
use mc_plain::text::PlainText;
use mc_plain::view::{PlainBoxView, PlainSlotView};
use std::alloc::Global;

/// The version of the interface. It changes with each change that C would see.
pub const VERSION: u32 = 2;

/// The version of the interface, which the header has, too.
#[unsafe(no_mangle)]
pub extern "C" fn media_box_version() -> u32
    ensures { result ≡ 2 }
{
    VERSION
}

/// What a code says comes into `out`.
#[unsafe(no_mangle)]
pub extern "C" fn media_box_text(code: u32, out: &mut PlainText) -> u32
    ensures ok { result ≡ OK → out.new.at ≡ padded (text_of code) }
    ensures unchanged { result ≢ OK → out.new ≡ out.old }
    ensures invalid { result ≡ INVALID → is_code code ≡ false }
    ensures codes { IsTrue (result == OK || result == INVALID) }
{
    match answer::text(code) {
        Some(text) => {
            *out = PlainText::of(text);
            answer::OK
        }
        None => answer::INVALID,
    }
}

/// Makes the box that the numbers say, of these slots, with no program. The handle must have none.
#[unsafe(no_mangle)]
pub extern "C" fn media_box_make(
    alloc: Global,
    handle: &mut Handle,
    setup: &PlainSetup,
    slots: &[PlainSlot],
) -> u32
    ensures made { result ≡ OK → OfBox (box_in handle.new) (SaysBox setup.now slots.now []) }
    ensures first { result ≡ OK → box_in handle.old ≡ None }
    ensures unchanged { result ≢ OK → box_in handle.new ≡ box_in handle.old }
    ensures has_box { result ≡ HAS_BOX → is_some (box_in handle.old) ≡ true }
    ensures invalid { result ≡ INVALID → is_box setup.now slots.now [] ≡ false }
    ensures codes { IsTrue (result == OK || result == HAS_BOX || result == MEMORY || result == INVALID) }
{
    make(alloc, handle, setup, slots, &[])
}

/// The same, with the program that these states are. Without states it has none.
#[unsafe(no_mangle)]
pub extern "C" fn media_box_make_programmed(
    alloc: Global,
    handle: &mut Handle,
    setup: &PlainSetup,
    slots: &[PlainSlot],
    states: &[PlainState],
) -> u32
    ensures made { result ≡ OK → OfBox (box_in handle.new) (SaysBox setup.now slots.now states.now) }
    ensures first { result ≡ OK → box_in handle.old ≡ None }
    ensures unchanged { result ≢ OK → box_in handle.new ≡ box_in handle.old }
    ensures has_box { result ≡ HAS_BOX → is_some (box_in handle.old) ≡ true }
    ensures invalid { result ≡ INVALID → is_box setup.now slots.now states.now ≡ false }
    ensures codes { IsTrue (result == OK || result == HAS_BOX || result == MEMORY || result == INVALID) }
{
    make(alloc, handle, setup, slots, states)
}

fn make(
    alloc: Global,
    handle: &mut Handle,
    setup: &PlainSetup,
    slots: &[PlainSlot],
    states: &[PlainState],
) -> u32
    ensures made { result ≡ OK → OfBox (box_in handle.new) (SaysBox setup.now slots.now states.now) }
    ensures first { result ≡ OK → box_in handle.old ≡ None }
    ensures unchanged { result ≢ OK → box_in handle.new ≡ box_in handle.old }
    ensures has_box { result ≡ HAS_BOX → is_some (box_in handle.old) ≡ true }
    ensures invalid { result ≡ INVALID → is_box setup.now slots.now states.now ≡ false }
    ensures codes { IsTrue (result == OK || result == HAS_BOX || result == MEMORY || result == INVALID) }
{
    if handle.has_box() {
        return answer::HAS_BOX;
    }
    if !setup.is_box(slots, states) {
        return answer::INVALID;
    }
    match HeldBox::new(alloc, setup, slots, states) {
        Ok(held) => match Box::new(alloc, held) {
            Ok(held) => {
                handle.close(held);
                answer::OK
            }
            Err(_) => answer::MEMORY,
        },
        Err(_) => answer::MEMORY,
    }
}

/// Ends the box, and gives its memory back. The handle has none then.
#[unsafe(no_mangle)]
pub extern "C" fn media_box_end(alloc: Global, handle: &mut Handle) -> u32
    ensures ended { box_in handle.new ≡ None }
    ensures was_here { result ≡ OK → is_some (box_in handle.old) ≡ true }
    ensures no_box { result ≡ NO_BOX → box_in handle.old ≡ None }
    ensures codes { IsTrue (result == OK || result == NO_BOX) }
{
    match handle.open(alloc) {
        Some(held) => {
            drop(held);
            answer::OK
        }
        None => answer::NO_BOX,
    }
}

/// A slot takes the signal that the numbers say. What is sent comes into `out`, and how much that is into `count`.
#[unsafe(no_mangle)]
pub extern "C" fn media_box_take(
    alloc: Global,
    handle: &mut Handle,
    slot: u8,
    signal: &PlainSignal,
    out: &mut [PlainSent],
    count: &mut usize,
) -> u32
    ensures ok { result ≡ OK → Between (box_in handle.old) (box_in handle.new)
        (λ old new. HasTaken old slot signal.now new out.old out.new count.new) }
    ensures unchanged { result ≢ OK → NothingDone handle.old handle.new out.old out.new count.new }
    ensures no_box { result ≡ NO_BOX → box_in handle.old ≡ None }
    ensures why_not { result ≢ OK → result ≢ NO_BOX → OfBox (box_in handle.old)
        (λ old. WhyNotTaken old slot signal.now (length out.old) result) }
{
    handle.take(alloc, slot, signal, out, count)
}

/// The event that the numbers say happens. What is sent comes into `out`, and how much that is into `count`.
#[unsafe(no_mangle)]
pub extern "C" fn media_box_act(
    alloc: Global,
    handle: &mut Handle,
    event: &PlainEvent,
    out: &mut [PlainSent],
    count: &mut usize,
) -> u32
    ensures ok { result ≡ OK → Between (box_in handle.old) (box_in handle.new)
        (λ old new. HasActed old event.now new out.old out.new count.new) }
    ensures unchanged { result ≢ OK → NothingDone handle.old handle.new out.old out.new count.new }
    ensures no_box { result ≡ NO_BOX → box_in handle.old ≡ None }
    ensures why_not { result ≢ OK → result ≢ NO_BOX → OfBox (box_in handle.old)
        (λ old. WhyNotActed old event.now (length out.old) result) }
{
    match handle.open(alloc) {
        Some(mut held) => {
            let code = held.act(event, out, count);
            handle.close(held);
            code
        }
        None => {
            *count = 0;
            answer::NO_BOX
        }
    }
}

/// What there is to see of the box comes into `out`. The box stays as it is.
#[unsafe(no_mangle)]
pub extern "C" fn media_box_see(alloc: Global, handle: &mut Handle, out: &mut PlainBoxView) -> u32
    ensures ok { result ≡ OK → OfBox (box_in handle.old) (λ old. out.new ≡ box_view old) }
    ensures unchanged { box_in handle.new ≡ box_in handle.old }
    ensures not { result ≢ OK → out.new ≡ out.old }
    ensures no_box { result ≡ NO_BOX → box_in handle.old ≡ None }
    ensures codes { IsTrue (result == OK || result == NO_BOX) }
{
    match handle.open(alloc) {
        Some(held) => {
            *out = PlainBoxView::of(&held.part);
            handle.close(held);
            answer::OK
        }
        None => answer::NO_BOX,
    }
}

/// What there is to see of a slot comes into `out`. The box stays as it is.
#[unsafe(no_mangle)]
pub extern "C" fn media_box_see_slot(
    alloc: Global,
    handle: &mut Handle,
    slot: u8,
    out: &mut PlainSlotView,
) -> u32
    ensures ok { result ≡ OK → OfBox (box_in handle.old) (λ old. out.new ≡ slot_view old slot) }
    ensures unchanged { box_in handle.new ≡ box_in handle.old }
    ensures not { result ≢ OK → out.new ≡ out.old }
    ensures no_box { result ≡ NO_BOX → box_in handle.old ≡ None }
    ensures no_slot { result ≡ NO_SLOT → OfBox (box_in handle.old) (λ old. length old.slots ≤ slot) }
    ensures codes { IsTrue (result == OK || result == NO_BOX || result == NO_SLOT) }
{
    match handle.open(alloc) {
        Some(held) => {
            let code = see_slot(&held, slot, out);
            handle.close(held);
            code
        }
        None => answer::NO_BOX,
    }
}

fn see_slot(held: &HeldBox, slot: u8, out: &mut PlainSlotView) -> u32
    ensures ok { result ≡ OK → out.new ≡ slot_view held.now.part slot }
    ensures not { result ≢ OK → out.new ≡ out.old }
    ensures no_slot { result ≡ NO_SLOT → length held.now.part.slots ≤ slot }
    ensures codes { IsTrue (result == OK || result == NO_SLOT) }
{
    if held.part.slots().len() <= slot as usize {
        return answer::NO_SLOT;
    }
    *out = PlainSlotView::of(&held.part, slot);
    answer::OK
}
