//! What an export answers, and what that says.

ghost use Rattle.std.specs.Prelude.{◌≡◌, IfNone, IfSome, is_some};
ghost use Rattle.mc_plain.specs.Texts.{is_code, text_of};

/// It was done.
pub const OK: u32 = 0;

/// The handle has no box.
pub const NO_BOX: u32 = 1;

/// The handle has a box already.
pub const HAS_BOX: u32 = 2;

/// There is no memory.
pub const MEMORY: u32 = 3;

/// The numbers say no setup, program, signal, event or code.
pub const INVALID: u32 = 4;

/// The box has no such slot.
pub const NO_SLOT: u32 = 5;

/// The signal isn't lawful for the slot.
pub const UNLAWFUL: u32 = 6;

/// The event can't happen now.
pub const DISABLED: u32 = 7;

/// The slot's descriptor has the last version that there is.
pub const VERSION_END: u32 = 8;

/// The buffer has too few places.
pub const NO_ROOM: u32 = 9;

/// What a code says, in at most 47 bytes.
pub fn text(code: u32) -> Option<&'static str>
    ensures says { IfSome result (λ text. text.now ≡ text_of code) }
    ensures reads { is_some result ≡ is_code code }
{
    match code {
        OK => Some("it was done"),
        NO_BOX => Some("there is no box"),
        HAS_BOX => Some("there is a box already"),
        MEMORY => Some("there is no memory"),
        INVALID => Some("the numbers say nothing that can be asked"),
        NO_SLOT => Some("the box has no such slot"),
        UNLAWFUL => Some("the slot can't take this signal now"),
        DISABLED => Some("the event can't happen now"),
        VERSION_END => Some("the descriptor has the last version"),
        NO_ROOM => Some("the buffer has too few places"),
        _ => None,
    }
}
