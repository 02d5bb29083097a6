//! What a code says, as C has texts.

ghost use Rattle.std.specs.Prelude.{◌≡◌, ◌≤◌, ◌<◌, ◌++◌, ◌-◌, length, replicate};
ghost use Rattle.mc_plain.specs.Texts.{padded};

/// The bytes of a text, and then zeros: at least one.
#[repr(C)]
#[derive(Clone, Copy)]
pub struct PlainText {
    pub at: [u8; 48],
}

impl PlainText {
    /// A text of at most 47 bytes.
    pub fn of(text: &str) -> PlainText
        requires { length text.now < 48 }
        ensures { result.at ≡ padded text.now }
    {
        let mut at = [0; 48];
        let bytes = text.as_bytes();
        at[..bytes.len()].copy_from_slice(bytes);
        PlainText { at }
    }
}
