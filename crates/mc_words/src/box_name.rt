// The name of a box, as the words have it.

ghost use Rattle.std.specs.Prelude.{◌≡◌, ◌≤◌, length};
ghost use Rattle.mc_text.specs.declared.limit.TheConstants.{NAME_LIMIT};
ghost use Rattle.mc_words.specs.BoxNames.{HasPlaces, IsBlankFrom};

use mc_text::limit::NAME_LIMIT;

/// The name of a box, of as many bytes as a name may have.
///
/// The first `len` entries of `at` are its bytes, and the others are 0. So two names with the same bytes are one and the
/// same.
#[derive(Clone, Copy, PartialEq, Eq, Debug)]
pub struct BoxName {
    pub len: u8,
    pub at: [u8; NAME_LIMIT],
    pub ghost places: { HasPlaces at },
    pub ghost short: { len ≤ NAME_LIMIT },
    pub ghost blank: { IsBlankFrom len at },
}

impl BoxName {
    ghost use Rattle.mc_words.specs.Commands.{bytes_of};

    /// The name with these bytes.
    pub fn new(word: &[u8]) -> BoxName
        requires { length word.now ≤ NAME_LIMIT }
        ensures { bytes_of result ≡ word.now }
    {
        let mut at = [0; NAME_LIMIT];
        at[..word.len()].copy_from_slice(word);
        BoxName {
            len: word.len() as u8,
            at,
        }
    }

    /// Its bytes.
    pub fn as_slice(&self) -> &[u8]
        ensures { result.now ≡ bytes_of self.now }
    {
        &self.at[..self.len as usize]
    }
}
