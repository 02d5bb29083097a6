//! How names and numbers are spelt.

ghost use Rattle.std.specs.Prelude.{◌≡◌, IsTrue};
ghost use Rattle.std.specs.List.{list_all};
ghost use Rattle.std.specs.Str.Parse.{digits_value};
ghost use Rattle.mc_text.specs.Spelling.{is_letter, is_digit, is_name_byte, is_spelt, is_name, is_numeral, number_of};

use crate::limit::NAME_LIMIT;
/// Whether a word is a name: 1 to 16 bytes, the first `a` to `z`, the others `a` to `z`, `0` to `9`, `_` or `-`.
pub fn is_name(word: &[u8]) -> bool
    ensures { result ≡ is_name word.now }
{
    is_spelt(word) && word.len() <= NAME_LIMIT
}

/// Whether a word is spelt as a name, of whatever length.
pub fn is_spelt(word: &[u8]) -> bool
    ensures { result ≡ is_spelt word.now }
{
    match word {
        [] => false,
        [first, others @ ..] => is_letter(*first) && are_name_bytes(others),
    }
}

/// The number that a word spells: `0`, or 1 to 10 digits without a leading zero, at most 4,294,967,295.
/// None where it spells none.
pub fn read_number(word: &[u8]) -> Option<u32>
    ensures { result ≡ number_of word.now }
{
    if !is_numeral(word) {
        return None;
    }
    u32::try_from(digits_value(word)).ok()
}

fn are_name_bytes(bytes: &[u8]) -> bool
    ensures { result ≡ list_all is_name_byte bytes.now }
{
    bytes.iter().all(|byte| is_name_byte(*byte))
}

fn is_name_byte(byte: u8) -> bool
    ensures { result ≡ is_name_byte byte }
{
    is_letter(byte) || is_digit(byte) || byte == b'_' || byte == b'-'
}

fn is_letter(byte: u8) -> bool
    ensures { result ≡ is_letter byte }
{
    b'a' <= byte && byte <= b'z'
}

fn are_digits(bytes: &[u8]) -> bool
    ensures { result ≡ list_all is_digit bytes.now }
{
    bytes.iter().all(|byte| is_digit(*byte))
}

fn is_digit(byte: u8) -> bool
    ensures { result ≡ is_digit byte }
{
    b'0' <= byte && byte <= b'9'
}

// Whether a word is `0`, or 1 to 10 digits without a leading zero.
fn is_numeral(word: &[u8]) -> bool
    ensures { result ≡ is_numeral word.now }
{
    match word {
        [] => false,
        [first, others @ ..] => {
            are_digits(word) && others.len() < 10 && (others.is_empty() || *first != b'0')
        }
    }
}

// The value of at most ten digits.
fn digits_value(word: &[u8]) -> u64
    requires { IsTrue (is_numeral word.now) }
    ensures { result ≡ digits_value 10 word.now }
{
    let mut value = 0;
    for digit in word {
        value = value * 10 + u64::from(*digit - b'0');
    }
    value
}
