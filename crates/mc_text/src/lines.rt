//! Where the lines of a text and the words of a line stand.

ghost use Rattle.std.specs.Prelude.{◌≡◌, ◌+◌, ◌<◌, ◌≤◌, [], ◌∷◌, length, drop, slice_range, MatchOption, IfSome, ◌==◌, not, position};
ghost use Rattle.std.specs.List.{position_or_len, before_first, after_first};
ghost use Rattle.mc_text.specs.Lines.{is_line_end, is_space, lines, words};

use memchr::memchr;

/// Where the line that begins at `from` ends: the place of its line end, or the end of the text.
pub fn line_end(text: &[u8], from: usize) -> usize
    requires { from ≤ length text.now }
    ensures within { result ≤ length text.now }
    ensures first { result ≡ from + position_or_len is_line_end (drop from text.now) }
    ensures line { from < length text.now → lines (drop from text.now)
        ≡ slice_range text.now from result ∷ lines (drop (result + 1) text.now) }
{
    from + line_len(rest_of(text, from))
}

/// The first line of a text without its end, and what stands after that end.
#[inline]
pub fn next_line(text: &[u8]) -> (&[u8], &[u8])
    requires { 0 < length text.now }
    ensures first { lines text.now ≡ result.0.now ∷ lines result.1.now }
    ensures line { result.0.now ≡ before_first is_line_end text.now }
    ensures rest { result.1.now ≡ after_first is_line_end text.now }
    ensures ended { 0 < length result.1.now
        → length result.0.now + 1 + length result.1.now ≡ length text.now }
    ensures shorter { length result.0.now + length result.1.now ≤ length text.now }
    ensures nearer { length result.1.now < length text.now }
{
    let (line, rest) = text.split_at(line_len(text));
    (line, without_first(rest))
}

/// Where the next word of a line begins and where it ends, from `from` on. None where only spaces are left.
pub fn next_word(line: &[u8], from: usize) -> Option<(usize, usize)>
    requires { from ≤ length line.now }
    ensures within { IfSome result
        (λ place. (from ≤ place.0) × (place.0 < place.1) × (place.1 ≤ length line.now)) }
    ensures next { MatchOption result (words (drop from line.now) ≡ []) (λ place. words (drop from line.now)
        ≡ slice_range line.now place.0 place.1 ∷ words (drop place.1 line.now)) }
{
    let rest = rest_of(line, from);
    let start = first_other(rest)?;
    let len = word_len(rest_of(rest, start));
    Some((from + start, from + start + len))
}

/// The bytes from a place on.
pub fn rest_of(bytes: &[u8], from: usize) -> &[u8]
    requires { from ≤ length bytes.now }
    ensures { result.now ≡ drop from bytes.now }
{
    bytes.split_at(from).1
}

// How many bytes stand before the first line end, or all where there is none. An empty line is told at once: a search
// that reads many bytes at a time takes longer to begin than one byte takes.
fn line_len(bytes: &[u8]) -> usize
    ensures within { result ≤ length bytes.now }
    ensures first { result ≡ position_or_len is_line_end bytes.now }
{
    match bytes {
        [b'\n', ..] => 0,
        _ => search_line_end(bytes),
    }
}

// The same by a search. It stands apart, so that what tells an empty line is short.
#[inline(never)]
fn search_line_end(bytes: &[u8]) -> usize
    ensures within { result ≤ length bytes.now }
    ensures first { result ≡ position_or_len is_line_end bytes.now }
{
    memchr(b'\n', bytes).unwrap_or(bytes.len())
}

/// How many bytes stand before the first space, or all where there is none.
pub fn word_len(bytes: &[u8]) -> usize
    ensures within { result ≤ length bytes.now }
    ensures first { result ≡ position_or_len is_space bytes.now }
{
    first_space(bytes).unwrap_or(bytes.len())
}

fn first_space(bytes: &[u8]) -> Option<usize>
    ensures { result ≡ position is_space bytes.now }
{
    bytes.iter().position(|byte| *byte == b' ')
}

/// Where the first byte stands that is no space.
pub fn first_other(bytes: &[u8]) -> Option<usize>
    ensures { result ≡ position (λ byte. not (byte == 32)) bytes.now }
{
    bytes.iter().position(|byte| *byte != b' ')
}

// The bytes less the first, where there is one.
fn without_first(bytes: &[u8]) -> &[u8]
    ensures { result.now ≡ drop 1 bytes.now }
{
    match bytes {
        [] => bytes,
        [_, others @ ..] => others,
    }
}
