// Where the lines of a journal stand in its text.

ghost use Rattle.std.specs.Prelude.{◌≡◌, ◌≤◌, false, length};
ghost use Rattle.mc_journal.specs.Places.{before_after, is_wanted, line_place};
ghost use Rattle.mc_journal.specs.Readings.{readings};
ghost use Rattle.mc_script.specs.Places.{Fits};
ghost use Rattle.mc_text.specs.Lines.{lines};

use crate::reading::{LineReading, line_reading};
use mc_box::Shape;
use mc_text::{Names, next_line};

impl LineReading {
    // Whether the line is one of the journal with none to come before it, or no line of a journal.
    fn is_wanted(self, before: usize) -> bool
        ensures { result ≡ is_wanted self before }
    {
        match self {
            LineReading::Skipped => false,
            LineReading::Line(_) => before == 0,
            LineReading::Bad => true,
        }
    }

    // How many lines of the journal are still to come before the wanted one.
    fn before_after(self, before: usize) -> usize
        requires { is_wanted self before ≡ false }
        ensures { result ≡ before_after self before }
    {
        match self {
            LineReading::Skipped => before,
            LineReading::Line(_) => before - 1,
            LineReading::Bad => before,
        }
    }
}

/// How many lines of a journal's text stand before the line of the journal that comes after so many others. Where the
/// journal has no such line, it is the first line of the text that is none, or the text's end. Lines that are skipped
/// count.
pub fn line_place(names: &Names, shape: &Shape, text: &[u8], before: usize) -> usize
    requires { Fits names.now shape.now }
    ensures place { result ≡ line_place (readings names.now shape.now text.now) before }
    ensures within { result ≤ length text.now }
{
    let mut rest = text;
    let mut place = 0;
    let mut left = before;
    while !rest.is_empty() {
        let (first, others) = next_line(rest);
        let reading = line_reading(names, shape, first);
        if reading.is_wanted(left) {
            return place;
        }
        left = reading.before_after(left);
        place += 1;
        rest = others;
    }
    place
}

/// How many lines a text has.
pub fn line_count(text: &[u8]) -> usize
    ensures count { result ≡ length (lines text.now) }
    ensures within { result ≤ length text.now }
{
    let mut rest = text;
    let mut count = 0;
    while !rest.is_empty() {
        rest = next_line(rest).1;
        count += 1;
    }
    count
}
