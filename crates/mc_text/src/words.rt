//! The words of a line, read one after another.

ghost use Rattle.std.specs.Prelude.{◌≡◌, drop};
ghost use Rattle.std.specs.List.{slice_get};
ghost use Rattle.std.specs.Option.{option_copied};
ghost use Rattle.std.specs.Iterator.{YieldsFirstRef, item_count};
ghost use Rattle.mc_text.specs.Lines.{words};

use crate::lines::{first_other, rest_of, word_len};
use std::marker::Model;

/// The words of a line that are still to be read.
#[derive(Drop)]
pub struct Words<'a> {
    rest: &'a [u8],
}

impl<'a> Model for Words<'a> {
    ghost use Rattle.std.specs.Prelude.{List, ℕ};
    ghost use Rattle.mc_text.specs.Lines.{words};

    ghost Value = { List (List ℕ) };

    ghost view = { λ w. words w.rest.now };
}

impl<'a> Words<'a> {
    /// All words of a line.
    pub fn new(line: &'a [u8]) -> Words<'a>
        ensures { result ≡ words line.now }
    {
        Words { rest: line }
    }

    /// The next word. None where no word is left.
    pub fn next_word(&mut self) -> Option<&'a [u8]>
        ensures word { option_copied result ≡ slice_get self.old 0 }
        ensures rest { self.new ≡ drop 1 self.old }
    {
        let start = first_other(self.rest)?;
        let words = rest_of(self.rest, start);
        let (word, rest) = words.split_at(word_len(words));
        self.rest = rest;
        Some(word)
    }

    /// The same words, to be read anew from here.
    pub fn again(&self) -> Words<'a>
        ensures { result ≡ self.now }
    {
        Words { rest: self.rest }
    }
}

impl<'a> Iterator for Words<'a> {
    type Item = &'a [u8];

    ghost next_gives = { YieldsFirstRef (λ words. words) };

    ghost remaining = { item_count (λ words. words) };

    fn next(&mut self) -> Option<&'a [u8]> {
        self.next_word()
    }
}

/// The first six of a line's words that are left, each None where the line has no such word.
#[derive(Drop)]
pub struct FirstWords<'a> {
    pub first: Option<&'a [u8]>,
    pub second: Option<&'a [u8]>,
    pub third: Option<&'a [u8]>,
    pub fourth: Option<&'a [u8]>,
    pub fifth: Option<&'a [u8]>,
    pub sixth: Option<&'a [u8]>,
}

impl<'a> FirstWords<'a> {
    /// Reads the next six words.
    pub fn new(mut words: Words<'a>) -> FirstWords<'a>
        ensures first { option_copied result.first ≡ slice_get words.entry 0 }
        ensures second { option_copied result.second ≡ slice_get words.entry 1 }
        ensures third { option_copied result.third ≡ slice_get words.entry 2 }
        ensures fourth { option_copied result.fourth ≡ slice_get words.entry 3 }
        ensures fifth { option_copied result.fifth ≡ slice_get words.entry 4 }
        ensures sixth { option_copied result.sixth ≡ slice_get words.entry 5 }
    {
        FirstWords {
            first: words.next_word(),
            second: words.next_word(),
            third: words.next_word(),
            fourth: words.next_word(),
            fifth: words.next_word(),
            sixth: words.next_word(),
        }
    }
}
