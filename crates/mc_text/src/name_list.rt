//! A list of names, none of them twice.

ghost use Rattle.std.specs.Prelude.{◌≡◌, ◌<◌, [], length, OnOk, OnErr, IsTrue, Some, None, position, slice_index_or};
ghost use Rattle.std.specs.List.{slice_get};
ghost use Rattle.std.specs.Option.{option_copied};
ghost use Rattle.std.specs.Str.{bytes_eq};
ghost use Rattle.mc_text.specs.Adding.{add_name, GivesNumber};
ghost use Rattle.mc_text.specs.NameLists.{place_of, with_name};
ghost use Rattle.mc_text.specs.Spelling.{is_name};

use crate::name_fault::NameFault;
use indexmap::IndexSet;
use std::alloc::{AllocError, Global};
use std::marker::Model;

// The most names among which one is found by comparing each with it.
const FEW_NAMES: usize = 4;

/// Names in the order in which they were added, none of them twice. A name's number is its place.
#[derive(Drop)]
pub struct NameList {
    alloc: Global,
    names: IndexSet<Vec<u8>>,
}

impl Model for NameList {
    ghost use Rattle.std.specs.Prelude.{List, ℕ, map};

    ghost Value = { List (List ℕ) };

    ghost use Rattle.mc_text.specs.NameLists.{AreNames};

    ghost view = { λ list. map (λ name. name.items) list.names.keys };

    ghost invariant = { λ list. AreNames (map (λ name. name.items) list.names.keys) };
}

impl NameList {
    /// The list without names.
    pub fn new(alloc: Global) -> NameList
        ensures { result ≡ [] }
    {
        NameList {
            alloc,
            names: IndexSet::new(alloc),
        }
    }

    /// How many names there are.
    pub fn len(&self) -> usize
        ensures { result ≡ length self.now }
    {
        self.names.len()
    }

    /// The number of a name. Among few names each is compared with it, which takes less time than a look-up by hash.
    pub fn find(&self, name: &[u8]) -> Option<usize>
        ensures { result ≡ place_of self.now name.now }
    {
        if self.names.len() <= FEW_NAMES {
            return place_among(self.names.as_slice(), name);
        }
        self.names.get_index_of(name)
    }

    /// The name that has a number.
    pub fn name(&self, number: usize) -> &[u8]
        requires { number < length self.now }
        ensures name { result.now ≡ slice_index_or self.now number [] }
        ensures found { place_of self.now result.now ≡ Some number }
        ensures spelt { IsTrue (is_name result.now) }
    {
        let _ = &self.names;
        self.get(number).unwrap()
    }

    fn get(&self, number: usize) -> Option<&[u8]>
        ensures { option_copied result ≡ slice_get self.now number }
    {
        self.names.get_index(number).map(|name| name.as_slice())
    }

    /// The number that a name would have if it were added. It is refused where the list has it, and then
    /// where the list has `limit` names.
    pub fn place_for(&self, limit: usize, name: &[u8]) -> Result<usize, NameFault>
        ensures { result ≡ add_name self.now limit name.now }
    {
        if self.find(name).is_some() {
            return Err(NameFault::Used);
        }
        if limit <= self.len() {
            return Err(NameFault::TooMany);
        }
        Ok(self.len())
    }

    /// Adds a new name last.
    pub fn push(&mut self, name: &[u8]) -> Result<(), AllocError>
        requires name { IsTrue (is_name name.now) }
        requires new { place_of self.old name.now ≡ None }
        ensures added { OnOk result (self.new ≡ with_name self.old name.now) }
        ensures unchanged { OnErr result (self.new ≡ self.old) }
    {
        let owned = Vec::from_slice(self.alloc, name)?;
        self.names.insert(owned)?;
        Ok(())
    }

    /// Adds a name last and answers its number, if the list hasn't got it and has fewer than `limit`.
    pub fn add(&mut self, limit: usize, name: &[u8]) -> Result<usize, NameFault>
        requires { IsTrue (is_name name.now) }
        ensures answer { GivesNumber result (add_name self.old limit name.now) }
        ensures added { OnOk result (self.new ≡ with_name self.old name.now) }
        ensures unchanged { OnErr result (self.new ≡ self.old) }
    {
        let number = self.place_for(limit, name)?;
        self.push(name).map_err(NameFault::NoMemory)?;
        Ok(number)
    }
}

// The place of a name among these, by comparing it with each.
fn place_among(names: &[Vec<u8>], name: &[u8]) -> Option<usize>
    ensures { result ≡ position (λ own. bytes_eq name.now own.items) names.now }
{
    names.iter().position(|own| name == own.as_slice())
}
