//! The names of a text, and the numbers that they have.

ghost use Rattle.std.specs.Prelude.{◌≡◌, ◌<◌, ◌≤◌, ◌++◌, ◌∷◌, [], length, IfSome, OnOk, OnErr, IsTrue, Ok, Some, None, codes, slice_index_or, take};
ghost use Rattle.mc_text.specs.Adding.{add_name, told_number, GivesNumber};
ghost use Rattle.mc_text.specs.NameLists.{place_of, no_names, slot_names, slot_word, with_name, with_codec_name, with_box_name, with_slot_name, with_told_word};
ghost use Rattle.mc_text.specs.Spelling.{is_name};

use crate::limit::{BOX_LIMIT, CODEC_LIMIT, SLOT_LIMIT, TOLD_LIMIT};
use crate::name_fault::NameFault;
use crate::name_list::NameList;
use std::alloc::{AllocError, Global};
use std::marker::Model;

/// The names of codecs, of boxes, of the slots of each box, and the told words.
///
/// A name's number is its place in its list. Each is a name by its spelling, and none stands twice in its list.
#[derive(Drop)]
pub struct Names {
    alloc: Global,
    codecs: NameList,
    boxes: NameList,
    slots: Vec<NameList>,
    told: NameList,
}

impl Model for Names {
    ghost use Rattle.mc_text.specs.NameLists.{NameLists, HaveRoom};

    ghost Value = { NameLists };

    ghost view = { λ names. record {
      codecs = names.codecs;
      boxes = names.boxes;
      slots = names.slots.items;
      told = names.told;
    } };

    ghost invariant = { λ names. HaveRoom names.codecs names.boxes names.slots.items names.told };
}

impl Names {
    /// No names.
    pub fn new(alloc: Global) -> Names
        ensures { result ≡ no_names }
    {
        Names {
            alloc,
            codecs: NameList::new(alloc),
            boxes: NameList::new(alloc),
            slots: Vec::new(alloc),
            told: NameList::new(alloc),
        }
    }

    /// Adds a codec last, of at most 64, and answers its number.
    pub fn add_codec(&mut self, name: &[u8]) -> Result<u8, NameFault>
        requires { IsTrue (is_name name.now) }
        ensures answer { GivesNumber result (add_name self.old.codecs CODEC_LIMIT name.now) }
        ensures added { OnOk result (self.new ≡ with_codec_name self.old name.now) }
        ensures unchanged { OnErr result (self.new ≡ self.old) }
    {
        let number = self.codecs.add(CODEC_LIMIT, name)?;
        Ok(number as u8)
    }

    /// Adds a box last, of at most 256, and answers its number. It has no slots.
    pub fn add_box(&mut self, name: &[u8]) -> Result<u32, NameFault>
        requires { IsTrue (is_name name.now) }
        ensures answer { GivesNumber result (add_name self.old.boxes BOX_LIMIT name.now) }
        ensures added { OnOk result (self.new ≡ with_box_name self.old name.now) }
        ensures unchanged { OnErr result (self.new ≡ self.old) }
    {
        let number = self.boxes.place_for(BOX_LIMIT, name)?;
        match push_box(&mut self.boxes, &mut self.slots, name, self.alloc) {
            Ok(()) => Ok(number as u32),
            Err(wanting) => Err(NameFault::NoMemory(wanting)),
        }
    }

    /// Adds a slot to a box, as the last of at most 64, and answers its number in that box.
    pub fn add_slot(&mut self, who: u32, name: &[u8]) -> Result<u8, NameFault>
        requires who { who < length self.old.boxes }
        requires name { IsTrue (is_name name.now) }
        ensures answer { GivesNumber result (add_name (slot_names self.old who) SLOT_LIMIT name.now) }
        ensures added { OnOk result (self.new ≡ with_slot_name self.old who name.now) }
        ensures unchanged { OnErr result (self.new ≡ self.old) }
    {
        let slots = &mut self.slots[who as usize];
        let number = slots.add(SLOT_LIMIT, name)?;
        Ok(number as u8)
    }

    /// The number of a told word, which is added last where it is new. There are at most 64.
    pub fn add_told(&mut self, name: &[u8]) -> Result<u8, NameFault>
        requires { IsTrue (is_name name.now) }
        ensures answer { GivesNumber result (told_number self.old.told name.now) }
        ensures known { IfSome (place_of self.old.told name.now) (λ word. result ≡ Ok word) }
        ensures added { OnOk result (self.new ≡ with_told_word self.old name.now) }
        ensures unchanged { OnErr result (self.new ≡ self.old) }
    {
        if let Some(word) = self.find_told(name) {
            return Ok(word);
        }
        let number = self.told.add(TOLD_LIMIT, name)?;
        Ok(number as u8)
    }

    /// The number of a codec. None where no codec has the name.
    pub fn find_codec(&self, name: &[u8]) -> Option<u8>
        ensures place { result ≡ place_of self.now.codecs name.now }
        ensures within { IfSome result (λ codec. codec < length self.now.codecs) }
    {
        self.codecs.find(name).map(|number| number as u8)
    }

    /// The number of a box. None where no box has the name.
    pub fn find_box(&self, name: &[u8]) -> Option<u32>
        ensures place { result ≡ place_of self.now.boxes name.now }
        ensures within { IfSome result (λ who. who < length self.now.boxes) }
    {
        self.boxes.find(name).map(|number| number as u32)
    }

    /// The number of a slot in its box. None where the box has no slot of that name.
    pub fn find_slot(&self, who: u32, name: &[u8]) -> Option<u8>
        requires { who < length self.now.boxes }
        ensures place { result ≡ place_of (slot_names self.now who) name.now }
        ensures within { IfSome result (λ slot. slot < length (slot_names self.now who)) }
    {
        let slots = &self.slots[who as usize];
        slots.find(name).map(|number| number as u8)
    }

    /// The number of a told word. None where it was never added.
    pub fn find_told(&self, name: &[u8]) -> Option<u8>
        ensures place { result ≡ place_of self.now.told name.now }
        ensures within { IfSome result (λ word. word < length self.now.told) }
    {
        self.told.find(name).map(|number| number as u8)
    }

    /// The name of a codec.
    pub fn codec_name(&self, codec: u8) -> &[u8]
        requires { codec < length self.now.codecs }
        ensures name { result.now ≡ slice_index_or self.now.codecs codec [] }
        ensures found { place_of self.now.codecs result.now ≡ Some codec }
        ensures spelt { IsTrue (is_name result.now) }
    {
        self.codecs.name(codec as usize)
    }

    /// The name of a box.
    pub fn box_name(&self, who: u32) -> &[u8]
        requires { who < length self.now.boxes }
        ensures name { result.now ≡ slice_index_or self.now.boxes who [] }
        ensures found { place_of self.now.boxes result.now ≡ Some who }
        ensures spelt { IsTrue (is_name result.now) }
    {
        self.boxes.name(who as usize)
    }

    /// The name of a slot of a box.
    pub fn slot_name(&self, who: u32, slot: u8) -> &[u8]
        requires who { who < length self.now.boxes }
        requires slot { slot < length (slot_names self.now who) }
        ensures name { result.now ≡ slice_index_or (slot_names self.now who) slot [] }
        ensures found { place_of (slot_names self.now who) result.now ≡ Some slot }
        ensures spelt { IsTrue (is_name result.now) }
    {
        self.slots[who as usize].name(slot as usize)
    }

    /// The told word that has a number.
    pub fn told_name(&self, word: u8) -> &[u8]
        requires { word < length self.now.told }
        ensures name { result.now ≡ slice_index_or self.now.told word [] }
        ensures found { place_of self.now.told result.now ≡ Some word }
        ensures spelt { IsTrue (is_name result.now) }
    {
        self.told.name(word as usize)
    }

    /// How many codecs there are.
    pub fn codec_count(&self) -> usize
        ensures count { result ≡ length self.now.codecs }
        ensures limit { result ≤ CODEC_LIMIT }
    {
        self.codecs.len()
    }

    /// How many boxes there are. Each has its list of slots.
    pub fn box_count(&self) -> usize
        ensures count { result ≡ length self.now.boxes }
        ensures limit { result ≤ BOX_LIMIT }
        ensures listed { length self.now.slots ≡ result }
    {
        self.boxes.len()
    }

    /// How many slots a box has.
    pub fn slot_count(&self, who: u32) -> usize
        requires { who < length self.now.boxes }
        ensures count { result ≡ length (slot_names self.now who) }
        ensures limit { result ≤ SLOT_LIMIT }
    {
        self.slots[who as usize].len()
    }

    /// How many told words there are.
    pub fn told_count(&self) -> usize
        ensures count { result ≡ length self.now.told }
        ensures limit { result ≤ TOLD_LIMIT }
    {
        self.told.len()
    }

    /// Appends the name of a slot as `box/slot`.
    pub fn print_slot(&self, who: u32, slot: u8, out: &mut Vec<u8>) -> Result<(), AllocError>
        requires who { who < length self.now.boxes }
        requires slot { slot < length (slot_names self.now who) }
        ensures printed { OnOk result (out.new.items ≡ out.old.items ++ slot_word self.now who slot) }
        ensures unchanged { OnErr result (out.new.items ≡ out.old.items) }
    {
        let before = out.len();
        let put = put_joined(self.box_name(who), self.slot_name(who, slot), out);
        if put.is_err() {
            out.truncate(before);
        }
        put
    }
}

// Adds a new box last, with an empty list for its slots. The list has its room first, so that nothing is undone.
fn push_box(
    boxes: &mut NameList,
    slots: &mut Vec<NameList>,
    name: &[u8],
    alloc: Global,
) -> Result<(), AllocError>
    requires name { IsTrue (is_name name.now) }
    requires new { place_of boxes.old name.now ≡ None }
    ensures boxes { OnOk result (boxes.new ≡ with_name boxes.old name.now) }
    ensures slots { OnOk result (slots.new.items ≡ slots.old.items ++ [] ∷ []) }
    ensures unchanged { OnErr result ((boxes.new ≡ boxes.old) × (slots.new.items ≡ slots.old.items)) }
{
    slots.reserve(1)?;
    boxes.push(name)?;
    slots.push_reserved(NameList::new(alloc));
    Ok(())
}

// Appends two words with `/` between them. Want of memory may come in the middle.
fn put_joined(first: &[u8], second: &[u8], out: &mut Vec<u8>) -> Result<(), AllocError>
    ensures joined { OnOk result (out.new.items ≡ out.old.items ++ (first.now ++ codes "/" ++ second.now)) }
    ensures before { take (length out.old.items) out.new.items ≡ out.old.items }
{
    out.extend_from_slice(first)?;
    out.push(b'/')?;
    out.extend_from_slice(second)
}
