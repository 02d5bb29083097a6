// Whether names are the same.

ghost use Rattle.std.specs.Prelude.{◌≡◌, ◌<◌, ◌≤◌, [], length, slice_index_or, MatchBool};
ghost use Rattle.mc_net_text.specs.Names.{IsList, names_in};
ghost use Rattle.mc_text.specs.declared.limit.TheConstants.{BOX_LIMIT};

use mc_text::Names;

// A list of names.
#[derive(Clone, Copy)]
pub enum NamesOf {
    Codecs,
    Boxes,
    Slots(u32),
    Told,
}

impl NamesOf {
    // How many names it has.
    fn count(self, names: &Names) -> usize
        requires { IsList names.now self }
        ensures count { result ≡ length (names_in names.now self) }
        ensures few { result ≤ BOX_LIMIT }
    {
        match self {
            NamesOf::Codecs => names.codec_count(),
            NamesOf::Boxes => names.box_count(),
            NamesOf::Slots(who) => names.slot_count(who),
            NamesOf::Told => names.told_count(),
        }
    }

    // The name that has a number in it.
    fn name(self, names: &Names, number: usize) -> &[u8]
        requires list { IsList names.now self }
        requires within { number < length (names_in names.now self) }
        requires few { number < BOX_LIMIT }
        ensures { result.now ≡ slice_index_or (names_in names.now self) number [] }
    {
        match self {
            NamesOf::Codecs => names.codec_name(number as u8),
            NamesOf::Boxes => names.box_name(number as u32),
            NamesOf::Slots(who) => names.slot_name(who, number as u8),
            NamesOf::Told => names.told_name(number as u8),
        }
    }

    // Whether it has the same names in both.
    fn is_same(self, names: &Names, other: &Names) -> bool
        requires here { IsList names.now self }
        requires there { IsList other.now self }
        ensures { MatchBool result (names_in names.now self ≡ names_in other.now self)
            (names_in names.now self ≡ names_in other.now self → ⊥) }
    {
        let count = self.count(names);
        if count != self.count(other) {
            return false;
        }
        for number in 0..count {
            if self.name(names, number) != self.name(other, number) {
                return false;
            }
        }
        true
    }
}

// Whether all names are the same.
pub fn are_same_names(names: &Names, other: &Names) -> bool
    ensures { MatchBool result (names.now ≡ other.now) (names.now ≡ other.now → ⊥) }
{
    NamesOf::Codecs.is_same(names, other)
        && NamesOf::Told.is_same(names, other)
        && NamesOf::Boxes.is_same(names, other)
        && are_same_slots(names, other)
}

// Whether there are as many boxes, each with the same slots.
fn are_same_slots(names: &Names, other: &Names) -> bool
    ensures { MatchBool result (names.now.slots ≡ other.now.slots) (names.now.slots ≡ other.now.slots → ⊥) }
{
    let count = names.box_count();
    if count != other.box_count() {
        return false;
    }
    for who in 0..count {
        if !NamesOf::Slots(who as u32).is_same(names, other) {
            return false;
        }
    }
    true
}
