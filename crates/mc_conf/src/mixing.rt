// Who hears whom in a conference.
ghost use Rattle.std.specs.Prelude.{◌≡◌, ◌++◌, IfOk, OnOk};
ghost use Rattle.std.specs.List.{filter_map};
ghost use Rattle.mc_conf.specs.Mixes.{first_codec, heard_codec, mix_of, mixes, mixes_of};

use crate::party::{Leg, legs_in_order};
use mc_signal::CodecList;
use mc_view::PathView;
use std::alloc::{AllocError, Global};

/// That a party hears another, each by its box and its local slot there, and the codec in which it does: the first of
/// its own.
#[derive(Clone, Copy, PartialEq, Eq, Debug)]
pub struct Mix {
    pub hearer: (u32, u8),
    pub heard: (u32, u8),
    pub codec: u8,
}

/// Whom a mixer at a box would let each party hear: each pair of parties of two legs of one medium, of which the one
/// wants media and the other can send some. They come by the hearer, and then by the heard, both in rising slot number.
///
/// It takes time for each path and for each pair of parties.
pub fn mixes(alloc: Global, views: &[PathView], who: u32) -> Result<Vec<Mix>, AllocError>
    ensures { IfOk result (λ found. found.items ≡ mixes views.now who) }
{
    let legs = legs_in_order(alloc, views, who)?;
    mixes_of(alloc, &legs)
}

// Who hears whom of these parties.
fn mixes_of(alloc: Global, legs: &[Leg]) -> Result<Vec<Mix>, AllocError>
    ensures { IfOk result (λ found. found.items ≡ mixes_of legs.now) }
{
    let mut found = Vec::new(alloc);
    for hearer in legs {
        add_heard(hearer, legs, &mut found)?;
    }
    Ok(found)
}

// Whom a party hears of these comes to the end.
fn add_heard(hearer: &Leg, legs: &[Leg], found: &mut Vec<Mix>) -> Result<(), AllocError>
    ensures { OnOk result (found.new.items ≡ found.old.items ++ filter_map (mix_of hearer.now) legs.now) }
{
    for heard in legs {
        if let Some(mix) = mix_of(hearer, heard) {
            found.push(mix)?;
        }
    }
    Ok(())
}

// That a party hears another, if it does.
fn mix_of(hearer: &Leg, heard: &Leg) -> Option<Mix>
    ensures { result ≡ mix_of hearer.now heard.now }
{
    let codec = heard_codec(hearer, heard)?;
    Some(Mix {
        hearer: (hearer.party.who, hearer.party.local),
        heard: (heard.party.who, heard.party.local),
        codec,
    })
}

// The codec in which a party hears another, if it does.
fn heard_codec(hearer: &Leg, heard: &Leg) -> Option<u8>
    ensures { result ≡ heard_codec hearer.now heard.now }
{
    let apart = hearer.party.slot != heard.party.slot;
    if apart && hearer.medium == heard.medium && first_codec(&heard.party.sends).is_some() {
        first_codec(&hearer.party.own.codecs)
    } else {
        None
    }
}

// The first codec of a list, if there is one.
fn first_codec(list: &CodecList) -> Option<u8>
    ensures { result ≡ first_codec list.now }
{
    list.as_slice().first().copied()
}
