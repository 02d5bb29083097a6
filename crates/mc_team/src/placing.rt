// The places of a channel's slots.

ghost use Rattle.std.specs.Prelude.{◌≡◌, ◌<◌, ◌≤◌, length, slice_set};
ghost use Rattle.mc_team.specs.Layouts.{AreSlotsApart, AreSlotsInside, ArePlaced, inner_lists, of_box};
ghost use Rattle.mc_model.specs.declared.channel.TheConstants.{TUNNEL_LIMIT};

use mc_model::Channel;

/// Each slot of a channel gets its place: the channel end of its side, and its tunnel.
pub fn place_tunnels(channel: &Channel, from_end: u8, to_end: u8, places: &mut Vec<Vec<(u8, u8)>>)
    requires few { length channel.now.tunnels ≤ TUNNEL_LIMIT }
    requires inside { AreSlotsInside channel.now (inner_lists places.old.items) }
    requires apart { AreSlotsApart channel.now }
    ensures { ArePlaced channel.now from_end to_end (inner_lists places.old.items) (inner_lists places.new.items) }
{
    for within in 0..channel.tunnels.len() {
        let tunnel = channel.tunnels[within];
        put(places, channel.from, tunnel.from, (from_end, within as u8));
        put(places, channel.to, tunnel.to, (to_end, within as u8));
    }
}

// One slot gets its place.
fn put(places: &mut Vec<Vec<(u8, u8)>>, who: u32, local: u8, place: (u8, u8))
    requires here { who < length (inner_lists places.old.items) }
    requires slot { local < length (of_box (inner_lists places.old.items) who) }
    ensures { inner_lists places.new.items
        ≡ slice_set (inner_lists places.old.items) who
        (slice_set (of_box (inner_lists places.old.items) who) local place) }
{
    places[who as usize][local as usize] = place;
}
