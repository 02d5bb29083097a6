// What a box is made of.

use crate::event::Kind;
use mc_rule::Program;
use mc_signal::{CodecList, Medium};

/// Where a device's slot wants its media, and where it sends them from. No decision of a box depends on it: it is
/// told to the far end as it is.
#[derive(Clone, Copy, PartialEq, Eq, Debug)]
pub struct MediaAddress {
    /// An IPv4 address, or any other number by which the far end finds the device.
    pub addr: u32,
    pub port: u16,
}

/// A slot of a box that is to be made: its number among all slots, its medium, whether it is on the side of the
/// channel's initiator, and its media address. Without one, the slot of a device has the box's number and 1 for its
/// address, and 5000 and its local number for its port. The slot of a feature has none, whatever is given here.
#[derive(Clone, Copy, PartialEq, Eq, Debug)]
pub struct SlotSetup {
    pub origin: u32,
    pub medium: Medium,
    pub initiator: bool,
    pub address: Option<MediaAddress>,
}

/// What a slot's descriptors are made of: the slot's number among all slots, the newest version, whether it hears and
/// talks, and the media address that it was given.
#[derive(Clone, Copy, PartialEq, Eq, Debug)]
pub struct SlotMedia {
    pub origin: u32,
    pub version: u32,
    pub hears: bool,
    pub talks: bool,
    pub address: Option<MediaAddress>,
}

/// A box that is to be made. `codecs` is what it receives and `sends` what it sends. A feature may have a program.
#[derive(Debug, Drop)]
pub struct Setup {
    pub kind: Kind,
    pub number: u32,
    pub codecs: CodecList,
    pub sends: CodecList,
    pub first_version: u32,
    pub slots: Vec<SlotSetup>,
    pub program: Option<Program>,
}
