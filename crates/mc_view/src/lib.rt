//! What there is to show of a path: its two ends, whether media flow, and who hears what.
#![tactic(auto)]

use mc_signal::{CodecList, Descriptor, Medium};
use mc_slot::Goal;

/// An end of a path: the number of its slot, its box and local number there, its goal, its newest descriptor,
/// what it hears and what it can send. `hears` is the codec of the selector that it last got, and none where
/// there is none, or where its path doesn't flow. `device` tells whether its box is a device.
#[derive(Clone, Copy, PartialEq, Eq, Debug)]
pub struct EndView {
    pub slot: u32,
    pub who: u32,
    pub local: u8,
    pub goal: Goal,
    pub own: Descriptor,
    pub hears: Option<u8>,
    pub sends: CodecList,
    pub device: bool,
}

/// A path: the end with the lower slot number and that with the higher, whether it flows, its medium, and how
/// many tunnels it goes over. It flows where the slots of both ends do.
#[derive(Clone, Copy, PartialEq, Eq, Debug)]
pub struct PathView {
    pub low: EndView,
    pub high: EndView,
    pub flowing: bool,
    pub medium: Medium,
    pub tunnels: u32,
}
