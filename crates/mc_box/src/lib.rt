//! A box of a call: its slots and their goals, links among them, and what each of its events does.
#![tactic(auto)]

mod acts;
mod event;
mod goals;
pub mod laws;
pub mod limit;
mod loading;
mod media_box;
mod parts;
mod setup;
mod shifts;
mod turns;

pub use event::{BoxShape, Change, Event, Kind, MediaChange, Shape, Turn};
pub use media_box::{MediaBox, VersionEnd};
pub use parts::BoxParts;
pub use setup::{MediaAddress, Setup, SlotMedia, SlotSetup};
