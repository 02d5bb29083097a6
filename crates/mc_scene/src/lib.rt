//! Example networks as texts: two scenes, and chains of features that are drawn by a number.
#![tactic(auto)]

mod chains;
mod groups;
pub mod limit;
mod scenes;
mod texts;

pub use scenes::{Scene, scene_text};
pub use texts::generated;
