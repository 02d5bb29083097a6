//! Boxes that run freely, while operators ask them.
#![tactic(auto)]

mod all_askers;
mod all_boxes;
mod asker;
mod asking;
mod box_run;
mod collecting;
mod course;
pub mod laws;
pub mod limit;
mod running;
mod together;

pub use all_askers::run_askers;
pub use all_boxes::run_boxes;
pub use asker::Asker;
pub use asking::ask_all;
pub use box_run::BoxRun;
pub use course::{Course, Pace};
pub use running::run_box;
pub use together::run_together;
