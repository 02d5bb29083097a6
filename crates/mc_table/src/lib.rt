//! The printed lines of settles: each path that is shown, and who hears what on it; or counts of them in one line.
#![tactic(auto)]

mod line;
mod settle;
mod summary;
mod whys;
mod words;

pub use line::put_line;
pub use settle::{print_settle, put_settle};
pub use summary::print_summary;
pub use whys::{print_whys, why_at, why_word};
