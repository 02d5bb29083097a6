//! What of a journal is drawn: which of its turns, which paths at its settles, and which boxes take part in them.
#![tactic(auto)]

mod boxes;
mod choice;
mod closings;
mod count;
mod making;
mod survey;

pub use boxes::{add_new, is_among, path_boxes};
pub use choice::{Choice, Span};
pub use count::Count;
pub use making::{make, make_noted, pass};
pub use survey::{Survey, look_through};
