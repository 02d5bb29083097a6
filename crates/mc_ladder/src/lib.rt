//! Call ladders: a journal as a picture in text, with a column for each box and a row for each turn.
#![tactic(auto)]

mod arrow;
mod column;
mod frame;
mod glyph;
mod heads;
mod ladder;
mod lanes;
pub mod laws;
mod margin;
mod mark;
mod path;
mod place;
mod settle;
mod signal;
mod taking;
mod turn;

pub use arrow::Arrow;
pub use column::{column_of, columns_of, drawn_columns};
pub use frame::Frame;
pub use glyph::{Glyph, Style};
pub use ladder::draw_ladder;
pub use margin::{Label, is_marked};
pub use mark::Mark;
pub use mc_ladder_choice::make;
pub use path::{Ends, ends_of, is_stop, path_columns};
pub use place::{box_word, codec_word, place_of, place_word, slot_word};
pub use settle::{flow_word, medium_word};
pub use signal::{put_codecs, put_signal, put_word, signal_word};
pub use taking::{Taking, taking_of};
pub use turn::{arrow_of, command_word, mark_of, put_command_rest, state_at, state_word};
