//! Call ladders as SVG: a journal as a picture with a column for each box and a row for each turn, whose text stays text.
#![tactic(auto)]

mod arrow;
mod drawing;
mod element;
mod head;
mod mark;
mod measure;
mod path;
mod route;
mod row;
mod settle;
mod sheet;
mod signal;
mod turn;

pub use drawing::draw_svg;
