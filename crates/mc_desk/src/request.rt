// What lies on a desk.

use mc_box::Event;

/// What an operator asks of a box. `operator` is its number, below 8, and `index` is the number of its requests that
/// were accepted before. A request without an event says that the operator has ended.
#[derive(Clone, Copy, PartialEq, Eq, Debug)]
pub struct Request {
    pub operator: u32,
    pub index: u32,
    pub event: Option<Event>,
}
