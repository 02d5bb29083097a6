//! Where bytes come from, where they go, and where the threads of boxes may be held.
#![tactic(auto)]

mod count;
mod gate;
pub mod laws;
mod memory_sink;
mod memory_source;
mod sink;
mod source;
mod standard;
mod whole;

pub use gate::{Gate, OpenGate};
pub use memory_sink::MemSink;
pub use memory_source::MemSource;
pub use sink::Sink;
pub use source::{Failed, Source};
pub use standard::{StdSink, StdSource};
pub use whole::{SourceFault, read_up_to, write_whole};
