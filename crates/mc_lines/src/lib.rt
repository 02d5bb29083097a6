//! The lines of a network's text: what each says, and the first rule that it breaks.
#![tactic(auto)]

mod codec_words;
mod detail;
mod keyword;
pub mod laws;
pub mod limit;
mod places;
mod reader;
mod section;
mod tail;
mod wanting;

pub use detail::{Detail, Limit, Why};
pub use keyword::keyword_of;
pub use reader::{ChannelLine, Declarations, Reader, lesser};
pub use section::{Keyword, Section};
pub use tail::{Tail, ends_commands};
