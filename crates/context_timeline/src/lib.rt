//! The contexts of one stream in the order of their stamps, of which the last are kept, and what
//! they say of a moment: which of them is in force then, or why none is said to be.
#![tactic(auto)]

mod laws;
mod look;
mod mark;
mod search;
#[cfg(test)]
mod tests;
mod timed_context;
mod timeline;

pub use crate::laws::marks_speak_of_all_contexts;
pub use crate::look::Look;
pub use crate::mark::Mark;
pub use crate::timed_context::TimedContext;
pub use crate::timeline::Timeline;
