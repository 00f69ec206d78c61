//! The lines of `check` and `show`: what is told of each frame of a record, and the last line.
#![tactic(auto)]

mod command_details;
mod details;
mod fields;
mod frame_words;
mod lines;
#[cfg(test)]
mod tests;

pub use crate::details::push_under;
pub use crate::frame_words::FrameWords;
pub use crate::lines::{Judgement, Listing, accepted, push_counts, push_line};
pub use text_buffer::TextBuffer;
