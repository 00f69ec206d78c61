//! A buffer for texts that are to be written, with room for a full one and a piece behind it.
#![tactic(auto)]

mod buffer;
#[cfg(test)]
mod tests;

pub use crate::buffer::TextBuffer;
