//! One allocation, cut into many buffers of bytes of one size.
//!
//! The buffers are opened together. Each is an owner of the block, which goes with the last of
//! them. Nothing is written to a buffer's memory before it is filled.
#![tactic(auto)]

mod block;
mod buffer;
#[cfg(test)]
mod tests;
mod tether;

pub use crate::buffer::BlockBuf;
