//! The 32-bit big-endian words of a datagram, their bit fields, and what it means that a packet
//! begins with them. Nothing here names a kind of packet.
#![tactic(auto)]

mod bits;
mod length;
mod packet_buf;
mod place;
#[cfg(test)]
mod tests;
mod words;

pub use crate::bits::{bits_of, with_bits};
pub use crate::length::check_size;
pub use crate::packet_buf::PacketBuf;
pub use crate::place::{NoMemory, Place};
pub use crate::words::{put_word, put_words, read_words, word_at, word_in, word_or_place};
