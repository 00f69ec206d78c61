//! Packets of any kind: the whole grammar of a record's datagrams, and the one place at which a
//! datagram outside of it is refused (IEEE-ISTO Std 4900-2021, after ANSI/VITA 49.2-2017).
#![tactic(auto)]

mod classifying;
mod kind;
mod packet;
mod round_trip;
#[cfg(test)]
mod tests;
mod writing;

pub use crate::classifying::classify;
pub use crate::kind::{PacketKind, kind_and_stream};
pub use crate::packet::{Packet, decode};
pub use crate::round_trip::one_to_one;
pub use crate::writing::{encode, size_of};
