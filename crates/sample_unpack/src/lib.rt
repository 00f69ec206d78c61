//! Complex samples in the payload of a data packet, whose items have 4 to 16 bits each and stand
//! one after another across word boundaries, which ANSI/VITA 49.2 calls link-efficient packing: how
//! many there are, reading them, and writing them. No call allocates.
#![tactic(auto)]

mod count;
mod item;
mod laws;
mod pack;
mod put;
mod sample;
#[cfg(test)]
mod tests;
mod unpack;
mod wide;
mod widen;
#[cfg(test)]
mod widen_tests;
mod window;

pub use crate::count::count_of;
pub use crate::laws::{packing_unpacked, unpacking_packed};
pub use crate::pack::pack_into;
pub use crate::sample::Sample;
pub use crate::unpack::unpack_into;
pub use crate::widen::widen_into;
