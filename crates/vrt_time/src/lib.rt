//! Time as packets carry it: a stamp of whole seconds and picoseconds, the moment of a stamp as a
//! number of picoseconds, and the moment at which a sample of a packet was captured.
#![tactic(auto)]

mod moment;
mod order;
mod sampling;
mod stamp;
#[cfg(test)]
mod tests;

pub use crate::moment::Moment;
pub use crate::order::{moments_compare_as_numbers, stamps_compare_as_moments};
pub use crate::sampling::{capture, captured_before};
pub use crate::stamp::Stamp;
