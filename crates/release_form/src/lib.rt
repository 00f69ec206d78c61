//! The records that leave the gateway, which modems read: samples bound to their context, samples
//! and packets without one, acknowledgements, refusals, versions, and the counts at the end.
#![tactic(auto)]

#[cfg(test)]
mod edge_tests;
mod fields;
mod front;
mod positions;
#[cfg(test)]
mod push_tests;
mod pushing;
mod reading;
mod refusal;
mod round_trip;
mod samples;
mod shown;
mod size;
#[cfg(test)]
mod tests;
mod writing;

pub use crate::pushing::{push_record, push_run};
pub use crate::reading::decode;
pub use crate::refusal::Refusal;
pub use crate::round_trip::one_to_one;
pub use crate::shown::Shown;
pub use crate::size::size_of;
pub use crate::writing::encode;
