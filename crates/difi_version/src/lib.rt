//! Version packets of a stream: which version of the specification a converter speaks, and its own.
//!
//! Their form is this project's own. It is made after the version packets of IEEE-ISTO Std 4900-2021
//! and the indicator fields of ANSI/VITA 49.2-2017, and is no statement about them.
#![tactic(auto)]

#[cfg(test)]
mod edges;
mod round_trip;
#[cfg(test)]
mod tests;
mod version;

pub use crate::round_trip::one_to_one;
pub use crate::version::{VersionRec, decode, encode};
