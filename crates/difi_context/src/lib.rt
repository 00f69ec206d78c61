//! Context packets of a stream: what a converter says of the signal from a stamp on
//! (IEEE-ISTO Std 4900-2021, standard flow signal context packet).
#![tactic(auto)]

mod context;
#[cfg(test)]
mod edges;
mod fields;
mod round_trip;
#[cfg(test)]
mod tests;
mod writing;

pub use crate::context::{ContextRec, decode};
pub use crate::round_trip::one_to_one;
pub use crate::writing::encode;
