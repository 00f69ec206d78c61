//! Acknowledgements of commands, both ways (after ANSI/VITA 49.2-2017, section 8.4).
#![tactic(auto)]

mod ack;
mod listing;
mod mask;
mod reading;
mod reports;
mod responses;
mod round_trip;
#[cfg(test)]
mod tests;
mod writing;

pub use crate::ack::{Ack, AckReport, AckState};
pub use crate::reading::decode_ack;
pub use crate::responses::Responses;
pub use crate::round_trip::{one_to_one, responses_of_answers};
pub use crate::writing::encode_ack;
