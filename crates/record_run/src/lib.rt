//! The one loop of all commands that read: from a source through an intake to a teller, and what it
//! tells to a sink.
#![tactic(auto)]

mod intake;
mod options;
mod outgoing;
mod reading;
#[cfg(test)]
mod reads_tests;
mod record;
mod run;
mod status;
mod teller;
#[cfg(test)]
mod tests;
mod transfer;
#[cfg(test)]
mod trial;

pub use crate::intake::Intake;
pub use crate::options::Options;
pub use crate::record::ReceivedFrame;
pub use crate::run::run_record;
pub use crate::status::Status;
pub use crate::teller::Teller;
