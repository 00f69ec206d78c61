//! The prologue of commands, cancellations and acknowledgements: a packet's prologue, the control
//! and acknowledge mode word, the message identifier, and the identities of the controllee and the
//! controller (after ANSI/VITA 49.2-2017, section 8.2).
#![tactic(auto)]

mod identity;
mod mode;
mod prologue;
mod reading;
mod round_trip;
#[cfg(test)]
mod tests;
mod writing;

pub use crate::prologue::CommandPrologue;
pub use crate::reading::read_command_prologue;
pub use crate::round_trip::one_to_one;
pub use crate::writing::write_command_prologue;
