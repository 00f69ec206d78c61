//! The control and acknowledge mode word (CAM) of the command family, after ANSI/VITA 49.2-2017,
//! section 8.2, and the identities that its bits announce.
#![tactic(auto)]

mod cam;
mod ident;
mod modes;
#[cfg(test)]
mod role_tests;
mod round_trip;
#[cfg(test)]
mod tests;

pub use crate::cam::Cam;
pub use crate::ident::{Ident, same_ident};
pub use crate::modes::{Action, Role, Timing};
pub use crate::round_trip::one_to_one;
