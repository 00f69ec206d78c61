//! The prologue of a packet: its header, stream identifier, class identifier and time stamp, as the
//! profile of a record allows them (IEEE-ISTO Std 4900-2021, after ANSI/VITA 49.2-2017, section 5.1).
#![tactic(auto)]

#[cfg(test)]
mod edges;
mod header;
mod of_kind;
mod profile;
mod prologue;
mod round_trip;
#[cfg(test)]
mod tests;
mod writing;

pub use crate::header::{Header, Kind, kind_of};
pub use crate::of_kind::{kind_in, read_prologue_of};
pub use crate::profile::Profile;
pub use crate::prologue::{Prologue, read_prologue};
pub use crate::round_trip::one_to_one;
pub use crate::writing::write_prologue;
