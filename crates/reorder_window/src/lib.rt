//! The reorder window of a stream: it puts packets that arrive out of order, or twice, into the
//! order of their stamps, and counts those that were lost between them.
#![tactic(auto)]

mod arrival;
mod entry;
mod held_item;
mod judge;
mod laws;
mod release;
#[cfg(test)]
mod tests;
mod window;

pub use crate::arrival::Arrival;
pub use crate::held_item::HeldItem;
pub use crate::laws::{
    accepted_are_arrivals, first_arrivals_are_accepted, numbers_lost_are_absent,
};
pub use crate::window::Window;
