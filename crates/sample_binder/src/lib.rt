//! Binds the samples of a stream's data packets to the contexts in force when they were captured.
#![tactic(auto)]

mod arrive;
mod binder;
mod binding;
mod cut;
mod decide;
mod drain;
mod front;
mod give;
mod label;
mod laws;
mod out;
mod queue;
mod reason;
mod sampling;
#[cfg(test)]
mod tests;

pub use crate::arrive::Turned;
pub use crate::binder::Binder;
pub use crate::front::{Front, front_of};
pub use crate::label::Label;
pub use crate::laws::{
    data_packets_are_read, due_events_are_the_first, events_are_all_releases, outputs_append,
    outputs_are_whole_packets, packets_are_sound, releases_only_grow, samples_are_at_most_bytes,
    stretches_are_the_longest, taken_are_outputs, turned_away_changes_nothing,
};
pub use crate::out::{Given, Out, Run};
pub use crate::reason::Reason;
pub use vrt_fields::Limits;
