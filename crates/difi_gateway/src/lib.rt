//! The gateway: a record's frames become the releases that modems read.
#![tactic(auto)]

mod calling;
mod content;
mod drawing;
mod drawn;
mod gateway;
#[cfg(test)]
mod gateway_tests;
mod laws;
mod moving;
mod opening;
#[cfg(test)]
mod opening_tests;
mod parts;
mod replay;
#[cfg(test)]
mod replay_tests;
mod replaying;
mod stage;
mod telling;
mod writing;

pub use crate::gateway::Gateway;
pub use crate::laws::{
    calls_are_of_packets, counts_are_at_most_bytes, datagrams_hold_one_thing, each_record_is_true,
    each_sample_is_told_once, forms_have_the_same_releases, frames_have_one_text,
    more_bytes_append, more_frames_append, refused_frames_change_no_run, releases_are_true,
    releases_can_be_written, runs_are_of_outputs, samples_are_bound_where_nothing_is_lost,
    streams_are_kept_apart,
};
pub use crate::replay::replay_run;
pub use record_run::{Options, Status};
