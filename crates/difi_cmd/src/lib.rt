//! The commands of the gateway: what a line of words does with a source and a sink, and the status
//! that it ends with.
#![tactic(auto)]

mod judging;
mod laws;
mod list;
mod migrate;
mod migration;
mod options;
mod report;
mod run;
#[cfg(test)]
mod tests;
mod words;

pub use crate::laws::{
    bytes_have_one_status, bytes_have_one_text, migrated_keeps_its_releases, migrated_once,
};
pub use crate::run::difi_run;
pub use crate::words::words_ask_for_one_line;
pub use record_run::{Options, Status};
