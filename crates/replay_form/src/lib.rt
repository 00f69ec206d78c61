//! The record of received datagrams: a header and frames, read in any pieces and written.
#![tactic(auto)]

#[cfg(test)]
mod edge_tests;
mod event;
mod frame_field;
mod frame_writing;
mod head_field;
mod head_reading;
mod head_rules;
mod head_writing;
mod judge_head;
mod laws;
mod migrate;
mod numbers;
mod put;
mod reader;
mod record_head;
mod route_list;
mod take;
#[cfg(test)]
mod tests;

pub use crate::event::{Event, RecordFault};
pub use crate::frame_writing::encode_frame;
pub use crate::head_writing::encode_head;
pub use crate::laws::{one_verdict, one_verdict_within, rules_of_values};
pub use crate::migrate::{migrate_head, migrate_head_into};
pub use crate::reader::RecordReader;
pub use crate::record_head::RecordHead;
pub use crate::route_list::RouteList;
pub use cam_field::Ident;
pub use vrt_fields::{Limit, Limits, Route};
pub use vrt_header::Profile;
pub use vrt_time::Stamp;
