//! Captures of Ethernet frames in the classic pcap form, behind the header of a record: read in any
//! pieces and written, and the UDP datagrams that they hold.
#![tactic(auto)]

mod datagram;
#[cfg(test)]
mod datagram_tests;
mod encode;
mod event;
mod form;
mod judge;
mod laws;
mod numbers;
mod reader;
mod stage;
mod take;
#[cfg(test)]
mod tests;

pub use crate::datagram::{Datagram, datagram_of};
pub use crate::encode::{encode_capture, encode_file_head};
pub use crate::event::CaptureEvent;
pub use crate::form::FileForm;
pub use crate::laws::{one_capture, one_datagram, written_is_read};
pub use crate::reader::CaptureReader;
pub use replay_form::{RecordFault, RecordHead, Stamp};
pub use vrt_words::NoMemory;
