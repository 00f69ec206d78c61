//! Where bytes come from and where they go, and the gate that a stage passes at each turn.
#![tactic(auto)]

mod failed;
mod failures;
mod gate;
mod mem_sink;
mod mem_source;
mod sink;
mod source;
mod std_sink;
mod std_source;
mod sure_sink;
mod sure_source;
#[cfg(test)]
mod tests;

pub use crate::failed::Failed;
pub use crate::gate::{Gate, NoGate};
pub use crate::mem_sink::MemSink;
pub use crate::mem_source::MemSource;
pub use crate::sink::Sink;
pub use crate::source::Source;
pub use crate::std_sink::StdSink;
pub use crate::std_source::StdSource;
pub use crate::sure_sink::SureSink;
pub use crate::sure_source::SureSource;
