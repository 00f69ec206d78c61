//! Commands and their cancellations, both ways (after ANSI/VITA 49.2-2017, sections 8.3 and 8.5).
#![tactic(auto)]

mod cancel;
mod cancel_reading;
mod cancel_writing;
mod control;
mod control_reading;
mod control_writing;
mod round_trip;
#[cfg(test)]
mod tests;

pub use crate::cancel::Cancel;
pub use crate::cancel_reading::decode_cancel;
pub use crate::cancel_writing::encode_cancel;
pub use crate::control::Control;
pub use crate::control_reading::decode_control;
pub use crate::control_writing::encode_control;
pub use crate::round_trip::one_to_one;
