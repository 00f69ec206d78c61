//! Data packets of a stream: the samples of a signal, from the prologue's stamp on
//! (IEEE-ISTO Std 4900-2021, standard flow signal data packet).
#![tactic(auto)]

mod packet;
mod round_trip;
#[cfg(test)]
mod tests;

pub use crate::packet::{DataRec, decode, encode};
pub use crate::round_trip::one_to_one;
