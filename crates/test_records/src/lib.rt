//! Records in memory, which the tests of several crates read, and a player of rows of words.
#![tactic(auto)]

mod rows;
#[cfg(test)]
mod tests;

pub use crate::rows::is_edge;
use std::alloc::{AllocError, Global};

/// The words of a context packet of stream 1 with the count 0: bandwidth 280,000 Hz, IF 70 MHz, RF
/// 1,200 MHz, gain 10 dB, 350,000 samples of 16 bits in a second.
pub const BASE: [u32; 27] = [
    0x4960_001B,
    1,
    0x006A_621E,
    1,
    0x6553_F100,
    0,
    0,
    0xFBB9_8000,
    0x64,
    0x44,
    0x5C00_0000,
    0x42C1,
    0xD800_0000,
    0x0004_7868,
    0xC000_0000,
    0,
    0,
    0,
    0x500,
    0x55,
    0x7300_0000,
    0,
    0,
    0,
    0xC00C_0000,
    0xA000_03CF,
    0,
];

/// The words of a header of form 1 without routes: seconds in UTC, at most 400 words a packet, no
/// windows, four contexts kept, eight packets waiting. RF, gain and sample rate can be set.
pub const HEADER: [u32; 83] = [
    0x4449_4649,
    0x5245_4331,
    0x006A_621E,
    1,
    400,
    0,
    0,
    4,
    8,
    0,
    // No identity.
    0,
    0,
    0,
    0,
    0,
    // The initial fields.
    0x64,
    0x44,
    0x5C00_0000,
    0x42C1,
    0xD800_0000,
    0x0004_7868,
    0xC000_0000,
    0,
    0,
    0,
    0x500,
    0x55,
    0x7300_0000,
    0,
    0,
    0,
    0xC00C_0000,
    0xA000_03CF,
    0,
    // Bandwidth and IF reference.
    0,
    0,
    0,
    0,
    0,
    0,
    0,
    0,
    0,
    0,
    0,
    0,
    0,
    0,
    // RF reference: from 1 to 2 GHz by 1 Hz.
    1,
    0,
    0x0010_0000,
    0x0003_B9AC,
    0xA000_0000,
    0x0007_7359,
    0x4000_0000,
    // IF offset and reference level.
    0,
    0,
    0,
    0,
    0,
    0,
    0,
    0,
    0,
    0,
    0,
    0,
    0,
    0,
    // Gain: from -20 to 20 dB by half a decibel.
    1,
    0,
    64,
    0xFFFF_FFFF,
    0xFFFF_F600,
    0,
    2_560,
    // Sample rate: from 100 kHz to 1 MHz by 1 Hz.
    1,
    0,
    0x0010_0000,
    0x18,
    0x6A00_0000,
    0xF4,
    0x2400_0000,
];

/// Where the words of a header have the end of its magic and the number of its routes.
const FORM: usize = 1;

const ROUTES: usize = 9;

/// The end of the magic of form 2.
const SECOND: u32 = 0x5245_4332;

/// A route of form 1 from stream 1 to port 9.
const ROUTE: [u32; 2] = [1, 0x0009_0000];

/// The words of the header with one route, from stream 1 to port 9: form 1.
pub fn routed() -> [u32; 85] {
    let mut words = [0; 85];
    words[..83].copy_from_slice(&HEADER);
    words[ROUTES] = 1;
    words[83..].copy_from_slice(&ROUTE);
    words
}

/// The header of a record with one route in form 2, in front of the route.
pub fn second_form() -> [u32; 83] {
    let mut words = HEADER;
    words[FORM] = SECOND;
    words[ROUTES] = 1;
    words
}

/// The words in front of a datagram of so many bytes that came at this second on port 5.
pub fn frame_head(seconds: u32, length: u32) -> [u32; 5] {
    [seconds, 0, 0, 0x0005_0000, length]
}

/// Puts words behind the bytes, the highest byte of each first.
pub fn push_words(bytes: &mut Vec<u8>, words: &[u32]) -> Result<(), AllocError> {
    for word in words {
        bytes.extend_from_slice(&word.to_be_bytes())?;
    }
    Ok(())
}

/// The bytes of these words.
pub fn datagram(alloc: Global, words: &[u32]) -> Result<Vec<u8>, AllocError> {
    let mut bytes = Vec::new(alloc);
    push_words(&mut bytes, words)?;
    Ok(bytes)
}

/// Puts a frame behind the bytes of a record: a datagram that came at 0x6553F10A s on port 5.
pub fn push_frame(record: &mut Vec<u8>, datagram: &[u8]) -> Result<(), AllocError> {
    let length = u32::try_from(datagram.len()).unwrap_or(0);
    push_words(record, &frame_head(0x6553_F10A, length))?;
    record.extend_from_slice(datagram)
}
