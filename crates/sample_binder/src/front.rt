ghost use Rattle.std.specs.Prelude.{◌≡◌, ◌<◌, ◌≤◌, length, slice_index};
ghost use Rattle.vrt_words.specs.Words.{words_of};
ghost use Rattle.sample_binder.specs.Calls.{data_stamp, data_count, front_in, shape_in};
ghost use Rattle.sample_binder.specs.Given.{IsDataBytes};

use crate::sampling::Shape;
use vrt_time::Stamp;
use vrt_words::{bits_of, word_in};

/// What a window reads of a data packet: when its first sample was captured, and its count.
#[derive(Clone, Copy, Debug, PartialEq, Eq)]
pub struct Front {
    /// When the first sample was captured.
    pub stamp: Stamp,
    /// The packet count, modulo 16.
    pub count: u8,
}

/// The front of a data packet, from its bytes: they need not be in its buffer yet.
pub fn front_of(bytes: &[u8]) -> Front
    requires { IsDataBytes bytes.now }
    ensures { result ≡ front_in bytes.now }
{
    Front {
        stamp: stamp_of(bytes),
        count: packet_count(bytes),
    }
}

// The stamp of a data packet.
fn stamp_of(bytes: &[u8]) -> Stamp
    requires { IsDataBytes bytes.now }
    ensures { result ≡ data_stamp bytes.now }
{
    match Stamp::of_parts(word(bytes, 4), word(bytes, 5), word(bytes, 6)) {
        Some(stamp) => stamp,
        None => unreachable!(),
    }
}

// The packet count, modulo 16.
fn packet_count(bytes: &[u8]) -> u8
    requires { IsDataBytes bytes.now }
    ensures { result ≡ data_count bytes.now }
{
    bits_of(word(bytes, 0), 16, 4) as u8
}

// What counts of a data packet of this stamp beside its samples.
pub(crate) fn shape_of(stamp: Stamp, bytes: &[u8]) -> Shape
    requires { IsDataBytes bytes.now }
    ensures { result ≡ shape_in stamp bytes.now }
{
    Shape {
        stamp,
        words: (bytes.len() / 4) as u32 - 7,
        pad: bits_of(word(bytes, 2), 27, 5) as u8,
    }
}

// A word of a datagram.
fn word(bytes: &[u8], index: usize) -> u32
    requires { index < length (words_of bytes.now) }
    ensures { result ≡ slice_index (words_of bytes.now) index }
{
    word_in(bytes, index)
}
