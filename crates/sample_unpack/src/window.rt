ghost use Rattle.sample_unpack.specs.Bits.{bits_of, bits_of_bytes};
ghost use Rattle.sample_unpack.specs.Samples.{sample_of, samples_from};
ghost use Rattle.std.specs.Prelude.{◌≡◌, ◌+◌, ◌*◌, ◌/◌, ◌<◌, ◌≤◌, ◌^◌, ◌++◌, length, take, drop, replicate};

use crate::Sample;
use crate::item::sample_from;
use byteorder::{BigEndian, ByteOrder};

/// The number in the last bytes of a payload, fewer than eight, with zeros behind the end.
#[cold]
fn last_window(rest: &[u8]) -> u64
    requires { length rest.now < 8 }
    ensures { bits_of 64 result ≡ take 64 (bits_of_bytes rest.now ++ replicate 64 0) }
{
    let mut last = [0; 8];
    last[..rest.len()].copy_from_slice(rest);
    BigEndian::read_u64(&last)
}

/// The number in the eight bytes from `at` on, with zeros behind the payload's end.
#[inline]
fn window_at(payload: &[u8], at: usize) -> u64
    requires { at ≤ length payload.now }
    ensures { bits_of 64 result
        ≡ take 64 (drop (8 * at) (bits_of_bytes payload.now) ++ replicate 64 0) }
{
    let rest = &payload[at..];
    if rest.len() < 8 {
        return last_window(rest);
    }
    BigEndian::read_u64(rest)
}

/// The two items, of `width` bits each, from bit `offset` of a window on.
#[inline(always)]
fn items_in(window: u64, offset: u32, width: u32) -> u32
    requires some { 1 ≤ width }
    requires most { width ≤ 16 }
    requires within { offset + 2 * width ≤ 64 }
    ensures fits { result < 2 ^ (2 * width) }
    ensures items { bits_of (2 * width) result
        ≡ take (2 * width) (drop offset (bits_of 64 window)) }
{
    ((window << offset) >> (64 - 2 * width)) as u32
}

/// The four items, of `width` bits each, from bit `offset` of a window on.
#[inline(always)]
pub(crate) fn four_in(window: u64, offset: u32, width: u32) -> u64
    requires some { 1 ≤ width }
    requires most { width ≤ 16 }
    requires within { offset + 4 * width ≤ 64 }
    ensures fits { result < 2 ^ (4 * width) }
    ensures items { bits_of (4 * width) result
        ≡ take (4 * width) (drop offset (bits_of 64 window)) }
{
    (window << offset) >> (64 - 4 * width)
}

/// The sample from bit `offset` of the byte at `at` on.
#[inline(always)]
pub(crate) fn sample_at(payload: &[u8], at: usize, offset: u32, width: u32) -> Sample
    requires some { 1 ≤ width }
    requires most { width ≤ 16 }
    requires offset { offset < 8 }
    requires within { 8 * at + offset + 2 * width ≤ 8 * length payload.now }
    ensures { result ≡ sample_of width (drop (8 * at + offset) (bits_of_bytes payload.now)) }
{
    sample_from(items_in(window_at(payload, at), offset, width), width)
}

/// The sample from bit `bit` on behind `at`, where eight bytes are there to read it from.
#[inline(always)]
fn sample_behind(payload: &[u8], at: usize, bit: u32, width: u32) -> Sample
    requires some { 1 ≤ width }
    requires most { width ≤ 16 }
    requires within { at + bit / 8 + 8 ≤ length payload.now }
    ensures { result ≡ sample_of width (drop (8 * at + bit) (bits_of_bytes payload.now)) }
{
    let window = BigEndian::read_u64(&payload[at + (bit / 8) as usize..]);
    sample_from(items_in(window, bit % 8, width), width)
}

/// The four samples in the `width` bytes from `at` on, with bytes behind them.
#[inline(always)]
pub(crate) fn four_at(payload: &[u8], at: usize, width: u32) -> [Sample; 4]
    requires some { 1 ≤ width }
    requires most { width ≤ 16 }
    requires room { at + 20 ≤ length payload.now }
    ensures { result ≡ samples_from width (drop (8 * at) (bits_of_bytes payload.now)) 0 4 }
{
    [
        sample_behind(payload, at, 0, width),
        sample_behind(payload, at, 2 * width, width),
        sample_behind(payload, at, 4 * width, width),
        sample_behind(payload, at, 6 * width, width),
    ]
}

/// The sample of two bytes at `at`.
#[inline]
pub(crate) fn sample_of_half(payload: &[u8], at: usize) -> Sample
    requires { at + 2 ≤ length payload.now }
    ensures { result ≡ sample_of 8 (drop (8 * at) (bits_of_bytes payload.now)) }
{
    Sample {
        i: i16::from(payload[at].cast_signed()),
        q: i16::from(payload[at + 1].cast_signed()),
    }
}

/// The sample of two half words at `at`.
#[inline]
pub(crate) fn sample_of_word(payload: &[u8], at: usize) -> Sample
    requires { at + 4 ≤ length payload.now }
    ensures { result ≡ sample_of 16 (drop (8 * at) (bits_of_bytes payload.now)) }
{
    sample_from(BigEndian::read_u32(&payload[at..]), 16)
}
