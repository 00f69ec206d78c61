ghost use Rattle.sample_unpack.specs.Bits.{bits_of, bits_of_bytes, signed_bits_of, signed_number_of};
ghost use Rattle.sample_unpack.specs.Samples.{LieWithin, bits_of_samples, samples_from};
ghost use Rattle.std.specs.Prelude.{◌≡◌, ◌+◌, ◌*◌, ◌/◌, ◌%◌, ◌<◌, ◌≤◌, length, drop};

use crate::item::items_of;
use crate::put::{put_double, put_half, put_word};
use crate::wide::two_at;
use crate::window::sample_at;

/// Writes samples number `first`, `first + 1` and so on of `payload` into `into` as items of 16 bits
/// each, I before Q, as many as it has room for. Their items in the payload have `bits` bits each and
/// stand one after another across word boundaries.
///
/// It is what `unpack_into` and then `pack_into` with 16 bits give, without the samples between.
#[inline]
pub fn widen_into(payload: &[u8], bits: u8, first: u32, into: &mut [u8])
    requires some_bits { 4 ≤ bits }
    requires most_bits { bits ≤ 16 }
    requires whole_samples { length into.old % 4 ≡ 0 }
    requires within { LieWithin bits first (length into.old / 4) (length payload.now) }
    ensures { bits_of_bytes into.new
        ≡ bits_of_samples 16 (samples_from bits (bits_of_bytes payload.now) first
        (length into.old / 4)) }
{
    match bits {
        4 => widen_items(payload, 4, first, into),
        5 => widen_items(payload, 5, first, into),
        6 => widen_items(payload, 6, first, into),
        7 => widen_items(payload, 7, first, into),
        8 => widen_bytes(payload, first, into),
        9 => widen_items(payload, 9, first, into),
        10 => widen_items(payload, 10, first, into),
        11 => widen_items(payload, 11, first, into),
        12 => widen_items(payload, 12, first, into),
        13 => widen_items(payload, 13, first, into),
        14 => widen_items(payload, 14, first, into),
        16 => copy_halves(payload, first, into),
        _ => widen_items(payload, 15, first, into),
    }
}

/// The samples whose items are bytes.
fn widen_bytes(payload: &[u8], first: u32, into: &mut [u8])
    requires whole_samples { length into.old % 4 ≡ 0 }
    requires within { LieWithin 8 first (length into.old / 4) (length payload.now) }
    ensures { bits_of_bytes into.new
        ≡ bits_of_samples 16 (samples_from 8 (bits_of_bytes payload.now) first
        (length into.old / 4)) }
{
    let first = first as usize;
    for index in 0..into.len() / 4 {
        let place = 2 * (first + index);
        put_half(into, 4 * index, widened_byte(payload[place]));
        put_half(into, 4 * index + 2, widened_byte(payload[place + 1]));
    }
}

/// An item of 8 bits as one of 16.
#[inline]
fn widened_byte(byte: u8) -> u16
    ensures { bits_of 16 result ≡ signed_bits_of 16 (signed_number_of (bits_of 8 byte)) }
{
    i16::from(byte.cast_signed()).cast_unsigned()
}

/// The samples whose items are half words, which stand as they are.
fn copy_halves(payload: &[u8], first: u32, into: &mut [u8])
    requires whole_samples { length into.old % 4 ≡ 0 }
    requires within { LieWithin 16 first (length into.old / 4) (length payload.now) }
    ensures { bits_of_bytes into.new
        ≡ bits_of_samples 16 (samples_from 16 (bits_of_bytes payload.now) first
        (length into.old / 4)) }
{
    if !into.is_empty() {
        let start = 4 * first as usize;
        into.copy_from_slice(&payload[start..start + into.len()]);
    }
}

/// The samples whose items have any width: up to three until one begins on a byte, and then fours.
#[inline(always)]
fn widen_items(payload: &[u8], width: u32, first: u32, into: &mut [u8])
    requires some { 1 ≤ width }
    requires most { width ≤ 16 }
    requires whole_samples { length into.old % 4 ≡ 0 }
    requires within { LieWithin width first (length into.old / 4) (length payload.now) }
    ensures { bits_of_bytes into.new
        ≡ bits_of_samples 16 (samples_from width (bits_of_bytes payload.now) first
        (length into.old / 4)) }
{
    let start = u64::from(2 * width) * u64::from(first);
    let next_four = (u64::from(first) + 3) / 4;
    let lead = (into.len() / 4).min(((4 - first % 4) % 4) as usize);
    widen_each(
        payload,
        width,
        (start / 8) as usize,
        (start % 8) as u32,
        &mut into[..4 * lead],
    );
    widen_fours(
        payload,
        width,
        (next_four * u64::from(width)) as usize,
        &mut into[4 * lead..],
    );
}

/// The samples from the byte at `start` on. Four of them are `width` bytes.
#[inline(always)]
fn widen_fours(payload: &[u8], width: u32, start: usize, into: &mut [u8])
    requires some { 1 ≤ width }
    requires most { width ≤ 16 }
    requires whole_samples { length into.old % 4 ≡ 0 }
    requires within { 0 < length into.old
        → 8 * start + 2 * width * (length into.old / 4) ≤ 8 * length payload.now }
    ensures { bits_of_bytes into.new
        ≡ bits_of_samples 16 (samples_from width (drop (8 * start) (bits_of_bytes payload.now)) 0
        (length into.old / 4)) }
{
    let fours = whole_fours(payload.len(), start, width as usize, into.len());
    for index in 0..fours {
        let at = start + width as usize * index;
        put_double(into, 16 * index, two_at(payload, at, 0, width));
        put_double(into, 16 * index + 8, two_at(payload, at, 4 * width, width));
    }
    widen_each(
        payload,
        width,
        start + width as usize * fours,
        0,
        &mut into[16 * fours..],
    );
}

/// How many fours there is room for, of which each has eight bytes behind it.
#[inline(always)]
fn whole_fours(payload: usize, start: usize, width: usize, room: usize) -> usize
    requires { 1 ≤ width }
    ensures room { 16 * result ≤ room }
    ensures within { 0 < result → start + width * result + 8 ≤ payload }
{
    let bytes = payload.saturating_sub(start).saturating_sub(8);
    (bytes / width).min(room / 16)
}

/// The samples from bit `offset` of the byte at `at` on, one by one.
#[inline(always)]
fn widen_each(payload: &[u8], width: u32, at: usize, offset: u32, into: &mut [u8])
    requires some { 1 ≤ width }
    requires most { width ≤ 16 }
    requires offset { offset < 8 }
    requires whole_samples { length into.old % 4 ≡ 0 }
    requires within { 0 < length into.old
        → 8 * at + offset + 2 * width * (length into.old / 4) ≤ 8 * length payload.now }
    ensures { bits_of_bytes into.new
        ≡ bits_of_samples 16 (samples_from width
        (drop (8 * at + offset) (bits_of_bytes payload.now)) 0 (length into.old / 4)) }
{
    let mut at = at;
    let mut offset = offset;
    for index in 0..into.len() / 4 {
        put_word(
            into,
            4 * index,
            items_of(sample_at(payload, at, offset, width), 16),
        );
        offset += 2 * width;
        at += (offset / 8) as usize;
        offset %= 8;
    }
}
