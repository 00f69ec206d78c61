ghost use Rattle.sample_unpack.specs.Bits.{bits_of_bytes};
ghost use Rattle.sample_unpack.specs.Samples.{LieWithin, SampleFits, samples_from};
ghost use Rattle.std.specs.Prelude.{◌≡◌, ◌+◌, ◌*◌, ◌<◌, ◌≤◌, ◌++◌, All, length, take, drop};

use crate::Sample;
use crate::window::{four_at, sample_at, sample_of_half, sample_of_word};

/// Reads samples number `first`, `first + 1` and so on of `payload` into `into`, as many as it has
/// room for. Their items have `bits` bits each and stand one after another across word boundaries,
/// I before Q.
#[inline]
pub fn unpack_into(payload: &[u8], bits: u8, first: u32, into: &mut [Sample])
    requires some_bits { 4 ≤ bits }
    requires most_bits { bits ≤ 16 }
    requires within { LieWithin bits first (length into.old) (length payload.now) }
    ensures samples { into.new
        ≡ samples_from bits (bits_of_bytes payload.now) first (length into.old) }
    ensures fit { All (SampleFits bits) into.new }
{
    unpack_by_width(payload, bits, first, into);
}

/// One loop for each width, so that the shifts in it are by constants.
#[inline]
fn unpack_by_width(payload: &[u8], bits: u8, first: u32, into: &mut [Sample])
    requires some_bits { 4 ≤ bits }
    requires most_bits { bits ≤ 16 }
    requires within { LieWithin bits first (length into.old) (length payload.now) }
    ensures { into.new ≡ samples_from bits (bits_of_bytes payload.now) first (length into.old) }
{
    match bits {
        4 => unpack_items(payload, 4, first, into),
        5 => unpack_items(payload, 5, first, into),
        6 => unpack_items(payload, 6, first, into),
        7 => unpack_items(payload, 7, first, into),
        8 => unpack_bytes(payload, first, into),
        9 => unpack_items(payload, 9, first, into),
        10 => unpack_items(payload, 10, first, into),
        11 => unpack_items(payload, 11, first, into),
        12 => unpack_items(payload, 12, first, into),
        13 => unpack_items(payload, 13, first, into),
        14 => unpack_items(payload, 14, first, into),
        16 => unpack_halves(payload, first, into),
        _ => unpack_items(payload, 15, first, into),
    }
}

/// The samples whose items are bytes.
fn unpack_bytes(payload: &[u8], first: u32, into: &mut [Sample])
    requires { LieWithin 8 first (length into.old) (length payload.now) }
    ensures { into.new ≡ samples_from 8 (bits_of_bytes payload.now) first (length into.old) }
{
    let first = first as usize;
    for (index, sample) in into.iter_mut().enumerate() {
        *sample = sample_of_half(payload, 2 * (first + index));
    }
}

/// The samples whose items are half words.
fn unpack_halves(payload: &[u8], first: u32, into: &mut [Sample])
    requires { LieWithin 16 first (length into.old) (length payload.now) }
    ensures { into.new ≡ samples_from 16 (bits_of_bytes payload.now) first (length into.old) }
{
    let first = first as usize;
    for (index, sample) in into.iter_mut().enumerate() {
        *sample = sample_of_word(payload, 4 * (first + index));
    }
}

/// The samples whose items have any width: up to three until one begins on a byte, and then fours.
#[inline(always)]
fn unpack_items(payload: &[u8], width: u32, first: u32, into: &mut [Sample])
    requires some { 1 ≤ width }
    requires most { width ≤ 16 }
    requires within { LieWithin width first (length into.old) (length payload.now) }
    ensures { into.new ≡ samples_from width (bits_of_bytes payload.now) first (length into.old) }
{
    let start = u64::from(2 * width) * u64::from(first);
    let next_four = (u64::from(first) + 3) / 4;
    let lead = into.len().min(((4 - first % 4) % 4) as usize);
    unpack_each(
        payload,
        width,
        (start / 8) as usize,
        (start % 8) as u32,
        &mut into[..lead],
    );
    unpack_fours(
        payload,
        width,
        (next_four * u64::from(width)) as usize,
        &mut into[lead..],
    );
}

/// The samples from the byte at `at` on. Four of them are `width` bytes.
#[inline(always)]
fn unpack_fours(payload: &[u8], width: u32, start: usize, into: &mut [Sample])
    requires some { 1 ≤ width }
    requires most { width ≤ 16 }
    requires within { 0 < length into.old
        → 8 * start + 2 * width * length into.old ≤ 8 * length payload.now }
    ensures { into.new
        ≡ samples_from width (drop (8 * start) (bits_of_bytes payload.now)) 0 (length into.old) }
{
    let mut at = start;
    let mut done = 0;
    while into.len() - done >= 4 && payload.len() - at >= 20 {
        put_four(into, done, four_at(payload, at, width));
        at += width as usize;
        done += 4;
    }
    unpack_each(payload, width, at, 0, &mut into[done..]);
}

/// Writes four samples from `index` on, behind what stands there.
#[inline(always)]
fn put_four(into: &mut [Sample], index: usize, four: [Sample; 4])
    requires { index + 4 ≤ length into.old }
    ensures { take (index + 4) into.new ≡ take index into.old ++ four }
{
    let [first, second, third, last] = four;
    into[index] = first;
    into[index + 1] = second;
    into[index + 2] = third;
    into[index + 3] = last;
}

/// The samples from bit `offset` of the byte at `at` on, one by one.
#[inline(always)]
fn unpack_each(payload: &[u8], width: u32, at: usize, offset: u32, into: &mut [Sample])
    requires some { 1 ≤ width }
    requires most { width ≤ 16 }
    requires offset { offset < 8 }
    requires within { 0 < length into.old
        → 8 * at + offset + 2 * width * length into.old ≤ 8 * length payload.now }
    ensures { into.new
        ≡ samples_from width (drop (8 * at + offset) (bits_of_bytes payload.now)) 0
        (length into.old) }
{
    let mut at = at;
    let mut offset = offset;
    for sample in into.iter_mut() {
        *sample = sample_at(payload, at, offset, width);
        offset += 2 * width;
        at += (offset / 8) as usize;
        offset %= 8;
    }
}
