ghost use Rattle.sample_unpack.specs.Bits.{bits_of_bytes};
ghost use Rattle.sample_unpack.specs.Samples.{LieWithin, SampleFits, bits_from, bits_of_samples, samples_from, words_for};
ghost use Rattle.std.specs.Prelude.{◌≡◌, ℕ, ◌+◌, ◌-◌, ◌*◌, ◌≤◌, List, ◌++◌, All, length, take, drop, replicate};

use crate::Sample;
use crate::item::items_of;
use crate::put::{first_word, joined, put_half, put_last, put_word};

/// Writes samples into `into`, which has exactly the 32-bit words that they take. Their items have
/// `bits` bits each and stand one after another across word boundaries, I before Q. The unused bits
/// at the end are 0.
///
/// The same samples are read back, and samples that were read have the bits that were read.
#[inline]
pub fn pack_into(samples: &[Sample], bits: u8, into: &mut [u8])
    requires some_bits { 4 ≤ bits }
    requires most_bits { bits ≤ 16 }
    requires fits { All (SampleFits bits) samples.now }
    requires whole_words { length into.old ≡ 4 * words_for bits (length samples.now) }
    ensures packed { bits_of_bytes into.new
        ≡ bits_of_samples bits samples.now
        ++ replicate (8 * length into.old - 2 * bits * length samples.now) 0 }
    ensures read_back { samples_from bits (bits_of_bytes into.new) 0 (length samples.now)
        ≡ samples.now }
    ensures again { (payload : List ℕ) (first : ℕ)
        → LieWithin bits first (length samples.now) (length payload)
        → samples.now ≡ samples_from bits (bits_of_bytes payload) first (length samples.now)
        → bits_from bits (bits_of_bytes into.new) 0 (length samples.now)
        ≡ bits_from bits (bits_of_bytes payload) first (length samples.now) }
{
    pack_by_width(samples, bits, into);
}

/// One loop for each width, so that the masks in it are constants.
#[inline]
fn pack_by_width(samples: &[Sample], bits: u8, into: &mut [u8])
    requires some_bits { 4 ≤ bits }
    requires most_bits { bits ≤ 16 }
    requires fits { All (SampleFits bits) samples.now }
    requires whole_words { length into.old ≡ 4 * words_for bits (length samples.now) }
    ensures { bits_of_bytes into.new
        ≡ bits_of_samples bits samples.now
        ++ replicate (8 * length into.old - 2 * bits * length samples.now) 0 }
{
    match bits {
        4 => pack_items(samples, 4, into),
        5 => pack_items(samples, 5, into),
        6 => pack_items(samples, 6, into),
        7 => pack_items(samples, 7, into),
        8 => pack_bytes(samples, into),
        9 => pack_items(samples, 9, into),
        10 => pack_items(samples, 10, into),
        11 => pack_items(samples, 11, into),
        12 => pack_items(samples, 12, into),
        13 => pack_items(samples, 13, into),
        14 => pack_items(samples, 14, into),
        16 => pack_halves(samples, into),
        _ => pack_items(samples, 15, into),
    }
}

/// The samples whose items are bytes: two of them a word.
fn pack_bytes(samples: &[Sample], into: &mut [u8])
    requires fits { All (SampleFits 8) samples.now }
    requires whole_words { length into.old ≡ 4 * words_for 8 (length samples.now) }
    ensures { bits_of_bytes into.new
        ≡ bits_of_samples 8 samples.now
        ++ replicate (8 * length into.old - 16 * length samples.now) 0 }
{
    for (index, sample) in samples.iter().enumerate() {
        put_half(into, 2 * index, items_of(*sample, 8) as u16);
    }
    if samples.len() % 2 == 1 {
        put_half(into, 2 * samples.len(), 0);
    }
}

/// The samples whose items are half words: each is a word.
fn pack_halves(samples: &[Sample], into: &mut [u8])
    requires fits { All (SampleFits 16) samples.now }
    requires whole_words { length into.old ≡ 4 * words_for 16 (length samples.now) }
    ensures { bits_of_bytes into.new
        ≡ bits_of_samples 16 samples.now
        ++ replicate (8 * length into.old - 32 * length samples.now) 0 }
{
    for (index, sample) in samples.iter().enumerate() {
        put_word(into, 4 * index, items_of(*sample, 16));
    }
}

/// The samples whose items have any width: bits wait until a word is full.
#[inline(always)]
fn pack_items(samples: &[Sample], width: u32, into: &mut [u8])
    requires some { 1 ≤ width }
    requires most { width ≤ 16 }
    requires fits { All (SampleFits width) samples.now }
    requires whole_words { length into.old ≡ 4 * words_for width (length samples.now) }
    ensures { bits_of_bytes into.new
        ≡ bits_of_samples width samples.now
        ++ replicate (8 * length into.old - 2 * width * length samples.now) 0 }
{
    let size = 2 * width;
    let mut words = 0;
    let mut held = 0;
    let mut waiting = 0;
    for sample in samples {
        waiting = joined(waiting, held, items_of(*sample, width), size);
        held += size;
        if held >= 32 {
            held -= 32;
            let (word, rest) = first_word(waiting, held);
            put_word(into, 4 * words, word);
            waiting = rest;
            words += 1;
        }
    }
    put_last(into, words, waiting, held);
}
