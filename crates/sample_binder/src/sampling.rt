ghost use Rattle.std.specs.Prelude.{◌≡◌, ◌≤◌, ◌<◌, IfSome, ◌^◌, ℕ, nat_lt};
ghost use Rattle.sample_binder.specs.Samples.{rate_in, size_in, number_of};
ghost use Rattle.vrt_time.specs.Time.{moment_of, capture_at};

use sample_unpack::count_of;
use vrt_fields::{item_size_of, raw_rate};
use vrt_time::{Moment, Stamp, capture, captured_before};

/// Picoseconds in a second, times the units of a rate in one hertz.
const RAW_PERIOD: u128 = 1_000_000_000_000 << 20;

/// What counts of a data packet beside its samples.
#[derive(Clone, Copy, Debug, PartialEq, Eq)]
pub(crate) struct Shape {
    /// When its first sample was captured.
    pub(crate) stamp: Stamp,
    /// The words of its payload.
    pub(crate) words: u32,
    /// The unused bits at the end of its payload.
    pub(crate) pad: u8,
}

/// The samples of a packet, timed and laid out by the context of the first.
#[derive(Clone, Copy)]
pub(crate) struct Sampled {
    /// When the first sample was captured.
    pub(crate) stamp: Stamp,
    /// The words of the fields of the first sample's context.
    pub(crate) fields: [u32; 19],
    /// How many samples they are.
    pub(crate) number: u32,
}

// The raw sample rate of a context, in units of 2^-20 Hz.
pub(crate) fn rate_of(fields: &[u32; 19]) -> u64
    ensures { result ≡ rate_in fields.now }
{
    raw_rate(fields)
}

// The item size of a context, in bits.
pub(crate) fn size_of(fields: &[u32; 19]) -> u8
    ensures { result ≡ size_in fields.now }
{
    item_size_of(fields)
}

// How many samples a packet has, where its payload divides by this item size.
pub(crate) fn samples_of(shape: &Shape, bits: u8) -> Option<u32>
    requires words { shape.now.words ≤ 16369 }
    requires pad { shape.now.pad ≤ 31 }
    requires some_bits { 4 ≤ bits }
    requires most_bits { bits ≤ 16 }
    ensures number { result ≡ number_of shape.now bits }
    ensures some { IfSome result (λ number. 0 < number) }
{
    count_of(shape.words, shape.pad, bits)
}

// When a sample was captured.
#[inline]
pub(crate) fn captured(stamp: Stamp, sample: u32, rate: u64) -> Moment
    requires least { 2 ^ 20 ≤ rate }
    requires most { rate < 2 ^ 63 }
    ensures { result ≡ capture_at stamp sample rate }
{
    if sample == 0 {
        return stamp.moment();
    }
    capture(stamp, sample, rate as i64)
}

// Whether a sample was captured before a stamp.
#[inline]
pub(crate) fn is_captured_before(stamp: Stamp, sample: u32, rate: u64, until: Stamp) -> bool
    requires least { 2 ^ 20 ≤ rate }
    requires most { rate < 2 ^ 63 }
    ensures { result ≡ nat_lt (capture_at stamp sample rate) (moment_of until) }
{
    let start = stamp.moment().picos();
    let end = until.moment().picos();
    if end <= start {
        return false;
    }
    if end - start < 1 << 64 {
        // No division: the sample comes so many periods later.
        return u128::from(sample) * RAW_PERIOD < (end - start) * u128::from(rate);
    }
    captured(stamp, sample, rate).picos() < end
}

// How many of so many samples were captured before a stamp.
#[inline]
pub(crate) fn samples_before(stamp: Stamp, rate: u64, number: u32, until: Stamp) -> u32
    requires least { 2 ^ 20 ≤ rate }
    requires most { rate < 2 ^ 63 }
    requires some { 0 < number }
    ensures within { result ≤ number }
    ensures before { (m : ℕ) → m < result → capture_at stamp m rate < moment_of until }
    ensures behind { (m : ℕ) → result ≤ m → m < number → moment_of until ≤ capture_at stamp m rate }
{
    if is_captured_before(stamp, number - 1, rate, until) {
        return number;
    }
    captured_before(stamp, rate as i64, number, until.moment())
}
