ghost use Rattle.std.specs.Prelude.{◌≡◌, ◌<◌, ◌≤◌, ◌^◌, ℕ, pos, ◌≤ℤ◌, unsigned_abs};
ghost use Rattle.vrt_time.specs.Time.{capture_at};

use crate::moment::Moment;
use crate::stamp::Stamp;

/// Picoseconds in a second, times the units of a rate in one hertz: a sample at the raw rate `r`
/// takes this over `r` picoseconds.
const RAW_PERIOD: u128 = 1_000_000_000_000 << 20;

/// The moment at which sample `sample` of a packet was captured. The first sample, number 0, was
/// captured at the packet's stamp.
///
/// `rate` is the raw sample rate, in units of 2^-20 Hz, and at least 1 Hz. The fraction of a
/// picosecond is cut off once, so no error adds up from sample to sample.
#[inline]
pub fn capture(stamp: Stamp, sample: u32, rate: i64) -> Moment
    requires { pos (2 ^ 20) ≤ℤ rate }
    ensures { result ≡ capture_at stamp sample (unsigned_abs rate) }
{
    let after = u128::from(sample) * RAW_PERIOD / u128::from(rate.unsigned_abs());
    Moment::of(stamp.moment().picos() + after)
}

/// How many of the samples 0 to `number - 1` of a packet were captured before the moment `until`.
///
/// `rate` is the raw sample rate, in units of 2^-20 Hz, and at least 1 Hz.
pub fn captured_before(stamp: Stamp, rate: i64, number: u32, until: Moment) -> u32
    requires { pos (2 ^ 20) ≤ℤ rate }
    ensures within { result ≤ number }
    ensures before { (m : ℕ) → m < result → capture_at stamp m (unsigned_abs rate) < until }
    ensures behind { (m : ℕ) → result ≤ m → m < number
        → until ≤ capture_at stamp m (unsigned_abs rate) }
{
    if number == 0 || until <= stamp.moment() {
        return 0;
    }
    if capture(stamp, number - 1, rate) < until {
        return number;
    }
    let after = until.picos() - stamp.moment().picos();
    ((after * u128::from(rate.unsigned_abs()) + RAW_PERIOD - 1) / RAW_PERIOD) as u32
}
