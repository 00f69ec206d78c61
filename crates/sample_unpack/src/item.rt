ghost use Rattle.sample_unpack.specs.Bits.{FitsBits, bits_of, signed_bits_of, signed_number_of};
ghost use Rattle.sample_unpack.specs.Samples.{SampleFits, bits_of_sample, sample_of};
ghost use Rattle.std.specs.Prelude.{◌≡◌, ◌*◌, ◌<◌, ◌≤◌, ◌^◌};

use crate::Sample;

/// The number that the `width` bits of `item` spell in two's complement.
#[inline(always)]
fn signed(item: u32, width: u32) -> i16
    requires some { 1 ≤ width }
    requires most { width ≤ 16 }
    requires fits { item < 2 ^ width }
    ensures { result ≡ signed_number_of (bits_of width item) }
{
    let top = 1 << (width - 1);
    ((item ^ top) as i32 - top as i32) as i16
}

/// The sample that the `2 * width` bits of `items` spell.
#[inline(always)]
pub(crate) fn sample_from(items: u32, width: u32) -> Sample
    requires some { 1 ≤ width }
    requires most { width ≤ 16 }
    requires fits { items < 2 ^ (2 * width) }
    ensures { result ≡ sample_of width (bits_of (2 * width) items) }
{
    Sample {
        i: signed(items >> width, width),
        q: signed(items & (u32::MAX >> (32 - width)), width),
    }
}

/// The two items of a sample as one number.
#[inline(always)]
pub(crate) fn items_of(sample: Sample, width: u32) -> u32
    requires some { 1 ≤ width }
    requires most { width ≤ 16 }
    requires sample_fits { SampleFits width sample }
    ensures fits { result < 2 ^ (2 * width) }
    ensures items { bits_of (2 * width) result ≡ bits_of_sample width sample }
{
    (item_of(sample.i, width) << width) | item_of(sample.q, width)
}

/// The `width` bits of a number in two's complement.
#[inline(always)]
fn item_of(number: i16, width: u32) -> u32
    requires some { 1 ≤ width }
    requires most { width ≤ 16 }
    requires number_fits { FitsBits width number }
    ensures fits { result < 2 ^ width }
    ensures item { bits_of width result ≡ signed_bits_of width number }
{
    u32::from(number.cast_unsigned()) & (u32::MAX >> (32 - width))
}
