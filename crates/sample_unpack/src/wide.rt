ghost use Rattle.sample_unpack.specs.Bits.{bits_of, bits_of_bytes};
ghost use Rattle.sample_unpack.specs.Lanes.{four};
ghost use Rattle.sample_unpack.specs.Samples.{bits_of_samples, samples_from};
ghost use Rattle.std.specs.Prelude.{◌≡◌, ◌+◌, ◌*◌, ◌/◌, ◌%◌, ◌<◌, ◌≤◌, ◌^◌, length, drop};

use crate::window::four_in;
use byteorder::{BigEndian, ByteOrder};

/// One in each of four items of 16 bits.
const ONES: u64 = 0x0001_0001_0001_0001;

/// The two samples from bit `bit` on behind `at`, where eight bytes are there to read them from, as
/// items of 16 bits each.
#[inline(always)]
pub(crate) fn two_at(payload: &[u8], at: usize, bit: u32, width: u32) -> u64
    requires some { 1 ≤ width }
    requires most { width ≤ 16 }
    requires window { bit % 8 + 4 * width ≤ 64 }
    requires within { at + bit / 8 + 8 ≤ length payload.now }
    ensures { bits_of 64 result
        ≡ bits_of_samples 16 (samples_from width
        (drop (8 * at + bit) (bits_of_bytes payload.now)) 0 2) }
{
    let window = BigEndian::read_u64(&payload[at + (bit / 8) as usize..]);
    widened(four_in(window, bit % 8, width), width)
}

/// The two samples that four items of `width` bits each spell, as items of 16 bits each: an item below
/// zero gets ones above its first bit.
#[inline(always)]
fn widened(items: u64, width: u32) -> u64
    requires some { 1 ≤ width }
    requires most { width ≤ 16 }
    requires fits { items < 2 ^ (4 * width) }
    ensures { bits_of 64 result
        ≡ bits_of_samples 16 (samples_from width (bits_of (4 * width) items) 0 2) }
{
    let apart = apart(items, width);
    let signs = apart & (ONES << (width - 1));
    apart + signs * ((1 << (17 - width)) - 2)
}

/// Four items of `width` bits each, with zeros in front of each up to 16 bits.
#[inline(always)]
fn apart(items: u64, width: u32) -> u64
    requires some { 1 ≤ width }
    requires most { width ≤ 16 }
    requires fits { items < 2 ^ (4 * width) }
    ensures { let high = items / 2 ^ (2 * width) in let low = items % 2 ^ (2 * width) in
        result ≡ four (high / 2 ^ width) (high % 2 ^ width) (low / 2 ^ width) (low % 2 ^ width) }
{
    let pairs = (items >> (2 * width) << 32) | (items & (u64::MAX >> (64 - 2 * width)));
    let mask = (u64::MAX >> (64 - width)) * 0x0000_0001_0000_0001;
    ((pairs & (mask << width)) << (16 - width)) | (pairs & mask)
}
