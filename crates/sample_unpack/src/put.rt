ghost use Rattle.sample_unpack.specs.Bits.{bits_of, bits_of_bytes};
ghost use Rattle.std.specs.Prelude.{◌≡◌, ◌+◌, ◌-◌, ◌*◌, ◌/◌, ◌<◌, ◌≤◌, ◌^◌, ◌++◌, length, take, replicate};

use byteorder::{BigEndian, ByteOrder};

/// The `held` bits that wait, and behind them the `size` bits of `items`.
#[inline(always)]
pub(crate) fn joined(waiting: u64, held: u32, items: u32, size: u32) -> u64
    requires held { held < 32 }
    requires size { size ≤ 32 }
    requires waiting_fits { waiting < 2 ^ held }
    requires items_fit { items < 2 ^ size }
    ensures fits { result < 2 ^ (held + size) }
    ensures joined { bits_of (held + size) result ≡ bits_of held waiting ++ bits_of size items }
{
    (waiting << size) | u64::from(items)
}

/// The first word of the bits that wait, and the `rest` bits behind it.
#[inline(always)]
pub(crate) fn first_word(waiting: u64, rest: u32) -> (u32, u64)
    requires rest { rest < 32 }
    requires fits { waiting < 2 ^ (32 + rest) }
    ensures fits { result.1 < 2 ^ rest }
    ensures split { bits_of (32 + rest) waiting ≡ bits_of 32 result.0 ++ bits_of rest result.1 }
{
    ((waiting >> rest) as u32, waiting & ((1 << rest) - 1))
}

/// Writes the last bits that wait, if there are any, with zeros behind them.
pub(crate) fn put_last(into: &mut [u8], words: usize, waiting: u64, held: u32)
    requires held { held < 32 }
    requires fits { waiting < 2 ^ held }
    requires whole_words { length into.old ≡ 4 * ((32 * words + held + 31) / 32) }
    ensures { bits_of_bytes into.new
        ≡ (bits_of_bytes (take (4 * words) into.old) ++ bits_of held waiting)
        ++ replicate (8 * length into.old - (32 * words + held)) 0 }
{
    if held > 0 {
        put_word(into, 4 * words, (waiting << (32 - held)) as u32);
    }
}

/// Writes a word at `at`, behind what stands there.
#[inline]
pub(crate) fn put_word(into: &mut [u8], at: usize, word: u32)
    requires { at + 4 ≤ length into.old }
    ensures { bits_of_bytes (take (at + 4) into.new)
        ≡ bits_of_bytes (take at into.old) ++ bits_of 32 word }
{
    BigEndian::write_u32(&mut into[at..], word);
}

/// Writes half a word at `at`, behind what stands there.
#[inline]
pub(crate) fn put_half(into: &mut [u8], at: usize, half: u16)
    requires { at + 2 ≤ length into.old }
    ensures { bits_of_bytes (take (at + 2) into.new)
        ≡ bits_of_bytes (take at into.old) ++ bits_of 16 half }
{
    BigEndian::write_u16(&mut into[at..], half);
}

/// Writes two words at `at`, behind what stands there.
#[inline]
pub(crate) fn put_double(into: &mut [u8], at: usize, double: u64)
    requires { at + 8 ≤ length into.old }
    ensures { bits_of_bytes (take (at + 8) into.new)
        ≡ bits_of_bytes (take at into.old) ++ bits_of 64 double }
{
    BigEndian::write_u64(&mut into[at..], double);
}
