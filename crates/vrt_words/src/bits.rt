ghost use Rattle.std.specs.Prelude.{◌≡◌, ◌+◌, ◌*◌, ◌/◌, ◌%◌, ◌<◌, ◌≤◌, ◌^◌};
ghost use Rattle.vrt_words.specs.Words.{bits};

/// The `width` bits of `word` from bit `low` up, as a number. Bit 0 is the least significant.
#[inline]
pub fn bits_of(word: u32, low: u32, width: u32) -> u32
    requires some { 1 ≤ width }
    requires within { low + width ≤ 32 }
    ensures field { result ≡ bits word low width }
    ensures fits { result < 2 ^ width }
{
    (word >> low) & (u32::MAX >> (32 - width))
}

/// `word` with `value` in the `width` bits from bit `low` up. All other bits stay.
#[inline]
pub fn with_bits(word: u32, low: u32, width: u32, value: u32) -> u32
    requires some { 1 ≤ width }
    requires within { low + width ≤ 32 }
    requires fits { value < 2 ^ width }
    ensures field { bits result low width ≡ value }
    ensures below { result % 2 ^ low ≡ word % 2 ^ low }
    ensures above { result / 2 ^ (low + width) ≡ word / 2 ^ (low + width) }
{
    let mask = (u32::MAX >> (32 - width)) << low;
    (word & !mask) | (value << low)
}
