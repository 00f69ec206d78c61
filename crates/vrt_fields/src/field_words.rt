ghost use Rattle.std.specs.Prelude.{◌≡◌, ◌≤◌, ◌<◌, ◌+◌, ◌≤ℤ◌, ◌^◌, ◌↔◌, IsTrue, pos, slice_index};
ghost use Rattle.vrt_fields.specs.Field.{place_of, width_of};
ghost use Rattle.vrt_fields.specs.declared.field.Field.TheVariants.{SampleRate};
ghost use Rattle.vrt_fields.specs.FieldWords.{IsRate, field_of, rate_in, size_in};

use crate::field::Field;
use vrt_words::bits_of;

/// Where the two words of the sample rate begin among the words of all fields.
pub const RATE_WORD: usize = 11;

/// Where the two words of the payload format begin among the words of all fields.
pub const FORMAT_WORD: usize = 17;

impl Field {
    /// Where the field begins among the nineteen words of all fields.
    #[inline]
    pub fn place(self) -> usize
        ensures number { result ≡ place_of self }
        ensures within { result + width_of self ≤ 19 }
    {
        match self {
            Field::ReferencePoint => 0,
            Field::Bandwidth => 1,
            Field::IfReference => 3,
            Field::RfReference => 5,
            Field::IfOffset => 7,
            Field::ReferenceLevel => 9,
            Field::Gain => 10,
            Field::SampleRate => RATE_WORD,
            Field::TimeAdjustment => 13,
            Field::Calibration => 15,
            Field::State => 16,
            Field::Format => FORMAT_WORD,
        }
    }
}

/// The value of a field among the words of all: its one word, or its two words as a number of 64
/// bits.
#[inline]
pub fn value_in(words: &[u32; 19], field: Field) -> u64
    ensures number { result ≡ field_of words.now field }
    ensures fits { width_of field ≡ 1 → result < 2 ^ 32 }
{
    let place = field.place();
    let first = u64::from(words[place]);
    if field.width() == 1 {
        return first;
    }
    (first << 32) + u64::from(words[place + 1])
}

/// Whether these two words tell a sample rate: a signed number, in units of 2^-20 Hz, of 1 Hz at
/// least.
#[inline]
pub fn is_rate(high: u32, low: u32) -> bool
    ensures { IsTrue result ↔ IsRate high low }
{
    high < 1 << 31 && (high > 0 || low >= 1 << 20)
}

/// The sample rate among the words of all fields, in units of 2^-20 Hz, whether it is in its rule or
/// not.
#[inline]
pub fn raw_rate(words: &[u32; 19]) -> u64
    ensures { result ≡ rate_in words.now }
{
    (u64::from(words[RATE_WORD]) << 32) + u64::from(words[RATE_WORD + 1])
}

/// The sample rate among the words of all fields, in units of 2^-20 Hz.
#[inline]
pub fn rate_of(words: &[u32; 19]) -> i64
    requires { IsRate (slice_index words.now (place_of SampleRate))
        (slice_index words.now (place_of SampleRate + 1)) }
    ensures rate { result ≡ pos (rate_in words.now) }
    ensures least { pos (2 ^ 20) ≤ℤ result }
{
    raw_rate(words) as i64
}

/// The item size in the payload format among the words of all fields, 1 to 64 bits.
#[inline]
pub fn item_size_of(words: &[u32; 19]) -> u8
    ensures number { result ≡ size_in words.now }
    ensures some { 1 ≤ result }
    ensures most { result ≤ 64 }
{
    bits_of(words[FORMAT_WORD], 0, 6) as u8 + 1
}
