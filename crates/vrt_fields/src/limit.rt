ghost use Rattle.std.specs.Prelude.{◌≡◌, ◌≤ℤ◌, ◌↔◌, IsTrue};
ghost use Rattle.vrt_fields.specs.Limit.{IsLimit, IsMultiple, IsShut, IsStepped, IsWithin, own_greatest, own_least};

use crate::field::Field;

/// Which values of a field a command may set: the multiples of a step from the least to the greatest.
///
/// A value is the field's number: its 64 bits as signed, and for reference level and gain the low
/// half of the word as signed.
#[derive(Clone, Copy, Debug, PartialEq, Eq)]
pub struct Limit {
    /// Whether a command may set the field at all. Where it may not, the others are 0.
    pub settable: bool,
    /// The step: 1 to 2^63 - 1.
    pub step: u64,
    /// The least value, a multiple of the step.
    pub least: i64,
    /// The greatest value, a multiple of the step and not below the least.
    pub greatest: i64,
}

impl Limit {
    /// Whether it is a limit that this field can have: the values lie within what the field holds, 16
    /// bits for reference level and gain, and for a sample rate 1 Hz and more.
    pub fn is_for(self, field: Field) -> bool
        ensures { IsTrue result ↔ IsLimit field self }
    {
        if self.settable {
            is_stepped(self) && is_within(field, self)
        } else {
            is_shut(self)
        }
    }
}

// Whether nothing but 0 stands there.
fn is_shut(limit: Limit) -> bool
    ensures { IsTrue result ↔ IsShut limit }
{
    limit.step == 0 && limit.least == 0 && limit.greatest == 0
}

// Whether there is a step, and the least and the greatest value are so many steps from 0.
fn is_stepped(limit: Limit) -> bool
    ensures { IsTrue result ↔ IsStepped limit.step limit.least limit.greatest }
{
    if limit.step == 0 || limit.step >= 1 << 63 {
        return false;
    }
    is_multiple(limit.least, limit.step) && is_multiple(limit.greatest, limit.step)
}

// Whether the values lie in order, within what the field can be set to.
fn is_within(field: Field, limit: Limit) -> bool
    ensures { IsTrue result ↔ IsWithin field limit.least limit.greatest }
{
    is_low(field, limit.least) && limit.least <= limit.greatest && is_high(field, limit.greatest)
}

// Whether the field can be set to so low a number.
fn is_low(field: Field, number: i64) -> bool
    ensures { IsTrue result ↔ (own_least field ≤ℤ number) }
{
    match field {
        Field::ReferenceLevel | Field::Gain => number >= i64::from(i16::MIN),
        Field::SampleRate => number >= 1 << 20,
        _ => true,
    }
}

// Whether the field can be set to so high a number.
fn is_high(field: Field, number: i64) -> bool
    ensures { IsTrue result ↔ (number ≤ℤ own_greatest field) }
{
    match field {
        Field::ReferenceLevel | Field::Gain => number <= i64::from(i16::MAX),
        _ => true,
    }
}

// Whether a number is so many steps from 0.
fn is_multiple(number: i64, step: u64) -> bool
    ensures { IsTrue result ↔ IsMultiple number step }
{
    number.unsigned_abs().is_multiple_of(step)
}
