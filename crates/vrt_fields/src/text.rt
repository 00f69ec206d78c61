ghost use Rattle.std.specs.Prelude.{◌≡◌, ◌≤◌, ◌<◌, ◌+◌, ◌^◌, ◌++◌, ◌/◌, length, OnOk, OnErr, IsOk, vec_len, vec_capacity, codes};
ghost use Rattle.vrt_fields.specs.Field.{width_of};
ghost use Rattle.vrt_fields.specs.Text.{field_name, value_text, field_text, hertz, level, gains, signed_16};
ghost use Rattle.std.specs.Fmt.{signed_decimal};

use crate::field::Field;
use crate::number_text::{push_decimal, push_half, push_hexadecimal, push_signed, push_text};
use std::alloc::Global;
use vrt_words::NoMemory;

/// No text of a field is longer.
const MOST: usize = 80;

/// Puts the text of a field behind the bytes: its name and its value, in the units of ANSI/VITA 49.2.
///
/// Frequencies are whole hertz, rounded down, and the rest in units of 2^-20 Hz. On `NoMemory` the
/// bytes stay as they were; it does not come where 80 bytes more have room.
pub fn text_of(_alloc: Global, field: Field, value: u64, into: &mut Vec<u8>) -> Result<(), NoMemory>
    requires { width_of field ≡ 1 → value < 2 ^ 32 }
    ensures text { OnOk result (into.new.items ≡ into.old.items ++ field_text field value) }
    ensures length { vec_len into.new ≤ vec_len into.old + 80 }
    ensures memory { OnErr result (into.new.items ≡ into.old.items) }
    ensures room { vec_len into.old + 80 ≤ vec_capacity into.old → IsOk result }
    ensures capacity { vec_capacity into.old ≤ vec_capacity into.new }
{
    if into.reserve(MOST).is_err() {
        return Err(NoMemory);
    }
    push_text_of(field, value, into);
    Ok(())
}

/// Puts the text of a field behind the bytes, as `text_of` does, where there is room for 80 bytes.
pub fn push_text_of(field: Field, value: u64, into: &mut Vec<u8>)
    requires room { vec_len into.old + 80 ≤ vec_capacity into.old }
    requires fits { width_of field ≡ 1 → value < 2 ^ 32 }
    ensures text { into.new.items ≡ into.old.items ++ field_text field value }
    ensures length { vec_len into.new ≤ vec_len into.old + 80 }
    ensures capacity { vec_capacity into.old ≤ vec_capacity into.new }
{
    push_text(into, name_of(field));
    push_value(into, field, value);
}

// What the field is called.
fn name_of(field: Field) -> &'static [u8]
    ensures text { result.now ≡ field_name field }
    ensures length { length result.now ≤ 16 }
{
    match field {
        Field::ReferencePoint => b"reference point ",
        Field::Bandwidth => b"bandwidth ",
        Field::IfReference => b"IF ",
        Field::RfReference => b"RF ",
        Field::IfOffset => b"IF offset ",
        Field::ReferenceLevel => b"reference level ",
        Field::Gain => b"gain ",
        Field::SampleRate => b"sample rate ",
        Field::TimeAdjustment => b"time adjustment ",
        Field::Calibration => b"calibration ",
        Field::State => b"state ",
        Field::Format => b"payload ",
    }
}

// What its value says.
fn push_value(into: &mut Vec<u8>, field: Field, value: u64)
    requires room { vec_len into.old + 64 ≤ vec_capacity into.old }
    requires fits { width_of field ≡ 1 → value < 2 ^ 32 }
    ensures text { into.new.items ≡ into.old.items ++ value_text field value }
    ensures length { vec_len into.new ≤ vec_len into.old + 64 }
    ensures capacity { vec_capacity into.old ≤ vec_capacity into.new }
{
    match field {
        Field::ReferencePoint | Field::State => push_hexadecimal(into, value as u32),
        Field::Bandwidth
        | Field::IfReference
        | Field::RfReference
        | Field::IfOffset
        | Field::SampleRate => push_hertz(into, value),
        Field::ReferenceLevel => push_level(into, value as u32),
        Field::Gain => push_gains(into, value as u32),
        Field::TimeAdjustment => push_femtoseconds(into, value),
        Field::Calibration => push_seconds(into, value),
        Field::Format => push_words(into, value),
    }
}

// A signed number in units of 2^-20 Hz: the whole hertz, rounded down, and the units that are left.
fn push_hertz(into: &mut Vec<u8>, value: u64)
    requires { vec_len into.old + 64 ≤ vec_capacity into.old }
    ensures text { into.new.items ≡ into.old.items ++ hertz value }
    ensures length { vec_len into.new ≤ vec_len into.old + 64 }
    ensures capacity { vec_capacity into.old ≤ vec_capacity into.new }
{
    push_signed(into, value.cast_signed() >> 20);
    push_text(into, b" Hz + ");
    push_decimal(into, value % (1 << 20));
    push_text(into, b"/1048576");
}

// A level in the low half of a word, and what the high half holds.
fn push_level(into: &mut Vec<u8>, word: u32)
    requires { vec_len into.old + 64 ≤ vec_capacity into.old }
    ensures text { into.new.items ≡ into.old.items ++ level word }
    ensures length { vec_len into.new ≤ vec_len into.old + 64 }
    ensures capacity { vec_capacity into.old ≤ vec_capacity into.new }
{
    push_signed_half(into, (word % (1 << 16)) as u16);
    push_text(into, b"/128 dBm upper ");
    push_half(into, (word >> 16) as u16);
}

// The gains of stages 1 and 2, in the low half of a word and the high one.
fn push_gains(into: &mut Vec<u8>, word: u32)
    requires { vec_len into.old + 64 ≤ vec_capacity into.old }
    ensures text { into.new.items ≡ into.old.items ++ gains word }
    ensures length { vec_len into.new ≤ vec_len into.old + 64 }
    ensures capacity { vec_capacity into.old ≤ vec_capacity into.new }
{
    push_signed_half(into, (word % (1 << 16)) as u16);
    push_text(into, b"/128 dB ");
    push_signed_half(into, (word >> 16) as u16);
    push_text(into, b"/128 dB");
}

// The signed number in half a word.
fn push_signed_half(into: &mut Vec<u8>, half: u16)
    requires { vec_len into.old + 21 ≤ vec_capacity into.old }
    ensures text { into.new.items ≡ into.old.items ++ signed_decimal (signed_16 half) }
    ensures length { vec_len into.new ≤ vec_len into.old + 21 }
    ensures capacity { vec_capacity into.old ≤ vec_capacity into.new }
{
    push_signed(into, i64::from(half.cast_signed()));
}

// A signed number of femtoseconds.
fn push_femtoseconds(into: &mut Vec<u8>, value: u64)
    requires { vec_len into.old + 64 ≤ vec_capacity into.old }
    ensures text { into.new.items ≡ into.old.items ++ value_text Field.TimeAdjustment value }
    ensures length { vec_len into.new ≤ vec_len into.old + 64 }
    ensures capacity { vec_capacity into.old ≤ vec_capacity into.new }
{
    push_signed(into, value.cast_signed());
    push_text(into, b" fs");
}

// A number of seconds.
fn push_seconds(into: &mut Vec<u8>, value: u64)
    requires { vec_len into.old + 64 ≤ vec_capacity into.old }
    ensures text { into.new.items ≡ into.old.items ++ value_text Field.Calibration value }
    ensures length { vec_len into.new ≤ vec_len into.old + 64 }
    ensures capacity { vec_capacity into.old ≤ vec_capacity into.new }
{
    push_decimal(into, value);
    push_text(into, b" s");
}

// Two words, the high one first.
fn push_words(into: &mut Vec<u8>, value: u64)
    requires { vec_len into.old + 64 ≤ vec_capacity into.old }
    ensures text { into.new.items ≡ into.old.items ++ value_text Field.Format value }
    ensures length { vec_len into.new ≤ vec_len into.old + 64 }
    ensures capacity { vec_capacity into.old ≤ vec_capacity into.new }
{
    push_hexadecimal(into, (value >> 32) as u32);
    push_text(into, b" ");
    push_hexadecimal(into, (value % (1 << 32)) as u32);
}
