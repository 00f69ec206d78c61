ghost use Rattle.std.specs.Prelude.{◌≡◌, ◌≤◌, ◌<◌, ◌+◌, ◌*◌, ◌^◌, ◌++◌, ◌↔◌, IsTrue, length, take, drop, slice_index_or, IfSome};
ghost use Rattle.vrt_fields.specs.declared.field.Field.TheVariants.{ReferencePoint};
ghost use Rattle.vrt_fields.specs.Field.{bit_of, width_of, fields_in_order};
ghost use Rattle.vrt_fields.specs.FieldSet.{FieldValues, IsFieldSet, FitsField, index_of, bit_if, words_of_value, mask_with, mask_of, words_if, words_with, words_of_set, bit_in, IsFieldMask, width_of_mask, number_in_mask};
ghost use Rattle.vrt_fields.specs.Values.{number_in, first_value, taken};

use crate::field::Field;
use vrt_words::bits_of;

/// The field with this number among all, from the highest bit down.
pub fn field_at(index: usize) -> Field
    requires { index < 12 }
    ensures { result ≡ slice_index_or fields_in_order index ReferencePoint }
{
    match index {
        0 => Field::ReferencePoint,
        1 => Field::Bandwidth,
        2 => Field::IfReference,
        3 => Field::RfReference,
        4 => Field::IfOffset,
        5 => Field::ReferenceLevel,
        6 => Field::Gain,
        7 => Field::SampleRate,
        8 => Field::TimeAdjustment,
        9 => Field::Calibration,
        10 => Field::State,
        _ => Field::Format,
    }
}

/// CIF0 that names the fields that have a value.
pub(crate) fn mask(values: &[Option<u64>; 12]) -> u32
    requires { IsFieldSet values.now }
    ensures number { result ≡ mask_of values.now }
    ensures only { IsFieldMask result }
{
    let mut mask = 0;
    for index in 0..12 {
        mask += bit_where(values[index], field_at(index));
    }
    mask
}

// The bit of a field that has a value.
fn bit_where(value: Option<u64>, field: Field) -> u32
    ensures { result ≡ bit_if value (bit_of field) }
{
    match value {
        Some(_) => 1 << field.bit(),
        None => 0,
    }
}

/// Whether `cif0` has bits of fields alone.
pub fn is_field_mask(cif0: u32) -> bool
    ensures { IsTrue result ↔ IsFieldMask cif0 }
{
    let mut named = 0;
    for index in 0..12 {
        named += masked_bit(cif0, field_at(index));
    }
    named == cif0
}

// The bit of a field, where `cif0` has it.
fn masked_bit(cif0: u32, field: Field) -> u32
    ensures number { result ≡ bit_in cif0 field * 2 ^ bit_of field }
    ensures most { result ≤ 2 ^ bit_of field }
{
    bits_of(cif0, field.bit(), 1) << field.bit()
}

/// How many words the fields take whose bits `cif0` has, 0 to 19.
pub fn mask_width(cif0: u32) -> usize
    ensures number { result ≡ width_of_mask cif0 }
    ensures most { result ≤ 19 }
{
    let mut width = 0;
    for index in 0..12 {
        width += width_where(cif0, field_at(index));
    }
    width
}

/// How many fields have their bits in `cif0`, 0 to 12.
pub fn mask_number(cif0: u32) -> usize
    ensures number { result ≡ number_in_mask cif0 }
    ensures most { result ≤ 12 }
{
    let mut number = 0;
    for index in 0..12 {
        number += bit_under(cif0, field_at(index));
    }
    number
}

/// 1 where `cif0` has the bit of a field, else 0.
pub fn bit_under(cif0: u32, field: Field) -> usize
    ensures number { result ≡ bit_in cif0 field }
    ensures most { result ≤ 1 }
{
    bits_of(cif0, field.bit(), 1) as usize
}

// How many words a field takes under `cif0`.
fn width_where(cif0: u32, field: Field) -> usize
    ensures number { result ≡ taken cif0 field }
    ensures most { result ≤ width_of field }
{
    if bits_of(cif0, field.bit(), 1) == 1 {
        field.width()
    } else {
        0
    }
}

/// The values of the fields that `cif0` names, in these words.
pub(crate) fn take_values(cif0: u32, words: &[u32]) -> [Option<u64>; 12]
    requires only { IsFieldMask cif0 }
    requires there { width_of_mask cif0 ≤ length words.now }
    ensures set { IsFieldSet result }
    ensures mask { mask_of result ≡ cif0 }
    ensures words { words_of_set result ≡ take (width_of_mask cif0) words.now }
    ensures only { (other : FieldValues) → IsFieldSet other → mask_of other ≡ cif0
        → words_of_set other ≡ take (width_of_mask cif0) words.now → result ≡ other }
{
    let mut values = [None; 12];
    let mut rest = words;
    for index in 0..12 {
        let (value, behind) = split_value(cif0, field_at(index), rest);
        values[index] = value;
        rest = behind;
    }
    values
}

// The value of a field in the first of the words, where `cif0` names it, and the words behind it.
fn split_value(cif0: u32, field: Field, words: &[u32]) -> (Option<u64>, &[u32])
    requires { taken cif0 field ≤ length words.now }
    ensures value { result.0 ≡ first_value (bit_in cif0 field) (width_of field) words.now }
    ensures rest { result.1.now ≡ drop (taken cif0 field) words.now }
{
    if bits_of(cif0, field.bit(), 1) == 0 {
        return (None, words);
    }
    let (own, behind) = words.split_at(field.width());
    (Some(number_of(own)), behind)
}

// One word, or two as one number, the high one first.
fn number_of(words: &[u32]) -> u64
    requires some { 1 ≤ length words.now }
    requires most { length words.now ≤ 2 }
    ensures { result ≡ number_in (length words.now) words.now }
{
    match words {
        [high, low] => (u64::from(*high) << 32) + u64::from(*low),
        _ => u64::from(words[0]),
    }
}

/// Writes the words of these values, and tells their number.
pub(crate) fn spell(values: &[Option<u64>; 12], into: &mut [u32; 19]) -> usize
    requires { IsFieldSet values.now }
    ensures number { result ≡ length (words_of_set values.now) }
    ensures most { result ≤ 19 }
    ensures words { take result into.new ≡ words_of_set values.now }
{
    let mut count = 0;
    for index in 0..12 {
        count = put_value(into, count, field_at(index), values[index]);
    }
    count
}

// Writes the words of a field that has a value, and tells where they end.
fn put_value(into: &mut [u32; 19], at: usize, field: Field, value: Option<u64>) -> usize
    requires room { at + length (words_if value (width_of field)) ≤ 19 }
    requires fits { IfSome value (FitsField field) }
    ensures end { result ≡ at + length (words_if value (width_of field)) }
    ensures words { take result into.new ≡ take at into.old ++ words_if value (width_of field) }
{
    match value {
        None => at,
        Some(value) => put_words_of(into, at, field.width(), value),
    }
}

// Writes a number in one word, or in two, the high one first, and tells where they end.
fn put_words_of(into: &mut [u32; 19], at: usize, width: usize, value: u64) -> usize
    requires some { 1 ≤ width }
    requires most { width ≤ 2 }
    requires room { at + width ≤ 19 }
    requires fits { value < 2 ^ (32 * width) }
    ensures end { result ≡ at + width }
    ensures words { take result into.new ≡ take at into.old ++ words_of_value width value }
{
    if width == 1 {
        into[at] = value as u32;
    } else {
        into[at] = (value >> 32) as u32;
        into[at + 1] = (value % (1 << 32)) as u32;
    }
    at + width
}
