ghost use Rattle.std.specs.Prelude.{◌≡◌, ◌≢◌, ◌≤◌, ◌<◌, ◌+◌, ◌*◌, ◌^◌, ◌++◌, ◌↔◌, length, take, drop, sum_by, IfSome, IsTrue, Some, None, slice_set};
ghost use Rattle.vrt_words.specs.Words.{words_of};
ghost use Rattle.vrt_fields.specs.Field.{width_of};
ghost use Rattle.vrt_fields.specs.FieldSet.{FieldValues, IsFieldSet, FitsField, index_of, value_of, no_fields, mask_of, words_of_set, IsFieldMask, width_of_mask};

use crate::field::Field;
use crate::values::{mask, mask_width, spell, take_values};
use std::marker::Model;
use vrt_words::{put_words, read_words};

/// The most words that the fields of a set take.
const MOST: usize = 19;

/// Some fields with their values: a map from fields to numbers.
///
/// A value is the field's one word, or its two words as a number of 64 bits.
#[derive(Clone, Copy, Debug, PartialEq, Eq)]
pub struct FieldSet {
    values: [Option<u64>; 12],
}

impl Model for FieldSet {
    ghost use Rattle.vrt_fields.specs.FieldSet.{FieldValues, IsFieldSet};

    ghost Value = { FieldValues };

    ghost view = { λ set. set.values };

    ghost invariant = { λ set. IsFieldSet set.values };

    ghost inverse = { λ values. record { values = values } };
}

impl FieldSet {
    /// The set with no field.
    pub fn empty() -> FieldSet
        ensures none { result ≡ no_fields }
        ensures set { IsFieldSet result }
    {
        FieldSet { values: [None; 12] }
    }

    /// The value of a field. `None` exactly where it is not in the set.
    #[inline]
    pub fn get(&self, field: Field) -> Option<u64>
        ensures value { result ≡ value_of self.now field }
        ensures fits { IfSome result (FitsField field) }
    {
        self.values[field.number()]
    }

    /// Puts a field into the set with this value, in place of an earlier one. All others stay.
    pub fn set(&mut self, field: Field, value: u64)
        requires { width_of field ≡ 1 → value < 2 ^ 32 }
        ensures list { self.new ≡ slice_set self.old (index_of field) (Some value) }
        ensures there { value_of self.new field ≡ Some value }
        ensures others { (other : Field) → other ≢ field
            → value_of self.new other ≡ value_of self.old other }
    {
        self.values[field.number()] = Some(value);
    }

    /// Takes a field out of the set. All others stay.
    pub fn remove(&mut self, field: Field)
        ensures list { self.new ≡ slice_set self.old (index_of field) None }
        ensures gone { value_of self.new field ≡ None }
        ensures others { (other : Field) → other ≢ field
            → value_of self.new other ≡ value_of self.old other }
    {
        self.values[field.number()] = None;
    }

    /// CIF0 that names the fields of the set.
    pub fn cif0(&self) -> u32
        ensures number { result ≡ mask_of self.now }
        ensures only { IsFieldMask result }
        ensures set { IsFieldSet self.now }
    {
        mask(&self.values)
    }

    /// How many words the values take.
    pub fn words(&self) -> usize
        ensures number { result ≡ length (words_of_set self.now) }
        ensures width { result ≡ width_of_mask (mask_of self.now) }
        ensures most { result ≤ 19 }
    {
        let mut words = [0; MOST];
        spell(&self.values, &mut words)
    }

    /// The fields that `cif0` names, with their values in the words from `at` on: from the highest bit
    /// down, each in its words.
    pub fn read(cif0: u32, bytes: &[u8], at: usize) -> FieldSet
        requires only { IsFieldMask cif0 }
        requires there { 4 * (at + width_of_mask cif0) ≤ length bytes.now }
        ensures set { IsFieldSet result }
        ensures mask { mask_of result ≡ cif0 }
        ensures words { words_of_set result
            ≡ take (width_of_mask cif0) (drop at (words_of bytes.now)) }
        ensures only { (other : FieldValues) → IsFieldSet other → mask_of other ≡ cif0
            → words_of_set other ≡ take (width_of_mask cif0) (drop at (words_of bytes.now))
            → result ≡ other }
    {
        let mut words = [0; MOST];
        let width = mask_width(cif0);
        read_words(bytes, at, &mut words[..width]);
        FieldSet {
            values: take_values(cif0, &words[..width]),
        }
    }

    /// Writes the words of the set from the word `at` on, and answers their number. All other bytes
    /// stay.
    pub fn write(&self, into: &mut [u8], at: usize) -> usize
        requires { 4 * (at + length (words_of_set self.now)) ≤ length into.old }
        ensures number { result ≡ length (words_of_set self.now) }
        ensures words { words_of into.new ≡ take at (words_of into.old)
            ++ (words_of_set self.now ++ drop (at + result) (words_of into.old)) }
        ensures before { take (4 * at) into.new ≡ take (4 * at) into.old }
        ensures behind { drop (4 * (at + result)) into.new ≡ drop (4 * (at + result)) into.old }
    {
        let mut words = [0; MOST];
        let width = spell(&self.values, &mut words);
        put_words(into, at, &words[..width]);
        width
    }
}
