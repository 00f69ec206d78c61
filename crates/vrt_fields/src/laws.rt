ghost use Rattle.std.specs.Prelude.{◌≡◌, ◌≢◌, ℕ, ◌<◌, ◌≤◌, ◌+◌, ◌*◌, ◌^◌, ◌↔◌, ◌⊎◌, ◌+ℤ◌, ◌*ℤ◌, pos, Some, None};
ghost use Rattle.vrt_fields.specs.declared.field.Field.{Field};
ghost use Rattle.vrt_fields.specs.Field.{bit_of, place_of, width_of};
ghost use Rattle.vrt_fields.specs.FieldSet.{FieldValues, IsFieldSet, bit_in, index_of, mask_of, value_of};
ghost use Rattle.vrt_fields.specs.Text.{signed_64, units_left, whole_hertz};

/// No two fields have one bit of CIF0, one number, or one place among the words of all; and where all
/// are there, each one's words end where the next one's begin or before, and the last one's at 19.
pub fn fields_stand_apart()
    ensures bits { (first second : Field) → bit_of first ≡ bit_of second → first ≡ second }
    ensures numbers { (first second : Field) → index_of first ≡ index_of second → first ≡ second }
    ensures places { (first second : Field) → place_of first ≡ place_of second → first ≡ second }
    ensures words { (first second : Field) → index_of first < index_of second
        → place_of first + width_of first ≤ place_of second }
    ensures all { (field : Field) → place_of field + width_of field ≤ 19 }
{}

/// CIF0 of a set has the bit of a field exactly where the field is in the set.
pub fn a_bit_for_each_field()
    ensures set { (set : FieldValues) (field : Field) → IsFieldSet set
        → ((bit_in (mask_of set) field ≡ 1) ↔ (value_of set field ≢ None)) }
    ensures clear { (set : FieldValues) (field : Field) → IsFieldSet set
        → ((bit_in (mask_of set) field ≡ 0) ↔ (value_of set field ≡ None)) }
{}

/// Sets that hold the same of each field are one.
pub fn one_set_for_values()
    ensures { (set other : FieldValues) → IsFieldSet set → IsFieldSet other
        → ((field : Field) → value_of set field ≡ value_of other field) → set ≡ other }
{}

/// A frequency is told as whole hertz, rounded down, and the units of 2^-20 Hz that are left, fewer
/// than a hertz has.
pub fn whole_hertz_and_rest()
    ensures sum { (value : ℕ) → value < 2 ^ 64
        → signed_64 value ≡ whole_hertz value *ℤ pos (2 ^ 20) +ℤ pos (units_left value) }
    ensures rest { (value : ℕ) → units_left value < 2 ^ 20 }
{}
