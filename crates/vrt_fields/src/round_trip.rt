ghost use Rattle.std.specs.Prelude.{◌≡◌, ◌≤◌, ◌+◌, ◌*◌, ℕ, length};
ghost use Rattle.vrt_fields.specs.FieldSet.{FieldValues, IsFieldSet, mask_of, words_of_set, width_of_mask};

use crate::field_set::FieldSet;

/// A set is read again from what it wrote.
pub fn written_and_read(set: &FieldSet, into: &mut [u8], at: usize) -> FieldSet
    requires { 4 * (at + length (words_of_set set.now)) ≤ length into.old }
    ensures { result ≡ set.now }
{
    set.write(into, at);
    FieldSet::read(set.cif0(), into, at)
}

/// CIF0 and the words are those of one set at most, and CIF0 tells how many words there are.
pub fn one_set_for_words()
    ensures one { (set other : FieldValues) → IsFieldSet set → IsFieldSet other
        → mask_of set ≡ mask_of other → words_of_set set ≡ words_of_set other → set ≡ other }
    ensures width { (set : FieldValues) → IsFieldSet set
        → width_of_mask (mask_of set) ≡ length (words_of_set set) }
{}
