ghost use Rattle.std.specs.Prelude.{◌≡◌, ℕ, List, length};
ghost use Rattle.vrt_words.specs.Words.{AreBytes};
ghost use Rattle.sample_unpack.specs.Bits.{bits_of_bytes};
ghost use Rattle.sample_unpack.specs.Samples.{samples_from};
ghost use Rattle.sample_binder.specs.RunRules.{HoldsRun};
ghost use Rattle.release_form.specs.Release.{StandsFirst, IsRecordOf, AreSamples};
ghost use Rattle.release_form.specs.declared.shown.Shown.{Shown};

/// A law: one release record at most stands first, and it says one thing; a value with a payload
/// or a packet has one record; and the samples of a run are read again from its variable part.
pub fn one_to_one()
    ensures one_value { (a b : Shown) (part other : List ℕ) (m n : ℕ) (bytes : List ℕ)
        → StandsFirst a part m bytes → StandsFirst b other n bytes
        → (a ≡ b) × (part ≡ other) × (m ≡ n) }
    ensures one_record { (shown : Shown) (payload a b : List ℕ) → AreBytes a → AreBytes b
        → IsRecordOf shown payload a → IsRecordOf shown payload b → a ≡ b }
    ensures samples { (bits first number : ℕ) (payload part : List ℕ)
        → HoldsRun bits first number (length payload)
        → AreSamples bits first number payload part
        → samples_from 16 (bits_of_bytes part) 0 number
        ≡ samples_from bits (bits_of_bytes payload) first number }
{}
