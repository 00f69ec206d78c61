ghost use Rattle.std.specs.Prelude.{◌≡◌, ◌↔◌, ℕ, List, ◌++◌};
ghost use Rattle.replay_form.specs.FrameFields.{Frame};
ghost use Rattle.replay_form.specs.Head.{IsHead, IsSpelledHead};
ghost use Rattle.replay_form.specs.HeadValues.{AreHeadValues};
ghost use Rattle.replay_form.specs.Record.{IsRecord, IsRecordWrongAt, EndsInside};
ghost use Rattle.replay_form.specs.Grammar.{IsBad, IsLonger, IsWhole};
ghost use Rattle.replay_form.specs.RecordGrammar.{record_grammar};
ghost use Rattle.replay_form.specs.Standing.{HasNoHead, HasFrames};
ghost use Rattle.replay_form.specs.declared.record_head.RecordHead.{RecordHead};

/// Bytes have one verdict: they are a record with one header and one list of frames, or wrong at
/// one place, or they end inside the header or a frame. As far as they go, one header and one list
/// of frames stand whole in them, or no header: of a record, all of it; and with more bytes behind
/// them the same header, and the same frames in front.
///
/// So what `RecordReader::finish` answers is the only answer there is.
pub fn one_verdict()
    ensures one_head { (h i : RecordHead) (bytes : List ℕ) → IsHead h bytes → IsHead i bytes
        → h ≡ i }
    ensures one_record { (h i : RecordHead) (fs gs : List Frame) (bytes : List ℕ)
        → IsRecord h fs bytes → IsRecord i gs bytes → (h ≡ i) × (fs ≡ gs) }
    ensures one_standing { (h i : RecordHead) (fs gs : List Frame) (bytes : List ℕ)
        → HasFrames h fs bytes → HasFrames i gs bytes → (h ≡ i) × (fs ≡ gs) }
    ensures not_headless { (h : RecordHead) (fs : List Frame) (bytes : List ℕ)
        → HasFrames h fs bytes → ¬ HasNoHead bytes }
    ensures stands { (h : RecordHead) (fs : List Frame) (bytes : List ℕ) → IsRecord h fs bytes
        → HasFrames h fs bytes }
    ensures stays { (h i : RecordHead) (fs gs : List Frame) (bytes more : List ℕ)
        → HasFrames h fs bytes → HasFrames i gs (bytes ++ more)
        → (h ≡ i) × ((later : List Frame) × (gs ≡ fs ++ later)) }
    ensures has_head_later { (h : RecordHead) (fs : List Frame) (bytes more : List ℕ)
        → HasFrames h fs bytes → ¬ HasNoHead (bytes ++ more) }
    ensures one_place { (fs gs : List Frame) (bytes : List ℕ) (a b : ℕ) → IsRecordWrongAt fs bytes a
        → IsRecordWrongAt gs bytes b → a ≡ b }
    ensures record_not_wrong { (h : RecordHead) (fs gs : List Frame) (bytes : List ℕ) (offset : ℕ)
        → IsRecord h fs bytes → ¬ IsRecordWrongAt gs bytes offset }
    ensures record_not_inside { (h : RecordHead) (fs : List Frame) (bytes : List ℕ)
        → IsRecord h fs bytes → ¬ EndsInside bytes }
    ensures wrong_not_inside { (gs : List Frame) (bytes : List ℕ) (offset : ℕ)
        → IsRecordWrongAt gs bytes offset → ¬ EndsInside bytes }
{}

/// Bytes of which the first `most` are judged have one verdict: a field of these is wrong or the
/// bytes end inside the header or a frame, at one place; or there are more; or they are a record.
pub fn one_verdict_within()
    ensures one_place { (most : ℕ) (bytes : List ℕ) (a b : ℕ) → IsBad record_grammar most bytes a
        → IsBad record_grammar most bytes b → a ≡ b }
    ensures bad_not_longer { (most : ℕ) (bytes : List ℕ) (offset : ℕ)
        → IsBad record_grammar most bytes offset → ¬ IsLonger record_grammar most bytes }
    ensures bad_not_whole { (most : ℕ) (bytes : List ℕ) (offset : ℕ)
        → IsBad record_grammar most bytes offset → ¬ IsWhole record_grammar most bytes }
    ensures longer_not_whole { (most : ℕ) (bytes : List ℕ) → IsLonger record_grammar most bytes
        → ¬ IsWhole record_grammar most bytes }
{}

/// The rules of a header's values are those of its bytes: a header obeys them exactly where some
/// bytes spell it.
pub fn rules_of_values()
    ensures { (head : RecordHead) → IsSpelledHead head ↔ AreHeadValues head }
{}
