ghost use Rattle.std.specs.Prelude.{◌≡◌, ◌↔◌, ℕ, List};
ghost use Rattle.vrt_words.specs.Words.{AreBytes};
ghost use Rattle.replay_form.specs.FrameFields.{Frame};
ghost use Rattle.replay_form.specs.Record.{IsRecord};
ghost use Rattle.replay_form.specs.declared.record_head.RecordHead.{RecordHead};
ghost use Rattle.replay_form.specs.SecondForm.{in_second_form};
ghost use Rattle.difi_cmd.specs.Migrated.{IsMigrated, IsMigratedOf, IsMigratedSoFar, IsOfSecondForm, ChangesForm};
ghost use Rattle.difi_cmd.specs.ReleasesOf.{AreReleasesSoFar, HaveSameReleases, HasOnePortEach};
ghost use Rattle.difi_texts.specs.declared.lines.Listing.{Listing};
ghost use Rattle.replay_form.specs.RecordGrammar.{record_grammar};
ghost use Rattle.record_run.specs.Outcome.{IsVerdict};
ghost use Rattle.difi_cmd.specs.Text.{IsPart, IsOutput};
ghost use Rattle.record_run.specs.declared.status.Status.{Status};

/// Laws that a proof can cite: bytes have one text for each listing, as far as they go and as a whole
/// record.
#[inline]
pub fn bytes_have_one_text()
    ensures so_far { (listing : Listing) (bytes text other : List ℕ)
        → IsPart listing bytes text → IsPart listing bytes other → text ≡ other }
    ensures whole { (listing : Listing) (bytes text other : List ℕ)
        → IsOutput listing bytes text → IsOutput listing bytes other → text ≡ other }
{}

/// A law that a proof can cite: bytes, of which so many are judged, have one status where no read and
/// no write fails and memory is there.
#[inline]
pub fn bytes_have_one_status()
    ensures { (most : ℕ) (bytes : List ℕ) (status other : Status)
        → IsVerdict record_grammar most bytes status → IsVerdict record_grammar most bytes other
        → status ≡ other }
{}

/// Laws that a proof can cite: a record has one migrated text, which is its header in form 2 and the
/// same bytes behind it; it is a record of form 2 with the same values and frames. Migrated again it
/// stays as it is.
#[inline]
pub fn migrated_once()
    ensures one_text { (head : RecordHead) (frames : List Frame) (text other : List ℕ)
        → IsMigrated head frames text → IsMigrated head frames other → text ≡ other }
    ensures frames_stand { (head : RecordHead) (frames : List Frame) (bytes text : List ℕ)
        → AreBytes bytes → IsRecord head frames bytes → IsMigrated head frames text
        ↔ ChangesForm head bytes text }
    ensures second_form { (head : RecordHead) (frames : List Frame) (bytes text : List ℕ)
        → IsRecord head frames bytes → IsMigrated head frames text
        → IsRecord (in_second_form head) frames text }
    ensures again { (head : RecordHead) (frames : List Frame) (text other : List ℕ)
        → IsMigrated head frames text → IsMigrated (in_second_form head) frames other
        → other ≡ text }
    ensures stays { (head : RecordHead) (frames : List Frame) (bytes : List ℕ)
        → AreBytes bytes → IsRecord head frames bytes → head.form ≡ 2
        → IsMigrated head frames bytes }
{}

/// Laws that a proof can cite: a record that is migrated keeps its releases. What `replay` writes of the
/// migrated text is what it writes of the record, and so it is of the frames that stand whole; each
/// record has a migrated text, which is a record of form 2. The form of a record changes none of its
/// releases: a record of form 2 with one port for each stream has those of the same record in form 1.
#[inline]
pub fn migrated_keeps_its_releases()
    ensures whole { (bytes text : List ℕ) → IsMigratedOf bytes text → HaveSameReleases bytes text }
    ensures so_far { (bytes text releases : List ℕ)
        → IsMigratedSoFar bytes text → AreReleasesSoFar bytes releases
        ↔ AreReleasesSoFar text releases }
    ensures valid { (bytes text : List ℕ) → IsMigratedOf bytes text → IsOfSecondForm text }
    ensures there { (head : RecordHead) (frames : List Frame) (bytes : List ℕ) → AreBytes bytes
        → IsRecord head frames bytes → (text : List ℕ) × IsMigratedOf bytes text }
    ensures one_port { (head other : RecordHead) (frames : List Frame) (bytes others : List ℕ)
        → AreBytes bytes → AreBytes others
        → IsRecord head frames bytes → IsRecord other frames others → HasOnePortEach head other
        → HaveSameReleases bytes others }
    ensures other_form { (head : RecordHead) (form : ℕ) (frames : List Frame)
        (bytes others : List ℕ)
        → IsRecord head frames bytes → IsRecord (record head { form = form }) frames others
        → HaveSameReleases bytes others }
{}
