ghost use Rattle.std.specs.Prelude.{◌≡◌, ℕ, List, [], ◌∷◌, ◌++◌};
ghost use Rattle.replay_form.specs.Head.{IsHead};
ghost use Rattle.replay_form.specs.Standing.{HasNoHead};
ghost use Rattle.replay_form.specs.declared.record_head.RecordHead.{RecordHead};
ghost use Rattle.pcap_frames.specs.CaptureFields.{Captured, IsCaptured, IsFileHead};
ghost use Rattle.pcap_frames.specs.CaptureFile.{IsCapture, IsCaptureWrongAt, EndsInside};
ghost use Rattle.pcap_frames.specs.CaptureGrammar.{HasRecords};
ghost use Rattle.pcap_frames.specs.Datagrams.{UdpDatagram, HoldsDatagram};
ghost use Rattle.pcap_frames.specs.declared.form.FileForm.{FileForm};

/// Bytes have one verdict: they are a capture behind one header, of one form and with one list of
/// records, or wrong at one place, or they end inside the header, the head of the file or a record.
/// As far as they go, one header and one list of records stand whole in them, or no header.
///
/// So what `CaptureReader::finish` answers is the only answer there is.
pub fn one_capture()
    ensures one_capture { (h i : RecordHead) (f g : FileForm)
        (fs gs : List Captured) (bytes : List ℕ)
        → IsCapture h f fs bytes → IsCapture i g gs bytes → (h ≡ i) × ((f ≡ g) × (fs ≡ gs)) }
    ensures one_place { (fs gs : List Captured) (bytes : List ℕ) (a b : ℕ)
        → IsCaptureWrongAt fs bytes a → IsCaptureWrongAt gs bytes b → a ≡ b }
    ensures capture_not_wrong { (h : RecordHead) (f : FileForm)
        (fs gs : List Captured) (bytes : List ℕ) (offset : ℕ)
        → IsCapture h f fs bytes → ¬ IsCaptureWrongAt gs bytes offset }
    ensures capture_not_inside { (h : RecordHead) (f : FileForm) (fs : List Captured)
        (bytes : List ℕ) → IsCapture h f fs bytes → ¬ EndsInside bytes }
    ensures wrong_not_inside { (gs : List Captured) (bytes : List ℕ) (offset : ℕ)
        → IsCaptureWrongAt gs bytes offset → ¬ EndsInside bytes }
    ensures one_standing { (h i : RecordHead) (fs gs : List Captured) (bytes : List ℕ)
        → HasRecords h fs bytes → HasRecords i gs bytes → (h ≡ i) × (fs ≡ gs) }
    ensures not_headless { (h : RecordHead) (fs : List Captured) (bytes : List ℕ)
        → HasRecords h fs bytes → ¬ HasNoHead bytes }
    ensures stands { (h : RecordHead) (f : FileForm) (fs : List Captured) (bytes : List ℕ)
        → IsCapture h f fs bytes → HasRecords h fs bytes }
{}

/// What is written is read again: a header with the head of a file behind it is a capture without
/// records, and one with a record behind it is the same capture with one record more.
pub fn written_is_read()
    ensures file { (head : RecordHead) (form : FileForm) (header file : List ℕ) → IsHead head header
        → IsFileHead form file
        → IsCapture head form [] (header ++ file) }
    ensures captured { (head : RecordHead) (form : FileForm) (records : List Captured)
        (captured : Captured) (bytes back : List ℕ)
        → IsCapture head form records bytes → IsCaptured form captured back
        → IsCapture head form (records ++ captured ∷ []) (bytes ++ back) }
{}

/// A frame holds at most one datagram.
pub fn one_datagram()
    ensures { (d e : UdpDatagram) (bytes : List ℕ) → HoldsDatagram d bytes → HoldsDatagram e bytes
        → d ≡ e }
{}
