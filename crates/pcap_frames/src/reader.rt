ghost use Rattle.std.specs.Prelude.{◌≡◌, ◌+◌, ◌*◌, ◌<◌, ◌≤◌, ◌^◌, ◌++◌, ◌⊎◌, ℕ, List, [], None, false, true, length, take, MatchOption, IfSome, IfOk, OnOk, IfErr, OnErr};
ghost use Rattle.replay_form.specs.Head.{IsSpelledHead};
ghost use Rattle.replay_form.specs.HeadValues.{AreHeadValues};
ghost use Rattle.replay_form.specs.Reading.{KeepsHead, whole_bytes};
ghost use Rattle.replay_form.specs.Record.{first_stamp};
ghost use Rattle.vrt_time.specs.Time.{TimeStamp};
ghost use Rattle.pcap_frames.specs.CaptureFields.{Captured, IsWholeRecord, captured_in, unit_of};
ghost use Rattle.pcap_frames.specs.CaptureFile.{IsCapture, IsCaptureWrongAt, EndsInside};
ghost use Rattle.pcap_frames.specs.Reading.{StandsFor, IsFresh, IsNextReading, IsFailed, IsNewFault, IsAtEnd, IsUnfinished, IsRecordIn, begun, records_after, held_record};
ghost use Rattle.pcap_frames.specs.declared.form.FileForm.{FileForm};
ghost use Rattle.pcap_frames.specs.declared.stage.Stage.TheVariants as stages;

use crate::event::CaptureEvent;
use crate::form::FileForm;
use crate::judge::RECORD_HEAD;
use crate::numbers::u32_in;
use crate::stage::Stage;
use crate::take::{FileTaken, MOST_HELD, RecordTaken, take_file_head, take_record};
use replay_form::{Event, RecordFault, RecordHead, RecordReader, Stamp};
use std::alloc::Global;
use std::marker::Model;
use vrt_words::NoMemory;

/// Reads the header of a record and a capture file behind it, in any pieces: the header, the head
/// of the file, and then its records one by one, each judged as soon as it is there. It takes all
/// its memory at opening, and copies no record that stands whole in a piece.
#[derive(Drop)]
pub struct CaptureReader {
    header: RecordReader,
    stage: Stage,
    stamp: Stamp,
    start: u64,
    whole: bool,
    // What has come of the file's head or of the next record, or a whole record that came in parts.
    held: Vec<u8>,
    fault: Option<RecordFault>,
}

impl Model for CaptureReader {
    ghost use Rattle.std.specs.Prelude.{vec_capacity};
    ghost use Rattle.pcap_frames.specs.Reading.{Reading, Keeps};

    ghost Value = { Reading };

    ghost view = { λ r. record {
      header = r.header;
      stage = r.stage;
      stamp = r.stamp;
      start = r.start;
      whole = r.whole;
      held = r.held.items;
      fault = r.fault;
    } };

    ghost invariant = { λ r. Keeps (record {
      header = r.header;
      stage = r.stage;
      stamp = r.stamp;
      start = r.start;
      whole = r.whole;
      held = r.held.items;
      fault = r.fault;
    })
        (vec_capacity r.held) };
}

impl CaptureReader {
    /// A reader that was given no bytes.
    pub fn open(alloc: Global) -> Result<CaptureReader, NoMemory>
        ensures fresh { IfOk result (λ reader. IsFresh reader) }
        ensures stands { IfOk result (λ reader. StandsFor reader [] []) }
    {
        let header = match RecordReader::open(alloc) {
            Ok(header) => header,
            Err(no_memory) => return Err(no_memory),
        };
        let Ok(held) = Vec::with_capacity(alloc, MOST_HELD) else {
            return Err(NoMemory);
        };
        Ok(CaptureReader {
            header,
            stage: Stage::Header,
            stamp: earliest(),
            start: 0,
            whole: false,
            held,
            fault: None,
        })
    }

    /// Takes bytes of the piece up to the next whole header, file head or record, and answers how
    /// many.
    ///
    /// `More` says that all were taken. `Err` comes at the first field that is wrong, as soon as
    /// its bytes are there, and then at every later call; a header that is whole stays.
    pub fn feed(&mut self, piece: &[u8]) -> Result<(usize, CaptureEvent), RecordFault>
        requires { self.old.fault ≡ None
            → self.old.start + length (begun self.old) + length piece.now < 2 ^ 63 }

        // Over all bytes that were ever given, however they were cut.
        ensures stands { IfOk result (λ step. (taken : List ℕ) (records : List Captured)
            → StandsFor self.old taken records
            → StandsFor self.new (taken ++ take step.0 piece.now)
            (records_after step.1 records self.new (take step.0 piece.now))) }
        ensures fails { OnErr result ((taken : List ℕ) (records : List Captured)
            → StandsFor self.old taken records
            → StandsFor self.new (taken ++ piece.now) records) }

        ensures few { IfOk result (λ step. step.0 ≤ length piece.now) }
        ensures progress { IfOk result (λ step. 0 < length piece.now → 0 < step.0) }

        // The record that is whole can be told with the bytes taken.
        ensures lies { IfOk result (λ step. self.new.whole ≡ true
            → IsRecordIn self.new (take step.0 piece.now)) }

        // What a call does and where it fails, by what the reader knows.
        ensures step { IfOk result
            (λ step. IsNextReading self.old piece.now step.0 step.1 self.new) }
        ensures wrong { IfErr result
            (λ fault. IsFailed self.old.fault self.old piece.now fault.offset self.new) }
        ensures idle { OnErr result (self.new.whole ≡ false) }
        ensures kept { OnErr result (KeepsHead self.old.header self.new.header) }
    {
        self.advance(piece)
    }

    /// The header, once it is whole.
    pub fn head(&self) -> Option<&RecordHead>
        ensures head { MatchOption result (self.now.header.started ≡ false)
            (λ head. (self.now.header.started ≡ true)
            × (head.now ≡ self.now.header.head)) }
        ensures spelled { IfSome result (λ head. IsSpelledHead head.now) }
        ensures valid { IfSome result (λ head. AreHeadValues head.now) }
    {
        self.header.head()
    }

    /// The record that the last call of `feed` made whole, if it did: when it was captured, and its
    /// bytes. It is given the bytes that this call took, where the record may stand.
    pub fn record<'a>(&'a self, taken: &'a [u8]) -> Option<(Stamp, &'a [u8])>
        requires { self.now.whole ≡ true → IsRecordIn self.now taken.now }
        ensures held { MatchOption result (self.now.whole ≡ false)
            (λ record_. (self.now.whole ≡ true)
            × (held_record self.now taken.now
            ≡ record { stamp = record_.0; bytes = record_.1.now })) }
        ensures most { IfSome result (λ record_. length record_.1.now ≤ 262144) }
    {
        if !self.whole {
            return None;
        }
        let bytes = bytes_of_record(&self.held, taken);
        Some((self.stamp, &bytes[RECORD_HEAD..]))
    }

    /// Whether the bytes given are the header of a record and a whole capture file.
    ///
    /// `Err` comes exactly where a fault stands, which is told again, or where they end inside the
    /// header, the head of the file or a record, with their number.
    pub fn finish(&self) -> Result<(), RecordFault>
        // Over all bytes that were ever given, however they were cut.
        ensures capture_read { OnOk result ((taken : List ℕ) (records : List Captured)
            → StandsFor self.now taken records
            → (form : FileForm) × IsCapture self.now.header.head form records taken) }
        ensures no_capture { IfErr result (λ fault. (taken : List ℕ) (records : List Captured)
            → StandsFor self.now taken records
            → IsCaptureWrongAt records taken fault.offset
            ⊎ (EndsInside taken × (fault.offset ≡ length taken))) }

        // Where a capture ends, and where it does not, by what the reader knows.
        ensures finished { OnOk result (IsAtEnd self.now) }
        ensures unfinished { IfErr result
            (λ fault. IsUnfinished self.now.fault self.now fault.offset) }
    {
        self.ending()
    }

    fn ending(&self) -> Result<(), RecordFault>
        ensures finished { OnOk result (IsAtEnd self.now) }
        ensures unfinished { IfErr result
            (λ fault. IsUnfinished self.now.fault self.now fault.offset) }
    {
        if let Some(standing) = self.fault {
            return Err(standing);
        }
        let begun = if self.whole { 0 } else { self.held.len() };
        let offset = self.start + begun as u64;
        match self.stage {
            Stage::Header | Stage::FileHead => Err(RecordFault { offset }),
            Stage::Records(_) => {
                if begun == 0 {
                    Ok(())
                } else {
                    Err(RecordFault { offset })
                }
            }
        }
    }

    // One call of `feed`.
    fn advance(&mut self, piece: &[u8]) -> Result<(usize, CaptureEvent), RecordFault>
        requires { self.old.fault ≡ None
            → self.old.start + length (begun self.old) + length piece.now < 2 ^ 63 }
        ensures step { IfOk result
            (λ step. IsNextReading self.old piece.now step.0 step.1 self.new) }
        ensures progress { IfOk result (λ step. 0 < length piece.now → 0 < step.0) }
        ensures wrong { IfErr result
            (λ fault. IsFailed self.old.fault self.old piece.now fault.offset self.new) }
        ensures idle { OnErr result (self.new.whole ≡ false) }
        ensures kept { OnErr result (KeepsHead self.old.header self.new.header) }
    {
        if let Some(fault) = self.fault {
            return Err(fault);
        }
        match self.stage {
            Stage::Header => self.feed_header(piece),
            Stage::FileHead => self.feed_file_head(piece),
            Stage::Records(form) => self.feed_record(form, piece),
        }
    }

    // Takes bytes of the piece up to the end of the header, which is not whole yet.
    fn feed_header(&mut self, piece: &[u8]) -> Result<(usize, CaptureEvent), RecordFault>
        requires sound { self.old.fault ≡ None }
        requires stage { self.old.stage ≡ stages.Header }
        requires small { self.old.start + length (begun self.old) + length piece.now < 2 ^ 63 }
        ensures step { IfOk result
            (λ step. IsNextReading self.old piece.now step.0 step.1 self.new) }
        ensures progress { IfOk result (λ step. 0 < length piece.now → 0 < step.0) }
        ensures wrong { IfErr result
            (λ fault. IsNewFault self.old piece.now fault.offset self.new) }
        ensures kept { OnErr result (KeepsHead self.old.header self.new.header) }
    {
        match self.header.feed(piece) {
            Ok((count, Event::More)) => {
                self.start += count as u64;
                Ok((count, CaptureEvent::More))
            }
            Ok((count, Event::Head)) => {
                self.start += count as u64;
                self.stage = Stage::FileHead;
                Ok((count, CaptureEvent::Head))
            }
            Ok((_, Event::Frame)) => unreachable!(),
            Err(fault) => {
                self.fault = Some(fault);
                Err(fault)
            }
        }
    }

    // Takes bytes of the piece up to the end of the head of the file, which is not whole yet.
    fn feed_file_head(&mut self, piece: &[u8]) -> Result<(usize, CaptureEvent), RecordFault>
        requires sound { self.old.fault ≡ None }
        requires stage { self.old.stage ≡ stages.FileHead }
        requires small { self.old.start + length (begun self.old) + length piece.now < 2 ^ 63 }
        ensures step { IfOk result
            (λ step. IsNextReading self.old piece.now step.0 step.1 self.new) }
        ensures progress { IfOk result (λ step. 0 < length piece.now → 0 < step.0) }
        ensures wrong { IfErr result
            (λ fault. IsNewFault self.old piece.now fault.offset self.new) }
        ensures kept { OnErr result (KeepsHead self.old.header self.new.header) }
    {
        match take_file_head(&mut self.held, piece) {
            Ok(FileTaken::Part) => Ok((piece.len(), CaptureEvent::More)),
            Ok(FileTaken::Whole(form, count)) => {
                self.start += self.held.len() as u64;
                self.held.clear();
                self.stage = Stage::Records(form);
                Ok((count, CaptureEvent::File))
            }
            Err(offset) => {
                let fault = RecordFault {
                    offset: self.start + offset as u64,
                };
                self.fault = Some(fault);
                Err(fault)
            }
        }
    }

    // Takes bytes of the piece up to the end of the next record, in a file of this form.
    fn feed_record(
        &mut self,
        form: FileForm,
        piece: &[u8],
    ) -> Result<(usize, CaptureEvent), RecordFault>
        requires sound { self.old.fault ≡ None }
        requires stage { self.old.stage ≡ stages.Records form }
        requires small { self.old.start + length (begun self.old) + length piece.now < 2 ^ 63 }
        ensures step { IfOk result
            (λ step. IsNextReading self.old piece.now step.0 step.1 self.new) }
        ensures progress { IfOk result (λ step. 0 < length piece.now → 0 < step.0) }
        ensures wrong { IfErr result
            (λ fault. IsNewFault self.old piece.now fault.offset self.new) }
        ensures kept { OnErr result (KeepsHead self.old.header self.new.header) }
    {
        self.let_go();
        self.next_record(form, piece)
    }

    // Gives up the record that was whole.
    fn let_go(&mut self)
        requires sound { self.old.fault ≡ None }
        requires stage { (form : FileForm) × (self.old.stage ≡ stages.Records form) }
        ensures { self.new ≡ record self.old { whole = false; held = begun self.old } }
    {
        if self.whole {
            self.held.clear();
            self.whole = false;
        }
    }

    // Takes bytes of the piece up to the end of the next record, where no record is whole.
    fn next_record(
        &mut self,
        form: FileForm,
        piece: &[u8],
    ) -> Result<(usize, CaptureEvent), RecordFault>
        requires sound { self.old.fault ≡ None }
        requires stage { self.old.stage ≡ stages.Records form }
        requires idle { self.old.whole ≡ false }
        requires small { self.old.start + length (begun self.old) + length piece.now < 2 ^ 63 }
        ensures step { IfOk result
            (λ step. IsNextReading self.old piece.now step.0 step.1 self.new) }
        ensures progress { IfOk result (λ step. 0 < length piece.now → 0 < step.0) }
        ensures wrong { IfErr result
            (λ fault. IsNewFault self.old piece.now fault.offset self.new) }
        ensures kept { OnErr result (KeepsHead self.old.header self.new.header) }
    {
        match take_record(&mut self.held, form, piece) {
            Ok(RecordTaken::Part) => Ok((piece.len(), CaptureEvent::More)),
            Ok(RecordTaken::Whole(count)) => {
                let record_bytes = bytes_of_record(&self.held, &piece[..count]);
                let stamp = stamp_in(form, record_bytes);
                let size = record_bytes.len() as u64;
                self.stamp = stamp;
                self.start += size;
                self.whole = true;
                Ok((count, CaptureEvent::Record))
            }
            Err(offset) => {
                let fault = RecordFault {
                    offset: self.start + offset as u64,
                };
                self.fault = Some(fault);
                Err(fault)
            }
        }
    }
}

// The bytes of a whole record: those held, or those taken last where none are.
#[inline]
fn bytes_of_record<'a>(held: &'a [u8], taken: &'a [u8]) -> &'a [u8]
    ensures { result.now ≡ whole_bytes held.now taken.now }
{
    if held.is_empty() { taken } else { held }
}

// So many picoseconds are the unit of a fraction.
fn picos_of_unit(form: FileForm) -> u64
    ensures { result ≡ unit_of form }
{
    if form.nanos { 1_000 } else { 1_000_000 }
}

// When a whole record was captured.
fn stamp_in(form: FileForm, bytes: &[u8]) -> Stamp
    requires { IsWholeRecord form bytes.now }
    ensures { result ≡ (captured_in form bytes.now).stamp }
{
    let picos = u64::from(u32_in(form.big, bytes, 4)) * picos_of_unit(form);
    match Stamp::of_picos(u32_in(form.big, bytes, 0), picos) {
        Some(stamp) => stamp,
        None => unreachable!(),
    }
}

// The stamp that no other is before.
fn earliest() -> Stamp
    ensures { result ≡ first_stamp }
{
    match Stamp::of_picos(0, 0) {
        Some(stamp) => stamp,
        None => unreachable!(),
    }
}
