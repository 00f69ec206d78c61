ghost use Rattle.std.specs.Prelude.{◌≡◌, ◌+◌, ◌*◌, ◌<◌, ◌≤◌, ◌^◌, ◌++◌, ◌↔◌, ◌⊎◌, ℕ, List, [], None, false, true, length, take, MatchOption, IfSome, IfOk, OnOk, IfErr, OnErr};
ghost use Rattle.replay_form.specs.Head.{IsSpelledHead};
ghost use Rattle.replay_form.specs.HeadValues.{AreHeadValues};
ghost use Rattle.replay_form.specs.FrameFields.{Frame, IsFrame, IsWholeFrame};
ghost use Rattle.replay_form.specs.Numbers.{number_at};
ghost use Rattle.replay_form.specs.Reading.{StandsFor, IsFresh, IsNextReading, IsFailed, IsNewFault, IsAtEnd, IsUnfinished, IsFrameIn, KeepsHead, begun, frames_after, held_frame, whole_bytes};
ghost use Rattle.replay_form.specs.Record.{IsRecord, IsRecordWrongAt, EndsInside, first_stamp};
ghost use Rattle.vrt_time.specs.Time.{TimeStamp, stamp_of};

use crate::event::{Event, RecordFault};
use crate::frame_field::FRAME_HEAD;
use crate::head_reading::read_head;
use crate::numbers::{u16_at, u32_at, u64_at};
use crate::record_head::RecordHead;
use crate::route_list::RouteList;
use crate::take::{FrameTaken, HeadTaken, MOST_HELD, take_frame, take_head};
use cam_field::Ident;
use std::alloc::Global;
use std::marker::Model;
use std::mem;
use vrt_fields::{Limit, Limits, Route};
use vrt_header::Profile;
use vrt_time::Stamp;
use vrt_words::NoMemory;

/// The most routes of a record.
const MOST_ROUTES: usize = 256;

/// Reads a record in any pieces: its header, and then its frames one by one, each judged as soon as
/// it is there. It takes all its memory at opening, and copies no frame that stands whole in a
/// piece.
#[derive(Drop)]
pub struct RecordReader {
    alloc: Global,
    started: bool,
    head: RecordHead,
    // Room for the routes of the header, until it is whole.
    routes: Vec<Route>,
    // How many fields of the header are judged, until it is whole.
    judged: usize,
    last: Stamp,
    start: u64,
    whole: bool,
    // What has come of the header or of the next frame, or a whole frame that came in parts.
    held: Vec<u8>,
    fault: Option<RecordFault>,
}

impl Model for RecordReader {
    ghost use Rattle.std.specs.Prelude.{vec_capacity};
    ghost use Rattle.replay_form.specs.Reading.{Reading, Keeps};

    ghost Value = { Reading };

    ghost view = { λ r. record {
      started = r.started;
      head = r.head;
      last = r.last;
      start = r.start;
      whole = r.whole;
      held = r.held.items;
      fault = r.fault;
    } };

    ghost invariant = { λ r. Keeps (record {
      started = r.started;
      head = r.head;
      last = r.last;
      start = r.start;
      whole = r.whole;
      held = r.held.items;
      fault = r.fault;
    })
        r.judged (vec_capacity r.held) (vec_capacity r.routes) r.routes.items };
}

impl RecordReader {
    /// A reader that was given no bytes.
    pub fn open(alloc: Global) -> Result<RecordReader, NoMemory>
        ensures fresh { IfOk result (λ reader. IsFresh reader) }
        ensures stands { IfOk result (λ reader. StandsFor reader [] []) }
    {
        let Ok(held) = Vec::with_capacity(alloc, MOST_HELD) else {
            return Err(NoMemory);
        };
        let Ok(routes) = Vec::with_capacity(alloc, MOST_ROUTES) else {
            return Err(NoMemory);
        };
        Ok(RecordReader {
            alloc,
            started: false,
            head: blank_head(alloc),
            routes,
            judged: 0,
            last: earliest(),
            start: 0,
            whole: false,
            held,
            fault: None,
        })
    }

    /// Takes bytes of the piece up to the next whole header or frame, and answers how many.
    ///
    /// `More` says that all were taken. `Err` comes at the first field that is wrong, as soon as
    /// its bytes are there, and then at every later call; a header that is whole stays.
    pub fn feed(&mut self, piece: &[u8]) -> Result<(usize, Event), RecordFault>
        requires { self.old.fault ≡ None
            → self.old.start + length (begun self.old) + length piece.now < 2 ^ 63 }

        // Over all bytes that were ever given, however they were cut.
        ensures stands { IfOk result (λ step. (taken : List ℕ) (frames : List Frame)
            → StandsFor self.old taken frames
            → StandsFor self.new (taken ++ take step.0 piece.now)
            (frames_after step.1 frames self.new (take step.0 piece.now))) }
        ensures fails { OnErr result ((taken : List ℕ) (frames : List Frame)
            → StandsFor self.old taken frames
            → StandsFor self.new (taken ++ piece.now) frames) }

        ensures few { IfOk result (λ step. step.0 ≤ length piece.now) }
        ensures progress { IfOk result (λ step. 0 < length piece.now → 0 < step.0) }

        // The frame that is whole can be told with the bytes taken.
        ensures lies { IfOk result (λ step. self.new.whole ≡ true
            → IsFrameIn self.new (take step.0 piece.now)) }

        // What a call does and where it fails, by what the reader knows.
        ensures step { IfOk result
            (λ step. IsNextReading self.old piece.now step.0 step.1 self.new) }
        ensures wrong { IfErr result
            (λ fault. IsFailed self.old.fault self.old piece.now fault.offset self.new) }
        ensures idle { OnErr result (self.new.whole ≡ false) }
        ensures kept { OnErr result (KeepsHead self.old self.new) }
    {
        self.advance(piece)
    }

    /// The header, once it is whole.
    pub fn head(&self) -> Option<&RecordHead>
        ensures head { MatchOption result (self.now.started ≡ false)
            (λ head. (self.now.started ≡ true) × (head.now ≡ self.now.head)) }
        ensures spelled { IfSome result (λ head. IsSpelledHead head.now) }
        ensures valid { IfSome result (λ head. AreHeadValues head.now) }
    {
        if self.started { Some(&self.head) } else { None }
    }

    /// The frame that the last call of `feed` made whole, if it did: when the datagram came, on
    /// which port, and its bytes. It is given the bytes that this call took, where the frame may
    /// stand.
    pub fn frame<'a>(&'a self, taken: &'a [u8]) -> Option<(Stamp, u16, &'a [u8])>
        requires { self.now.whole ≡ true → IsFrameIn self.now taken.now }
        ensures held { MatchOption result (self.now.whole ≡ false) (λ frame. (self.now.whole ≡ true)
            × (held_frame self.now taken.now
            ≡ record { stamp = frame.0; port = frame.1; datagram = frame.2.now })) }
        ensures most { IfSome result (λ frame. length frame.2.now ≤ 65535) }
    {
        if !self.whole {
            return None;
        }
        let bytes = bytes_of_frame(&self.held, taken);
        Some((self.last, u16_at(bytes, 12), &bytes[FRAME_HEAD..]))
    }

    /// The bytes of that frame, as they stand in the record.
    pub fn frame_bytes<'a>(&'a self, taken: &'a [u8]) -> Option<&'a [u8]>
        requires { self.now.whole ≡ true → IsFrameIn self.now taken.now }
        ensures frame { MatchOption result (self.now.whole ≡ false)
            (λ bytes. (self.now.whole ≡ true)
            × IsFrame first_stamp (held_frame self.now taken.now) bytes.now) }
        ensures most { IfSome result (λ bytes. length bytes.now ≤ 65555) }
    {
        if self.whole {
            Some(bytes_of_frame(&self.held, taken))
        } else {
            None
        }
    }

    /// Whether the bytes given are a record.
    ///
    /// `Err` comes exactly where a fault stands, which is told again, or where they end inside the
    /// header or a frame, with their number.
    pub fn finish(&self) -> Result<(), RecordFault>
        // Over all bytes that were ever given, however they were cut.
        ensures record_read { OnOk result ((taken : List ℕ) (frames : List Frame)
            → StandsFor self.now taken frames
            → IsRecord self.now.head frames taken) }
        ensures no_record { IfErr result (λ fault. (taken : List ℕ) (frames : List Frame)
            → StandsFor self.now taken frames
            → IsRecordWrongAt frames taken fault.offset
            ⊎ (EndsInside taken × (fault.offset ≡ length taken))) }

        // Where a record ends, and where it does not, by what the reader knows.
        ensures finished { OnOk result (IsAtEnd self.now) }
        ensures unfinished { IfErr result
            (λ fault. IsUnfinished self.now.fault self.now fault.offset) }
    {
        self.ending()
    }

    fn ending(&self) -> Result<(), RecordFault>
        ensures finished { OnOk result (IsAtEnd self.now) }
        ensures unfinished { IfErr result
            (λ fault. IsUnfinished self.now.fault self.now fault.offset) }
    {
        if let Some(standing) = self.fault {
            return Err(standing);
        }
        let begun = if self.whole { 0 } else { self.held.len() };
        if self.started && begun == 0 {
            return Ok(());
        }
        Err(RecordFault {
            offset: self.start + begun as u64,
        })
    }

    // One call of `feed`.
    fn advance(&mut self, piece: &[u8]) -> Result<(usize, Event), RecordFault>
        requires { self.old.fault ≡ None
            → self.old.start + length (begun self.old) + length piece.now < 2 ^ 63 }
        ensures step { IfOk result
            (λ step. IsNextReading self.old piece.now step.0 step.1 self.new) }
        ensures progress { IfOk result (λ step. 0 < length piece.now → 0 < step.0) }
        ensures wrong { IfErr result
            (λ fault. IsFailed self.old.fault self.old piece.now fault.offset self.new) }
        ensures idle { OnErr result (self.new.whole ≡ false) }
        ensures kept { OnErr result (KeepsHead self.old self.new) }
    {
        if let Some(fault) = self.fault {
            return Err(fault);
        }
        self.let_go();
        if self.started {
            self.feed_frame(piece)
        } else {
            self.feed_head(piece)
        }
    }

    // Gives up the frame that was whole.
    fn let_go(&mut self)
        ensures { self.new ≡ record self.old { whole = false; held = begun self.old } }
    {
        if self.whole {
            self.held.clear();
            self.whole = false;
        }
    }

    // Takes bytes of the piece up to the end of the header, which is not whole yet.
    fn feed_head(&mut self, piece: &[u8]) -> Result<(usize, Event), RecordFault>
        requires sound { self.old.fault ≡ None }
        requires first { self.old.started ≡ false }
        requires small { self.old.start + length (begun self.old) + length piece.now < 2 ^ 63 }
        ensures step { IfOk result
            (λ step. IsNextReading self.old piece.now step.0 step.1 self.new) }
        ensures progress { IfOk result (λ step. 0 < length piece.now → 0 < step.0) }
        ensures wrong { IfErr result
            (λ fault. IsNewFault self.old piece.now fault.offset self.new) }
        ensures kept { OnErr result (KeepsHead self.old self.new) }
    {
        match take_head(&mut self.held, self.judged, piece) {
            Ok(HeadTaken::Part(judged)) => {
                self.judged = judged;
                Ok((piece.len(), Event::More))
            }
            Ok(HeadTaken::Whole(count)) => {
                let routes = mem::replace(&mut self.routes, Vec::new(self.alloc));
                self.head = read_head(&self.held, routes);
                self.start = self.held.len() as u64;
                self.held.clear();
                self.last = earliest();
                self.started = true;
                Ok((count, Event::Head))
            }
            Err(offset) => {
                let fault = RecordFault {
                    offset: offset as u64,
                };
                self.fault = Some(fault);
                Err(fault)
            }
        }
    }

    // Takes bytes of the piece up to the end of the next frame.
    fn feed_frame(&mut self, piece: &[u8]) -> Result<(usize, Event), RecordFault>
        requires sound { self.old.fault ≡ None }
        requires later { self.old.started ≡ true }
        requires idle { self.old.whole ≡ false }
        requires small { self.old.start + length (begun self.old) + length piece.now < 2 ^ 63 }
        ensures step { IfOk result
            (λ step. IsNextReading self.old piece.now step.0 step.1 self.new) }
        ensures progress { IfOk result (λ step. 0 < length piece.now → 0 < step.0) }
        ensures wrong { IfErr result
            (λ fault. IsNewFault self.old piece.now fault.offset self.new) }
        ensures kept { OnErr result (KeepsHead self.old self.new) }
    {
        match take_frame(&mut self.held, self.last, piece) {
            Ok(FrameTaken::Part) => Ok((piece.len(), Event::More)),
            Ok(FrameTaken::Whole(count)) => {
                let frame = bytes_of_frame(&self.held, &piece[..count]);
                let last = stamp_in(self.last, frame);
                let size = frame.len() as u64;
                self.last = last;
                self.start += size;
                self.whole = true;
                Ok((count, Event::Frame))
            }
            Err(offset) => {
                let fault = RecordFault {
                    offset: self.start + offset as u64,
                };
                self.fault = Some(fault);
                Err(fault)
            }
        }
    }
}

// The bytes of a whole frame: those held, or those taken last where none are.
#[inline]
fn bytes_of_frame<'a>(held: &'a [u8], taken: &'a [u8]) -> &'a [u8]
    ensures { result.now ≡ whole_bytes held.now taken.now }
{
    if held.is_empty() { taken } else { held }
}

// The stamp of a whole frame.
fn stamp_in(last: Stamp, bytes: &[u8]) -> Stamp
    requires { IsWholeFrame last bytes.now }
    ensures { result ≡ stamp_of (number_at 0 4 bytes.now) (number_at 4 8 bytes.now) }
{
    match Stamp::of_picos(u32_at(bytes, 0), u64_at(bytes, 4)) {
        Some(stamp) => stamp,
        None => unreachable!(),
    }
}

// The stamp that no other is before.
fn earliest() -> Stamp
    ensures { result ≡ first_stamp }
{
    match Stamp::of_picos(0, 0) {
        Some(stamp) => stamp,
        None => unreachable!(),
    }
}

// A header that stands where none has come yet.
fn blank_head(alloc: Global) -> RecordHead {
    let profile = match Profile::of(0, 1) {
        Some(profile) => profile,
        None => unreachable!(),
    };
    let bound = Limit {
        settable: false,
        step: 0,
        least: 0,
        greatest: 0,
    };
    RecordHead {
        form: 1,
        profile,
        max_words: 0,
        limits: Limits {
            data_window: 0,
            context_window: 0,
            kept: 0,
            pending: 0,
        },
        identity: Ident::None,
        initial: [0; 19],
        bounds: [bound; 7],
        routes: RouteList::new(Vec::new(alloc)),
    }
}
