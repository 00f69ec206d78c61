ghost use Rattle.std.specs.Prelude.{◌≡◌, ◌≢◌, ◌+◌, ◌<◌, ◌≤◌, ◌^◌, ◌⊎◌, ◌↔◌, ℕ, List, [], None, Some, Err, true, false, min, length, take, OnOk, OnErr, IfOk, IfSome, IsTrue};
ghost use Rattle.std.specs.Io.KnownBytes.{Consumes, IsAtEnd, Keeps};
ghost use Rattle.difi_io.specs.Faults.{HasCause, Rose};
ghost use Rattle.replay_form.specs.Grammar.{IsFresh};
ghost use Rattle.record_run.specs.Tells.{HasBegun};
ghost use Rattle.record_run.specs.Outcome.{IsOutcome, IsVerdict};
ghost use Rattle.record_run.specs.Steps.{way_of, IsReady, HeadStays, IsTakenAs, IsEndedAs};

use crate::intake::Intake;
use crate::outgoing::Outgoing;
use crate::reading::{Stop, feed_all, settle};
use crate::status::Status;
use crate::teller::Teller;
use difi_io::{Failed, Sink, Source};
use std::alloc::Global;
use text_buffer::TextBuffer;

/// How many bytes a read asks for, at most.
const PIECE: usize = 1 << 16;

/// Reads from a source piece by piece, and writes to a sink what the teller tells of each frame as
/// soon as it is whole, and of the end.
///
/// Of the bytes the first `most` are judged, and at most one more is asked for. Where the teller
/// takes memory at the header, one byte a read is asked for until the header stands. What was told
/// is written before the next read, and before any status.
pub fn run_record<I: Intake, T: Teller<I>, S: Source, K: Sink>(
    alloc: Global,
    most: u64,
    intake: &mut I,
    teller: &mut T,
    source: &mut S,
    sink: &mut K,
) -> Status
    requires most { most ≤ 2 ^ 62 }
    requires fresh { IsFresh (I.reads intake.old) }
    requires begun { HasBegun (T.tells teller.old) }
    ensures outcome { IsOutcome result
        (record { most = most; grammar = I.grammar; tells = T.tells teller.old })
        (record {
          left = S.left source.old;
          left_now = S.left source.new;
          held = K.held sink.old;
          held_now = K.held sink.new;
          reads = S.faults source.old;
          reads_now = S.faults source.new;
          writes = K.faults sink.old;
          writes_now = K.faults sink.new;
        }) }
    // Where no read and no write fails, the bytes decide, unless memory runs out.
    ensures complete { ¬ Rose (S.faults source.old) (S.faults source.new)
        → ¬ Rose (K.faults sink.old) (K.faults sink.new)
        → IfSome (S.left source.old) (λ bytes. (result ≡ Status.Memory)
        ⊎ IsVerdict I.grammar most bytes result) }

    // Want of memory leaves the sink as it was, and the source too where the teller takes none.
    ensures memory { result ≡ Status.Memory → sink.new ≡ sink.old }
    ensures untouched { result ≡ Status.Memory → (T.tells teller.old).wants ≡ false
        → source.new ≡ source.old }
{
    match TextBuffer::open(alloc) {
        Ok(text) => read_record(
            alloc,
            most,
            intake,
            teller,
            Outgoing::new(text),
            source,
            sink,
        ),
        Err(_) => Status::Memory,
    }
}

// Runs a record as `run_record` does, with a buffer in which nothing waits.
fn read_record<I: Intake, T: Teller<I>, S: Source, K: Sink>(
    alloc: Global,
    most: u64,
    intake: &mut I,
    teller: &mut T,
    mut out: Outgoing,
    source: &mut S,
    sink: &mut K,
) -> Status
    requires most { most ≤ 2 ^ 62 }
    requires fresh { IsFresh (I.reads intake.old) }
    requires begun { HasBegun (T.tells teller.old) }
    requires empty { out ≡ record { text = []; failed = false } }
    ensures outcome { IsOutcome result
        (record { most = most; grammar = I.grammar; tells = T.tells teller.old })
        (record {
          left = S.left source.old;
          left_now = S.left source.new;
          held = K.held sink.old;
          held_now = K.held sink.new;
          reads = S.faults source.old;
          reads_now = S.faults source.new;
          writes = K.faults sink.old;
          writes_now = K.faults sink.new;
        }) }
    ensures memory { result ≡ Status.Memory
        → ((T.tells teller.old).wants ≡ true) × (sink.new ≡ sink.old) }
{
    let mut piece = [0; PIECE];
    let mut left = most;
    loop {
        let one = asks_for_one(intake, teller);
        let count = match read_piece(source, &mut piece, left, one) {
            Ok(count) => count,
            Err(Failed) => return Status::ReadFault,
        };
        if count == 0 {
            return end(intake, teller, &mut out, sink);
        }
        let within = first_of(count, left);
        if let Err(status) = take(alloc, intake, teller, &mut out, &piece[..within], sink) {
            return status;
        }
        if within < count {
            return Status::TooLong;
        }
        left -= count as u64;
    }
}

// Whether one byte is asked for, so that no byte behind the header is taken before memory is.
fn asks_for_one<I: Intake, T: Teller<I>>(intake: &I, teller: &T) -> bool
    ensures { (T.tells teller.now).wants ≡ true → (I.reads intake.now).head ≡ None → result ≡ true }
{
    teller.wants_memory() && !intake.has_head()
}

// Gives bytes to the intake, writes what is told of the frames that they make whole, and tells why
// no more are to come, where that is so: a write failed, a field is wrong, or memory ran out.
fn take<I: Intake, T: Teller<I>, K: Sink>(
    alloc: Global,
    intake: &mut I,
    teller: &mut T,
    out: &mut Outgoing,
    bytes: &[u8],
    sink: &mut K,
) -> Result<(), Status>
    requires ready { IsReady (I.reads intake.old) (T.tells teller.old) }
    requires small { (I.reads intake.old).given + length bytes.now < 2 ^ 63 }
    requires empty { out.old.text ≡ [] }
    requires sound { out.old.failed ≡ false }
    requires one { (T.tells teller.old).wants ≡ true → (I.reads intake.old).head ≡ None
        → length bytes.now ≤ 1 }
    ensures ready { OnOk result (IsReady (I.reads intake.new) (T.tells teller.new)) }
    ensures wants { OnOk result ((T.tells teller.new).wants ≡ (T.tells teller.old).wants) }
    ensures given { OnOk result ((I.reads intake.new).given
        ≡ (I.reads intake.old).given + length bytes.now) }
    ensures stays { OnOk result (HeadStays (I.reads intake.old).head (I.reads intake.new).head) }
    ensures empty { out.new.text ≡ [] }
    ensures sound { result ≢ Err Status.WriteFault → out.new.failed ≡ false }
    ensures cut { result ≡ Err Status.WriteFault → out.new.failed ≡ true }
    ensures quiet { OnOk result ((I.reads intake.new).head ≡ None → sink.new ≡ sink.old) }
    ensures memory { result ≡ Err Status.Memory
        → (sink.new ≡ sink.old) × ((I.reads intake.old).head ≡ None) × (0 < length bytes.now) }
    ensures taken { (taken : List ℕ) (frames : List I.Frame)
        → (I.reads intake.old).stands taken frames
        → IsTakenAs I.grammar result bytes.now (I.reads intake.old) (I.reads intake.new)
        (T.tells teller.old) (T.tells teller.new)
        (way_of out.old (K.held sink.old) (K.faults sink.old))
        (way_of out.new (K.held sink.new) (K.faults sink.new)) taken frames }
{
    match feed_all(alloc, intake, teller, out, bytes, sink) {
        Ok(()) => match out.flush(sink) {
            Ok(()) => Ok(()),
            Err(Failed) => Err(Status::WriteFault),
        },
        Err(Stop::Wrong { offset }) => match out.flush(sink) {
            Ok(()) => Err(Status::BadRecord { offset }),
            Err(Failed) => Err(Status::WriteFault),
        },
        Err(Stop::Memory) => Err(Status::Memory),
    }
}

// The status at the end of the bytes, behind which the rest of the text is written.
fn end<I: Intake, T: Teller<I>, K: Sink>(
    intake: &I,
    teller: &mut T,
    out: &mut Outgoing,
    sink: &mut K,
) -> Status
    requires ready { IsReady (I.reads intake.now) (T.tells teller.old) }
    requires empty { out.old.text ≡ [] }
    requires sound { out.old.failed ≡ false }
    ensures empty { out.new.text ≡ [] }
    ensures sound { result ≢ Status.WriteFault → out.new.failed ≡ false }
    ensures cut { result ≡ Status.WriteFault → out.new.failed ≡ true }
    ensures ended { (taken : List ℕ) (frames : List I.Frame)
        → (I.reads intake.now).stands taken frames
        → IsEndedAs I.grammar result (I.reads intake.now) (T.tells teller.old)
        (way_of out.old (K.held sink.old) (K.faults sink.old))
        (way_of out.new (K.held sink.new) (K.faults sink.new)) taken frames }
{
    match intake.finish() {
        Ok(()) => {
            teller.end(&mut out.text);
            settle(teller, out, sink);
            match out.flush(sink) {
                Ok(()) => Status::Done,
                Err(Failed) => Status::WriteFault,
            }
        }
        Err(fault) => Status::BadRecord {
            offset: fault.offset,
        },
    }
}

// Reads the next bytes into the front of the piece: one, or no more than one behind those that are
// judged.
fn read_piece<S: Source>(
    source: &mut S,
    piece: &mut [u8; PIECE],
    left: u64,
    one: bool,
) -> Result<usize, Failed>
    ensures within { IfOk result (λ n. n ≤ length piece.new) }
    ensures most { IfOk result (λ n. n ≤ left + 1) }
    ensures single { IfOk result (λ n. one ≡ true → n ≤ 1) }
    ensures bytes { IfOk result
        (λ n. Consumes (S.left source.old) (S.left source.new) (take n piece.new)) }
    ensures end { IfOk result (λ n. n ≡ 0 → IsAtEnd (S.left source.new)) }
    ensures err { OnErr result (Keeps (S.left source.old) (S.left source.new)) }
    ensures cause { HasCause (S.faults source.old) (S.faults source.new) result }
{
    source.read(&mut piece[..room_for(left, one)])
}

// How many bytes to ask for where so many are still judged: one more shows that there are too many.
fn room_for(left: u64, one: bool) -> usize
    ensures some { 1 ≤ result }
    ensures piece { result ≤ 65536 }
    ensures most { result ≤ left + 1 }
    ensures single { one ≡ true → result ≡ 1 }
{
    if one {
        1
    } else if left < PIECE as u64 {
        left as usize + 1
    } else {
        PIECE
    }
}

// How many of the bytes that were read are judged.
fn first_of(count: usize, left: u64) -> usize
    ensures { result ≡ min count left }
{
    if left < count as u64 {
        left as usize
    } else {
        count
    }
}
