ghost use Rattle.std.specs.Prelude.{◌≡◌, ◌+◌, ◌<◌, ◌≤◌, ◌^◌, ◌++◌, ◌∷◌, ℕ, List, [], None, Some, Err, true, false, length, take, drop, IsErr, OnOk, IfOk};
ghost use Rattle.record_run.specs.Tells.{GoesOn, KeepsCount, CountsFrame, IsSettled};
ghost use Rattle.record_run.specs.Steps.{Way, way_of, Sends, IsPut, IsReady, HeadStays, IsFedAs, IsFedOnce};

use crate::intake::Intake;
use crate::outgoing::Outgoing;
use crate::teller::Teller;
use difi_io::Sink;
use replay_form::Event;
use std::alloc::Global;
use vrt_words::NoMemory;

/// Why no more bytes are fed.
#[derive(Clone, Copy, Debug, PartialEq, Eq)]
pub(crate) enum Stop {
    /// A field is wrong, with so many bytes in front of it.
    Wrong { offset: u64 },
    /// Memory ran out at the header.
    Memory,
}

/// Gives bytes to the intake, up to the first field that is wrong, and tells of the frames that
/// they make whole.
pub(crate) fn feed_all<I: Intake, T: Teller<I>, K: Sink>(
    alloc: Global,
    intake: &mut I,
    teller: &mut T,
    out: &mut Outgoing,
    bytes: &[u8],
    sink: &mut K,
) -> Result<(), Stop>
    requires ready { IsReady (I.reads intake.old) (T.tells teller.old) }
    requires small { (I.reads intake.old).given + length bytes.now < 2 ^ 63 }
    requires room { length out.old.text < 65536 }
    requires one { (T.tells teller.old).wants ≡ true → (I.reads intake.old).head ≡ None
        → length bytes.now ≤ 1 }
    ensures ready { OnOk result (IsReady (I.reads intake.new) (T.tells teller.new)) }
    ensures wants { OnOk result ((T.tells teller.new).wants ≡ (T.tells teller.old).wants) }
    ensures given { OnOk result ((I.reads intake.new).given
        ≡ (I.reads intake.old).given + length bytes.now) }
    ensures stays { OnOk result (HeadStays (I.reads intake.old).head (I.reads intake.new).head) }
    ensures room { length out.new.text < 65536 }
    ensures quiet { OnOk result ((I.reads intake.new).head ≡ None
        → (sink.new ≡ sink.old) × (out.new ≡ out.old)) }
    ensures memory { result ≡ Err Stop.Memory → (sink.new ≡ sink.old) × (out.new ≡ out.old)
        × ((I.reads intake.old).head ≡ None) × (0 < length bytes.now) }
    ensures fed { (taken : List ℕ) (frames : List I.Frame)
        → (I.reads intake.old).stands taken frames
        → IsFedAs I.grammar result bytes.now bytes.now (I.reads intake.old) (I.reads intake.new)
        (T.tells teller.old) (T.tells teller.new)
        (way_of out.old (K.held sink.old) (K.faults sink.old))
        (way_of out.new (K.held sink.new) (K.faults sink.new)) taken frames }
{
    let mut rest = bytes;
    while !rest.is_empty() {
        let count = match feed_once(alloc, intake, teller, out, rest, sink) {
            Ok(count) => count,
            Err(stop) => return Err(stop),
        };
        rest = behind(rest, count);
    }
    Ok(())
}

// Gives bytes to the intake, up to the next header or frame that they make whole, and tells of it.
fn feed_once<I: Intake, T: Teller<I>, K: Sink>(
    alloc: Global,
    intake: &mut I,
    teller: &mut T,
    out: &mut Outgoing,
    bytes: &[u8],
    sink: &mut K,
) -> Result<usize, Stop>
    requires ready { IsReady (I.reads intake.old) (T.tells teller.old) }
    requires small { (I.reads intake.old).given + length bytes.now < 2 ^ 63 }
    requires some { 0 < length bytes.now }
    requires room { length out.old.text < 65536 }
    ensures some { IfOk result (λ count. 0 < count) }
    ensures few { IfOk result (λ count. count ≤ length bytes.now) }
    ensures ready { OnOk result (IsReady (I.reads intake.new) (T.tells teller.new)) }
    ensures wants { OnOk result ((T.tells teller.new).wants ≡ (T.tells teller.old).wants) }
    ensures given { IfOk result (λ count. (I.reads intake.new).given
        ≡ (I.reads intake.old).given + count) }
    ensures stays { OnOk result (HeadStays (I.reads intake.old).head (I.reads intake.new).head) }
    ensures room { length out.new.text < 65536 }
    ensures quiet { OnOk result ((I.reads intake.new).head ≡ None
        → (sink.new ≡ sink.old) × (out.new ≡ out.old)) }
    ensures memory { result ≡ Err Stop.Memory
        → (sink.new ≡ sink.old) × (out.new ≡ out.old) × (I.reads intake.old).head ≡ None }
    ensures fed { (taken : List ℕ) (frames : List I.Frame)
        → (I.reads intake.old).stands taken frames
        → IsFedOnce I.grammar result bytes.now (I.reads intake.old) (I.reads intake.new)
        (T.tells teller.old) (T.tells teller.new)
        (way_of out.old (K.held sink.old) (K.faults sink.old))
        (way_of out.new (K.held sink.new) (K.faults sink.new)) taken frames }
{
    match intake.feed(bytes) {
        Ok((count, Event::More)) => Ok(count),
        Ok((count, Event::Head)) => match tell_head(alloc, intake, teller, out, sink) {
            Ok(()) => Ok(count),
            Err(NoMemory) => Err(Stop::Memory),
        },
        Ok((count, Event::Frame)) => {
            tell_frame(intake, teller, &bytes[..count], out, sink);
            Ok(count)
        }
        Err(fault) => Err(Stop::Wrong {
            offset: fault.offset,
        }),
    }
}

// Tells of the header that is whole.
fn tell_head<I: Intake, T: Teller<I>, K: Sink>(
    alloc: Global,
    intake: &I,
    teller: &mut T,
    out: &mut Outgoing,
    sink: &mut K,
) -> Result<(), NoMemory>
    requires room { length out.old.text < 65536 }
    requires known { (head : I.Head) × ((I.reads intake.now).head ≡ Some head) }
    ensures memory { IsErr result
        → ((T.tells teller.old).wants ≡ true) × (sink.new ≡ sink.old) × (out.new ≡ out.old) }
    ensures room { length out.new.text < 65536 }
    ensures keeps { OnOk result (KeepsCount (T.tells teller.old) (T.tells teller.new)) }
    ensures settled { OnOk result (IsSettled (T.tells teller.new)) }
    ensures told { OnOk result ((head : I.Head) → (I.reads intake.now).head ≡ Some head
        → (text : List ℕ) × (GoesOn head [] text (T.tells teller.old) (T.tells teller.new)
        × Sends text (way_of out.old (K.held sink.old) (K.faults sink.old))
        (way_of out.new (K.held sink.new) (K.faults sink.new)))) }
{
    match teller.begin(alloc, intake) {
        Ok(()) => {
            settle(teller, out, sink);
            Ok(())
        }
        Err(NoMemory) => Err(NoMemory),
    }
}

// Tells of the frame that is whole with these bytes.
fn tell_frame<I: Intake, T: Teller<I>, K: Sink>(
    intake: &I,
    teller: &mut T,
    bytes: &[u8],
    out: &mut Outgoing,
    sink: &mut K,
)
    requires room { length out.old.text < 65536 }
    requires count { (frame : I.Frame) → (I.reads intake.now).frame bytes.now frame
        → (T.tells teller.old).count + 1 + I.grammar.size frame < 2 ^ 63 }
    requires open { (T.tells teller.old).ended ≡ false }
    requires settled { IsSettled (T.tells teller.old) }
    requires whole { (head : I.Head) × (frame : I.Frame) × ((I.reads intake.now).head ≡ Some head)
        × ((I.reads intake.now).frame bytes.now frame) }
    ensures room { length out.new.text < 65536 }
    ensures counts { (frame : I.Frame) → (I.reads intake.now).frame bytes.now frame
        → CountsFrame (I.grammar.size frame) (T.tells teller.old) (T.tells teller.new) }
    ensures settled { IsSettled (T.tells teller.new) }
    ensures told { (head : I.Head) (frame : I.Frame) → (I.reads intake.now).head ≡ Some head
        → (I.reads intake.now).frame bytes.now frame
        → (text : List ℕ) × (GoesOn head (frame ∷ []) text (T.tells teller.old) (T.tells teller.new)
        × Sends text (way_of out.old (K.held sink.old) (K.faults sink.old))
        (way_of out.new (K.held sink.new) (K.faults sink.new))) }
{
    teller.frame(intake, bytes, &mut out.text);
    settle(teller, out, sink);
}

// The bytes behind the first ones.
#[inline]
fn behind(bytes: &[u8], count: usize) -> &[u8]
    requires { count ≤ length bytes.now }
    ensures { result.now ≡ drop count bytes.now }
{
    &bytes[count..]
}

/// Puts all that the teller owes on its way.
pub(crate) fn settle<I: Intake, T: Teller<I>, K: Sink>(
    teller: &mut T,
    out: &mut Outgoing,
    sink: &mut K,
)
    requires { (T.tells teller.old).started ≡ true }
    ensures room { length out.new.text < 65536 }
    ensures settled { IsSettled (T.tells teller.new) }
    ensures put { IsPut (T.tells teller.old) (T.tells teller.new)
        (way_of out.old (K.held sink.old) (K.faults sink.old))
        (way_of out.new (K.held sink.new) (K.faults sink.new)) }
{
    loop {
        out.send_if_full(sink);
        if !teller.next(&mut out.text) {
            return;
        }
    }
}
