ghost use Rattle.std.specs.Prelude.{◌≡◌, ◌↔◌, ℕ, Bool, IsTrue, ◌+◌, ◌*◌, ◌<◌, ◌≤◌, ◌^◌, true, false, List, [], ◌∷◌, ◌++◌, length, IfOk, IfSome, IfNone};
ghost use Rattle.std.specs.Borrow.{sem};
ghost use Rattle.replay_form.specs.HeadValues.{AreHeadValues};
ghost use Rattle.replay_form.specs.declared.record_head.RecordHead.{RecordHead};
ghost use Rattle.difi_gateway.specs.Contents.{Content, IsContent, Received};
ghost use Rattle.difi_gateway.specs.Isolation.{IsApart};
ghost use Rattle.difi_gateway.specs.State.{StandsFor, IsAtRest, is_ended, releases_of};
ghost use Rattle.difi_gateway.specs.Progress.{IsGiven, IsAllGiven, IsNextGiven, IsNoneGiven, IsSettledAt};
ghost use Rattle.difi_gateway.specs.Writing.{Appends};

use crate::opening::open_parts;
use crate::parts::Parts;
use replay_form::RecordHead;
use std::alloc::Global;
use std::marker::Model;
use text_buffer::TextBuffer;
use vrt_time::Stamp;
use vrt_words::NoMemory;

/// The gateway: it takes the frames of a record, one by one, and gives the release records that each of
/// them makes due.
///
/// It takes all its memory at opening.
#[derive(Drop)]
pub struct Gateway {
    parts: Parts,
    // The record that was lent last.
    room: TextBuffer,
}

impl Model for Gateway {
    ghost use Rattle.difi_gateway.specs.State.{Gated, IsReady};
    ghost use Rattle.difi_gateway.specs.Steps.{gated};

    ghost Value = { Gated };

    ghost view = { λ g. gated g.parts };

    ghost invariant = { λ g. IsReady (gated g.parts) };
}

impl Gateway {
    ghost use Rattle.difi_gateway.specs.Lent.{Leaves};

    /// A gateway for the records of this header, to which no frame was given.
    pub fn open(alloc: Global, head: &RecordHead) -> Result<Gateway, NoMemory>
        requires { AreHeadValues head.now }
        ensures stands { IfOk result (λ gateway. StandsFor gateway head.now [] false 0) }
        ensures rest { IfOk result (λ gateway. IsAtRest gateway) }
    {
        let parts = open_parts(alloc, head)?;
        let room = TextBuffer::open(alloc)?;
        Ok(Gateway { parts, room })
    }

    /// Takes a frame: a datagram of at most 65,535 bytes that came at this moment on this port. What it
    /// makes due, or its refusal, is owed then.
    ///
    /// Nothing is owed before, and the end was not told.
    pub fn frame(&mut self, moment: Stamp, port: u16, bytes: &[u8])
        requires rest { IsAtRest self.old }
        requires short { length bytes.now ≤ 65535 }
        requires few { self.old.taken + 1 + length bytes.now < 2 ^ 63 }
        ensures stands { (head : RecordHead) (received : List Received) (given : ℕ)
            → StandsFor self.old head received false given
            → (content : Content) × IsContent head bytes.now content
            × StandsFor self.new head (received
            ++ record {
              frame = record { stamp = moment; port = port; datagram = bytes.now };
              content = content;
            } ∷ []) false given }

        // Whatever the frame is, the releases of each stream are those of the stream's own frames.
        ensures apart { (head : RecordHead) (received : List Received) (given : ℕ)
            → StandsFor self.old head received false given
            → (content : Content) → IsContent head bytes.now content → (stream : ℕ)
            → IsApart head stream (received
            ++ record {
              frame = record { stamp = moment; port = port; datagram = bytes.now };
              content = content;
            } ∷ []) }
        ensures running { is_ended self.new.stage ≡ false }
        ensures taken { self.new.taken ≡ self.old.taken + 1 + length bytes.now }
    {
        self.parts.take_frame(port, bytes);
        self.parts.draw_ahead();
    }

    /// No more frames are to come: what the end makes due is owed then, and the counts of all that was
    /// told.
    ///
    /// Nothing is owed before, and the end was not told.
    pub fn end(&mut self)
        requires rest { IsAtRest self.old }
        ensures stands { (head : RecordHead) (received : List Received) (given : ℕ)
            → StandsFor self.old head received false given
            → StandsFor self.new head received true given }
        ensures ended { is_ended self.new.stage ≡ true }
        ensures taken { self.new.taken ≡ self.old.taken }
    {
        self.parts.tell_end(0);
        self.parts.draw_ahead();
    }

    /// Whether a release record is owed.
    pub fn owes(&self) -> bool
        // Exactly where fewer releases were given than are defined.
        ensures exactly { (head : RecordHead) (received : List Received) (ended : Bool) (given : ℕ)
            → StandsFor self.now head received ended given
            → IsTrue result ↔ given < length (releases_of head received ended) }
        ensures rest { result ≡ false → IsSettledAt self.now }
    {
        self.parts.owes()
    }

    /// The next release record. `None` exactly where nothing is owed.
    pub fn next_record(&mut self) -> Option<&[u8]>
        // What is lent is the next of the releases that are defined, as long as there is one.
        ensures given { (head : RecordHead) (received : List Received) (ended : Bool) (given : ℕ)
            → StandsFor self.old head received ended given
            → IfSome result (λ bytes. IsGiven head received ended given bytes.now) }
        ensures none { (head : RecordHead) (received : List Received) (ended : Bool) (given : ℕ)
            → StandsFor self.old head received ended given
            → IfNone result (IsAllGiven head received ended given) }
        ensures short { IfSome result (λ bytes. length bytes.now ≤ 262144) }

        // What it stands for then, and where it stands.
        ensures* leaves { sem 𝓛 (Leaves self.entry result) }
    {
        self.room.clear();
        if !self.parts.put_next(&mut self.room) {
            return None;
        }
        Some(self.room.as_slice())
    }

    /// Puts the next release record behind the bytes of a buffer. False exactly where nothing is owed,
    /// and then nothing has changed.
    pub(crate) fn put_record(&mut self, out: &mut TextBuffer) -> bool
        requires { length out.old ≤ 65536 }
        ensures given { IsTrue result
            → Appends (λ bytes. IsNextGiven bytes self.old self.new) out.old out.new }
        ensures same { result ≡ false → out.new ≡ out.old }
        ensures none { result ≡ false → IsNoneGiven self.old self.new }
    {
        self.parts.put_next(out)
    }
}
