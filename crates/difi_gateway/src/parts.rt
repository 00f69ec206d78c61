ghost use Rattle.std.specs.Prelude.{◌≡◌, ℕ, ◌+◌, ◌*◌, ◌<◌, ◌≤◌, ◌^◌, List, [], ◌∷◌, ◌++◌, length, slice_index, vec_len, vec_capacity};
ghost use Rattle.std.specs.List.{AllByRecursion};
ghost use Rattle.vrt_words.specs.Buffer.{Buffer};
ghost use Rattle.vrt_words.specs.Begins.{IsDatagram};
ghost use Rattle.difi_context.specs.Context.{IsSpelled};
ghost use Rattle.difi_packet.specs.Packet.{IsPacket, value_of};
ghost use Rattle.sample_binder.specs.Given.{IsDataOf};
ghost use Rattle.difi_gateway.specs.State.{HasRoom};
ghost use Rattle.difi_gateway.specs.Steps.{gated, refused, refused_for, drawing, MayTake, IsTaken, IsContextTaken, IsDataTaken, IsVersionTaken, IsFrameTaken};

use crate::calling::{call_context, call_data};
use crate::content::{packet_of, stream_of_data};
use crate::stage::Stage;
use crate::telling::Telling;
use difi_context::ContextRec;
use difi_packet::Packet;
use release_form::Refusal;
use sample_binder::{Binder, Run, Turned, front_of};
use stream_routes::Routes;
use vrt_header::Profile;
use vrt_time::Stamp;
use vrt_words::PacketBuf;

// Where each count stands among the counts.
const FRAMES: usize = 0;

const REFUSED: usize = 4;

const VERSIONS: usize = 6;

/// What a gateway is made of, but for the record that it writes.
#[derive(Drop)]
pub(crate) struct Parts {
    pub profile: Profile,
    pub max_words: u32,
    pub routes: Routes,
    /// One for each route.
    pub binders: Vec<Binder>,
    /// The buffers that no binder keeps. The last one has the packet that is told.
    pub empty: Vec<PacketBuf>,
    /// Frames, bound samples, uncertain samples, raw packets, refused frames, acknowledgements and
    /// versions.
    pub counts: [u64; 7],
    /// How many frames and bytes of datagrams were taken.
    pub taken: u64,
    pub telling: Telling,
    /// The run that was drawn last.
    pub run: Run,
    /// How many copies of it were told.
    pub place: usize,
    /// The number lost before the packet whose runs are told, until it is told.
    pub lost: u8,
    pub stage: Stage,
}

impl Parts {
    /// Takes a frame, or refuses it.
    pub fn take_frame(&mut self, port: u16, bytes: &[u8])
        requires ready { MayTake (gated self.old) (length bytes.now) }
        requires short { length bytes.now ≤ 65535 }
        ensures { IsFrameTaken port bytes.now (gated self.old) (gated self.new) }
    {
        match stream_of_data(self.profile, self.max_words, bytes) {
            Some(stream) => self.take_data(port, stream, bytes),
            None => self.take_any(port, bytes),
        }
    }

    // Takes a frame whose datagram is of any kind, or refuses it.
    #[inline(never)]
    fn take_any(&mut self, port: u16, bytes: &[u8])
        requires ready { MayTake (gated self.old) (length bytes.now) }
        requires short { length bytes.now ≤ 65535 }
        ensures { IsFrameTaken port bytes.now (gated self.old) (gated self.new) }
    {
        match packet_of(self.profile, self.max_words, bytes) {
            Ok(packet) => self.take(port, &packet, bytes),
            Err((refusal, detail)) => self.refuse(port, bytes.len(), refusal, detail, None),
        }
    }

    /// Takes the packet that these bytes are, or refuses it.
    pub fn take(&mut self, port: u16, packet: &Packet<'_>, bytes: &[u8])
        requires ready { MayTake (gated self.old) (length bytes.now) }
        requires fits { length bytes.now ≤ 4 * self.old.max_words }
        requires packet { IsDatagram (IsPacket self.old.profile) (value_of packet.now) bytes.now }
        ensures { IsTaken (value_of packet.now) port bytes.now (gated self.old) (gated self.new) }
    {
        match packet {
            Packet::Data(rec) => self.take_data(port, rec.prologue.stream, bytes),
            Packet::Context(rec) => self.take_context(port, bytes.len(), *rec),
            Packet::Version(rec) => self.show(port, rec.prologue.stream, bytes),
            Packet::Control(_) => self.refuse(port, bytes.len(), Refusal::Malformed, 0, None),
            Packet::Cancel(_) => self.refuse(port, bytes.len(), Refusal::Malformed, 0, None),
            Packet::Ack(_) => self.refuse(port, bytes.len(), Refusal::Answer, 0, None),
        }
    }

    /// Takes a context.
    pub fn take_context(&mut self, port: u16, size: usize, rec: ContextRec)
        requires ready { MayTake (gated self.old) size }
        requires grammar { IsSpelled self.old.profile rec }
        ensures { IsContextTaken rec port size (gated self.old) (gated self.new) }
    {
        let Some(index) = self.routes.find(rec.prologue.stream) else {
            return self.refuse(port, size, Refusal::NoRoute, rec.prologue.stream, None);
        };
        match call_context(&mut self.binders[index], rec) {
            Ok(()) => self.draw(size, index),
            Err(turned) => self.turn_away(port, size, turned),
        }
    }

    /// Takes a data packet of this stream.
    pub fn take_data(&mut self, port: u16, stream: u32, bytes: &[u8])
        requires ready { MayTake (gated self.old) (length bytes.now) }
        requires grammar { IsDataOf self.old.profile bytes.now }
        requires fits { length bytes.now ≤ 4 * self.old.max_words }
        ensures { IsDataTaken stream bytes.now port (gated self.old) (gated self.new) }
    {
        let Some(index) = self.routes.find(stream) else {
            return self.refuse(port, bytes.len(), Refusal::NoRoute, stream, None);
        };
        // Read where the packet was received: its buffer, which may lie far away, is only written.
        let front = front_of(bytes);
        let buf = filled(&mut self.empty, bytes);
        match call_data(&mut self.binders[index], front, buf) {
            Ok(()) => self.draw(bytes.len(), index),
            Err((turned, buf)) => {
                self.empty.push_reserved(buf);
                self.turn_away(port, bytes.len(), turned);
            }
        }
    }

    /// Shows a version packet of this stream.
    pub fn show(&mut self, port: u16, stream: u32, bytes: &[u8])
        requires ready { MayTake (gated self.old) (length bytes.now) }
        requires fits { length bytes.now ≤ 4 * self.old.max_words }
        ensures { IsVersionTaken stream bytes.now port (gated self.old) (gated self.new) }
    {
        let Some(index) = self.routes.find(stream) else {
            return self.refuse(port, bytes.len(), Refusal::NoRoute, stream, None);
        };
        let buf = filled(&mut self.empty, bytes);
        self.empty.push_reserved(buf);
        self.counts[FRAMES] += 1;
        self.counts[VERSIONS] += 1;
        self.taken += 1 + bytes.len() as u64;
        self.telling = Telling::Version { index };
        self.place = 0;
    }

    // The binder of this route took the packet of a frame of so many bytes.
    fn draw(&mut self, size: usize, index: usize)
        requires few { self.old.taken + 1 + size < 2 ^ 63 }
        requires frames { slice_index self.old.counts 0 < 2 ^ 63 }
        ensures { gated self.new ≡ drawing (gated self.old) size index }
    {
        self.counts[FRAMES] += 1;
        self.taken += 1 + size as u64;
        self.place = 0;
        self.lost = 0;
        self.stage = Stage::Drawing { index };
    }

    /// A frame of so many bytes is refused.
    pub fn refuse(
        &mut self,
        port: u16,
        size: usize,
        refusal: Refusal,
        detail: u32,
        stamp: Option<Stamp>,
    )
        requires few { self.old.taken + 1 + size < 2 ^ 63 }
        requires frames { slice_index self.old.counts 0 < 2 ^ 63 }
        requires refusals { slice_index self.old.counts 4 < 2 ^ 63 }
        ensures { gated self.new ≡ refused (gated self.old) port size refusal detail stamp }
    {
        self.counts[FRAMES] += 1;
        self.counts[REFUSED] += 1;
        self.taken += 1 + size as u64;
        self.telling = Telling::Refused {
            frame: self.counts[FRAMES],
            port,
            refusal,
            detail,
            stamp,
        };
        self.place = 0;
    }

    /// Refuses a frame of so many bytes, whose packet was turned away.
    pub fn turn_away(&mut self, port: u16, size: usize, turned: Turned)
        requires few { self.old.taken + 1 + size < 2 ^ 63 }
        requires frames { slice_index self.old.counts 0 < 2 ^ 63 }
        requires refusals { slice_index self.old.counts 4 < 2 ^ 63 }
        ensures { gated self.new ≡ refused_for (gated self.old) port size turned }
    {
        match turned {
            Turned::Late(boundary) => self.refuse(port, size, Refusal::Late, 0, Some(boundary)),
            Turned::Repeat => self.refuse(port, size, Refusal::Repeat, 0, None),
            Turned::Conflict(count) => {
                self.refuse(port, size, Refusal::Conflict, count as u32, None)
            }
        }
    }
}

// The last of the empty buffers, filled with these bytes.
fn filled(empty: &mut Vec<PacketBuf>, bytes: &[u8]) -> PacketBuf
    requires some { 0 < length empty.old.items }
    requires rooms { (max_words : ℕ) × AllByRecursion (HasRoom max_words) empty.old.items
        × (length bytes.now ≤ 4 * max_words) }
    ensures filled { (last : Buffer) × (empty.old.items ≡ empty.new.items ++ last ∷ [])
        × (result ≡ record last { bytes = bytes.now }) }
    ensures room { vec_len empty.new < vec_capacity empty.new }
    ensures capacity { vec_capacity empty.new ≡ vec_capacity empty.old }
{
    let Some(mut buf) = empty.pop() else {
        unreachable!()
    };
    buf.fill(bytes);
    buf
}
