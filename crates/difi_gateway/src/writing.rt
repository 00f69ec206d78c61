ghost use Rattle.std.specs.Prelude.{◌≡◌, ◌≢◌, ℕ, ◌+◌, ◌<◌, ◌≤◌, List, [], ◌∷◌, length};
ghost use Rattle.std.specs.List.{AllByRecursion};
ghost use Rattle.sample_binder.specs.Parts.{payload_of};
ghost use Rattle.difi_gateway.specs.Releases.{copies};
ghost use Rattle.difi_gateway.specs.State.{packet_in, items_in, copies_left, IsPlaced};
ghost use Rattle.difi_gateway.specs.Steps.{gated};
ghost use Rattle.release_form.specs.declared.shown.Shown.TheVariants as shown;
ghost use Rattle.difi_gateway.specs.Written.{CanBeWritten};
ghost use Rattle.difi_gateway.specs.Writing.{number_of_copies, copies_behind, one_copy_on, IsNextCopy, IsCopyWritten, IsEndWritten, Appends};
ghost use Rattle.difi_gateway.specs.Telling as telling;

use crate::parts::Parts;
use crate::stage::Stage;
use crate::telling::Telling;
use release_form::{Shown, push_record, push_run};
use text_buffer::TextBuffer;
use vrt_words::PacketBuf;

// The bytes of a data packet in front of its payload.
const PROLOGUE: usize = 28;

impl Parts {
    /// Puts the record of the next copy of what is told behind the bytes of a buffer.
    pub fn put_copy(&mut self, out: &mut TextBuffer)
        requires told { (gated self.old).telling ≢ telling.Nothing }
        requires placed { IsPlaced self.old.routes (gated self.old).telling self.old.place }
        requires can { AllByRecursion CanBeWritten (copies_left (gated self.old)) }
        requires room { length out.old ≤ 65536 }
        ensures { Appends (λ bytes.
            IsCopyWritten bytes (gated self.old) (gated self.new)) out.old out.new }
    {
        self.put_first(out);
        self.go_to_next_copy();
    }

    /// Puts the record of the counts behind the bytes of a buffer. All was told.
    pub fn put_end(&mut self, out: &mut TextBuffer)
        requires { length out.old ≤ 65536 }
        ensures { Appends (λ bytes.
            IsEndWritten bytes (gated self.old) (gated self.new)) out.old out.new }
    {
        let shown = Shown::End {
            counts: self.counts,
        };
        push_record(&shown, &[], out);
        self.stage = Stage::Over;
    }

    // Puts a copy of what is told, as `put_copy` does, and tells it still.
    #[inline]
    fn put_first(&self, out: &mut TextBuffer)
        requires told { (gated self.now).telling ≢ telling.Nothing }
        requires placed { IsPlaced self.now.routes (gated self.now).telling self.now.place }
        requires can { AllByRecursion CanBeWritten (copies_left (gated self.now)) }
        requires room { length out.old ≤ 65536 }
        ensures { Appends (IsNextCopy (gated self.now)) out.old out.new }
    {
        match self.telling {
            Telling::Nothing => unreachable!(),
            Telling::Refused {
                frame,
                port,
                refusal,
                detail,
                stamp,
            } => {
                let shown = Shown::Refused {
                    frame,
                    port,
                    reason: refusal.number(),
                    detail,
                    stamp,
                };
                push_record(&shown, &[], out);
            }
            Telling::Run { index, lost } => {
                let (stream, port) = self.destination(index, lost);
                push_run(stream, port, lost, &self.run, self.payload(), out);
            }
            Telling::Version { index } => {
                let shown = self.version(index);
                push_record(&shown, last_packet(&self.empty), out);
            }
        }
    }

    // The stream of the run that is told, and the port of its next copy.
    fn destination(&self, index: usize, lost: u8) -> (u32, u16)
        requires told { (gated self.now).telling ≡ telling.Run index lost self.now.run }
        requires placed { IsPlaced self.now.routes (gated self.now).telling self.now.place }
        ensures { copies_left (gated self.now)
            ≡ record {
              shown = shown.Run result.0 result.1 lost self.now.run;
              payload = payload_of
                  (packet_in self.now.empty.items);
            } ∷ copies_behind (gated self.now) }
    {
        (
            self.routes.stream(index),
            self.routes.port(index, self.place),
        )
    }

    // What the next copy of the version packet says that is told.
    fn version(&self, index: usize) -> Shown
        requires told { (gated self.now).telling ≡ telling.Version index }
        requires placed { IsPlaced self.now.routes (gated self.now).telling self.now.place }
        ensures { copies_left (gated self.now)
            ≡ record { shown = result; payload = packet_in self.now.empty.items } ∷ copies_behind
            (gated self.now) }
    {
        Shown::Version {
            port: self.routes.port(index, self.place),
        }
    }

    // The payload of the data packet whose run is told.
    fn payload(&self) -> &[u8]
        ensures { result.now ≡ payload_of (packet_in self.now.empty.items) }
    {
        payload_in(last_packet(&self.empty))
    }

    // Tells the next copy, or nothing behind the last one.
    fn go_to_next_copy(&mut self)
        requires told { (gated self.old).telling ≢ telling.Nothing }
        requires placed { IsPlaced self.old.routes (gated self.old).telling self.old.place }
        ensures after { gated self.new ≡ one_copy_on (gated self.old) }
        ensures copies { copies_left (gated self.new) ≡ copies_behind (gated self.old) }
        ensures placed { IsPlaced self.new.routes (gated self.new).telling self.new.place }
    {
        let number = self.number_of_copies();
        if self.place + 1 < number {
            self.place += 1;
        } else {
            self.telling = Telling::Nothing;
            self.place = 0;
        }
    }

    // How many copies there are of what is told.
    fn number_of_copies(&self) -> usize
        requires placed { IsPlaced self.now.routes (gated self.now).telling self.now.place }
        ensures number { result ≡ number_of_copies self.now.routes (gated self.now).telling }
        ensures more { (gated self.now).telling ≢ telling.Nothing → self.now.place < result }
        ensures copies { (packet : List ℕ)
            → length (copies self.now.routes
            (items_in self.now.routes packet (gated self.now).telling)) ≡ result }
    {
        match self.telling {
            Telling::Nothing => 0,
            Telling::Refused { .. } => 1,
            Telling::Run { index, .. } => self.routes.ports(index),
            Telling::Version { index } => self.routes.ports(index),
        }
    }
}

// The packet in the last of the buffers.
fn last_packet(buffers: &[PacketBuf]) -> &[u8]
    ensures { result.now ≡ packet_in buffers.now }
{
    match buffers.last() {
        Some(buf) => buf.bytes(),
        None => &[],
    }
}

// The payload of a data packet.
fn payload_in(packet: &[u8]) -> &[u8]
    ensures { result.now ≡ payload_of packet.now }
{
    &packet[packet.len().min(PROLOGUE)..]
}
