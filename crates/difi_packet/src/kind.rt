ghost use Rattle.std.specs.Prelude.{◌≡◌};
ghost use Rattle.difi_packet.specs.Packet.{value_of, ack_kind_and_stream, kind_and_stream};

use crate::packet::Packet;
use ack_codec::Ack;

/// The kinds of packet, with acknowledgements told apart by what they acknowledge.
#[derive(Clone, Copy, Debug, PartialEq, Eq)]
pub enum PacketKind {
    /// Samples of a signal.
    Data,
    /// What a converter says of the signal.
    Context,
    /// Which versions a converter speaks.
    Version,
    /// A command.
    Control,
    /// A cancellation of a command.
    Cancel,
    /// An acknowledgement of a command's validation.
    AckV,
    /// An acknowledgement of a command's execution.
    AckX,
    /// An answer to a query of the state.
    AckS,
}

/// The kind of a packet, and its stream identifier.
pub fn kind_and_stream(packet: &Packet<'_>) -> (PacketKind, u32)
    ensures { result ≡ kind_and_stream (value_of packet.now) }
{
    match packet {
        Packet::Data(rec) => (PacketKind::Data, rec.prologue.stream),
        Packet::Context(rec) => (PacketKind::Context, rec.prologue.stream),
        Packet::Version(rec) => (PacketKind::Version, rec.prologue.stream),
        Packet::Control(packet) => (PacketKind::Control, packet.prologue.stream),
        Packet::Cancel(packet) => (PacketKind::Cancel, packet.prologue.stream),
        Packet::Ack(packet) => ack_kind_and_stream(packet),
    }
}

// The kind of an acknowledgement, and its stream identifier.
fn ack_kind_and_stream(packet: &Ack) -> (PacketKind, u32)
    ensures { result ≡ ack_kind_and_stream packet.now }
{
    match packet {
        Ack::V(report) => (PacketKind::AckV, report.prologue.stream),
        Ack::X(report) => (PacketKind::AckX, report.prologue.stream),
        Ack::S(state) => (PacketKind::AckS, state.prologue.stream),
    }
}
