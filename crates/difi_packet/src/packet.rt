ghost use Rattle.std.specs.Prelude.{◌≡◌, slice_index, IfOk, IfErr, IsOkAnd};
ghost use Rattle.vrt_words.specs.Words.{words_of};
ghost use Rattle.vrt_words.specs.Begins.{IsDatagram, IsRefused};
ghost use Rattle.vrt_header.specs.Header.{IsKind};
ghost use Rattle.vrt_header.specs.declared.header.Kind.TheVariants as variants;
ghost use Rattle.difi_packet.specs.Packet.{PacketValue, IsPacket, value_of, IsLentFrom};

use ack_codec::{Ack, decode_ack};
use command_codec::{Cancel, Control, decode_cancel, decode_control};
use difi_context::ContextRec;
use difi_data::DataRec;
use difi_version::VersionRec;
use vrt_header::{Kind, Profile, kind_in};
use vrt_words::Place;

/// A packet of a stream, by its kind.
#[derive(Clone, Copy, Debug, PartialEq, Eq)]
pub enum Packet<'a> {
    /// Samples of a signal (packet type 1). Their payload is lent.
    Data(DataRec<'a>),
    /// What a converter says of the signal (packet type 4).
    Context(ContextRec),
    /// Which versions a converter speaks (packet type 5).
    Version(VersionRec),
    /// A command (packet type 6).
    Control(Control),
    /// A cancellation of a command (packet type 6).
    Cancel(Cancel),
    /// An acknowledgement of a command (packet type 6).
    Ack(Ack),
}

/// The packet that a datagram is. The payload of a data packet is lent from the datagram.
///
/// `Err` at the first word with which no packet of any kind goes on, or at the number of whole words
/// where they begin a longer one; where a packet stands first and more bytes follow, at its size.
pub fn decode(profile: Profile, bytes: &[u8]) -> Result<Packet<'_>, Place>
    ensures found { IfOk result (λ packet.
        IsDatagram (IsPacket profile) (value_of packet) bytes.now) }
    ensures lent { IfOk result (λ packet. IsLentFrom bytes.now packet) }
    ensures only { (value : PacketValue) → IsDatagram (IsPacket profile) value bytes.now
        → IsOkAnd result (λ packet. value_of packet ≡ value) }
    ensures refused { IfErr result (λ place. IsRefused (IsPacket profile) bytes.now place.word) }
{
    match kind_in(bytes) {
        Some(Kind::Data) => read_data(profile, bytes),
        Some(Kind::Context) => read_context(profile, bytes),
        Some(Kind::Version) => read_version(profile, bytes),
        Some(Kind::Control) => read_control(profile, bytes),
        Some(Kind::Cancel) => read_cancel(profile, bytes),
        Some(Kind::Ack) => read_ack(profile, bytes),
        None => Err(Place { word: 0 }),
    }
}

// The data packet that the datagram is, where its header tells that kind.
fn read_data(profile: Profile, bytes: &[u8]) -> Result<Packet<'_>, Place>
    requires { IsKind variants.Data (slice_index (words_of bytes.now) 0) }
    ensures found { IfOk result (λ packet.
        IsDatagram (IsPacket profile) (value_of packet) bytes.now) }
    ensures lent { IfOk result (λ packet. IsLentFrom bytes.now packet) }
    ensures refused { IfErr result (λ place. IsRefused (IsPacket profile) bytes.now place.word) }
{
    match difi_data::decode(profile, bytes) {
        Ok(rec) => Ok(Packet::Data(rec)),
        Err(place) => Err(place),
    }
}

// The context packet that the datagram is, where its header tells that kind.
fn read_context(profile: Profile, bytes: &[u8]) -> Result<Packet<'_>, Place>
    requires { IsKind variants.Context (slice_index (words_of bytes.now) 0) }
    ensures found { IfOk result (λ packet.
        IsDatagram (IsPacket profile) (value_of packet) bytes.now) }
    ensures lent { IfOk result (λ packet. IsLentFrom bytes.now packet) }
    ensures refused { IfErr result (λ place. IsRefused (IsPacket profile) bytes.now place.word) }
{
    match difi_context::decode(profile, bytes) {
        Ok(rec) => Ok(Packet::Context(rec)),
        Err(place) => Err(place),
    }
}

// The version packet that the datagram is, where its header tells that kind.
#[inline(never)]
fn read_version(profile: Profile, bytes: &[u8]) -> Result<Packet<'_>, Place>
    requires { IsKind variants.Version (slice_index (words_of bytes.now) 0) }
    ensures found { IfOk result (λ packet.
        IsDatagram (IsPacket profile) (value_of packet) bytes.now) }
    ensures lent { IfOk result (λ packet. IsLentFrom bytes.now packet) }
    ensures refused { IfErr result (λ place. IsRefused (IsPacket profile) bytes.now place.word) }
{
    match difi_version::decode(profile, bytes) {
        Ok(rec) => Ok(Packet::Version(rec)),
        Err(place) => Err(place),
    }
}

// The command that the datagram is, where its header tells that kind.
#[inline(never)]
fn read_control(profile: Profile, bytes: &[u8]) -> Result<Packet<'_>, Place>
    requires { IsKind variants.Control (slice_index (words_of bytes.now) 0) }
    ensures found { IfOk result (λ packet.
        IsDatagram (IsPacket profile) (value_of packet) bytes.now) }
    ensures lent { IfOk result (λ packet. IsLentFrom bytes.now packet) }
    ensures refused { IfErr result (λ place. IsRefused (IsPacket profile) bytes.now place.word) }
{
    match decode_control(profile, bytes) {
        Ok(packet) => Ok(Packet::Control(packet)),
        Err(place) => Err(place),
    }
}

// The cancellation that the datagram is, where its header tells that kind.
#[inline(never)]
fn read_cancel(profile: Profile, bytes: &[u8]) -> Result<Packet<'_>, Place>
    requires { IsKind variants.Cancel (slice_index (words_of bytes.now) 0) }
    ensures found { IfOk result (λ packet.
        IsDatagram (IsPacket profile) (value_of packet) bytes.now) }
    ensures lent { IfOk result (λ packet. IsLentFrom bytes.now packet) }
    ensures refused { IfErr result (λ place. IsRefused (IsPacket profile) bytes.now place.word) }
{
    match decode_cancel(profile, bytes) {
        Ok(packet) => Ok(Packet::Cancel(packet)),
        Err(place) => Err(place),
    }
}

// The acknowledgement that the datagram is, where its header tells that kind.
#[inline(never)]
fn read_ack(profile: Profile, bytes: &[u8]) -> Result<Packet<'_>, Place>
    requires { IsKind variants.Ack (slice_index (words_of bytes.now) 0) }
    ensures found { IfOk result (λ packet.
        IsDatagram (IsPacket profile) (value_of packet) bytes.now) }
    ensures lent { IfOk result (λ packet. IsLentFrom bytes.now packet) }
    ensures refused { IfErr result (λ place. IsRefused (IsPacket profile) bytes.now place.word) }
{
    match decode_ack(profile, bytes) {
        Ok(packet) => Ok(Packet::Ack(packet)),
        Err(place) => Err(place),
    }
}
