ghost use Rattle.std.specs.Prelude.{◌≡◌, ◌≤◌, ◌*◌, ℕ, List, length, take, drop};
ghost use Rattle.vrt_words.specs.Words.{AreBytes, AreWords};
ghost use Rattle.vrt_words.specs.Begins.{IsDatagram};
ghost use Rattle.vrt_header.specs.Profile.{PacketProfile};
ghost use Rattle.ack_codec.specs.Ack.{front_of};
ghost use Rattle.difi_packet.specs.Packet.{IsPacket, value_of, size_in_words};

use crate::packet::Packet;
use ack_codec::{Ack, encode_ack};
use command_codec::{encode_cancel, encode_control};
use vrt_header::Profile;

/// The words of a context packet.
const CONTEXT_WORDS: usize = 27;

/// The words of a version packet.
const VERSION_WORDS: usize = 11;

/// The words that `encode` writes of a packet.
pub fn size_of(packet: &Packet<'_>) -> usize
    ensures size { result ≡ size_in_words (value_of packet.now) }
    ensures spelled { (profile : PacketProfile) (words : List ℕ)
        → IsPacket profile (value_of packet.now) words
        → length words ≡ result }
{
    match packet {
        Packet::Data(rec) => usize::from(rec.prologue.header.size),
        Packet::Context(_) => CONTEXT_WORDS,
        Packet::Version(_) => VERSION_WORDS,
        Packet::Control(packet) => usize::from(packet.prologue.header.size),
        Packet::Cancel(packet) => usize::from(packet.prologue.header.size),
        Packet::Ack(packet) => size_of_ack(packet),
    }
}

// The size in the header of an acknowledgement.
fn size_of_ack(packet: &Ack) -> usize
    ensures { result ≡ (front_of packet.now).prologue.header.size }
{
    let header = match packet {
        Ack::V(report) | Ack::X(report) => &report.prologue.header,
        Ack::S(state) => &state.prologue.header,
    };
    usize::from(header.size)
}

/// Writes a packet at the front of `into`, and answers its words. All other bytes stay.
///
/// The packet is one that words can spell under this profile, and there is room for it. Reading it
/// again gives the packet, and writing what was read gives the same bytes.
pub fn encode(profile: Profile, packet: &Packet<'_>, into: &mut [u8]) -> usize
    requires spelled { (words : List ℕ) × AreWords words
        × IsPacket profile (value_of packet.now) words }
    requires room { 4 * size_in_words (value_of packet.now) ≤ length into.old }
    ensures size { result ≡ size_in_words (value_of packet.now) }
    ensures packet { IsDatagram (IsPacket profile) (value_of packet.now)
        (take (4 * result) into.new) }
    ensures again { (bytes : List ℕ) → AreBytes bytes
        → IsDatagram (IsPacket profile) (value_of packet.now) bytes
        → take (4 * result) into.new ≡ bytes }
    ensures behind { drop (4 * result) into.new ≡ drop (4 * result) into.old }
{
    match packet {
        Packet::Data(rec) => difi_data::encode(profile, rec, into),
        Packet::Context(rec) => {
            difi_context::encode(profile, rec, into);
            CONTEXT_WORDS
        }
        Packet::Version(rec) => {
            difi_version::encode(profile, rec, into);
            VERSION_WORDS
        }
        Packet::Control(packet) => encode_control(profile, packet, into),
        Packet::Cancel(packet) => encode_cancel(profile, packet, into),
        Packet::Ack(packet) => encode_ack(profile, packet, into),
    }
}
