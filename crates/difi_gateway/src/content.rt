ghost use Rattle.std.specs.Prelude.{◌≡◌, ◌*◌, ◌<◌, ◌≤◌, ◌^◌, ◌↔◌, IsTrue, length, IfOk, IfErr, IfSome};
ghost use Rattle.vrt_words.specs.Begins.{IsDatagram};
ghost use Rattle.difi_packet.specs.Packet.{IsPacket, value_of};
ghost use Rattle.difi_gateway.specs.Judged.{IsDataOfStream, IsNoPacket};

use difi_packet::{Packet, decode};
use release_form::Refusal;
use vrt_header::{Kind, Profile, kind_in};

/// The packet that a datagram is, or why it is none, with what shows it.
pub(crate) fn packet_of(
    profile: Profile,
    max_words: u32,
    datagram: &[u8],
) -> Result<Packet<'_>, (Refusal, u32)>
    requires { length datagram.now < 2 ^ 32 }
    ensures fits { IfOk result (λ packet. length datagram.now ≤ 4 * max_words) }
    ensures packet { IfOk result (λ packet.
        IsDatagram (IsPacket profile) (value_of packet) datagram.now) }
    ensures none { IfErr result (λ refused.
        IsNoPacket profile max_words datagram.now refused.0 refused.1) }
{
    if is_larger(max_words, datagram) {
        return Err((Refusal::TooLarge, datagram.len() as u32));
    }
    match decode(profile, datagram) {
        Ok(packet) => Ok(packet),
        Err(place) => Err((Refusal::Malformed, place.word)),
    }
}

/// The stream identifier of the data packet that a datagram is, where it is one: most are, and of these
/// no more is asked here. What is none is looked at as a packet of any kind.
#[inline]
pub(crate) fn stream_of_data(profile: Profile, max_words: u32, datagram: &[u8]) -> Option<u32>
    ensures { IfSome result (λ stream. IsDataOfStream profile max_words datagram.now stream) }
{
    if is_larger(max_words, datagram) {
        return None;
    }
    match kind_in(datagram) {
        Some(Kind::Data) => match difi_data::decode(profile, datagram) {
            Ok(rec) => Some(rec.prologue.stream),
            Err(_) => None,
        },
        _ => None,
    }
}

// Whether a datagram has more bytes than a packet of so many words.
#[inline]
fn is_larger(max_words: u32, datagram: &[u8]) -> bool
    ensures { IsTrue result ↔ (4 * max_words < length datagram.now) }
{
    datagram.len() > 4 * max_words as usize
}
