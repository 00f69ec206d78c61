ghost use Rattle.std.specs.Prelude.{◌≡◌, slice_index, IfOk, IfErr, Ok};
ghost use Rattle.vrt_words.specs.Words.{words_of};
ghost use Rattle.vrt_words.specs.Begins.{IsDatagram, IsRefused};
ghost use Rattle.vrt_header.specs.Header.{IsKind};
ghost use Rattle.vrt_header.specs.declared.header.Kind.TheVariants as variants;
ghost use Rattle.difi_packet.specs.Packet.{PacketValue, IsPacket, IsClassified, kind_and_stream};

use crate::kind::{PacketKind, kind_and_stream};
use crate::packet::decode;
use vrt_header::{Kind, Profile, kind_in};
use vrt_words::Place;

/// The bytes of a context packet. Where so many are there, no word behind has to be looked for.
const CONTEXT_BYTES: usize = 108;

/// The kind and the stream identifier of the packet that a datagram is, for a caller that wants
/// nothing else of it: what the packet holds is judged all the same, and not taken out.
///
/// `Err` is that of `decode`.
pub fn classify(profile: Profile, bytes: &[u8]) -> Result<(PacketKind, u32), Place>
    ensures found { IfOk result (IsClassified profile bytes.now) }
    ensures only { (value : PacketValue) → IsDatagram (IsPacket profile) value bytes.now
        → result ≡ Ok (kind_and_stream value) }
    ensures refused { IfErr result (λ place. IsRefused (IsPacket profile) bytes.now place.word) }
{
    match kind_in(bytes) {
        Some(Kind::Data) => classify_data(profile, bytes),
        Some(Kind::Context) if bytes.len() == CONTEXT_BYTES => classify_context(profile, bytes),
        _ => classify_other(profile, bytes),
    }
}

// The same, where the header tells a data packet.
#[inline(always)]
fn classify_data(profile: Profile, bytes: &[u8]) -> Result<(PacketKind, u32), Place>
    requires { IsKind variants.Data (slice_index (words_of bytes.now) 0) }
    ensures found { IfOk result (IsClassified profile bytes.now) }
    ensures refused { IfErr result (λ place. IsRefused (IsPacket profile) bytes.now place.word) }
{
    match difi_data::decode(profile, bytes) {
        Ok(rec) => Ok((PacketKind::Data, rec.prologue.stream)),
        Err(place) => Err(place),
    }
}

// The same, where the header tells a context packet.
#[inline(always)]
fn classify_context(profile: Profile, bytes: &[u8]) -> Result<(PacketKind, u32), Place>
    requires { IsKind variants.Context (slice_index (words_of bytes.now) 0) }
    ensures found { IfOk result (IsClassified profile bytes.now) }
    ensures refused { IfErr result (λ place. IsRefused (IsPacket profile) bytes.now place.word) }
{
    match difi_context::decode(profile, bytes) {
        Ok(rec) => Ok((PacketKind::Context, rec.prologue.stream)),
        Err(place) => Err(place),
    }
}

// The same for any packet.
#[inline(never)]
fn classify_other(profile: Profile, bytes: &[u8]) -> Result<(PacketKind, u32), Place>
    ensures found { IfOk result (IsClassified profile bytes.now) }
    ensures refused { IfErr result (λ place. IsRefused (IsPacket profile) bytes.now place.word) }
{
    match decode(profile, bytes) {
        Ok(packet) => Ok(kind_and_stream(&packet)),
        Err(place) => Err(place),
    }
}
