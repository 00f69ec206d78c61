ghost use Rattle.std.specs.Prelude.{◌≡◌, ◌≤◌, ◌*◌, ℕ, List, length, take, drop, IfOk, IfErr, IsOkAnd};
ghost use Rattle.vrt_words.specs.Words.{words_of, AreBytes, AreWords};
ghost use Rattle.vrt_words.specs.Begins.{IsDatagram, IsRefused};
ghost use Rattle.difi_data.specs.Data.{DataPacket, IsData, packet_of};
ghost use Rattle.vrt_words.specs.Sizes.{IsOtherSize};

use vrt_header::{Kind, Profile, Prologue, read_prologue_of, write_prologue};
use vrt_words::{Place, check_size};

/// The bytes in front of the payload.
const FRONT: usize = 28;

/// A data packet.
#[derive(Clone, Copy, Debug, PartialEq, Eq)]
pub struct DataRec<'a> {
    pub prologue: Prologue,
    /// The words behind the prologue, as bytes, 1 to 16,369 words. The prologue tells how many bits
    /// at their end are unused.
    pub payload: &'a [u8],
}

/// The data packet that a datagram is. The payload is lent from the datagram.
///
/// `Err` at the first word with which no data packet goes on, or at the number of whole words where
/// they begin a longer one; where a packet stands first and more bytes follow, at its size.
#[inline(always)]
pub fn decode(profile: Profile, bytes: &[u8]) -> Result<DataRec<'_>, Place>
    ensures found { IfOk result (λ rec. IsDatagram (IsData profile) (packet_of rec) bytes.now) }
    ensures payload { IfOk result (λ rec. rec.payload.now ≡ drop 28 bytes.now) }
    ensures only { (packet : DataPacket) → IsDatagram (IsData profile) packet bytes.now
        → IsOkAnd result (λ rec. packet_of rec ≡ packet) }
    ensures refused { IfErr result (λ place. IsRefused (IsData profile) bytes.now place.word) }
{
    match read_prologue_of(profile, Kind::Data, bytes) {
        Ok(prologue) => read_behind(prologue, bytes),
        Err(place) => Err(place),
    }
}

// The packet of this prologue, where the datagram has its size.
fn read_behind(prologue: Prologue, bytes: &[u8]) -> Result<DataRec<'_>, Place>
    requires { 7 ≤ length (words_of bytes.now) }
    ensures found { IfOk result (λ rec. (rec.prologue ≡ prologue)
        × (rec.payload.now ≡ drop 28 bytes.now)
        × (length bytes.now ≡ 4 * prologue.header.size)) }
    ensures refused { IfErr result (λ place.
        IsOtherSize prologue.header.size bytes.now place.word) }
{
    match check_size(bytes, prologue.header.size) {
        Ok(()) => Ok(DataRec {
            prologue,
            payload: &bytes[FRONT..],
        }),
        Err(other) => Err(other),
    }
}

/// Writes a data packet at the front of `into`, and answers its words. All other bytes stay.
///
/// The packet is one that words can spell under this profile, and there is room for it. Reading it
/// again gives the packet, and writing what was read gives the same bytes.
pub fn encode(profile: Profile, rec: &DataRec<'_>, into: &mut [u8]) -> usize
    requires spelled { (words : List ℕ) × AreWords words
        × IsData profile (packet_of rec.now) words }
    requires room { 4 * rec.now.prologue.header.size ≤ length into.old }
    ensures size { result ≡ rec.now.prologue.header.size }
    ensures packet { IsDatagram (IsData profile) (packet_of rec.now) (take (4 * result) into.new) }
    ensures again { (bytes : List ℕ) → AreBytes bytes
        → IsDatagram (IsData profile) (packet_of rec.now) bytes
        → take (4 * result) into.new ≡ bytes }
    ensures behind { drop (4 * result) into.new ≡ drop (4 * result) into.old }
{
    write_prologue(profile, &rec.prologue, into);
    let size = usize::from(rec.prologue.header.size);
    into[FRONT..4 * size].copy_from_slice(rec.payload);
    size
}
