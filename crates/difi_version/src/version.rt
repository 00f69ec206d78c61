ghost use Rattle.std.specs.Prelude.{◌≡◌, ◌≤◌, ◌<◌, ◌*◌, ◌==◌, ℕ, List, length, take, drop, slice_index, IfOk, IfErr, Ok};
ghost use Rattle.vrt_words.specs.Words.{words_of, bits, AreBytes, AreWords};
ghost use Rattle.vrt_words.specs.Begins.{IsDatagram, IsRefused};
ghost use Rattle.difi_version.specs.declared.version.VersionRec.{VersionRec};
ghost use Rattle.difi_version.specs.Version.{IsVersion};
ghost use Rattle.difi_version.specs.Steps.{IsRight, IsWrongAt};

use vrt_header::{Kind, Profile, Prologue, read_prologue_of, write_prologue};
use vrt_words::{Place, bits_of, put_words, word_or_place};

/// The words of a version packet.
const WORDS: u32 = 11;

/// The first indicator word without its change bit: the second follows (bit 1), and no field of the
/// first.
const CIF1_FOLLOWS: u32 = 2;

/// The second indicator word: the specification version (bit 3) and the version word (bit 2).
const VERSIONS: u32 = 12;

/// A version packet.
#[derive(Clone, Copy, Debug, PartialEq, Eq)]
pub struct VersionRec {
    pub prologue: Prologue,
    /// The change indicator: whether a field differs from the version packet before.
    pub changed: bool,
    /// The version of the V49 specification, carried and not judged.
    pub spec: u32,
    /// The version word: year, day, revision, type and interface version, carried and not judged.
    pub version: u32,
}

/// The version packet that a datagram is.
///
/// `Err` at the first word with which no version packet goes on, or at the number of whole words
/// where they begin a longer one; where a packet stands first and more bytes follow, at its size.
pub fn decode(profile: Profile, bytes: &[u8]) -> Result<VersionRec, Place>
    ensures found { IfOk result (λ rec. IsDatagram (IsVersion profile) rec bytes.now) }
    ensures only { (rec : VersionRec) → IsDatagram (IsVersion profile) rec bytes.now
        → result ≡ Ok rec }
    ensures refused { IfErr result (λ place. IsRefused (IsVersion profile) bytes.now place.word) }
{
    match read_prologue_of(profile, Kind::Version, bytes) {
        Ok(prologue) => read_behind(prologue, bytes),
        Err(place) => Err(place),
    }
}

// What stands behind the prologue of a version packet.
fn read_behind(prologue: Prologue, bytes: &[u8]) -> Result<VersionRec, Place>
    requires { 7 ≤ length (words_of bytes.now) }
    ensures found { IfOk result (λ rec. (rec.prologue ≡ prologue)
        × (length bytes.now ≡ 44)
        × IsRight (words_of bytes.now) 11
        × (rec.changed ≡ (bits (slice_index (words_of bytes.now) 7) 31 1 == 1))
        × (rec.spec ≡ slice_index (words_of bytes.now) 9)
        × (rec.version ≡ slice_index (words_of bytes.now) 10)) }
    ensures refused { IfErr result (λ place. IsWrongAt (words_of bytes.now) place.word
        × ((length bytes.now ≡ 44) → place.word < 11)) }
{
    let first = word_or_place(bytes, 7)?;
    if bits_of(first, 0, 31) != CIF1_FOLLOWS {
        return Err(Place { word: 7 });
    }
    if word_or_place(bytes, 8)? != VERSIONS {
        return Err(Place { word: 8 });
    }
    let spec = word_or_place(bytes, 9)?;
    let version = word_or_place(bytes, 10)?;
    if bytes.len() != 4 * WORDS as usize {
        return Err(Place { word: WORDS });
    }
    Ok(VersionRec {
        prologue,
        changed: bits_of(first, 31, 1) == 1,
        spec,
        version,
    })
}

/// Writes a version packet at the front of `into`, 44 bytes. All other bytes stay.
///
/// The packet is one that words can spell under this profile, and there is room for it. Reading it
/// again gives the packet, and writing what was read gives the same bytes.
pub fn encode(profile: Profile, rec: &VersionRec, into: &mut [u8])
    requires spelled { (words : List ℕ) × AreWords words × IsVersion profile rec.now words }
    requires room { 44 ≤ length into.old }
    ensures packet { IsDatagram (IsVersion profile) rec.now (take 44 into.new) }
    ensures again { (bytes : List ℕ) → AreBytes bytes → IsDatagram (IsVersion profile) rec.now bytes
        → take 44 into.new ≡ bytes }
    ensures behind { drop 44 into.new ≡ drop 44 into.old }
{
    write_prologue(profile, &rec.prologue, into);
    let first = (u32::from(rec.changed) << 31) + CIF1_FOLLOWS;
    put_words(into, 7, &[first, VERSIONS, rec.spec, rec.version]);
}
