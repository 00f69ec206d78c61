ghost use Rattle.std.specs.Prelude.{◌≡◌, ◌+◌, ◌*◌, ◌≤◌, ◌<◌, ◌^◌, ℕ, List, length, take, drop};
ghost use Rattle.vrt_words.specs.Words.{words_of, AreWords};
ghost use Rattle.vrt_header.specs.Header.{IsHeader, type_of, acknowledge_of, prologue_words};
ghost use Rattle.vrt_header.specs.Prologue.{IsPrologue};
ghost use Rattle.vrt_header.specs.Spelling.{stamp_words};

use crate::header::{Header, Kind};
use crate::profile::Profile;
use crate::prologue::Prologue;
use vrt_time::Stamp;
use vrt_words::put_words;

// The packet type of a kind, and header bit 26.
fn type_bits(kind: Kind) -> (u32, u32)
    ensures { (result.0 ≡ type_of kind) × (result.1 ≡ acknowledge_of kind) }
{
    match kind {
        Kind::Data => (1, 0),
        Kind::Context => (4, 0),
        Kind::Version => (5, 0),
        Kind::Control | Kind::Cancel => (6, 0),
        Kind::Ack => (6, 1),
    }
}

// The one word that spells the header.
fn header_word(profile: Profile, header: Header) -> u32
    requires { (word : ℕ) × (word < 2 ^ 32) × IsHeader profile header word }
    ensures { (word : ℕ) → word < 2 ^ 32 → IsHeader profile header word → result ≡ word }
{
    let (packet_type, acknowledges) = type_bits(header.kind);
    let codes = if header.timed {
        u32::from(profile.tsi()) * 4 + 2
    } else {
        0
    };
    (packet_type << 28)
        + (1 << 27)
        + (acknowledges << 26)
        + (u32::from(header.bit25) << 25)
        + (u32::from(header.bit24) << 24)
        + (codes << 20)
        + (u32::from(header.count) << 16)
        + u32::from(header.size)
}

// The words of a stamp, or zeros where there is none.
fn words_of_stamp(stamp: Option<Stamp>) -> [u32; 3]
    ensures { result ≡ stamp_words stamp }
{
    match stamp {
        Some(stamp) => stamp.parts(),
        None => [0; 3],
    }
}

// The words of a prologue, with zeros for the stamp where there is none.
fn words_of_prologue(profile: Profile, prologue: &Prologue) -> [u32; 7]
    requires { (words : List ℕ) × AreWords words × IsPrologue profile prologue.now words }
    ensures { (words : List ℕ) → AreWords words → IsPrologue profile prologue.now words
        → words ≡ take (prologue_words prologue.now.header.timed) result }
{
    let first = header_word(profile, prologue.header);
    let class = (u32::from(prologue.pad) << 27) + profile.cid();
    let codes = (u32::from(prologue.information) << 16) + u32::from(prologue.packet);
    let [seconds, high, low] = words_of_stamp(prologue.stamp);
    [first, prologue.stream, class, codes, seconds, high, low]
}

// The words that a prologue takes.
fn word_count(timed: bool) -> usize
    ensures { result ≡ prologue_words timed }
{
    if timed { 7 } else { 4 }
}

/// Writes a prologue at the front of `into`, and answers the words that it takes, 4 or 7. All other
/// bytes stay.
///
/// The prologue is one that words can spell under this profile, and there is room for it. Reading
/// it again gives the prologue, and writing what was read gives the same bytes.
pub fn write_prologue(profile: Profile, prologue: &Prologue, into: &mut [u8]) -> usize
    requires spelled { (words : List ℕ) × AreWords words × IsPrologue profile prologue.now words }
    requires room { 4 * prologue_words prologue.now.header.timed ≤ length into.old }
    ensures length { result ≡ prologue_words prologue.now.header.timed }
    ensures prologue { IsPrologue profile prologue.now (take result (words_of into.new)) }
    ensures again { (words : List ℕ) → AreWords words → IsPrologue profile prologue.now words
        → take result (words_of into.new) ≡ words }
    ensures behind { drop (4 * result) into.new ≡ drop (4 * result) into.old }
{
    let words = words_of_prologue(profile, prologue);
    let count = word_count(prologue.header.timed);
    put_words(into, 0, &words[..count]);
    count
}
