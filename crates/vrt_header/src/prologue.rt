ghost use Rattle.std.specs.Prelude.{◌≡◌, ◌≤◌, ◌<◌, ◌↔◌, ℕ, take, length, slice_get, slice_index, true, IsSome, IfSome, IfOk, IfErr, Ok, Some};
ghost use Rattle.vrt_words.specs.Words.{words_of, bits};
ghost use Rattle.vrt_words.specs.Begins.{IsRefusedAt};
ghost use Rattle.vrt_header.specs.Header.{IsHeader, prologue_words};
ghost use Rattle.vrt_header.specs.Prologue.{IsPrologue, IsClassWord, IsClass, IsStamped};
ghost use Rattle.vrt_header.specs.Steps.{IsWrongAt, IsUnstampedAt};
ghost use Rattle.vrt_header.specs.declared.prologue.Prologue.{Prologue};

use crate::header::{Header, Kind, header_of};
use crate::profile::Profile;
use vrt_time::Stamp;
use vrt_words::{Place, bits_of, word_or_place};

/// The words in front of a packet's own content: header, stream identifier, class identifier and,
/// where the header says so, the timestamps.
#[derive(Clone, Copy, Debug, PartialEq, Eq)]
pub struct Prologue {
    pub header: Header,
    /// The stream identifier.
    pub stream: u32,
    /// The pad bit count, the number of unused bits at the payload's end.
    pub pad: u8,
    /// The information class code.
    pub information: u16,
    /// The packet class code.
    pub packet: u16,
    /// The time stamp, there exactly where the header says that timestamps follow.
    pub stamp: Option<Stamp>,
}

/// The prologue that a datagram begins with. Bytes behind it are not judged.
///
/// `Err` at the first word with which no prologue goes on, or at the number of whole words where
/// they end inside a prologue.
#[inline(always)]
pub fn read_prologue(profile: Profile, bytes: &[u8]) -> Result<Prologue, Place>
    ensures found { IfOk result (λ prologue.
        IsPrologue profile prologue
        (take (prologue_words prologue.header.timed) (words_of bytes.now))) }
    ensures only { (prologue : Prologue) (n : ℕ)
        → IsPrologue profile prologue (take n (words_of bytes.now))
        → result ≡ Ok prologue }
    ensures refused { IfErr result (λ place.
        IsRefusedAt (IsPrologue profile) (words_of bytes.now) place.word) }
{
    let first = word_or_place(bytes, 0)?;
    let Some(header) = header_of(profile, first) else {
        return Err(Place { word: 0 });
    };
    read_behind(profile, header, bytes)
}

// The rest of the prologue behind its header.
#[inline(always)]
fn read_behind(profile: Profile, header: Header, bytes: &[u8]) -> Result<Prologue, Place>
    requires header { IsHeader profile header (slice_index (words_of bytes.now) 0) }
    requires there { 0 < length (words_of bytes.now) }
    ensures found { IfOk result (λ prologue. (prologue.header ≡ header)
        × IsPrologue profile prologue (take (prologue_words header.timed) (words_of bytes.now))) }
    ensures refused { IfErr result (λ place.
        IsWrongAt profile header (words_of bytes.now) place.word) }
{
    let stream = word_or_place(bytes, 1)?;
    let Some(pad) = pad_of(profile, header.kind, word_or_place(bytes, 2)?) else {
        return Err(Place { word: 2 });
    };
    let Some((information, packet)) = class_of(header.kind, word_or_place(bytes, 3)?) else {
        return Err(Place { word: 3 });
    };
    let stamp = stamp_of(header, bytes)?;
    Ok(Prologue {
        header,
        stream,
        pad,
        information,
        packet,
        stamp,
    })
}

// The pad bit count of the class word, where the word is right for the kind.
#[inline(always)]
fn pad_of(profile: Profile, kind: Kind, word: u32) -> Option<u8>
    ensures right { IsSome result ↔ IsClassWord profile kind word }
    ensures pad { IfSome result (λ pad. pad ≡ bits word 27 5) }
{
    let pad = bits_of(word, 27, 5);
    let padded = pad == 0 || kind == Kind::Data;
    if padded && bits_of(word, 24, 3) == 0 && bits_of(word, 0, 24) == profile.cid() {
        Some(pad as u8)
    } else {
        None
    }
}

// The information class and the packet class, where they are right for the kind.
#[inline(always)]
fn class_of(kind: Kind, word: u32) -> Option<(u16, u16)>
    ensures right { IsSome result ↔ IsClass kind (bits word 16 16) (bits word 0 16) }
    ensures codes { IfSome result (λ codes. (codes.0 ≡ bits word 16 16)
        × (codes.1 ≡ bits word 0 16)) }
{
    let codes = (bits_of(word, 16, 16) as u16, bits_of(word, 0, 16) as u16);
    let right = match kind {
        Kind::Data => codes == (0, 0),
        Kind::Context => codes == (0, 1),
        Kind::Version => codes == (1, 4),
        Kind::Control | Kind::Cancel | Kind::Ack => true,
    };
    if right { Some(codes) } else { None }
}

// The stamp behind the class words, if the header says that there is one.
#[inline(always)]
fn stamp_of(header: Header, bytes: &[u8]) -> Result<Option<Stamp>, Place>
    requires { 4 ≤ length (words_of bytes.now) }
    ensures found { IfOk result (λ stamp.
        (prologue_words header.timed ≤ length (words_of bytes.now))
        × IsStamped header.timed stamp (words_of bytes.now)) }
    ensures refused { IfErr result (λ place. (header.timed ≡ true)
        × IsUnstampedAt (words_of bytes.now) place.word) }
{
    if !header.timed {
        return Ok(None);
    }
    match stamp_at(bytes) {
        Ok(stamp) => Ok(Some(stamp)),
        Err(place) => Err(place),
    }
}

// The stamp in the words 4 to 6.
#[inline(always)]
fn stamp_at(bytes: &[u8]) -> Result<Stamp, Place>
    requires { 4 ≤ length (words_of bytes.now) }
    ensures found { IfOk result (λ stamp. (7 ≤ length (words_of bytes.now))
        × IsStamped true (Some stamp) (words_of bytes.now)) }
    ensures refused { IfErr result (λ place. IsUnstampedAt (words_of bytes.now) place.word) }
{
    let seconds = word_or_place(bytes, 4)?;
    let high = word_or_place(bytes, 5)?;
    if high > 232 {
        return Err(Place { word: 5 });
    }
    let low = word_or_place(bytes, 6)?;
    Stamp::of_parts(seconds, high, low).ok_or(Place { word: 6 })
}
