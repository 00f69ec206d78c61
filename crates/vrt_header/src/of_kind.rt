ghost use Rattle.std.specs.Prelude.{◌≡◌, ◌<◌, ◌↔◌, ℕ, IsTrue, length, take, slice_index, IfSome, IfNone, IfOk, IfErr, Ok};
ghost use Rattle.vrt_words.specs.Words.{words_of};
ghost use Rattle.vrt_words.specs.Begins.{IsRefusedAt};
ghost use Rattle.vrt_header.specs.Header.{IsKind, prologue_words};
ghost use Rattle.vrt_header.specs.Prologue.{IsPrologueOf};
ghost use Rattle.vrt_header.specs.declared.header.Kind as kinds;
ghost use Rattle.vrt_header.specs.declared.prologue.Prologue.{Prologue};

use crate::header::{Kind, kind_of};
use crate::profile::Profile;
use crate::prologue::{Prologue, read_prologue};
use vrt_words::{Place, word_at};

/// The kind of packet that the first word of a datagram tells.
#[inline(always)]
pub fn kind_in(bytes: &[u8]) -> Option<Kind>
    ensures told { IfSome result (λ kind. (0 < length (words_of bytes.now))
        × IsKind kind (slice_index (words_of bytes.now) 0)) }
    ensures none { IfNone result ((kind : kinds.Kind)
        → ¬ ((0 < length (words_of bytes.now))
        × IsKind kind (slice_index (words_of bytes.now) 0))) }
{
    match word_at(bytes, 0) {
        Some(word) => kind_of(word),
        None => None,
    }
}

/// The prologue of this kind that a datagram begins with. Bytes behind it are not judged.
///
/// `Err` at the first word with which no prologue of the kind goes on, or at the number of whole
/// words where they end inside one.
#[inline(always)]
pub fn read_prologue_of(profile: Profile, kind: Kind, bytes: &[u8]) -> Result<Prologue, Place>
    ensures found { IfOk result (λ prologue.
        IsPrologueOf profile kind prologue
        (take (prologue_words prologue.header.timed) (words_of bytes.now))) }
    ensures only { (prologue : Prologue) (n : ℕ)
        → IsPrologueOf profile kind prologue (take n (words_of bytes.now))
        → result ≡ Ok prologue }
    ensures refused { IfErr result (λ place.
        IsRefusedAt (IsPrologueOf profile kind) (words_of bytes.now) place.word) }
{
    if !has_kind(kind, bytes) {
        return Err(Place { word: 0 });
    }
    read_prologue(profile, bytes)
}

// Whether the first word is the header of a packet of the kind.
#[inline(always)]
fn has_kind(kind: Kind, bytes: &[u8]) -> bool
    ensures { IsTrue result
        ↔ (0 < length (words_of bytes.now)) × IsKind kind (slice_index (words_of bytes.now) 0) }
{
    let Some(word) = word_at(bytes, 0) else {
        return false;
    };
    is_kind(kind, word)
}

// Whether the word is the header of a packet of the kind.
#[inline(always)]
fn is_kind(kind: Kind, word: u32) -> bool
    ensures { IsTrue result ↔ IsKind kind word }
{
    match kind_of(word) {
        Some(told) => told == kind,
        None => false,
    }
}
