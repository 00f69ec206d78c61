ghost use Rattle.std.specs.Prelude.{◌≡◌, Bool, IfSome, Some};
ghost use Rattle.vrt_header.specs.Header.{IsHeader, IsKind, IsTimed, is_size};
ghost use Rattle.vrt_header.specs.Profile.{IsProfile};
ghost use Rattle.vrt_header.specs.declared.header.Header.{Header};
ghost use Rattle.vrt_header.specs.declared.header.Kind.{Kind};

use crate::profile::Profile;
use vrt_words::bits_of;

/// The kinds of packet, by their packet type and the bits of the header that tell them apart.
#[derive(Clone, Copy, Debug, PartialEq, Eq)]
pub enum Kind {
    /// Signal data with a stream identifier (packet type 1).
    Data,
    /// Context of a stream (packet type 4).
    Context,
    /// Version information, an extension context (packet type 5).
    Version,
    /// A command (packet type 6).
    Control,
    /// A cancellation of a command (packet type 6).
    Cancel,
    /// An acknowledgement of a command (packet type 6).
    Ack,
}

/// The header word of a packet.
#[derive(Clone, Copy, Debug, PartialEq, Eq)]
pub struct Header {
    pub kind: Kind,
    /// Bit 25, which is free in data, context and version packets and clear in the others.
    pub bit25: bool,
    /// Bit 24: the timestamp mode of context and version packets, free in acknowledgements, set in
    /// cancellations and clear in data and commands.
    pub bit24: bool,
    /// Whether an integer and a fractional timestamp follow.
    pub timed: bool,
    /// The packet count, modulo 16, of this stream and packet type.
    pub count: u8,
    /// The packet size in 32-bit words, the header included.
    pub size: u16,
}

/// The kind that a header word tells, with the bits that are fixed for it. `None` exactly where the
/// word has the packet type or the bits of none.
#[inline(always)]
pub fn kind_of(word: u32) -> Option<Kind>
    ensures found { IfSome result (λ kind. IsKind kind word) }
    ensures only { (kind : Kind) → IsKind kind word → result ≡ Some kind }
{
    let (acknowledges, bit25, bit24) = (
        bits_of(word, 26, 1),
        bits_of(word, 25, 1),
        bits_of(word, 24, 1),
    );
    match (bits_of(word, 28, 4), acknowledges, bit25, bit24) {
        (1, 0, _, 0) => Some(Kind::Data),
        (4, 0, _, _) => Some(Kind::Context),
        (5, 0, _, _) => Some(Kind::Version),
        (6, 0, 0, 0) => Some(Kind::Control),
        (6, 0, 0, 1) => Some(Kind::Cancel),
        (6, 1, 0, _) => Some(Kind::Ack),
        _ => None,
    }
}

// Whether the header word says that a timestamp follows, where its codes are allowed for the kind.
#[inline(always)]
fn timed_of(tsi: u8, kind: Kind, word: u32) -> Option<bool>
    ensures found { IfSome result (λ timed. IsTimed tsi kind timed word) }
    ensures only { (timed : Bool) → IsTimed tsi kind timed word → result ≡ Some timed }
{
    let (integer, fraction) = (bits_of(word, 22, 2), bits_of(word, 20, 2));
    if integer == u32::from(tsi) && fraction == 2 {
        return Some(true);
    }
    match kind {
        Kind::Control | Kind::Cancel | Kind::Ack if integer == 0 && fraction == 0 => Some(false),
        _ => None,
    }
}

// Whether packets of the kind can have this size.
#[inline(always)]
fn has_size(kind: Kind, timed: bool, size: u16) -> bool
    ensures { result ≡ is_size kind timed size }
{
    let stamped = if timed { 3 } else { 0 };
    match kind {
        Kind::Data => 8 <= size && size <= 16_376,
        Kind::Context => size == 27,
        Kind::Version => size == 11,
        Kind::Control => 7 + stamped <= size && size <= 34 + stamped,
        Kind::Cancel => [7, 8, 9, 11, 12, 15].contains(&size.wrapping_sub(stamped)),
        Kind::Ack => 6 + stamped <= size && size <= 40 + stamped,
    }
}

/// The header that a word spells, if it spells one.
#[inline(always)]
pub fn header_of(profile: Profile, word: u32) -> Option<Header>
    ensures found { IfSome result (λ header. IsHeader profile header word) }
    ensures only { (header : Header) → IsHeader profile header word → result ≡ Some header }
    ensures within { IsProfile profile }
{
    let tsi = profile.tsi();
    let kind = kind_of(word)?;
    let timed = timed_of(tsi, kind, word)?;
    let size = bits_of(word, 0, 16) as u16;
    if bits_of(word, 27, 1) == 0 || !has_size(kind, timed, size) {
        return None;
    }
    Some(Header {
        kind,
        bit25: bits_of(word, 25, 1) == 1,
        bit24: bits_of(word, 24, 1) == 1,
        timed,
        count: bits_of(word, 16, 4) as u8,
        size,
    })
}
