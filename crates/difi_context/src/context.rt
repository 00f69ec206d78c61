ghost use Rattle.std.specs.Prelude.{◌≡◌, ◌≤◌, ◌==◌, length, slice_index, IfOk, OnOk, IfErr, Ok};
ghost use Rattle.vrt_words.specs.Words.{words_of, bits};
ghost use Rattle.vrt_words.specs.Begins.{IsDatagram, IsRefused};
ghost use Rattle.difi_context.specs.declared.context.ContextRec.{ContextRec};
ghost use Rattle.difi_context.specs.Context.{IsContext, IsInGrammar, IsSpelled};
ghost use Rattle.difi_context.specs.Steps.{IsBehind, IsRightTo, IsWrongAt};

use vrt_fields::PayloadFormat;
use vrt_header::{Kind, Profile, Prologue, read_prologue_of};
use vrt_words::{Place, bits_of, read_words, word_or_place};

/// The words of a context packet.
const WORDS: u32 = 27;

/// CIF0 without its change bit: the twelve fields.
pub(crate) const FIELDS: u32 = 0x7BB9_8000;

/// A context packet.
#[derive(Clone, Copy, Debug, PartialEq, Eq)]
pub struct ContextRec {
    pub prologue: Prologue,
    /// The change indicator: whether a field differs from the context before.
    pub changed: bool,
    /// The words of the twelve fields, which are the packet's words 8 to 26.
    pub fields: [u32; 19],
}

/// The context packet that a datagram is.
///
/// `Err` at the first word with which no context packet goes on, or at the number of whole words
/// where they begin a longer one; where a packet stands first and more bytes follow, at its size.
#[inline(always)]
pub fn decode(profile: Profile, bytes: &[u8]) -> Result<ContextRec, Place>
    ensures found { IfOk result (λ rec. IsDatagram (IsContext profile) rec bytes.now) }
    ensures only { (rec : ContextRec) → IsDatagram (IsContext profile) rec bytes.now
        → result ≡ Ok rec }
    ensures refused { IfErr result (λ place. IsRefused (IsContext profile) bytes.now place.word) }

    // So it can be encoded again, and tells its rate, format and stamp.
    ensures allowed { IfOk result (IsSpelled profile) }
    ensures grammar { IfOk result IsInGrammar }
{
    let prologue = match read_prologue_of(profile, Kind::Context, bytes) {
        Ok(prologue) => prologue,
        Err(place) => return Err(place),
    };
    let changed = match check_behind(bytes) {
        Ok(changed) => changed,
        Err(place) => return Err(place),
    };
    let mut fields = [0; 19];
    read_words(bytes, 8, &mut fields);
    Ok(ContextRec {
        prologue,
        changed,
        fields,
    })
}

// The change indicator, where nothing is wrong behind the prologue of a context.
#[inline(always)]
fn check_behind(bytes: &[u8]) -> Result<bool, Place>
    requires { 7 ≤ length (words_of bytes.now) }
    ensures found { IfOk result (λ changed. IsBehind changed bytes.now) }
    ensures refused { IfErr result (λ place. IsWrongAt bytes.now place.word) }
{
    let changed = changed_of(bytes)?;
    check_rate(bytes)?;
    check_format(bytes)?;
    if bytes.len() != 4 * WORDS as usize {
        return Err(Place { word: WORDS });
    }
    Ok(changed)
}

// The change indicator in CIF0, where it names the twelve fields.
fn changed_of(bytes: &[u8]) -> Result<bool, Place>
    requires { 7 ≤ length (words_of bytes.now) }
    ensures changed { IfOk result (λ changed. changed
        ≡ (bits (slice_index (words_of bytes.now) 7) 31 1 == 1)) }
    ensures right { OnOk result (IsRightTo (words_of bytes.now) 8) }
    ensures refused { IfErr result (λ place. IsWrongAt bytes.now place.word) }
{
    let cif0 = word_or_place(bytes, 7)?;
    if bits_of(cif0, 0, 31) != FIELDS {
        return Err(Place { word: 7 });
    }
    Ok(bits_of(cif0, 31, 1) == 1)
}

// Whether the sample rate is at least 1 Hz.
#[inline(always)]
fn check_rate(bytes: &[u8]) -> Result<(), Place>
    requires { IsRightTo (words_of bytes.now) 8 }
    ensures right { OnOk result (IsRightTo (words_of bytes.now) 21) }
    ensures refused { IfErr result (λ place. IsWrongAt bytes.now place.word) }
{
    let high = word_or_place(bytes, 19)?;
    if high >= 1 << 31 {
        return Err(Place { word: 19 });
    }
    let low = word_or_place(bytes, 20)?;
    if high == 0 && low < 1 << 20 {
        return Err(Place { word: 20 });
    }
    Ok(())
}

// Whether the payload format is one of the profile.
#[inline(always)]
fn check_format(bytes: &[u8]) -> Result<(), Place>
    requires { IsRightTo (words_of bytes.now) 21 }
    ensures right { OnOk result (IsRightTo (words_of bytes.now) 27) }
    ensures refused { IfErr result (λ place. IsWrongAt bytes.now place.word) }
{
    let first = word_or_place(bytes, 25)?;
    if PayloadFormat::read(first, 0).is_err() {
        return Err(Place { word: 25 });
    }
    let second = word_or_place(bytes, 26)?;
    if second != 0 {
        return Err(Place { word: 26 });
    }
    Ok(())
}
