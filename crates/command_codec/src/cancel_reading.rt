ghost use Rattle.std.specs.Prelude.{◌≡◌, ◌+◌, ◌*◌, ◌≤◌, [], ◌∷◌, length, drop, IfOk, IfErr, Ok};
ghost use Rattle.vrt_words.specs.Words.{words_of};
ghost use Rattle.vrt_words.specs.Begins.{IsDatagram, IsRefused};
ghost use Rattle.vrt_fields.specs.FieldSet.{IsFieldMask};
ghost use Rattle.command_prologue.specs.CommandPrologue.{command_words};
ghost use Rattle.command_codec.specs.declared.cancel.Cancel.{Cancel};
ghost use Rattle.command_codec.specs.Cancel.{front_of, IsCancel};
ghost use Rattle.command_codec.specs.Steps.{IsNamed};
ghost use Rattle.command_codec.specs.FirstWord.{IsRefusedBehind};

use crate::cancel::Cancel;
use cam_field::Role;
use command_prologue::{CommandPrologue, read_command_prologue};
use vrt_fields::is_field_mask;
use vrt_header::Profile;
use vrt_words::{Place, check_size, word_or_place};

/// The cancellation that a datagram is.
///
/// `Err` at the first word with which no cancellation goes on, or at the number of whole words where
/// they begin a longer one; where a cancellation stands first and more bytes follow, at its size.
pub fn decode_cancel(profile: Profile, bytes: &[u8]) -> Result<Cancel, Place>
    ensures found { IfOk result (λ packet. IsDatagram (IsCancel profile) packet bytes.now) }
    ensures only { (packet : Cancel) → IsDatagram (IsCancel profile) packet bytes.now
        → result ≡ Ok packet }
    ensures refused { IfErr result (λ place. IsRefused (IsCancel profile) bytes.now place.word) }
{
    match read_command_prologue(profile, Role::Cancel, bytes) {
        Ok(front) => read_named(&front, bytes),
        Err(place) => Err(place),
    }
}

// CIF0 behind the prologue, and nothing behind that.
fn read_named(front: &CommandPrologue, bytes: &[u8]) -> Result<Cancel, Place>
    requires there { command_words front.now ≤ length (words_of bytes.now) }
    requires size { command_words front.now + 1 ≡ front.now.prologue.header.size }
    ensures found { IfOk result (λ packet. (front_of packet ≡ front.now)
        × (length bytes.now ≡ 4 * front.now.prologue.header.size) × IsFieldMask packet.named
        × (drop (command_words front.now) (words_of bytes.now) ≡ packet.named ∷ [])) }
    ensures refused { IfErr result (λ place.
        IsRefusedBehind IsNamed front.now bytes.now place.word) }
{
    let at = front.words();
    let named = match word_or_place(bytes, at as u32) {
        Ok(word) => word,
        Err(place) => return Err(place),
    };
    if !is_field_mask(named) {
        return Err(Place { word: at as u32 });
    }
    match check_size(bytes, front.prologue.header.size) {
        Ok(()) => Ok(packet_of(front, named)),
        Err(place) => Err(place),
    }
}

// The cancellation of this prologue and CIF0.
fn packet_of(front: &CommandPrologue, named: u32) -> Cancel
    ensures front { front_of result ≡ front.now }
    ensures named { result.named ≡ named }
{
    Cancel {
        prologue: front.prologue,
        cam: front.cam,
        message: front.message,
        controllee: front.controllee,
        controller: front.controller,
        named,
    }
}
