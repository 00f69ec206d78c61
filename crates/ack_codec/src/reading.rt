ghost use Rattle.std.specs.Prelude.{◌≡◌, ◌+◌, ◌-◌, ◌*◌, ◌<◌, ◌≤◌, ◌∷◌, true, length, drop, IfOk, IfErr, Ok};
ghost use Rattle.vrt_words.specs.Words.{words_of};
ghost use Rattle.vrt_words.specs.Begins.{IsDatagram, IsRefused};
ghost use Rattle.vrt_fields.specs.FieldSet.{IsFieldSet, mask_of, words_of_set, width_of_mask};
ghost use Rattle.command_prologue.specs.CommandPrologue.{command_words};
ghost use Rattle.ack_codec.specs.Ack.{IsAck};
ghost use Rattle.ack_codec.specs.Steps.{left_of, IsAckFront, IsBegun, IsBegunOne, IsCutAt, IsReadBehind};
ghost use Rattle.ack_codec.specs.declared.ack.Ack.{Ack};

use crate::ack::{Ack, AckState};
use crate::mask::spread_at;
use crate::reports::read_report;
use cam_field::Role;
use command_prologue::{CommandPrologue, read_command_prologue};
use vrt_fields::FieldSet;
use vrt_header::Profile;
use vrt_words::{Place, check_size};

/// The acknowledgement that a datagram is.
///
/// `Err` at the first word with which no acknowledgement goes on, or at the number of whole words
/// where they begin a longer one; where an acknowledgement stands first and more bytes follow, at its
/// size.
pub fn decode_ack(profile: Profile, bytes: &[u8]) -> Result<Ack, Place>
    ensures found { IfOk result (λ ack. IsDatagram (IsAck profile) ack bytes.now) }
    ensures only { (ack : Ack) → IsDatagram (IsAck profile) ack bytes.now → result ≡ Ok ack }
    ensures refused { IfErr result (λ place. IsRefused (IsAck profile) bytes.now place.word) }
{
    match read_command_prologue(profile, Role::Ack, bytes) {
        Ok(front) => read_content(&front, bytes),
        Err(place) => Err(place),
    }
}

// The acknowledgement of this front, where its content stands behind it.
fn read_content(front: &CommandPrologue, bytes: &[u8]) -> Result<Ack, Place>
    requires front { IsAckFront front.now }
    requires there { command_words front.now ≤ length (words_of bytes.now) }
    ensures found { IfOk result (IsReadBehind front.now bytes.now) }
    ensures refused { IfErr result (λ place. IsCutAt (IsBegun front.now) (command_words front.now)
        front.now.prologue.header.size bytes.now place.word) }
{
    if front.cam.s {
        read_state(front, bytes)
    } else {
        read_report(front, bytes)
    }
}

// The state that is told behind this front.
fn read_state(front: &CommandPrologue, bytes: &[u8]) -> Result<Ack, Place>
    requires front { IsAckFront front.now }
    requires told { front.now.cam.s ≡ true }
    requires there { command_words front.now ≤ length (words_of bytes.now) }
    ensures found { IfOk result (IsReadBehind front.now bytes.now) }
    ensures refused { IfErr result (λ place.
        IsCutAt (IsBegunOne width_of_mask (left_of front.now)) (command_words front.now)
        front.now.prologue.header.size bytes.now place.word) }
{
    match fields_at(bytes, front.words(), front.prologue.header.size) {
        Ok(fields) => Ok(Ack::S(AckState {
            prologue: front.prologue,
            cam: front.cam,
            message: front.message,
            controllee: front.controllee,
            controller: front.controller,
            fields,
        })),
        Err(place) => Err(place),
    }
}

// The fields in the words from `at` on, where they end a datagram of this size.
fn fields_at(bytes: &[u8], at: usize, size: u16) -> Result<FieldSet, Place>
    requires there { at ≤ length (words_of bytes.now) }
    requires left { at < size }
    ensures found { IfOk result (λ fields. IsFieldSet fields
        × (drop at (words_of bytes.now) ≡ mask_of fields ∷ words_of_set fields)
        × (length bytes.now ≡ 4 * size)) }
    ensures refused { IfErr result (λ place.
        IsCutAt (IsBegunOne width_of_mask (size - at)) at size bytes.now place.word) }
{
    let Some(cif0) = spread_at(bytes, at, usize::from(size) - at - 1) else {
        return Err(Place { word: at as u32 });
    };
    match check_size(bytes, size) {
        Ok(()) => Ok(FieldSet::read(cif0, bytes, at + 1)),
        Err(place) => Err(place),
    }
}
