ghost use Rattle.std.specs.Prelude.{◌≡◌, ◌+◌, ◌*◌, ◌≤◌, ◌<◌, length, drop, slice_index, IfOk, IfErr, IfSome, IfNone, Ok};
ghost use Rattle.vrt_words.specs.Words.{words_of};
ghost use Rattle.vrt_words.specs.Begins.{IsDatagram, IsRefused};
ghost use Rattle.command_prologue.specs.CommandPrologue.{command_words};
ghost use Rattle.command_codec.specs.declared.control.Control.{Control};
ghost use Rattle.command_codec.specs.Control.{front_of, AreValues, IsContent, IsControl};
ghost use Rattle.command_codec.specs.FirstWord.{IsRefusedBehind};
ghost use Rattle.command_codec.specs.Steps.{IsAsked, IsFollowed};

use crate::control::Control;
use cam_field::{Action, Role};
use command_prologue::{CommandPrologue, read_command_prologue};
use vrt_fields::{FieldSet, is_field_mask, mask_width};
use vrt_header::Profile;
use vrt_words::{Place, check_size, word_or_place};

/// The command that a datagram is.
///
/// `Err` at the first word with which no command goes on, or at the number of whole words where
/// they begin a longer one; where a command stands first and more bytes follow, at its size.
pub fn decode_control(profile: Profile, bytes: &[u8]) -> Result<Control, Place>
    ensures found { IfOk result (λ packet. IsDatagram (IsControl profile) packet bytes.now) }
    ensures only { (packet : Control) → IsDatagram (IsControl profile) packet bytes.now
        → result ≡ Ok packet }
    ensures refused { IfErr result (λ place. IsRefused (IsControl profile) bytes.now place.word) }
{
    match read_command_prologue(profile, Role::Control, bytes) {
        Ok(front) => read_content(&front, bytes),
        Err(place) => Err(place),
    }
}

// CIF0 behind the prologue, and the values of its fields.
fn read_content(front: &CommandPrologue, bytes: &[u8]) -> Result<Control, Place>
    requires there { command_words front.now ≤ length (words_of bytes.now) }
    requires some { command_words front.now < front.now.prologue.header.size }
    ensures found { IfOk result (λ packet. (front_of packet ≡ front.now)
        × (length bytes.now ≡ 4 * front.now.prologue.header.size)
        × IsContent packet (drop (command_words front.now) (words_of bytes.now))) }
    ensures refused { IfErr result (λ place.
        IsRefusedBehind IsAsked front.now bytes.now place.word) }
{
    let at = front.words();
    let asked = match word_or_place(bytes, at as u32) {
        Ok(word) => word,
        Err(place) => return Err(place),
    };
    let Some(holds) = holds_values(front, asked) else {
        return Err(Place { word: at as u32 });
    };
    match check_size(bytes, front.prologue.header.size) {
        Ok(()) => Ok(packet_of(front, asked, holds, bytes)),
        Err(place) => Err(place),
    }
}

// Whether the values of the fields follow, or in a query nothing; None where the size allows neither.
fn holds_values(front: &CommandPrologue, asked: u32) -> Option<bool>
    requires { command_words front.now < front.now.prologue.header.size }
    ensures right { IfSome result (IsFollowed front.now asked) }
    ensures none { IfNone result (¬ IsAsked front.now asked) }
{
    if !is_field_mask(asked) {
        return None;
    }
    let left = usize::from(front.prologue.header.size) - front.words() - 1;
    if mask_width(asked) == left {
        Some(true)
    } else if front.cam.action == Action::None && left == 0 {
        Some(false)
    } else {
        None
    }
}

// The command of this prologue and CIF0, with the values behind it.
fn packet_of(front: &CommandPrologue, asked: u32, holds: bool, bytes: &[u8]) -> Control
    requires size { length bytes.now ≡ 4 * front.now.prologue.header.size }
    requires first { command_words front.now < length (words_of bytes.now) }
    requires asked { asked ≡ slice_index (words_of bytes.now) (command_words front.now) }
    requires followed { IsFollowed front.now asked holds }
    ensures front { front_of result ≡ front.now }
    ensures content { IsContent result (drop (command_words front.now) (words_of bytes.now)) }
{
    Control {
        prologue: front.prologue,
        cam: front.cam,
        message: front.message,
        controllee: front.controllee,
        controller: front.controller,
        asked,
        fields: values_of(front, asked, holds, bytes),
    }
}

// The values behind CIF0.
fn values_of(front: &CommandPrologue, asked: u32, holds: bool, bytes: &[u8]) -> Option<FieldSet>
    requires size { length bytes.now ≡ 4 * front.now.prologue.header.size }
    requires followed { IsFollowed front.now asked holds }
    ensures { AreValues front.now.cam asked result
        (drop (command_words front.now + 1) (words_of bytes.now)) }
{
    if holds {
        Some(FieldSet::read(asked, bytes, front.words() + 1))
    } else {
        None
    }
}
