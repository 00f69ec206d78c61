ghost use Rattle.std.specs.Prelude.{◌≡◌, ◌+◌, ◌≤◌, ◌<◌, ℕ, true, length, take, drop, IfOk, IfErr, Ok};
ghost use Rattle.vrt_words.specs.Words.{words_of};
ghost use Rattle.vrt_words.specs.Begins.{IsRefusedAt};
ghost use Rattle.vrt_header.specs.Header.{prologue_words};
ghost use Rattle.cam_field.specs.declared.cam.Cam.{Cam};
ghost use Rattle.command_prologue.specs.CommandPrologue.{kind_of, identity_words, IsMode, IsBehind, IsCommandPrologue, command_words};
ghost use Rattle.command_prologue.specs.Steps.{IsCutAt, AreNamed};
ghost use Rattle.command_prologue.specs.declared.prologue.CommandPrologue.{CommandPrologue};

use crate::identity::{identity_at, identity_size};
use crate::mode::{identities_size, mode_of, prologue_size};
use crate::prologue::CommandPrologue;
use cam_field::{Cam, Role};
use vrt_header::{Kind, Profile, Prologue, read_prologue_of};
use vrt_words::{Place, word_or_place};

/// The prologue with which a packet of this role begins. What stands behind it is not judged, but
/// the size in the header has to leave words that can stand there.
///
/// `Err` at the first word with which no such prologue goes on, or at the number of whole words
/// where they end inside one.
pub fn read_command_prologue(
    profile: Profile,
    role: Role,
    bytes: &[u8],
) -> Result<CommandPrologue, Place>
    ensures found { IfOk result (λ front. (command_words front ≤ length (words_of bytes.now))
        × IsCommandPrologue profile role front (take (command_words front) (words_of bytes.now))) }
    ensures only { (front : CommandPrologue) (n : ℕ)
        → IsCommandPrologue profile role front (take n (words_of bytes.now))
        → result ≡ Ok front }
    ensures refused { IfErr result (λ place.
        IsRefusedAt (IsCommandPrologue profile role) (words_of bytes.now) place.word) }
{
    match read_prologue_of(profile, role_kind(role), bytes) {
        Ok(prologue) => read_behind(prologue, role, bytes),
        Err(place) => Err(place),
    }
}

// The kind of packet that has the role.
fn role_kind(role: Role) -> Kind
    ensures { result ≡ kind_of role }
{
    match role {
        Role::Control => Kind::Control,
        Role::Cancel => Kind::Cancel,
        Role::Ack => Kind::Ack,
    }
}

// The mode word, the message identifier and the identities behind the prologue.
fn read_behind(prologue: Prologue, role: Role, bytes: &[u8]) -> Result<CommandPrologue, Place>
    requires { prologue_words prologue.header.timed ≤ length (words_of bytes.now) }
    ensures found { IfOk result (λ front. (front.prologue ≡ prologue)
        × (command_words front ≤ length (words_of bytes.now))
        × IsBehind role front (take (2 + identity_words front.cam)
        (drop (prologue_words prologue.header.timed) (words_of bytes.now)))) }
    ensures refused { IfErr result (λ place. (k : ℕ)
        × (place.word ≡ prologue_words prologue.header.timed + k)
        × IsCutAt role prologue (drop (prologue_words prologue.header.timed)
        (words_of bytes.now)) k) }
{
    let at = prologue_size(prologue.header.timed);
    let word = match word_or_place(bytes, at as u32) {
        Ok(word) => word,
        Err(place) => return Err(place),
    };
    let Some(cam) = mode_of(role, &prologue, word) else {
        return Err(Place { word: at as u32 });
    };
    read_named(prologue, cam, bytes)
}

// The message identifier and the identities that the mode word announces.
fn read_named(prologue: Prologue, cam: Cam, bytes: &[u8]) -> Result<CommandPrologue, Place>
    requires controllee { cam.ie ≡ true → cam.ce ≡ true }
    requires controller { cam.ir ≡ true → cam.cr ≡ true }
    ensures found { IfOk result (λ front. (front.prologue ≡ prologue) × (front.cam ≡ cam)
        × (prologue_words prologue.header.timed + 2 + identity_words cam ≤ length
        (words_of bytes.now))
        × AreNamed front (drop (prologue_words prologue.header.timed + 1) (words_of bytes.now))) }
    ensures short { IfErr result (λ place. (place.word ≡ length (words_of bytes.now))
        × (length (words_of bytes.now) < prologue_words prologue.header.timed + 2 + identity_words cam)) }
{
    let at = prologue_size(prologue.header.timed) + 1;
    if bytes.len() / 4 < at + 1 + identities_size(&cam) {
        return Err(Place {
            word: (bytes.len() / 4) as u32,
        });
    }
    let message = word_or_place(bytes, at as u32)?;
    let middle = at + 1 + identity_size(cam.ce, cam.ie);
    Ok(CommandPrologue {
        prologue,
        cam,
        message,
        controllee: identity_at(bytes, at + 1, cam.ce, cam.ie),
        controller: identity_at(bytes, middle, cam.cr, cam.ir),
    })
}
