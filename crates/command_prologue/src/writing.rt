ghost use Rattle.std.specs.Prelude.{◌≡◌, ◌+◌, ◌*◌, ◌^◌, ◌<◌, ◌≤◌, ◌++◌, ◌∷◌, ℕ, List, length, take, drop};
ghost use Rattle.vrt_words.specs.Words.{words_of, AreWords};
ghost use Rattle.vrt_header.specs.Header.{prologue_words};
ghost use Rattle.cam_field.specs.Cam.{IsSpelled};
ghost use Rattle.cam_field.specs.Ident.{ident_words};
ghost use Rattle.command_prologue.specs.CommandPrologue.{IsCommandPrologue, command_words};

use crate::prologue::CommandPrologue;
use cam_field::{Cam, Ident, Role};
use vrt_header::{Profile, write_prologue};
use vrt_words::put_words;

/// Writes the prologue of a packet with this role at the front of `into`, and answers its words.
/// All other bytes stay.
///
/// The prologue is one that words can spell under this profile, and there is room for it. Reading
/// it again gives the prologue, and writing what was read gives the same words.
pub fn write_command_prologue(
    profile: Profile,
    role: Role,
    front: &CommandPrologue,
    into: &mut [u8],
) -> usize
    requires spelled { (words : List ℕ) × AreWords words
        × IsCommandPrologue profile role front.now words }
    requires room { 4 * command_words front.now ≤ length into.old }
    ensures length { result ≡ command_words front.now }
    ensures front { IsCommandPrologue profile role front.now (take result (words_of into.new)) }
    ensures again { (words : List ℕ) → AreWords words
        → IsCommandPrologue profile role front.now words
        → take result (words_of into.new) ≡ words }
    ensures behind { drop (4 * result) into.new ≡ drop (4 * result) into.old }
{
    let start = write_prologue(profile, &front.prologue, into);
    let named = put_mode(into, start, &front.cam, front.message);
    let middle = put_identity(into, named, &front.controllee);
    put_identity(into, middle, &front.controller)
}

// Writes the mode word and the message identifier, and tells where they end.
fn put_mode(into: &mut [u8], at: usize, cam: &Cam, message: u32) -> usize
    requires { 4 * (at + 2) ≤ length into.old }
    ensures end { result ≡ at + 2 }
    ensures words { (word : ℕ) × (word < 2 ^ 32) × IsSpelled cam.now word
        × (words_of into.new
        ≡ take at (words_of into.old) ++ (word ∷ message ∷ drop result (words_of into.old))) }
    ensures behind { drop (4 * result) into.new ≡ drop (4 * result) into.old }
{
    put_words(into, at, &[cam.write(), message]);
    at + 2
}

// Writes the words of an identity, and tells where they end.
fn put_identity(into: &mut [u8], at: usize, identity: &Ident) -> usize
    requires { 4 * (at + length (ident_words identity.now)) ≤ length into.old }
    ensures end { result ≡ at + length (ident_words identity.now) }
    ensures words { words_of into.new
        ≡ take at (words_of into.old) ++ (ident_words identity.now
        ++ drop result (words_of into.old)) }
    ensures behind { drop (4 * result) into.new ≡ drop (4 * result) into.old }
{
    match identity {
        Ident::None => at,
        Ident::Word(word) => {
            put_words(into, at, &[*word]);
            at + 1
        }
        Ident::Uuid(words) => {
            put_words(into, at, words);
            at + 4
        }
    }
}
