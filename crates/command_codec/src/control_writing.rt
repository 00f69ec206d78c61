ghost use Rattle.std.specs.Prelude.{◌≡◌, ◌+◌, ◌*◌, ◌≤◌, ◌++◌, ℕ, List, length, take, drop};
ghost use Rattle.vrt_words.specs.Words.{words_of, AreBytes};
ghost use Rattle.vrt_words.specs.Begins.{IsDatagram};
ghost use Rattle.command_codec.specs.Control.{words_of_values, IsControl, IsSpelled};

use crate::control::Control;
use cam_field::Role;
use command_prologue::write_command_prologue;
use vrt_fields::FieldSet;
use vrt_header::Profile;
use vrt_words::put_words;

/// Writes a command at the front of `into`, and answers its words. All other bytes stay.
///
/// The command is one that words can spell under this profile, and there is room for it. Reading it
/// again gives the command, and writing what was read gives the same bytes.
pub fn encode_control(profile: Profile, packet: &Control, into: &mut [u8]) -> usize
    requires spelled { IsSpelled profile packet.now }
    requires room { 4 * packet.now.prologue.header.size ≤ length into.old }
    ensures size { result ≡ packet.now.prologue.header.size }
    ensures packet { IsDatagram (IsControl profile) packet.now (take (4 * result) into.new) }
    ensures again { (bytes : List ℕ) → AreBytes bytes
        → IsDatagram (IsControl profile) packet.now bytes
        → take (4 * result) into.new ≡ bytes }
    ensures bytes { AreBytes into.new }
    ensures behind { drop (4 * result) into.new ≡ drop (4 * result) into.old }
{
    let front = packet.front();
    let at = write_command_prologue(profile, Role::Control, &front, into);
    put_words(into, at, &[packet.asked]);
    put_values(into, at + 1, &packet.fields)
}

// Writes the values, if there are any, and tells where they end.
fn put_values(into: &mut [u8], at: usize, fields: &Option<FieldSet>) -> usize
    requires { 4 * (at + length (words_of_values fields.now)) ≤ length into.old }
    ensures end { result ≡ at + length (words_of_values fields.now) }
    ensures words { words_of into.new
        ≡ take at (words_of into.old) ++ (words_of_values fields.now
        ++ drop result (words_of into.old)) }
    ensures behind { drop (4 * result) into.new ≡ drop (4 * result) into.old }
{
    match fields {
        Some(set) => at + set.write(into, at),
        None => at,
    }
}
