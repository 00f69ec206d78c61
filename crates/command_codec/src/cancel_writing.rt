ghost use Rattle.std.specs.Prelude.{◌≡◌, ◌*◌, ◌≤◌, ℕ, List, length, take, drop};
ghost use Rattle.vrt_words.specs.Words.{AreBytes};
ghost use Rattle.vrt_words.specs.Begins.{IsDatagram};
ghost use Rattle.command_codec.specs.Cancel.{IsCancel, IsSpelled};

use crate::cancel::Cancel;
use cam_field::Role;
use command_prologue::write_command_prologue;
use vrt_header::Profile;
use vrt_words::put_words;

/// Writes a cancellation at the front of `into`, and answers its words. All other bytes stay.
///
/// The cancellation is one that words can spell under this profile, and there is room for it.
/// Reading it again gives the cancellation, and writing what was read gives the same bytes.
pub fn encode_cancel(profile: Profile, packet: &Cancel, into: &mut [u8]) -> usize
    requires spelled { IsSpelled profile packet.now }
    requires room { 4 * packet.now.prologue.header.size ≤ length into.old }
    ensures size { result ≡ packet.now.prologue.header.size }
    ensures packet { IsDatagram (IsCancel profile) packet.now (take (4 * result) into.new) }
    ensures again { (bytes : List ℕ) → AreBytes bytes
        → IsDatagram (IsCancel profile) packet.now bytes
        → take (4 * result) into.new ≡ bytes }
    ensures bytes { AreBytes into.new }
    ensures behind { drop (4 * result) into.new ≡ drop (4 * result) into.old }
{
    let front = packet.front();
    let at = write_command_prologue(profile, Role::Cancel, &front, into);
    put_words(into, at, &[packet.named]);
    at + 1
}
