ghost use Rattle.std.specs.Prelude.{◌≡◌, ◌+◌, ◌≤◌, ◌↔◌, IsTrue, IfSome, IfNone};
ghost use Rattle.vrt_header.specs.Header.{prologue_words};
ghost use Rattle.cam_field.specs.declared.cam.Cam.{Cam};
ghost use Rattle.command_prologue.specs.CommandPrologue.{identity_words, IsContentSize, IsMode};

use crate::identity::identity_size;
use cam_field::{Cam, Role};
use vrt_header::Prologue;

/// The words of a packet's prologue.
pub(crate) fn prologue_size(timed: bool) -> usize
    ensures size { result ≡ prologue_words timed }
    ensures most { result ≤ 7 }
{
    if timed { 7 } else { 4 }
}

/// The words of both identities.
pub(crate) fn identities_size(cam: &Cam) -> usize
    ensures size { result ≡ identity_words cam.now }
    ensures most { result ≤ 8 }
{
    identity_size(cam.ce, cam.ie) + identity_size(cam.cr, cam.ir)
}

/// The mode word of a packet with this prologue, where its size leaves words that can stand behind
/// the identities.
pub(crate) fn mode_of(role: Role, prologue: &Prologue, word: u32) -> Option<Cam>
    ensures found { IfSome result (λ cam. IsMode role prologue.now cam word) }
    ensures none { IfNone result ((cam : Cam) → ¬ IsMode role prologue.now cam word) }
{
    let cam = Cam::read(role, prologue.header.timed, word)?;
    let front = prologue_size(prologue.header.timed) + 2 + identities_size(&cam);
    let size = usize::from(prologue.header.size);
    if front <= size && has_content_size(role, &cam, size - front) {
        Some(cam)
    } else {
        None
    }
}

// Whether so many words can stand behind the identities.
fn has_content_size(role: Role, cam: &Cam, size: usize) -> bool
    ensures { IsTrue result ↔ IsContentSize role cam.now size }
{
    match role {
        Role::Control => 1 <= size && size <= 20,
        Role::Cancel => size == 1,
        Role::Ack if cam.s => 1 <= size && size <= 20,
        Role::Ack => {
            let masks = usize::from(cam.warned) + usize::from(cam.erred);
            masks <= size && size <= 13 * masks
        }
    }
}
