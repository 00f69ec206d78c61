ghost use Rattle.std.specs.Prelude.{◌≡◌, ◌≤◌, ℕ, List, length, take, drop};
ghost use Rattle.vrt_words.specs.Words.{AreBytes};
ghost use Rattle.vrt_words.specs.Begins.{IsDatagram};
ghost use Rattle.difi_context.specs.declared.context.ContextRec.{ContextRec};
ghost use Rattle.difi_context.specs.Context.{IsContext, IsSpelled, cif0_of};

use crate::context::{ContextRec, FIELDS};
use vrt_header::{Profile, write_prologue};
use vrt_words::{put_word, put_words};

/// Writes a context packet at the front of `into`: 108 bytes. All others stay.
///
/// The context is one of the grammar under this profile. Decoding what was written gives the
/// context, and encoding what was decoded gives the same bytes.
pub fn encode(profile: Profile, rec: &ContextRec, into: &mut [u8])
    requires allowed { IsSpelled profile rec.now }
    requires room { 108 ≤ length into.old }
    ensures packet { IsDatagram (IsContext profile) rec.now (take 108 into.new) }
    ensures again { (bytes : List ℕ) → AreBytes bytes → IsDatagram (IsContext profile) rec.now bytes
        → take 108 into.new ≡ bytes }
    ensures behind { drop 108 into.new ≡ drop 108 into.old }
{
    write_prologue(profile, &rec.prologue, into);
    put_word(into, 7, cif0(rec.changed));
    put_words(into, 8, &rec.fields);
}

// CIF0 with its change bit.
fn cif0(changed: bool) -> u32
    ensures { result ≡ cif0_of changed }
{
    if changed { FIELDS + (1 << 31) } else { FIELDS }
}
