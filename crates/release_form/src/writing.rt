ghost use Rattle.std.specs.Prelude.{◌≡◌, ℕ, ◌+◌, ◌<◌, ◌≤◌, ◌^◌, List, length, take, drop};
ghost use Rattle.vrt_words.specs.Words.{AreBytes};
ghost use Rattle.sample_binder.specs.RunRules.{ObeysRun};
ghost use Rattle.release_form.specs.Rules.{Obeys};
ghost use Rattle.sample_binder.specs.RunRules.{GoesWithRun};
ghost use Rattle.release_form.specs.Sizes.{GoesWith, size_with, part_size, run_part_size};
ghost use Rattle.release_form.specs.Release.{IsRecordOf, IsPartOf, IsPartOfRun};

use crate::front::put_front;
use crate::samples::put_samples;
use crate::shown::Shown;
use crate::size::{front_len, size_of};
use sample_binder::Run;

/// Writes the release record of a value at the front of `into`, and answers its length. All other
/// bytes stay.
///
/// `bytes` is the payload of the run's packet, whose samples `first` to `first + number - 1` are
/// written as items of 16 bits; or the payload of a raw run, or the packet, which is written as it
/// is. It is empty for a refused frame and the end.
pub fn encode(shown: &Shown, bytes: &[u8], into: &mut [u8]) -> usize
    requires obeys { Obeys shown.now }
    requires given { GoesWith shown.now (length bytes.now) }
    requires most { size_with shown.now (length bytes.now) < 2 ^ 32 + 8 }
    requires room { size_with shown.now (length bytes.now) ≤ length into.old }
    ensures size { result ≡ size_with shown.now (length bytes.now) }
    ensures written { IsRecordOf shown.now bytes.now (take result into.new) }
    ensures again { (other : List ℕ) → AreBytes other → IsRecordOf shown.now bytes.now other
        → take result into.new ≡ other }
    ensures behind { drop result into.new ≡ drop result into.old }
{
    let size = size_of(shown, bytes.len());
    let front = front_len(shown);
    put_front(shown, (size - 8) as u32, into);
    put_part(shown, bytes, &mut into[front..size]);
    size
}

// Writes the variable part, which fills all the bytes.
fn put_part(shown: &Shown, bytes: &[u8], into: &mut [u8])
    requires obeys { Obeys shown.now }
    requires given { GoesWith shown.now (length bytes.now) }
    requires room { length into.old ≡ part_size shown.now (length bytes.now) }
    ensures { IsPartOf shown.now bytes.now into.new }
{
    match shown {
        Shown::Run { run, .. } => put_run(run, bytes, into),
        Shown::Ack { .. } | Shown::Version { .. } => into.copy_from_slice(bytes),
        Shown::Refused { .. } | Shown::End { .. } => (),
    }
}

// Writes the samples of a run, or its payload.
fn put_run(run: &Run, payload: &[u8], into: &mut [u8])
    requires obeys { ObeysRun run.now }
    requires given { GoesWithRun run.now (length payload.now) }
    requires room { length into.old ≡ run_part_size run.now (length payload.now) }
    ensures { IsPartOfRun run.now payload.now into.new }
{
    match run {
        Run::Bound {
            first,
            number,
            bits,
            ..
        } => put_samples(payload, *bits, *first, *number, into),
        Run::Uncertain {
            first,
            number,
            bits,
            ..
        } => put_samples(payload, *bits, *first, *number, into),
        Run::Raw { .. } => into.copy_from_slice(payload),
    }
}
