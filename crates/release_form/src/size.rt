ghost use Rattle.std.specs.Prelude.{◌≡◌, ℕ, ◌+◌, List, length};
ghost use Rattle.release_form.specs.Layout.{front_of, front_of_run};
ghost use Rattle.release_form.specs.Sizes.{size_with, run_part_size, IsBounded, IsRunBounded};
ghost use Rattle.release_form.specs.Release.{IsRecordOf};

use crate::shown::Shown;
use sample_binder::Run;

/// The length of a record in bytes, where `encode` is given so many bytes.
pub fn size_of(shown: &Shown, bytes: usize) -> usize
    requires { IsBounded shown.now bytes }
    ensures size { result ≡ size_with shown.now bytes }
    ensures whole { (payload written : List ℕ) → length payload ≡ bytes
        → IsRecordOf shown.now payload written
        → length written ≡ result }
{
    match shown {
        Shown::Run { run, .. } => size_of_run(run, bytes),
        Shown::Ack { .. } | Shown::Version { .. } => 12 + bytes,
        Shown::Refused { .. } => 40,
        Shown::End { .. } => 64,
    }
}

/// The bytes in front of the variable part.
pub(crate) fn front_len(shown: &Shown) -> usize
    ensures { result ≡ front_of shown.now }
{
    match shown {
        Shown::Run { run, .. } => front_len_of_run(run),
        Shown::Ack { .. } | Shown::Version { .. } => 12,
        Shown::Refused { .. } => 40,
        Shown::End { .. } => 64,
    }
}

/// The length of the record of a run with a payload of so many bytes, as `size_of` tells it.
pub(crate) fn size_of_run(run: &Run, bytes: usize) -> usize
    requires { IsRunBounded run.now bytes }
    ensures { result ≡ front_of_run run.now + run_part_size run.now bytes }
{
    match run {
        Run::Bound { number, .. } => 132 + 4 * *number as usize,
        Run::Uncertain { number, .. } => 64 + 4 * *number as usize,
        Run::Raw { .. } => 44 + bytes,
    }
}

pub(crate) fn front_len_of_run(run: &Run) -> usize
    ensures { result ≡ front_of_run run.now }
{
    match run {
        Run::Bound { .. } => 132,
        Run::Uncertain { .. } => 64,
        Run::Raw { .. } => 44,
    }
}
