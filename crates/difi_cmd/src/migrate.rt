ghost use Rattle.std.specs.Prelude.{◌≡◌, ◌≤◌, ◌^◌, ◌⊎◌, IfSome};
ghost use Rattle.difi_io.specs.Faults.{Rose};
ghost use Rattle.replay_form.specs.RecordGrammar.{record_grammar};
ghost use Rattle.record_run.specs.Outcome.{IsOutcome, IsVerdict};
ghost use Rattle.difi_cmd.specs.Outcome.{migration_of};

use crate::migration::Migration;
use difi_io::{Sink, Source};
use record_run::{Status, run_record};
use replay_form::RecordReader;
use std::alloc::Global;

/// Reads a record piece by piece, and writes its header in form 2, and each frame as it stands, as soon
/// as it is whole.
pub(crate) fn migrate<S: Source, K: Sink>(
    alloc: Global,
    max_bytes: u64,
    source: &mut S,
    sink: &mut K,
) -> Status
    requires { max_bytes ≤ 2 ^ 62 }
    ensures outcome { IsOutcome result (migration_of max_bytes)
        (record {
          left = S.left source.old;
          left_now = S.left source.new;
          held = K.held sink.old;
          held_now = K.held sink.new;
          reads = S.faults source.old;
          reads_now = S.faults source.new;
          writes = K.faults sink.old;
          writes_now = K.faults sink.new;
        }) }
    ensures complete { ¬ Rose (S.faults source.old) (S.faults source.new)
        → ¬ Rose (K.faults sink.old) (K.faults sink.new) →
        IfSome (S.left source.old) (λ bytes. (result ≡ Status.Memory)
        ⊎ IsVerdict record_grammar max_bytes bytes result) }
    ensures untouched { result ≡ Status.Memory → (source.new ≡ source.old) × (sink.new ≡ sink.old) }
{
    let Ok(mut reader) = RecordReader::open(alloc) else {
        return Status::Memory;
    };
    let Ok(mut migration) = Migration::open(alloc) else {
        return Status::Memory;
    };
    run_record(alloc, max_bytes, &mut reader, &mut migration, source, sink)
}
