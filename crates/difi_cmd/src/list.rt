ghost use Rattle.std.specs.Prelude.{◌≡◌, ◌≤◌, ◌^◌, ◌⊎◌, IfSome};
ghost use Rattle.difi_io.specs.Faults.{Rose};
ghost use Rattle.replay_form.specs.RecordGrammar.{record_grammar};
ghost use Rattle.record_run.specs.Outcome.{IsOutcome, IsVerdict};
ghost use Rattle.difi_cmd.specs.Outcome.{behaviour_of};

use crate::report::Report;
use crate::words::ListOptions;
use difi_io::{Sink, Source};
use record_run::{Status, run_record};
use replay_form::RecordReader;
use std::alloc::Global;

/// Reads a record piece by piece, and writes what the options ask for of each frame as soon as it is
/// whole, and at the end a last line with their numbers.
pub(crate) fn list<S: Source, K: Sink>(
    alloc: Global,
    options: ListOptions,
    source: &mut S,
    sink: &mut K,
) -> Status
    requires { options.max_bytes ≤ 2 ^ 62 }
    ensures outcome { IsOutcome result (behaviour_of options)
        (record {
          left = S.left source.old;
          left_now = S.left source.new;
          held = K.held sink.old;
          held_now = K.held sink.new;
          reads = S.faults source.old;
          reads_now = S.faults source.new;
          writes = K.faults sink.old;
          writes_now = K.faults sink.new;
        }) }
    ensures complete { ¬ Rose (S.faults source.old) (S.faults source.new)
        → ¬ Rose (K.faults sink.old) (K.faults sink.new) →
        IfSome (S.left source.old) (λ bytes. (result ≡ Status.Memory)
        ⊎ IsVerdict record_grammar options.max_bytes bytes result) }
    ensures untouched { result ≡ Status.Memory → (source.new ≡ source.old) × (sink.new ≡ sink.old) }
{
    let Ok(mut reader) = RecordReader::open(alloc) else {
        return Status::Memory;
    };
    let mut report = Report::new(options.listing);
    run_record(
        alloc,
        options.max_bytes,
        &mut reader,
        &mut report,
        source,
        sink,
    )
}
