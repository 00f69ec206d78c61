ghost use Rattle.std.specs.Prelude.{◌≡◌, ◌≤◌, ◌^◌, ◌⊎◌, IfSome};
ghost use Rattle.difi_io.specs.Faults.{Rose};
ghost use Rattle.replay_form.specs.RecordGrammar.{record_grammar};
ghost use Rattle.record_run.specs.Outcome.{IsVerdict};
ghost use Rattle.difi_gateway.specs.Replayed.{IsReplayed};
ghost use Rattle.difi_gateway.specs.TrueText.{IsTrueReplay};

use crate::replaying::Replay;
use difi_io::{Gate, Sink, Source};
use record_run::{Options, Status, run_record};
use replay_form::RecordReader;
use std::alloc::Global;
use std::thread::Threads;

/// Reads a record piece by piece, and writes the records of the releases of each frame as soon as it is
/// whole, and at the end of what is left, with the counts last.
///
/// Memory is taken before the first byte and once the header stands, and never after.
pub fn replay_run<R: Threads + Sync, S: Source + Send, K: Sink + Send, G: Gate + Sync>(
    _rt: &R,
    alloc: Global,
    options: &Options,
    source: &mut S,
    sink: &mut K,
    _gate: &G,
) -> Status
    requires { options.now.max_bytes ≤ 2 ^ 62 }
    // How it ended, with what was written; that it begins what is written of more bytes; and that streams are kept apart.
    ensures replayed { IsReplayed result options.now.max_bytes
        (record {
          left = S.left source.old;
          left_now = S.left source.new;
          held = K.held sink.old;
          held_now = K.held sink.new;
          reads = S.faults source.old;
          reads_now = S.faults source.new;
          writes = K.faults sink.old;
          writes_now = K.faults sink.new;
        }) }
    // Where it is done, what was written of each stream of which the record holds a delivery is
    // true, for each of its ports.
    ensures truth { result ≡ Status.Done → IsTrueReplay
        (record {
          left = S.left source.old;
          left_now = S.left source.new;
          held = K.held sink.old;
          held_now = K.held sink.new;
          reads = S.faults source.old;
          reads_now = S.faults source.new;
          writes = K.faults sink.old;
          writes_now = K.faults sink.new;
        }) }
    // Where no read and no write fails, the bytes decide, unless memory runs out.
    ensures complete { ¬ Rose (S.faults source.old) (S.faults source.new)
        → ¬ Rose (K.faults sink.old) (K.faults sink.new) →
        IfSome (S.left source.old) (λ bytes. (result ≡ Status.Memory)
        ⊎ IsVerdict record_grammar options.now.max_bytes bytes result) }

    // Want of memory leaves the sink as it was.
    ensures memory { result ≡ Status.Memory → sink.new ≡ sink.old }
{
    let Ok(mut reader) = RecordReader::open(alloc) else {
        return Status::Memory;
    };
    let mut replay = Replay::new();
    run_record(
        alloc,
        options.max_bytes,
        &mut reader,
        &mut replay,
        source,
        sink,
    )
}
