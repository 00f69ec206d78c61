ghost use Rattle.std.specs.Prelude.{◌≡◌, ◌≢◌, ◌⊎◌, ◌↔◌, ℕ, false, IfSome};
ghost use Rattle.difi_io.specs.Faults.{Rose};
ghost use Rattle.difi_cmd.specs.declared.words.Line.{Line};
ghost use Rattle.difi_cmd.specs.LineOfWords.{Asks};
ghost use Rattle.difi_cmd.specs.Outcome.{DoesLine, IsLineVerdict, wants_of};
ghost use Rattle.difi_gateway.specs.TrueText.{IsTrueReplay};

use crate::list::list;
use crate::migrate::migrate;
use crate::options::WordsFault;
use crate::words::{Line, line_of};
use difi_gateway::replay_run;
use difi_io::{Gate, Sink, Source};
use record_run::{Options, Status};
use std::alloc::Global;
use std::thread::Threads;

/// Runs the line of these words, which are those behind the program's name, between a source and a
/// sink.
///
/// `check` reads a record and writes a line for each of its frames, and `show` writes under the line
/// of a packet what it holds. `migrate` writes the record again, with its header in form 2. `replay`
/// writes the release records that modems read. What is written of a frame is written before the next
/// bytes are read. Each takes `--max-bytes N`, the most bytes of a record.
pub fn difi_run<R: Threads + Sync, S: Source + Send, K: Sink + Send, G: Gate + Sync>(
    rt: &R,
    alloc: Global,
    words: &[String],
    source: &mut S,
    sink: &mut K,
    gate: &G,
) -> Status
    // Words that are no line, and no others, are refused, and nothing is done.
    ensures usage { result ≡ Status.Usage → (line : Line) → ¬ Asks words.now line }
    ensures refused { ((line : Line) → ¬ Asks words.now line)
        → (result ≡ Status.Usage) ⊎ (result ≡ Status.Memory) }
    ensures untouched { result ≡ Status.Usage → (source.new ≡ source.old) × (sink.new ≡ sink.old) }

    // Nor is where memory is missing, as all of it is taken first: but for `replay`, which takes what the
    // routes of its header need once that stands, and then took no byte behind it.
    ensures memory { result ≡ Status.Memory → sink.new ≡ sink.old }
    ensures unread { result ≡ Status.Memory
        → ((line : Line) → Asks words.now line → wants_of line ≡ false) → source.new ≡ source.old }
    ensures want { result ≡ Status.Memory → (line : Line) → Asks words.now line
        → DoesLine result line
        (record {
          left = S.left source.old;
          left_now = S.left source.new;
          held = K.held sink.old;
          held_now = K.held sink.new;
          reads = S.faults source.old;
          reads_now = S.faults source.new;
          writes = K.faults sink.old;
          writes_now = K.faults sink.new;
        }) }

    // Every other status has its cause in what the line does, with the bytes taken and the text written.
    ensures outcome { result ≢ Status.Usage → result ≢ Status.Memory
        → (line : Line) × (Asks words.now line × DoesLine result line
        (record {
          left = S.left source.old;
          left_now = S.left source.new;
          held = K.held sink.old;
          held_now = K.held sink.new;
          reads = S.faults source.old;
          reads_now = S.faults source.new;
          writes = K.faults sink.old;
          writes_now = K.faults sink.new;
        })) }

    // Where a replay is done, what was written of each stream of which the record holds a delivery
    // is true of what its site sent, for each of its ports.
    ensures truth { result ≡ Status.Done → (most : ℕ) → Asks words.now (Line.Replay most)
        → IsTrueReplay
        (record {
          left = S.left source.old;
          left_now = S.left source.new;
          held = K.held sink.old;
          held_now = K.held sink.new;
          reads = S.faults source.old;
          reads_now = S.faults source.new;
          writes = K.faults sink.old;
          writes_now = K.faults sink.new;
        }) }

    // Where no read and no write fails, the bytes decide, unless memory runs out.
    ensures complete { (line : Line) → Asks words.now line
        → ¬ Rose (S.faults source.old) (S.faults source.new) →
        ¬ Rose (K.faults sink.old) (K.faults sink.new) →
        IfSome (S.left source.old) (λ bytes. (result ≡ Status.Memory)
        ⊎ IsLineVerdict line bytes result) }
{
    let line = match line_of(alloc, words) {
        Ok(line) => line,
        Err(WordsFault::Usage) => return Status::Usage,
        Err(WordsFault::Memory) => return Status::Memory,
    };
    match line {
        Line::List(options) => list(alloc, options, source, sink),
        Line::Migrate { max_bytes } => migrate(alloc, max_bytes, source, sink),
        Line::Replay { max_bytes } => {
            let options = Options {
                max_bytes,
                stages: 1,
                ring: 64,
            };
            replay_run(rt, alloc, &options, source, sink, gate)
        }
    }
}
