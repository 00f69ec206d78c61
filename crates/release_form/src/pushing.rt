ghost use Rattle.std.specs.Prelude.{◌≡◌, ℕ, ◌+◌, ◌*◌, ◌<◌, ◌≤◌, ◌^◌, ◌++◌, List, length};
ghost use Rattle.vrt_words.specs.Words.{AreBytes};
ghost use Rattle.sample_binder.specs.RunRules.{ObeysRun, GoesWithRun, HoldsRun, AreIndices};
ghost use Rattle.release_form.specs.Rules.{Obeys};
ghost use Rattle.release_form.specs.Sizes.{GoesWith, size_with, part_size, run_part_size};
ghost use Rattle.release_form.specs.Release.{AreSamples, IsBehind, IsPartOf, IsPartOfRun, IsPushed};
ghost use Rattle.release_form.specs.declared.shown.Shown.TheVariants as shown;

use crate::front::{put_front, put_front_of_run};
use crate::samples::put_samples;
use crate::shown::Shown;
use crate::size::{front_len, front_len_of_run, size_of, size_of_run};
use sample_binder::Run;
use text_buffer::TextBuffer;

/// No record has more bytes in front of its variable part.
const LONGEST_FRONT: usize = 132;

/// How many samples are unpacked before they are put.
const BLOCK: u32 = 256;

/// Puts the release record of a value behind the bytes of a buffer. `bytes` are as `encode` takes
/// them.
///
/// Items of 16 bits and packets are copied once.
pub fn push_record(shown: &Shown, bytes: &[u8], out: &mut TextBuffer)
    requires obeys { Obeys shown.now }
    requires given { GoesWith shown.now (length bytes.now) }
    requires most { size_with shown.now (length bytes.now) ≤ 262144 }
    requires room { length out.old ≤ 65536 }
    ensures { IsPushed shown.now bytes.now out.old out.new }
{
    let size = size_of(shown, bytes.len());
    let mut front = [0; LONGEST_FRONT];
    put_front(shown, (size - 8) as u32, &mut front);
    push(&front[..front_len(shown)], out);
    push_part(shown, bytes, out);
}

/// Puts the release record of a run of this stream, for this port, behind the bytes of a buffer, as
/// `push_record` does.
pub fn push_run(stream: u32, port: u16, lost: u8, run: &Run, payload: &[u8], out: &mut TextBuffer)
    requires obeys { Obeys (shown.Run stream port lost run.now) }
    requires given { GoesWith (shown.Run stream port lost run.now) (length payload.now) }
    requires most { size_with (shown.Run stream port lost run.now) (length payload.now) ≤ 262144 }
    requires room { length out.old ≤ 65536 }
    ensures { IsPushed (shown.Run stream port lost run.now) payload.now out.old out.new }
{
    let size = size_of_run(run, payload.len());
    let mut front = [0; LONGEST_FRONT];
    put_front_of_run(stream, port, lost, run, (size - 8) as u32, &mut front);
    push(&front[..front_len_of_run(run)], out);
    push_run_part(run, payload, out);
}

// Puts the variable part.
fn push_part(shown: &Shown, bytes: &[u8], out: &mut TextBuffer)
    requires obeys { Obeys shown.now }
    requires given { GoesWith shown.now (length bytes.now) }
    requires room { length out.old + part_size shown.now (length bytes.now) ≤ 327680 }
    ensures { IsBehind (IsPartOf shown.now bytes.now)
        (part_size shown.now (length bytes.now)) out.old out.new }
{
    match shown {
        Shown::Run { run, .. } => push_run_part(run, bytes, out),
        Shown::Ack { .. } | Shown::Version { .. } => push(bytes, out),
        Shown::Refused { .. } | Shown::End { .. } => push(&[], out),
    }
}

// Puts the samples of a run, or its payload.
fn push_run_part(run: &Run, payload: &[u8], out: &mut TextBuffer)
    requires obeys { ObeysRun run.now }
    requires given { GoesWithRun run.now (length payload.now) }
    requires room { length out.old + run_part_size run.now (length payload.now) ≤ 327680 }
    ensures { IsBehind (IsPartOfRun run.now payload.now)
        (run_part_size run.now (length payload.now)) out.old out.new }
{
    match run {
        Run::Bound {
            first,
            number,
            bits,
            ..
        } => push_samples(payload, *bits, *first, *number, out),
        Run::Uncertain {
            first,
            number,
            bits,
            ..
        } => push_samples(payload, *bits, *first, *number, out),
        Run::Raw { .. } => push(payload, out),
    }
}

// Puts samples first, first + 1 and so on of a payload, as items of 16 bits.
fn push_samples(payload: &[u8], bits: u8, first: u32, number: u32, out: &mut TextBuffer)
    requires run { HoldsRun bits first number (length payload.now) }
    requires indices { AreIndices first number }
    requires room { length out.old + 4 * number ≤ 327680 }
    ensures { IsBehind (AreSamples bits first number payload.now) (4 * number) out.old out.new }
{
    if bits == 16 {
        let start = 4 * first as usize;
        push(&payload[start..start + 4 * number as usize], out);
    } else {
        push_unpacked(payload, bits, first, number, out);
    }
}

// One pass, a block at a time.
fn push_unpacked(payload: &[u8], bits: u8, first: u32, number: u32, out: &mut TextBuffer)
    requires run { HoldsRun bits first number (length payload.now) }
    requires indices { AreIndices first number }
    requires room { length out.old + 4 * number ≤ 327680 }
    ensures { IsBehind (AreSamples bits first number payload.now) (4 * number) out.old out.new }
{
    let mut block = [0; 4 * BLOCK as usize];
    let mut done = 0;
    while done < number {
        let count = (number - done).min(BLOCK);
        let samples = &mut block[..4 * count as usize];
        put_samples(payload, bits, first + done, count, samples);
        push(samples, out);
        done += count;
    }
}

// Puts bytes behind those of a buffer.
#[inline]
fn push(bytes: &[u8], out: &mut TextBuffer)
    requires { length out.old + length bytes.now ≤ 327680 }
    ensures behind { out.new ≡ out.old ++ bytes.now }
    ensures fit { AreBytes bytes.now }
{
    out.push(bytes);
}
