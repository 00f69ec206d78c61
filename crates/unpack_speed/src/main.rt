//! Takes the samples out of one payload again and again, or copies its bytes as often, so that a
//! script can time it. Words: how, the item size in bits, and how often.
#![tactic(auto)]

ghost use Rattle.sample_unpack.specs.Samples.{LieWithin};
ghost use Rattle.std.specs.Prelude.{◌≡◌, ◌≤◌, ◌<◌, ◌*◌, ◌/◌, length};

use sample_unpack::{Sample, pack_into, unpack_into, widen_into};
use std::alloc::{AllocError, Global};
use std::env;
use std::process::ExitCode;

/// The bytes of the greatest payload of a packet.
const PAYLOAD: usize = 65_476;

/// How many samples are unpacked before they are packed.
const BLOCK: usize = 64;

/// How the samples are taken out.
#[derive(Clone, Copy)]
enum Way {
    /// They are not: the bytes are copied.
    Copy,
    /// As samples.
    Unpack,
    /// As samples, a block at a time, which are then packed as items of 16 bits.
    Repack,
    /// As items of 16 bits.
    Widen,
}

/// What to do how often.
#[derive(Clone, Copy)]
struct Task {
    way: Way,
    bits: u8,
    rounds: u32,
}

fn main(rt: HostRuntime) -> ExitCode {
    let Some(task) = task_of(&rt) else {
        let _ = eprintln!(rt; "unpack_speed: copy|unpack|repack|widen BITS ROUNDS");
        return ExitCode::from(2);
    };
    match run(rt.alloc(), task) {
        Ok(sum) => {
            let _ = println!(rt; "{sum}");
            ExitCode::from(0)
        }
        Err(AllocError) => ExitCode::from(5),
    }
}

// The task of the words: a way, a size of 4 to 16 bits, and a number.
fn task_of(rt: &HostRuntime) -> Option<Task> {
    let words: Vec<String> = env::args(rt).ok()?.skip(1).collect(rt.alloc()).ok()?;
    let [way, bits, rounds] = words.as_slice() else {
        return None;
    };
    let way = way_of(way.as_str())?;
    let bits = bits.as_str().parse::<u8>().ok()?;
    let rounds = rounds.as_str().parse::<u32>().ok()?;
    Some(Task { way, bits, rounds })
}

fn way_of(word: &str) -> Option<Way> {
    match word {
        "copy" => Some(Way::Copy),
        "unpack" => Some(Way::Unpack),
        "repack" => Some(Way::Repack),
        "widen" => Some(Way::Widen),
        _ => None,
    }
}

// Does the task, and sums up a sample, or a byte, of each round. A size out of range is taken as 16.
fn run(alloc: Global, task: Task) -> Result<u64, AllocError> {
    let mut payload = Vec::new(alloc);
    payload.resize(PAYLOAD, 0)?;
    let bits = if (4..=16).contains(&task.bits) {
        task.bits
    } else {
        16
    };
    match task.way {
        Way::Copy => copy(alloc, payload.as_mut_slice(), task.rounds),
        Way::Unpack => unpack(alloc, payload.as_mut_slice(), bits, task.rounds),
        Way::Repack => repack(alloc, payload.as_mut_slice(), bits, task.rounds),
        Way::Widen => widen(alloc, payload.as_mut_slice(), bits, task.rounds),
    }
}

// Marks the payload with the number of the round, so that no round is like another.
fn mark(payload: &mut [u8], round: u32)
    ensures { length payload.new ≡ length payload.old }
{
    let bytes = round.to_be_bytes();
    if payload.len() >= 4 {
        payload[..4].copy_from_slice(&bytes);
    }
}

// Copies the payload as often, and sums up a byte of each copy.
fn copy(alloc: Global, payload: &mut [u8], rounds: u32) -> Result<u64, AllocError>
    requires { length payload.old ≡ 65476 }
{
    let mut into = Vec::new(alloc);
    into.resize(PAYLOAD, 0)?;
    let mut sum: u64 = 0;
    for round in 0..rounds {
        mark(payload, round);
        into.as_mut_slice().copy_from_slice(payload);
        sum = sum.wrapping_add(u64::from(into[3]));
    }
    Ok(sum)
}

// Takes all samples out of the payload as often, and sums up one of each round.
fn unpack(alloc: Global, payload: &mut [u8], bits: u8, rounds: u32) -> Result<u64, AllocError>
    requires size { length payload.old ≡ 65476 }
    requires some { 4 ≤ bits }
    requires most { bits ≤ 16 }
{
    let number = PAYLOAD * 8 / (2 * usize::from(bits));
    let mut into = Vec::new(alloc);
    into.resize(number, Sample { i: 0, q: 0 })?;
    let mut sum: u64 = 0;
    for round in 0..rounds {
        mark(payload, round);
        unpack_into(payload, bits, 0, into.as_mut_slice());
        sum = sum.wrapping_add(u64::from(into[0].q.cast_unsigned()));
    }
    Ok(sum)
}

// Takes all samples out of the payload as often, a block at a time, packs them again with 16 bits an
// item, and sums up the last byte of the first sample of each round.
fn repack(alloc: Global, payload: &mut [u8], bits: u8, rounds: u32) -> Result<u64, AllocError>
    requires size { length payload.old ≡ 65476 }
    requires some { 4 ≤ bits }
    requires most { bits ≤ 16 }
{
    let number = PAYLOAD * 8 / (2 * usize::from(bits));
    let mut into = Vec::new(alloc);
    into.resize(4 * number, 0)?;
    let mut sum: u64 = 0;
    for round in 0..rounds {
        mark(payload, round);
        repack_whole(payload, bits, into.as_mut_slice());
        sum = sum.wrapping_add(u64::from(into[3]));
    }
    Ok(sum)
}

// As many whole blocks as there is room for.
fn repack_whole(payload: &[u8], bits: u8, into: &mut [u8])
    requires some { 4 ≤ bits }
    requires most { bits ≤ 16 }
    requires within { 2 * bits * (length into.old / 4) ≤ 8 * length payload.now }
    requires fits { length payload.now ≤ 65476 }
{
    let mut block = [Sample { i: 0, q: 0 }; BLOCK];
    for index in 0..into.len() / (4 * BLOCK) {
        let place = 4 * BLOCK * index;
        repack_block(
            payload,
            bits,
            (BLOCK * index) as u32,
            &mut block,
            &mut into[place..place + 4 * BLOCK],
        );
    }
}

// As many samples as the block has room for.
#[inline]
fn repack_block(payload: &[u8], bits: u8, first: u32, block: &mut [Sample], into: &mut [u8])
    requires some { 4 ≤ bits }
    requires most { bits ≤ 16 }
    requires within { LieWithin bits first (length block.old) (length payload.now) }
    requires room { length into.old ≡ 4 * length block.old }
{
    unpack_into(payload, bits, first, block);
    pack_into(block, 16, into);
}

// Takes all samples out of the payload as often as items of 16 bits, and sums up the last byte of the
// first sample of each round.
fn widen(alloc: Global, payload: &mut [u8], bits: u8, rounds: u32) -> Result<u64, AllocError>
    requires size { length payload.old ≡ 65476 }
    requires some { 4 ≤ bits }
    requires most { bits ≤ 16 }
{
    let number = PAYLOAD * 8 / (2 * usize::from(bits));
    let mut into = Vec::new(alloc);
    into.resize(4 * number, 0)?;
    let mut sum: u64 = 0;
    for round in 0..rounds {
        mark(payload, round);
        widen_into(payload, bits, 0, into.as_mut_slice());
        sum = sum.wrapping_add(u64::from(into[3]));
    }
    Ok(sum)
}
