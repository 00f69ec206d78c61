//! Records to run on, and a run over memory.

ghost use Rattle.std.specs.Prelude.{◌≤◌};

use difi_cmd::{Status, difi_run};
use difi_io::{MemSink, MemSource, NoGate};
use std::alloc::{AllocError, Global};
use std::test::Fail;
use std::thread::Threads;
use test_records::{datagram, routed, second_form};

/// What a run did: its status, and what the sink holds.
#[derive(Drop)]
pub struct Outcome {
    pub status: Status,
    pub text: Vec<u8>,
}

/// The header of a record of packets of up to 400 words, with one route.
pub fn header(alloc: Global) -> Result<Vec<u8>, AllocError> {
    datagram(alloc, &routed())
}

/// The header of such a record of the second form, up to its one route.
pub fn second_header(alloc: Global) -> Result<Vec<u8>, AllocError> {
    datagram(alloc, &second_form())
}

/// Runs a line of words over a record that is read in pieces, and whose listed reads and writes fail.
pub fn run_line<R: Threads + Sync>(
    rt: &R,
    alloc: Global,
    line: &[&str],
    record: &[u8],
    piece: usize,
    reads: &[u64],
    writes: &[u64],
) -> Result<Outcome, Fail>
    requires { 1 ≤ piece }
{
    let mut words = Vec::new(alloc);
    for word in line {
        words.push(String::from_str(alloc, *word)?)?;
    }
    let mut source = MemSource::new(record.to_vec(alloc)?, piece, reads.to_vec(alloc)?);
    let Ok(mut sink) = MemSink::new(alloc, 1 << 16, piece, writes.to_vec(alloc)?) else {
        return Err(Fail::from("no memory"));
    };
    let gate = NoGate::new();
    let status = difi_run(rt, alloc, &words, &mut source, &mut sink, &gate);
    let text = sink.bytes().to_vec(alloc)?;
    Ok(Outcome { status, text })
}

/// Whether a line makes this of a record, however reads and writes are cut.
pub fn writes<R: Threads + Sync>(
    rt: &R,
    alloc: Global,
    line: &[&str],
    record: &[u8],
    status: Status,
    text: &[u8],
) -> Result<bool, Fail> {
    for piece in [1, 7, 4096] {
        let outcome = run_line(rt, alloc, line, record, piece, &[], &[])?;
        if outcome.status != status || outcome.text.as_slice() != text {
            return Ok(false);
        }
    }
    Ok(true)
}

/// The read or the write of a run that fails, counted from 1.
pub enum Fault {
    Read(u64),
    Write(u64),
}

/// Whether the run of which this read or write fails is told so, and wrote this text before.
pub fn fails<R: Threads + Sync>(
    rt: &R,
    alloc: Global,
    line: &[&str],
    record: &[u8],
    piece: usize,
    fault: Fault,
    text: &[u8],
) -> Result<bool, Fail>
    requires { 1 ≤ piece }
{
    let (outcome, status) = match fault {
        Fault::Read(call) => (
            run_line(rt, alloc, line, record, piece, &[call], &[])?,
            Status::ReadFault,
        ),
        Fault::Write(call) => (
            run_line(rt, alloc, line, record, piece, &[], &[call])?,
            Status::WriteFault,
        ),
    };
    Ok(outcome.status == status && outcome.text.as_slice() == text)
}

/// Runs `check` over a record that is read in pieces, and whose listed reads and writes fail.
pub fn run_with<R: Threads + Sync>(
    rt: &R,
    alloc: Global,
    record: &[u8],
    piece: usize,
    reads: &[u64],
    writes: &[u64],
) -> Result<Outcome, Fail>
    requires { 1 ≤ piece }
{
    run_line(rt, alloc, &["check"], record, piece, reads, writes)
}

/// Runs `check` over a record.
pub fn run<R: Threads + Sync>(rt: &R, alloc: Global, record: &[u8]) -> Result<Outcome, Fail> {
    run_with(rt, alloc, record, 4096, &[], &[])
}

/// Runs `show` over a record.
pub fn show<R: Threads + Sync>(rt: &R, alloc: Global, record: &[u8]) -> Result<Outcome, Fail> {
    run_line(rt, alloc, &["show"], record, 4096, &[], &[])
}

/// The first bytes, or all where there are no more.
pub fn front(bytes: &[u8], length: usize) -> &[u8] {
    if length <= bytes.len() {
        &bytes[..length]
    } else {
        bytes
    }
}
