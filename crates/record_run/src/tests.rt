ghost use Rattle.std.specs.Prelude.{◌≡◌, ◌≤◌, ◌^◌, false};

use super::*;
use crate::trial::TrialTeller;
use difi_io::{MemSink, MemSource, Sink, Source};
use replay_form::RecordReader;
use std::alloc::{AllocError, Global};
use std::test::Fail;
use test_records::{BASE, datagram, frame_head, push_frame, push_words, routed};
use vrt_words::NoMemory;

/// More bytes than any record here has.
pub(crate) const MANY: u64 = 1 << 20;

/// The text of two frames.
const TWO: &[u8] = b"frame 1\n  was told\nframe 2\n  was told\nframes 2\n";

/// The text of one, without the last line.
const ONE: &[u8] = b"frame 1\n  was told\n";

// A record with two frames, which end at 468 and 596 bytes: the header has 340.
pub(crate) fn record(alloc: Global) -> Result<Vec<u8>, AllocError> {
    let mut bytes = datagram(alloc, &routed())?;
    for _ in 0..2 {
        push_frame(&mut bytes, datagram(alloc, &BASE)?.as_slice())?;
    }
    Ok(bytes)
}

// A record with two frames, of which the second came before the first.
fn wrong_at_468(alloc: Global) -> Result<Vec<u8>, AllocError> {
    let mut bytes = datagram(alloc, &routed())?;
    push_frame(&mut bytes, datagram(alloc, &BASE)?.as_slice())?;
    push_words(&mut bytes, &frame_head(0x6553_F100, 0))?;
    Ok(bytes)
}

// The first bytes of a record.
fn front(alloc: Global, count: usize) -> Result<Vec<u8>, AllocError> {
    let mut bytes = record(alloc)?;
    bytes.truncate(count);
    Ok(bytes)
}

// Runs the loop over a record with a teller that has begun with nothing.
pub(crate) fn told<S: Source, K: Sink>(
    alloc: Global,
    most: u64,
    mut teller: TrialTeller,
    source: &mut S,
    sink: &mut K,
) -> Result<Status, NoMemory>
    requires most { most ≤ 2 ^ 62 }
    requires told { teller.told ≡ 0 }
    requires owes { teller.owes ≡ false }
    requires open { teller.ended ≡ false }
{
    let mut intake = RecordReader::open(alloc)?;
    Ok(run_record(alloc, most, &mut intake, &mut teller, source, sink))
}

// The status of a run that reads these bytes in pieces of this size, and its sink, which has room.
fn ran(
    alloc: Global,
    bytes: Vec<u8>,
    piece: usize,
    most: u64,
) -> Result<(Status, MemSink), NoMemory>
    requires some { 1 ≤ piece }
    requires most { most ≤ 2 ^ 62 }
{
    let mut source = MemSource::new(bytes, piece, Vec::new(alloc));
    let mut sink = MemSink::new(alloc, 1000, 1000, Vec::new(alloc))?;
    let teller = TrialTeller::new(alloc);
    let status = told(alloc, most, teller, &mut source, &mut sink)?;
    Ok((status, sink))
}

#[test]
fn the_whole_text_comes_in_any_pieces(rt: HostRuntime) -> Result<(), Fail> {
    let alloc = rt.alloc();
    for piece in [1, 7, 4_096] {
        let (status, sink) = ran(alloc, record(alloc)?, piece, MANY)?;
        assert!(rt; status == Status::Done);
        assert!(rt; sink.bytes() == TWO);
    }
    Ok(())
}

#[test]
fn a_wrong_field_ends_the_text_in_front_of_it(rt: HostRuntime) -> Result<(), Fail> {
    let alloc = rt.alloc();
    for piece in [1, 7, 4_096] {
        let mut header = record(alloc)?;
        if let Some(byte) = header.get_mut(15) {
            *byte = 4;
        }
        let (status, sink) = ran(alloc, header, piece, MANY)?;
        assert!(rt; status == Status::BadRecord { offset: 12 });
        assert!(rt; sink.bytes().is_empty());
        let (status, sink) = ran(alloc, wrong_at_468(alloc)?, piece, MANY)?;
        assert!(rt; status == Status::BadRecord { offset: 468 });
        assert!(rt; sink.bytes() == ONE);
    }
    Ok(())
}

#[test]
fn an_early_end_is_a_fault_behind_the_last_byte(rt: HostRuntime) -> Result<(), Fail> {
    let alloc = rt.alloc();
    for (count, offset, text) in [(0, 0, 0), (100, 100, 0), (400, 400, 0), (500, 500, 19)] {
        let (status, sink) = ran(alloc, front(alloc, count)?, 7, MANY)?;
        assert!(rt; status == Status::BadRecord { offset });
        assert!(rt; sink.bytes() == &ONE[..text]);
    }
    Ok(())
}

#[test]
fn one_byte_more_is_taken_and_none_is_judged(rt: HostRuntime) -> Result<(), Fail> {
    let alloc = rt.alloc();
    let (status, sink) = ran(alloc, record(alloc)?, 4_096, 596)?;
    assert!(rt; status == Status::Done);
    assert!(rt; sink.bytes() == TWO);
    let (status, sink) = ran(alloc, record(alloc)?, 4_096, 595)?;
    assert!(rt; status == Status::TooLong);
    assert!(rt; sink.bytes() == ONE);
    // Of 596 bytes 402 were taken.
    let mut source = MemSource::new(record(alloc)?, 4_096, Vec::new(alloc));
    let mut sink = MemSink::new(alloc, 100, 100, Vec::new(alloc))?;
    let teller = TrialTeller::new(alloc);
    let status = told(alloc, 401, teller, &mut source, &mut sink)?;
    assert!(rt; status == Status::TooLong);
    assert_eq!(rt; source.read(&mut [0; 1000]), Ok(194));
    Ok(())
}

#[test]
fn a_read_that_fails_leaves_the_text_so_far(rt: HostRuntime) -> Result<(), Fail> {
    let alloc = rt.alloc();
    // The first three reads give 200, 400 and 596 bytes, and the fourth is to tell the end.
    for (call, text) in [(1, 0), (3, 0), (4, 38)] {
        let mut source = MemSource::new(record(alloc)?, 200, Vec::from_slice(alloc, &[call])?);
        let mut sink = MemSink::new(alloc, 100, 100, Vec::new(alloc))?;
        let teller = TrialTeller::new(alloc);
        let status = told(alloc, MANY, teller, &mut source, &mut sink)?;
        assert!(rt; status == Status::ReadFault);
        assert!(rt; sink.bytes() == &TWO[..text]);
    }
    Ok(())
}

#[test]
fn a_write_that_fails_leaves_a_front_of_the_text(rt: HostRuntime) -> Result<(), Fail> {
    let alloc = rt.alloc();
    // The 38 bytes of the frames go out in four writes, and the last line in a fifth.
    for (call, text) in [(1, 0), (2, 10), (5, 38)] {
        let mut source = MemSource::new(record(alloc)?, 4_096, Vec::new(alloc));
        let mut sink = MemSink::new(alloc, 100, 10, Vec::from_slice(alloc, &[call])?)?;
        let teller = TrialTeller::new(alloc);
        let status = told(alloc, MANY, teller, &mut source, &mut sink)?;
        assert!(rt; status == Status::WriteFault);
        assert!(rt; sink.bytes() == &TWO[..text]);
    }
    Ok(())
}

#[test]
fn a_write_fails_before_a_field_is_wrong(rt: HostRuntime) -> Result<(), Fail> {
    let alloc = rt.alloc();
    let mut source = MemSource::new(wrong_at_468(alloc)?, 4_096, Vec::new(alloc));
    let mut sink = MemSink::new(alloc, 100, 10, Vec::from_slice(alloc, &[2])?)?;
    let teller = TrialTeller::new(alloc);
    let status = told(alloc, MANY, teller, &mut source, &mut sink)?;
    assert!(rt; status == Status::WriteFault);
    assert!(rt; sink.bytes() == &ONE[..10]);
    Ok(())
}

#[test]
fn each_status_has_its_code(rt: HostRuntime) {
    for (status, code) in [
        (Status::Done, 0),
        (Status::Usage, 2),
        (Status::ReadFault, 3),
        (Status::WriteFault, 4),
        (Status::Memory, 5),
        (Status::BadRecord { offset: 12 }, 6),
        (Status::TooLong, 7),
    ] {
        assert_eq!(rt; status.code(), code);
    }
}
