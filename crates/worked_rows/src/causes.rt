//! Faults of the source and the sink at each call.

use crate::records::{Fault, fails, front, header, run_with};
use difi_cmd::Status;
use std::alloc::Global;
use std::test::Fail;
use test_records::{BASE, datagram, push_frame};

const TEXT: &str = "frame 1 ok context stream 00000001\nframes 1 ok 1 refused 0\n";

fn one_frame(alloc: Global) -> Result<Vec<u8>, Fail> {
    let mut record = header(alloc)?;
    push_frame(&mut record, datagram(alloc, &BASE)?.as_slice())?;
    Ok(record)
}

#[test]
fn a_read_that_fails_is_told_behind_the_frames_before(rt: HostRuntime) -> Result<(), Fail> {
    let alloc = rt.alloc();
    let record = one_frame(alloc)?;
    let bytes = record.as_slice();
    // 468 bytes in pieces of 100 are five reads, the fifth makes the frame whole, and a sixth tells
    // the end.
    for call in 1..6 {
        assert!(rt; fails(&rt, alloc, &["check"], bytes, 100, Fault::Read(call), b"")?);
    }
    let line = front(TEXT.as_bytes(), 35);
    assert!(rt; fails(&rt, alloc, &["check"], bytes, 100, Fault::Read(6), line)?);
    let outcome = run_with(&rt, alloc, bytes, 100, &[7], &[])?;
    assert!(rt; outcome.status == Status::Done);
    assert_eq!(rt; outcome.text.as_slice(), TEXT.as_bytes());
    Ok(())
}

#[test]
fn a_write_that_fails_is_told_behind_what_was_written(rt: HostRuntime) -> Result<(), Fail> {
    let alloc = rt.alloc();
    let record = one_frame(alloc)?;
    let bytes = record.as_slice();
    // A line of 35 bytes in pieces of 10 is four writes, and the last one of 24 bytes is three.
    for (call, held) in [(1, 0), (2, 10), (3, 20), (4, 30), (5, 35), (6, 45), (7, 55)] {
        let text = front(TEXT.as_bytes(), held);
        assert!(rt; fails(&rt, alloc, &["check"], bytes, 10, Fault::Write(call), text)?);
    }
    let outcome = run_with(&rt, alloc, bytes, 10, &[], &[8])?;
    assert!(rt; outcome.status == Status::Done);
    assert_eq!(rt; outcome.text.as_slice(), TEXT.as_bytes());
    Ok(())
}

#[test]
fn a_write_that_fails_comes_before_a_read_that_fails(rt: HostRuntime) -> Result<(), Fail> {
    let record = one_frame(rt.alloc())?;
    let outcome = run_with(&rt, rt.alloc(), record.as_slice(), 100, &[6], &[1])?;
    assert!(rt; outcome.status == Status::WriteFault);
    assert!(rt; outcome.text.is_empty());
    Ok(())
}
