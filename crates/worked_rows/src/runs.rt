//! Whole records, however they are cut.

use crate::records::{header, run, run_with};
use difi_cmd::Status;
use std::alloc::Global;
use std::test::Fail;
use test_records::{BASE, datagram, push_frame, push_words};

const TWO: &str =
    "frame 1 ok context stream 00000001\nframe 2 refused at word 26\nframes 2 ok 1 refused 1\n";

// A record of a context, and the same cut to 104 bytes.
fn two_frames(alloc: Global) -> Result<Vec<u8>, Fail> {
    let mut record = header(alloc)?;
    let mut bytes = datagram(alloc, &BASE)?;
    push_frame(&mut record, bytes.as_slice())?;
    bytes.truncate(104);
    push_frame(&mut record, bytes.as_slice())?;
    Ok(record)
}

#[test]
fn a_context_is_accepted(rt: HostRuntime) -> Result<(), Fail> {
    let mut record = header(rt.alloc())?;
    push_frame(&mut record, datagram(rt.alloc(), &BASE)?.as_slice())?;
    let outcome = run(&rt, rt.alloc(), record.as_slice())?;
    assert!(rt; outcome.status == Status::Done);
    let text = "frame 1 ok context stream 00000001\nframes 1 ok 1 refused 0\n";
    assert_eq!(rt; outcome.text.as_slice(), text.as_bytes());
    Ok(())
}

#[test]
fn each_frame_has_its_line_however_reads_are_cut(rt: HostRuntime) -> Result<(), Fail> {
    let record = two_frames(rt.alloc())?;
    for piece in [1, 7, 4096] {
        let outcome = run_with(&rt, rt.alloc(), record.as_slice(), piece, &[], &[])?;
        assert!(rt; outcome.status == Status::Done);
        assert_eq!(rt; outcome.text.as_slice(), TWO.as_bytes());
    }
    Ok(())
}

#[test]
fn a_datagram_of_more_words_than_allowed_is_too_large(rt: HostRuntime) -> Result<(), Fail> {
    let mut record = header(rt.alloc())?;
    push_frame(&mut record, &[0; 1601])?;
    let outcome = run(&rt, rt.alloc(), record.as_slice())?;
    assert!(rt; outcome.status == Status::Done);
    let text = "frame 1 too large\nframes 1 ok 0 refused 1\n";
    assert_eq!(rt; outcome.text.as_slice(), text.as_bytes());
    Ok(())
}

#[test]
fn a_datagram_of_as_many_words_as_allowed_is_judged(rt: HostRuntime) -> Result<(), Fail> {
    // A data packet of 400 words, and one of 401.
    for (size, text) in [
        (
            400,
            "frame 1 ok data stream 00000001\nframes 1 ok 1 refused 0\n",
        ),
        (401, "frame 1 too large\nframes 1 ok 0 refused 1\n"),
    ] {
        let mut bytes = datagram(rt.alloc(), &[0x1860_0000 | size, 1, 0x006A_621E, 0])?;
        push_words(&mut bytes, &[0x6553_F100, 0, 0])?;
        for _ in 7..size {
            push_words(&mut bytes, &[0x0001_0002])?;
        }
        let mut record = header(rt.alloc())?;
        push_frame(&mut record, bytes.as_slice())?;
        let outcome = run(&rt, rt.alloc(), record.as_slice())?;
        assert!(rt; outcome.status == Status::Done);
        assert_eq!(rt; outcome.text.as_slice(), text.as_bytes());
    }
    Ok(())
}
