//! `migrate`: the header in form 2, and the frames as they stand.

use crate::records::{Fault, fails, run_line, writes};
use difi_cmd::Status;
use std::alloc::{AllocError, Global};
use std::test::Fail;
use std::thread::Threads;
use test_records::{BASE, datagram, frame_head, push_frame, push_words, routed, second_form};

// The route of `routed` in form 2: stream 1, one port, 9.
const MIGRATED_ROUTE: [u32; 4] = [1, 0x0001_0009, 0, 0];

// A route from stream 1 to the ports 9, 7, 300 and 2.
const FOUR_PORTS: [u32; 4] = [1, 0x0004_0009, 0x0007_012C, 0x0002_0000];

// The header of `routed` in form 2: 348 bytes.
fn migrated(alloc: Global) -> Result<Vec<u8>, AllocError> {
    let mut bytes = datagram(alloc, &second_form())?;
    push_words(&mut bytes, &MIGRATED_ROUTE)?;
    Ok(bytes)
}

// Puts two frames behind a header: a context, and a datagram of three bytes one second later, on
// another port and at a picosecond of its own.
fn push_frames(record: &mut Vec<u8>, alloc: Global) -> Result<(), AllocError> {
    push_frame(record, datagram(alloc, &BASE)?.as_slice())?;
    push_words(record, &[0x6553_F10B, 0x12, 0x3456_789A, 0xFFFE_0000, 3])?;
    record.extend_from_slice(&[0xFF, 0, 0x80])
}

// Whether `migrate` makes this of bytes, however they are cut.
fn makes<R: Threads + Sync>(
    rt: &R,
    alloc: Global,
    bytes: &[u8],
    status: Status,
    text: &[u8],
) -> Result<bool, Fail> {
    writes(rt, alloc, &["migrate"], bytes, status, text)
}

#[test]
fn a_header_is_written_in_form_2(rt: HostRuntime) -> Result<(), Fail> {
    let alloc = rt.alloc();
    let bytes = datagram(alloc, &routed())?;
    let mut text = b"DIFIREC2".to_vec(alloc)?;
    push_words(&mut text, &routed()[2..83])?;
    push_words(&mut text, &MIGRATED_ROUTE)?;
    assert_eq!(rt; text.len(), 348);
    assert!(rt; makes(&rt, alloc, bytes.as_slice(), Status::Done, text.as_slice())?);
    Ok(())
}

#[test]
fn frames_stay_as_they_stand(rt: HostRuntime) -> Result<(), Fail> {
    let alloc = rt.alloc();
    let mut bytes = datagram(alloc, &routed())?;
    push_frames(&mut bytes, alloc)?;
    let mut text = migrated(alloc)?;
    push_frames(&mut text, alloc)?;
    assert!(rt; makes(&rt, alloc, bytes.as_slice(), Status::Done, text.as_slice())?);
    Ok(())
}

#[test]
fn a_record_of_form_2_stays_with_all_its_ports(rt: HostRuntime) -> Result<(), Fail> {
    let alloc = rt.alloc();
    let mut bytes = datagram(alloc, &second_form())?;
    push_words(&mut bytes, &FOUR_PORTS)?;
    push_frames(&mut bytes, alloc)?;
    assert!(rt; makes(&rt, alloc, bytes.as_slice(), Status::Done, bytes.as_slice())?);
    Ok(())
}

#[test]
fn of_an_early_end_what_stands_whole_is_written(rt: HostRuntime) -> Result<(), Fail> {
    let alloc = rt.alloc();
    let mut record = datagram(alloc, &routed())?;
    push_frames(&mut record, alloc)?;
    let mut text = migrated(alloc)?;
    push_frames(&mut text, alloc)?;
    // The header has 340 bytes and then 348, and the first frame ends at 468 and then at 476.
    let places: [(usize, usize); 8] = [
        (0, 0),
        (8, 0),
        (339, 0),
        (341, 348),
        (360, 348),
        (467, 348),
        (469, 476),
        (490, 476),
    ];
    for (end, written) in places {
        let mut bytes = record.as_slice().to_vec(alloc)?;
        bytes.truncate(end);
        let mut front = text.as_slice().to_vec(alloc)?;
        front.truncate(written);
        let status = Status::BadRecord { offset: end as u64 };
        assert!(rt; makes(&rt, alloc, bytes.as_slice(), status, front.as_slice())?);
    }
    Ok(())
}

#[test]
fn the_eight_bytes_of_the_magic_are_no_record(rt: HostRuntime) -> Result<(), Fail> {
    let status = Status::BadRecord { offset: 8 };
    assert!(rt; makes(&rt, rt.alloc(), b"DIFIREC2", status, &[])?);
    Ok(())
}

#[test]
fn behind_a_wrong_field_nothing_is_written(rt: HostRuntime) -> Result<(), Fail> {
    let alloc = rt.alloc();
    let mut bytes = datagram(alloc, &routed())?;
    push_frame(&mut bytes, &[1, 2])?;
    push_words(&mut bytes, &frame_head(0x6553_F109, 0))?;
    let mut text = migrated(alloc)?;
    push_frame(&mut text, &[1, 2])?;
    let status = Status::BadRecord { offset: 362 };
    assert!(rt; makes(&rt, alloc, bytes.as_slice(), status, text.as_slice())?);
    Ok(())
}

#[test]
fn a_failed_read_or_write_ends_it(rt: HostRuntime) -> Result<(), Fail> {
    let alloc = rt.alloc();
    let mut bytes = datagram(alloc, &routed())?;
    let text = migrated(alloc)?;
    push_frames(&mut bytes, alloc)?;
    let record = bytes.as_slice();
    assert!(rt; fails(&rt, alloc, &["migrate"], record, 340, Fault::Read(1), b"")?);
    assert!(rt;
        fails(
            &rt,
            alloc,
            &["migrate"],
            record,
            340,
            Fault::Read(2),
            text.as_slice()
        )?
    );
    // The header takes two writes.
    assert!(rt; fails(&rt, alloc, &["migrate"], record, 340, Fault::Write(1), b"")?);
    assert!(rt;
        fails(
            &rt,
            alloc,
            &["migrate"],
            record,
            340,
            Fault::Write(3),
            text.as_slice()
        )?
    );
    Ok(())
}

#[test]
fn only_so_many_bytes_are_judged(rt: HostRuntime) -> Result<(), Fail> {
    let alloc = rt.alloc();
    let bytes = datagram(alloc, &routed())?;
    let text = migrated(alloc)?;
    let line = ["migrate", "--max-bytes", "339"];
    let short = run_line(&rt, alloc, &line, bytes.as_slice(), 4096, &[], &[])?;
    assert_eq!(rt; short.status, Status::TooLong);
    assert_eq!(rt; short.text.as_slice(), b"".as_slice());
    let line = ["migrate", "--max-bytes=340"];
    let all = run_line(&rt, alloc, &line, bytes.as_slice(), 4096, &[], &[])?;
    assert_eq!(rt; all.status, Status::Done);
    assert_eq!(rt; all.text.as_slice(), text.as_slice());
    Ok(())
}

#[test]
fn other_words_are_no_options_of_it(rt: HostRuntime) -> Result<(), Fail> {
    let alloc = rt.alloc();
    let bytes = datagram(alloc, &routed())?;
    for line in [
        ["migrate", "5"],
        ["migrate", "--max-bytes"],
        ["migrate", "--stages=1"],
        ["migrate", "--max-bytes=0"],
    ] {
        let outcome = run_line(&rt, alloc, &line, bytes.as_slice(), 4096, &[], &[])?;
        assert_eq!(rt; outcome.status, Status::Usage);
        assert_eq!(rt; outcome.text.as_slice(), b"".as_slice());
    }
    Ok(())
}
