//! Records that are none, and the offset at which each is told to be wrong.

use crate::records::{front, header, run, run_line, second_header, writes};
use difi_cmd::Status;
use std::alloc::Global;
use std::test::Fail;
use std::thread::Threads;
use test_records::{BASE, datagram, push_frame, push_words};

const LINE: &str = "frame 1 ok context stream 00000001\n";

// A record of one context: a header of 340 bytes, and a frame of 128.
fn one_frame(alloc: Global) -> Result<Vec<u8>, Fail> {
    let mut record = header(alloc)?;
    push_frame(&mut record, datagram(alloc, &BASE)?.as_slice())?;
    Ok(record)
}

// Whether `check` says that the record is wrong at this offset, behind this text.
fn is_wrong_at<R: Threads + Sync>(
    rt: &R,
    alloc: Global,
    record: &[u8],
    offset: u64,
    text: &str,
) -> Result<bool, Fail> {
    let status = Status::BadRecord { offset };
    writes(rt, alloc, &["check"], record, status, text.as_bytes())
}

// The record with some bytes put at an offset.
fn with(alloc: Global, record: &[u8], offset: usize, bytes: &[u8]) -> Result<Vec<u8>, Fail> {
    let mut changed = record.to_vec(alloc)?;
    for (index, byte) in bytes.iter().enumerate() {
        let Some(place) = offset.checked_add(index) else {
            return Err(Fail::from("offset"));
        };
        if let Some(old) = changed.get_mut(place) {
            *old = *byte;
        }
    }
    Ok(changed)
}

#[test]
fn each_field_of_the_header_is_judged_at_its_offset(rt: HostRuntime) -> Result<(), Fail> {
    let record = one_frame(rt.alloc())?;
    let changes: [(usize, &[u8], u64); 22] = [
        (7, b"3", 0),
        (8, &[1], 8),
        (15, &[4], 12),
        (16, &[0, 0, 0, 42], 16),
        (20, &[0, 0, 0x10, 1], 20),
        (24, &[0, 0, 0x10, 1], 24),
        (28, &[0, 0, 0, 1], 28),
        (32, &[0, 0, 0, 0], 32),
        (32, &[0, 1, 0, 1], 32),
        (36, &[0, 0, 0, 65], 36),
        (43, &[3], 40),
        (59, &[1], 44),
        (104, &[0x80], 104),
        (104, &[0, 0, 0, 0, 0, 0x0F, 0xFF, 0xFF], 108),
        (128, &[0], 128),
        (135, &[1], 132),
        (139, &[2], 136),
        (147, &[1], 140),
        (155, &[1], 148),
        (163, &[1], 156),
        (
            136,
            &[0, 0, 0, 1, 0, 0, 0, 0, 0, 0, 0, 2, 0, 0, 0, 0, 0, 0, 0, 1],
            148,
        ),
        (339, &[1], 338),
    ];
    for (offset, bytes, told) in changes {
        let changed = with(rt.alloc(), record.as_slice(), offset, bytes)?;
        assert!(rt; is_wrong_at(&rt, rt.alloc(), changed.as_slice(), told, "")?);
    }
    Ok(())
}

#[test]
fn each_field_of_a_frame_is_judged_at_its_offset(rt: HostRuntime) -> Result<(), Fail> {
    // A second frame begins at 468.
    let mut record = one_frame(rt.alloc())?;
    push_frame(&mut record, datagram(rt.alloc(), &BASE)?.as_slice())?;
    let changes: [(usize, &[u8], u64); 6] = [
        (344, &[0, 0, 0, 0xE8, 0xD4, 0xA5, 0x10, 0x00], 344),
        (355, &[1], 354),
        (356, &[0, 1, 0, 0], 356),
        (468, &[0x65, 0x53, 0xF1, 0x00], 468),
        (482, &[1], 482),
        (484, &[0, 1, 0, 0], 484),
    ];
    for (offset, bytes, told) in changes {
        let changed = with(rt.alloc(), record.as_slice(), offset, bytes)?;
        let text = if told < 468 { "" } else { LINE };
        assert!(rt; is_wrong_at(&rt, rt.alloc(), changed.as_slice(), told, text)?);
    }
    Ok(())
}

#[test]
fn picoseconds_rise_within_a_second_alone(rt: HostRuntime) -> Result<(), Fail> {
    let mut record = one_frame(rt.alloc())?;
    push_frame(&mut record, &[])?;
    let later = with(rt.alloc(), record.as_slice(), 351, &[5])?;
    assert!(rt; is_wrong_at(&rt, rt.alloc(), later.as_slice(), 472, LINE)?);
    let next = with(rt.alloc(), later.as_slice(), 471, &[0x0B])?;
    let outcome = run(&rt, rt.alloc(), next.as_slice())?;
    assert!(rt; outcome.status == Status::Done);
    Ok(())
}

#[test]
fn an_early_end_is_told_with_the_number_of_bytes(rt: HostRuntime) -> Result<(), Fail> {
    let record = one_frame(rt.alloc())?;
    // The header ends at 340, and the frame at 468.
    for length in [0, 7, 100, 331, 339, 341, 359, 467] {
        let bytes = front(record.as_slice(), length);
        assert!(rt; is_wrong_at(&rt, rt.alloc(), bytes, length as u64, "")?);
    }
    assert!(rt; is_wrong_at(&rt, rt.alloc(), b"DIFIREC2", 8, "")?);
    assert!(rt; is_wrong_at(&rt, rt.alloc(), b"DIFIREC3", 0, "")?);
    Ok(())
}

#[test]
fn a_route_of_the_second_form_names_each_port_once(rt: HostRuntime) -> Result<(), Fail> {
    let mut record = second_header(rt.alloc())?;
    push_words(&mut record, &[1, 0x0002_0009, 0x0007_0000, 0])?;
    let outcome = run(&rt, rt.alloc(), record.as_slice())?;
    assert!(rt; outcome.status == Status::Done);
    let twice = with(rt.alloc(), record.as_slice(), 341, &[9])?;
    assert!(rt; is_wrong_at(&rt, rt.alloc(), twice.as_slice(), 340, "")?);
    let behind = with(rt.alloc(), record.as_slice(), 343, &[9])?;
    assert!(rt; is_wrong_at(&rt, rt.alloc(), behind.as_slice(), 342, "")?);
    Ok(())
}

#[test]
fn so_many_bytes_are_judged_and_one_more_is_too_many(rt: HostRuntime) -> Result<(), Fail> {
    let record = one_frame(rt.alloc())?;
    let none = "frames 0 ok 0 refused 0\n";
    let head = front(record.as_slice(), 340);
    for (words, status, text) in [
        (["check", "--max-bytes=339"], Status::TooLong, ""),
        (["check", "--max-bytes=340"], Status::Done, none),
        (["check", "--max-bytes=1"], Status::TooLong, ""),
    ] {
        let outcome = run_line(&rt, rt.alloc(), &words, head, 7, &[], &[])?;
        assert!(rt; outcome.status == status);
        assert_eq!(rt; outcome.text.as_slice(), text.as_bytes());
    }
    for (words, status, text) in [
        (["check", "--max-bytes", "467"], Status::TooLong, ""),
        (["check", "--max-bytes", "00468"], Status::Done, LINE),
    ] {
        let outcome = run_line(&rt, rt.alloc(), &words, record.as_slice(), 4096, &[], &[])?;
        assert!(rt; outcome.status == status);
        assert!(rt; outcome.text.as_slice().starts_with(text.as_bytes()));
    }
    Ok(())
}

#[test]
fn a_wrong_field_comes_before_too_many_bytes(rt: HostRuntime) -> Result<(), Fail> {
    let record = with(rt.alloc(), one_frame(rt.alloc())?.as_slice(), 15, &[4])?;
    for (words, status) in [
        (
            ["check", "--max-bytes=16"],
            Status::BadRecord { offset: 12 },
        ),
        (["check", "--max-bytes=15"], Status::TooLong),
    ] {
        let outcome = run_line(&rt, rt.alloc(), &words, record.as_slice(), 4096, &[], &[])?;
        assert!(rt; outcome.status == status);
    }
    Ok(())
}
