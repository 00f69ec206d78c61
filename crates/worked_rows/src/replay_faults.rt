//! `replay` with sources and sinks that fail, with records that end early, and with other words.

use crate::records::{Fault, fails, front, run_line, writes};
use crate::releases::{
    START, bytes_of, context, data, data_at_half, end_of_raw, gap_record, raw_at_half, record_of,
    refused, replays, third_context,
};
use difi_cmd::{Status, difi_run};
use difi_io::{MemSink, MemSource, NoGate};
use std::alloc::Global;
use std::test::Fail;
use std::thread::Threads;
use test_records::{BASE, HEADER, push_words, routed};

// A header of 340 bytes, three frames of 128 and one of 52.
fn lost_record(alloc: Global) -> Result<Vec<u8>, Fail> {
    gap_record(alloc, &routed(), &third_context())
}

// What is written of it: 48 bytes at its last frame, and 64 at its end.
fn lost_text(alloc: Global) -> Result<Vec<u8>, Fail> {
    bytes_of(
        alloc,
        &[&raw_at_half(2, 1, START + 1), &end_of_raw(4, 0, 1)],
    )
}

#[test]
fn a_read_that_fails_is_told_behind_the_releases_before(rt: HostRuntime) -> Result<(), Fail> {
    let alloc = rt.alloc();
    let record = lost_record(alloc)?;
    let bytes = record.as_slice();
    let text = lost_text(alloc)?;
    // 340 reads of a byte for the header, seven for the 436 bytes behind it, and one for the end.
    for call in 1..348 {
        assert!(rt; fails(&rt, alloc, &["replay"], bytes, 64, Fault::Read(call), b"")?);
    }
    let part = front(text.as_slice(), 48);
    assert!(rt; fails(&rt, alloc, &["replay"], bytes, 64, Fault::Read(348), part)?);
    let outcome = run_line(&rt, alloc, &["replay"], bytes, 64, &[349], &[])?;
    assert!(rt; outcome.status == Status::Done);
    assert_eq!(rt; outcome.text.as_slice(), text.as_slice());
    Ok(())
}

#[test]
fn a_write_that_fails_is_told_behind_what_was_written(rt: HostRuntime) -> Result<(), Fail> {
    let alloc = rt.alloc();
    let record = lost_record(alloc)?;
    let bytes = record.as_slice();
    let text = lost_text(alloc)?;
    // Three writes of 16 bytes, and four at the end.
    for (call, held) in [(1, 0), (2, 16), (3, 32), (4, 48), (5, 64), (6, 80), (7, 96)] {
        let part = front(text.as_slice(), held);
        assert!(rt; fails(&rt, alloc, &["replay"], bytes, 16, Fault::Write(call), part)?);
    }
    let outcome = run_line(&rt, alloc, &["replay"], bytes, 16, &[], &[8])?;
    assert!(rt; outcome.status == Status::Done);
    assert_eq!(rt; outcome.text.as_slice(), text.as_slice());
    Ok(())
}

#[test]
fn of_a_read_and_a_write_that_fail_the_first_is_told(rt: HostRuntime) -> Result<(), Fail> {
    let alloc = rt.alloc();
    let record = lost_record(alloc)?;
    let bytes = record.as_slice();
    // The release is written before the end is read.
    let late = run_line(&rt, alloc, &["replay"], bytes, 64, &[348], &[1])?;
    assert!(rt; late.status == Status::WriteFault);
    assert!(rt; late.text.is_empty());
    let early = run_line(&rt, alloc, &["replay"], bytes, 64, &[347], &[1])?;
    assert!(rt; early.status == Status::ReadFault);
    assert!(rt; early.text.is_empty());
    Ok(())
}

#[test]
fn the_first_call_may_fail(rt: HostRuntime) -> Result<(), Fail> {
    let record = record_of(rt.alloc(), &HEADER, &[])?;
    let bytes = record.as_slice();
    assert!(rt;
        fails(
            &rt,
            rt.alloc(),
            &["replay"],
            bytes,
            4096,
            Fault::Read(1),
            b""
        )?
    );
    assert!(rt;
        fails(
            &rt,
            rt.alloc(),
            &["replay"],
            bytes,
            4096,
            Fault::Write(1),
            b""
        )?
    );
    Ok(())
}

#[test]
fn a_sink_without_room_holds_nothing(rt: HostRuntime) -> Result<(), Fail> {
    let alloc = rt.alloc();
    let record = record_of(alloc, &HEADER, &[])?;
    let words = [String::from_str(alloc, "replay")?];
    let mut source = MemSource::new(record, 64, Vec::new(alloc));
    let Ok(mut sink) = MemSink::new(alloc, 0, 64, Vec::new(alloc)) else {
        return Err(Fail::from("no memory"));
    };
    let status = difi_run(&rt, alloc, &words, &mut source, &mut sink, &NoGate::new());
    assert!(rt; status == Status::WriteFault);
    assert!(rt; sink.bytes().is_empty());
    Ok(())
}

#[test]
fn an_early_end_is_told_with_the_number_of_bytes(rt: HostRuntime) -> Result<(), Fail> {
    let alloc = rt.alloc();
    let record = record_of(alloc, &routed(), &[&BASE])?;
    for length in 0..468 {
        let bytes = front(record.as_slice(), length);
        let outcome = run_line(&rt, alloc, &["replay"], bytes, 4096, &[], &[])?;
        if length == 340 {
            assert!(rt; outcome.status == Status::Done);
            assert!(rt; outcome.text.len() == 64);
        } else {
            let offset = length as u64;
            assert!(rt; outcome.status == (Status::BadRecord { offset }));
            assert!(rt; outcome.text.is_empty());
        }
    }
    Ok(())
}

// Whether `replay` says that a record is wrong at this offset, and writes nothing.
fn is_wrong_at<R: Threads + Sync>(
    rt: &R,
    alloc: Global,
    record: &[u8],
    offset: u64,
) -> Result<bool, Fail> {
    let status = Status::BadRecord { offset };
    writes(rt, alloc, &["replay"], record, status, b"")
}

#[test]
fn a_wrong_field_is_told_with_its_offset(rt: HostRuntime) -> Result<(), Fail> {
    let alloc = rt.alloc();
    let one = record_of(alloc, &routed(), &[&BASE])?;
    // A second frame that came before the first; a frame at 10^12 picoseconds.
    let mut earlier = one.as_slice().to_vec(alloc)?;
    push_words(&mut earlier, &[START, 0, 0, 0x0005_0000, 0])?;
    assert!(rt; is_wrong_at(&rt, alloc, earlier.as_slice(), 468)?);
    let mut later = record_of(alloc, &routed(), &[])?;
    push_words(&mut later, &[START, 232, 3_567_587_328, 0x0005_0000, 0])?;
    assert!(rt; is_wrong_at(&rt, alloc, later.as_slice(), 344)?);
    // The magic of form 2 and no more, and no bytes at all.
    assert!(rt; is_wrong_at(&rt, alloc, b"DIFIREC2", 8)?);
    assert!(rt; is_wrong_at(&rt, alloc, b"", 0)?);
    Ok(())
}

#[test]
fn words_that_are_no_line_are_refused(rt: HostRuntime) -> Result<(), Fail> {
    let alloc = rt.alloc();
    let record = record_of(alloc, &HEADER, &[])?;
    let lines: [&[&str]; 8] = [
        &[],
        &["paint"],
        &["replay", "--ring", "0"],
        &["replay", "--ring", "4097"],
        &["check", "--"],
        &["trial"],
        &["trial", "-5"],
        &["replay", "--ring", "1", "--ring", "2"],
    ];
    for line in lines {
        let outcome = run_line(&rt, alloc, line, record.as_slice(), 64, &[], &[])?;
        assert!(rt; outcome.status == Status::Usage);
        assert!(rt; outcome.text.is_empty());
    }
    Ok(())
}

#[test]
fn so_many_bytes_are_replayed_and_one_more_is_too_many(rt: HostRuntime) -> Result<(), Fail> {
    let alloc = rt.alloc();
    let record = record_of(alloc, &HEADER, &[])?;
    let bytes = record.as_slice();
    for piece in [1, 7, 4096] {
        let few = ["replay", "--max-bytes", "331"];
        let outcome = run_line(&rt, alloc, &few, bytes, piece, &[], &[])?;
        assert!(rt; outcome.status == Status::TooLong);
        assert!(rt; outcome.text.is_empty());
        let enough = ["replay", "--max-bytes", "332"];
        let outcome = run_line(&rt, alloc, &enough, bytes, piece, &[], &[])?;
        assert!(rt; outcome.status == Status::Done);
        assert!(rt; outcome.text.len() == 64);
    }
    let line = ["check", "--max-bytes=332"];
    let outcome = run_line(&rt, alloc, &line, bytes, 4096, &[], &[])?;
    assert!(rt; outcome.status == Status::Done);
    assert_eq!(rt;
        outcome.text.as_slice(),
        b"frames 0 ok 0 refused 0\n".as_slice()
    );
    Ok(())
}

// The words of a header with a second route, from stream 2 to port 8.
fn two_routes() -> [u32; 87] {
    let mut words = [0; 87];
    words[..85].copy_from_slice(&routed());
    words[9] = 2;
    words[85..].copy_from_slice(&[2, 0x0008_0000]);
    words
}

#[test]
fn a_forged_packet_of_another_stream_changes_no_run(rt: HostRuntime) -> Result<(), Fail> {
    let alloc = rt.alloc();
    let mut forged = data(0xFFFF_FFFF, 0);
    forged[1] = 2;
    let mut last = data(START, 1);
    last[1] = 2;
    let ended = [3, 40, 2, 8, 0, 5, 0, 0xFFFF_FFFF, 0, 0, 0, 0x0001_0002];
    let frames: [&[u32]; 6] = [
        &forged,
        &context(START, 0),
        &context(START + 1, 1),
        &third_context(),
        &data_at_half(START + 1, 0),
        &last,
    ];
    let releases: [&[u32]; 4] = [
        &raw_at_half(2, 1, START + 1),
        &refused(6, 4, 0, 0xFFFF_FFFF),
        &ended,
        &end_of_raw(6, 1, 2),
    ];
    assert!(rt; replays(&rt, alloc, &two_routes(), &frames, &releases)?);
    Ok(())
}

#[test]
fn four_contexts_are_lost_between_the_counts_0_and_5(rt: HostRuntime) -> Result<(), Fail> {
    let alloc = rt.alloc();
    let frames: [&[u32]; 3] = [
        &context(START, 0),
        &context(START + 1, 5),
        &data_at_half(START, 0),
    ];
    let lost: [&[u32]; 2] = [&raw_at_half(2, 4, START), &end_of_raw(3, 0, 1)];
    assert!(rt; replays(&rt, alloc, &routed(), &frames, &lost)?);
    Ok(())
}
