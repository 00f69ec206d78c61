ghost use Rattle.std.specs.Prelude.{◌≤◌, ◌^◌};

use crate::{Options, Status, replay_run};
use difi_io::{MemSink, MemSource, NoGate};
use std::alloc::{AllocError, Global};
use std::test::Fail;
use std::thread::Threads;
use test_records::{BASE, HEADER, datagram, push_frame, push_words, routed};

// A data packet of stream 1 with the count 0 and one sample.
const DATA: [u32; 8] = [
    0x1860_0008,
    1,
    0x006A_621E,
    0,
    0x6553_F100,
    0,
    0,
    0x0001_0002,
];

const VERSION: [u32; 11] = [
    0x5960_000B,
    1,
    0x006A_621E,
    0x0001_0004,
    0x6553_F100,
    0,
    0,
    0x8000_0002,
    0xC,
    4,
    0,
];

const ANSWER: [u32; 12] = [
    0x6C60_000C,
    1,
    0x006A_621E,
    0,
    0x6553_F10A,
    0,
    0,
    0x0109_0000,
    1,
    0x00A0_0000,
    0x8000_0000,
    0x9000_0000,
];

// The context with this word 0 and these seconds.
fn context(first: u32, seconds: u32) -> [u32; 27] {
    let mut words = BASE;
    words[0] = first;
    words[4] = seconds;
    words
}

// The data packet with this word 0 and these seconds.
fn data_packet(first: u32, seconds: u32) -> [u32; 8] {
    let mut words = DATA;
    words[0] = first;
    words[4] = seconds;
    words
}

// The last record: of its counts those of frames, raw packets, refused frames and versions.
fn end_of(frames: u32, raw: u32, refused: u32, versions: u32) -> [u32; 16] {
    [
        7, 56, 0, frames, 0, 0, 0, 0, 0, raw, 0, refused, 0, 0, 0, versions,
    ]
}

// A data packet of `DATA` that leaves whole for this reason.
fn raw_of(reason: u32, seconds: u32) -> [u32; 12] {
    [3, 40, 1, 9, 0, reason, 0, seconds, 0, 0, 0, 0x0001_0002]
}

// A refused frame 1 from port 5.
fn refused(reason: u32, detail: u32) -> [u32; 10] {
    [5, 32, 0, 1, 5, reason, detail, 0, 0, 0]
}

// The bytes of a header with frames.
fn record_of(alloc: Global, head: &[u32], packets: &[&[u32]]) -> Result<Vec<u8>, AllocError> {
    let mut record = datagram(alloc, head)?;
    for words in packets {
        push_frame(&mut record, datagram(alloc, words)?.as_slice())?;
    }
    Ok(record)
}

// The status of a run over these bytes, read in pieces, and what it wrote.
fn run<R: Threads + Sync>(
    rt: &R,
    alloc: Global,
    bytes: &[u8],
    piece: usize,
    max_bytes: u64,
) -> Result<(Status, Vec<u8>), Fail>
    requires piece { 1 ≤ piece }
    requires most { max_bytes ≤ 2 ^ 62 }
{
    let mut source = MemSource::new(bytes.to_vec(alloc)?, piece, Vec::new(alloc));
    let Ok(mut sink) = MemSink::new(alloc, 1 << 16, 1 << 12, Vec::new(alloc)) else {
        return Err(Fail::from("no memory"));
    };
    let options = Options {
        max_bytes,
        stages: 1,
        ring: 16,
    };
    let status = replay_run(rt, alloc, &options, &mut source, &mut sink, &NoGate::new());
    Ok((status, sink.bytes().to_vec(alloc)?))
}

// Whether of a record these releases are written, however it is cut.
fn writes<R: Threads + Sync>(
    rt: &R,
    alloc: Global,
    record: &[u8],
    releases: &[&[u32]],
) -> Result<bool, Fail> {
    let mut expected = Vec::new(alloc);
    for words in releases {
        push_words(&mut expected, words)?;
    }
    for piece in [1, 7, 4096] {
        let (status, written) = run(rt, alloc, record, piece, 1 << 30)?;
        if status != Status::Done || written.as_slice() != expected.as_slice() {
            return Ok(false);
        }
    }
    Ok(true)
}

#[test]
fn a_header_alone_has_the_counts(rt: HostRuntime) -> Result<(), Fail> {
    let alloc = rt.alloc();
    let record = record_of(alloc, &HEADER, &[])?;
    assert!(rt; writes(&rt, alloc, record.as_slice(), &[&end_of(0, 0, 0, 0)])?);
    Ok(())
}

#[test]
fn a_context_gives_nothing(rt: HostRuntime) -> Result<(), Fail> {
    let alloc = rt.alloc();
    let record = record_of(alloc, &routed(), &[&BASE])?;
    assert!(rt; writes(&rt, alloc, record.as_slice(), &[&end_of(1, 0, 0, 0)])?);
    Ok(())
}

// The context of two seconds never came, so the packet leaves raw as one was lost.
#[test]
fn samples_before_a_lost_context_are_uncertain(rt: HostRuntime) -> Result<(), Fail> {
    let alloc = rt.alloc();
    let mut half = data_packet(0x1860_0008, 0x6553_F101);
    half[5] = 0x74;
    half[6] = 0x6A52_8800;
    let packets: [&[u32]; 4] = [
        &BASE,
        &context(0x4961_001B, 0x6553_F101),
        &context(0x4963_001B, 0x6553_F103),
        &half,
    ];
    let record = record_of(alloc, &routed(), &packets)?;
    let raw = [
        3,
        0x28,
        1,
        9,
        0,
        2,
        1,
        0x6553_F101,
        0x74,
        0x6A52_8800,
        0,
        0x0001_0002,
    ];
    assert!(rt; writes(&rt, alloc, record.as_slice(), &[&raw, &end_of(4, 1, 0, 0)])?);
    Ok(())
}

// Two packets may wait: the third makes the first leave, and the others leave at the end.
#[test]
fn no_more_packets_wait_than_may(rt: HostRuntime) -> Result<(), Fail> {
    let alloc = rt.alloc();
    let mut head = routed();
    head[8] = 2;
    let packets: [&[u32]; 4] = [
        &BASE,
        &DATA,
        &data_packet(0x1861_0008, 0x6553_F101),
        &data_packet(0x1862_0008, 0x6553_F102),
    ];
    let record = record_of(alloc, &head, &packets)?;
    let releases: [&[u32]; 4] = [
        &raw_of(3, 0x6553_F100),
        &raw_of(5, 0x6553_F101),
        &raw_of(5, 0x6553_F102),
        &end_of(4, 3, 0, 0),
    ];
    assert!(rt; writes(&rt, alloc, record.as_slice(), &releases)?);
    Ok(())
}

#[test]
fn a_datagram_that_is_too_large_is_refused(rt: HostRuntime) -> Result<(), Fail> {
    let alloc = rt.alloc();
    let mut record = datagram(alloc, &routed())?;
    push_frame(&mut record, &[0; 1_601])?;
    let releases: [&[u32]; 2] = [&refused(1, 0x641), &end_of(1, 0, 1, 0)];
    assert!(rt; writes(&rt, alloc, record.as_slice(), &releases)?);
    Ok(())
}

// A fraction of a whole second, a stream without a route, and an acknowledgement.
#[test]
fn a_refusal_tells_its_reason(rt: HostRuntime) -> Result<(), Fail> {
    let alloc = rt.alloc();
    let mut late = BASE;
    late[5] = 232;
    late[6] = 3_567_587_328;
    let mut other = BASE;
    other[1] = 2;
    let rows: [(&[u32], u32, u32); 3] = [(&late, 2, 6), (&other, 3, 2), (&ANSWER, 10, 0)];
    for (words, reason, detail) in rows {
        let record = record_of(alloc, &routed(), &[words])?;
        let releases: [&[u32]; 2] = [&refused(reason, detail), &end_of(1, 0, 1, 0)];
        assert!(rt; writes(&rt, alloc, record.as_slice(), &releases)?);
    }
    Ok(())
}

#[test]
fn a_version_is_written_for_its_port(rt: HostRuntime) -> Result<(), Fail> {
    let alloc = rt.alloc();
    let record = record_of(alloc, &routed(), &[&VERSION])?;
    let releases: [&[u32]; 3] = [&[6, 0x30, 9], &VERSION, &end_of(1, 0, 0, 1)];
    assert!(rt; writes(&rt, alloc, record.as_slice(), &releases)?);
    Ok(())
}

#[test]
fn only_so_many_bytes_are_judged(rt: HostRuntime) -> Result<(), Fail> {
    let alloc = rt.alloc();
    let record = record_of(alloc, &HEADER, &[])?;
    let (status, written) = run(&rt, alloc, record.as_slice(), 4096, 331)?;
    assert_eq!(rt; status, Status::TooLong);
    assert!(rt; written.is_empty());
    let (status, written) = run(&rt, alloc, record.as_slice(), 4096, 332)?;
    assert_eq!(rt; status, Status::Done);
    assert_eq!(rt; written.len(), 64);
    Ok(())
}
