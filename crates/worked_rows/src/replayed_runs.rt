//! Runs of samples that `replay` binds, the ports that they go to, and the frames that it refuses.

use crate::records::run_line;
use crate::releases::{
    Counts, NONE, START, context, data, end, end_of_raw, gap_record, makes, raw, raw_at_half,
    record_of, refused, replays, third_context,
};
use difi_cmd::Status;
use std::alloc::Global;
use std::test::Fail;
use std::thread::Threads;
use test_records::{BASE, push_frame, push_words, routed, second_form};

// Where the words of a header have the reorder window of data packets, and the packets that may wait.
const DATA_WINDOW: usize = 5;

const WAITING: usize = 8;

// An execution that is acknowledged.
const ACK: [u32; 12] = [
    0x6C60_000C,
    1,
    0x006A_621E,
    0,
    0x6553_F10A,
    0,
    0,
    0x0109_0000,
    1,
    0x00A0_0000,
    0x8000_0000,
    0x9000_0000,
];

// The command that it answers.
const CONTROL: [u32; 10] = [
    0x6800_000A,
    1,
    0x006A_621E,
    0,
    0x0108_0000,
    1,
    0x00A0_0000,
    0x600,
    0,
    0x0010_0000,
];

// A data packet of four samples.
const FOUR_SAMPLES: [u32; 11] = [
    0x1860_000B,
    1,
    0x006A_621E,
    0,
    START,
    0,
    0,
    0x0001_0002,
    0x0003_0004,
    0x0005_0006,
    0x0007_0008,
];

// A context with so many samples in a second, and this gain.
fn slow_context(second: u32, count: u32, rate: u32, gain: u32) -> [u32; 27] {
    let mut words = context(second, count);
    words[18] = gain;
    words[19] = 0;
    words[20] = rate << 20;
    words
}

// Two of the four samples, bound to a context: the first of them, its picoseconds since 1970, the
// context, and the samples.
fn bound_pair(first: u32, picos: [u32; 2], context: &[u32; 27], samples: [u32; 2]) -> [u32; 35] {
    let mut words = [0; 35];
    words[..14].copy_from_slice(&[
        1, 0x84, 1, 9, 0, START, 0, 0, first, 2, 0, 0x5C, picos[0], picos[1],
    ]);
    words[14..33].copy_from_slice(&context[8..]);
    words[33..].copy_from_slice(&samples);
    words
}

// The first two of the samples, bound to the first context.
fn front_pair(context: &[u32; 27]) -> [u32; 35] {
    let picos = [0x283D_4103, 0x9410_0000];
    bound_pair(0, picos, context, [0x0001_0002, 0x0003_0004])
}

// The picoseconds of the other two, a second later.
const BACK: [u32; 2] = [0x283D_41EC, 0x68B5_1000];

#[test]
fn samples_are_bound_to_the_contexts_of_their_moments(rt: HostRuntime) -> Result<(), Fail> {
    let alloc = rt.alloc();
    // Two samples in a second, and another gain from the third sample on.
    let first = slow_context(START, 0, 2, 0x500);
    let second = slow_context(START + 1, 1, 2, 0x600);
    let third = slow_context(START + 2, 2, 2, 0x500);
    let counts = Counts {
        frames: 4,
        bound: 4,
        ..NONE
    };
    let frames: [&[u32]; 4] = [&first, &second, &third, &FOUR_SAMPLES];
    let back = bound_pair(2, BACK, &second, [0x0005_0006, 0x0007_0008]);
    let releases: [&[u32]; 3] = [&front_pair(&first), &back, &end(counts)];
    assert!(rt; replays(&rt, alloc, &routed(), &frames, &releases)?);
    Ok(())
}

#[test]
fn samples_behind_another_rate_are_uncertain(rt: HostRuntime) -> Result<(), Fail> {
    let alloc = rt.alloc();
    // Two samples in a second, and another rate from the third sample on.
    let first = slow_context(START, 0, 2, 0x500);
    let faster = slow_context(START + 1, 1, 4, 0x600);
    let third = slow_context(START + 2, 2, 2, 0x500);
    let counts = Counts {
        frames: 4,
        bound: 2,
        uncertain: 2,
        ..NONE
    };
    let mut changed = [0; 18];
    changed[..14].copy_from_slice(&[2, 0x40, 1, 9, 0, 6, 0, START, 0, 0, 2, 2, 0, 0x5C]);
    changed[14..16].copy_from_slice(&BACK);
    changed[16..].copy_from_slice(&[0x0005_0006, 0x0007_0008]);
    let frames: [&[u32]; 4] = [&first, &faster, &third, &FOUR_SAMPLES];
    let releases: [&[u32]; 3] = [&front_pair(&first), &changed, &end(counts)];
    assert!(rt; replays(&rt, alloc, &routed(), &frames, &releases)?);
    Ok(())
}

#[test]
fn forty_packets_wait_in_room_for_three(rt: HostRuntime) -> Result<(), Fail> {
    let alloc = rt.alloc();
    // A window of two: at the end 37 have left, as the thirty-eighth is the last that it releases.
    let mut header = routed();
    header[DATA_WINDOW] = 2;
    header[WAITING] = 3;
    let mut record = record_of(alloc, &header, &[])?;
    let mut wanted = Vec::new(alloc);
    for k in 0..40u32 {
        let packet = record_of(alloc, &data(START + k, k % 16), &[])?;
        push_frame(&mut record, packet.as_slice())?;
        let reason = if k < 37 { 3 } else { 5 };
        push_words(&mut wanted, &raw(reason, 0, START + k))?;
    }
    push_words(&mut wanted, &end_of_raw(40, 0, 40))?;
    let outcome = run_line(&rt, alloc, &["replay"], record.as_slice(), 4096, &[], &[])?;
    assert!(rt; outcome.status == Status::Done);
    assert_eq!(rt; outcome.text.as_slice(), wanted.as_slice());
    Ok(())
}

// Whether one frame is refused so.
fn refuses<R: Threads + Sync>(
    rt: &R,
    alloc: Global,
    datagram: &[u32],
    refusal: u32,
    detail: u32,
) -> Result<bool, Fail> {
    let releases: [&[u32]; 2] = [&refused(1, refusal, detail, 0), &end_of_raw(1, 1, 0)];
    replays(rt, alloc, &routed(), &[datagram], &releases)
}

#[test]
fn a_frame_is_refused_with_what_shows_why(rt: HostRuntime) -> Result<(), Fail> {
    let alloc = rt.alloc();
    // A fraction of a second that is one, and a size that no context has.
    let mut context = BASE;
    context[5] = 232;
    context[6] = 3_567_587_328;
    assert!(rt; refuses(&rt, alloc, &context, 2, 6)?);
    context[0] = 0x4960_001A;
    assert!(rt; refuses(&rt, alloc, &context, 2, 0)?);
    // A stream without a route, an acknowledgement, and a command.
    let mut other = BASE;
    other[1] = 2;
    assert!(rt; refuses(&rt, alloc, &other, 3, 2)?);
    assert!(rt; refuses(&rt, alloc, &ACK, 10, 0)?);
    assert!(rt; refuses(&rt, alloc, &CONTROL, 2, 0)?);
    Ok(())
}

#[test]
fn a_frame_of_1601_bytes_is_too_large(rt: HostRuntime) -> Result<(), Fail> {
    let alloc = rt.alloc();
    let mut record = record_of(alloc, &routed(), &[])?;
    push_frame(&mut record, &[0; 1601])?;
    let wanted: [&[u32]; 2] = [&refused(1, 1, 1601, 0), &end_of_raw(1, 1, 0)];
    assert!(rt; makes(&rt, alloc, record.as_slice(), Status::Done, &wanted)?);
    Ok(())
}

// The words of a header with a window of one data packet.
fn one_behind() -> [u32; 85] {
    let mut header = routed();
    header[DATA_WINDOW] = 1;
    header
}

// The one sample of a packet at this second, bound to a context: with the number lost before it, and
// its picoseconds since 1970.
fn bound_one(second: u32, lost: u32, picos: [u32; 2], context: &[u32; 27]) -> [u32; 34] {
    let mut words = [0; 34];
    words[..14].copy_from_slice(&[
        1, 0x80, 1, 9, lost, second, 0, 0, 0, 1, 0, 0x5C, picos[0], picos[1],
    ]);
    words[14..33].copy_from_slice(&context[8..]);
    words[33] = 0x0001_0002;
    words
}

#[test]
fn fifteen_lost_in_a_row_are_told(rt: HostRuntime) -> Result<(), Fail> {
    let alloc = rt.alloc();
    // Of packets that are sent a second apart the numbers 0, 17 and 16 arrive.
    let before = context(START - 1, 0);
    let frames: [&[u32]; 5] = [
        &before,
        &data(START, 0),
        &data(START + 17, 1),
        &data(START + 16, 0),
        &context(START + 100, 1),
    ];
    let counts = Counts {
        frames: 5,
        bound: 3,
        ..NONE
    };
    let releases: [&[u32]; 4] = [
        &bound_one(START, 0, [0x283D_4103, 0x9410_0000], &before),
        &bound_one(START + 16, 15, [0x283D_4F90, 0xDE61_0000], &before),
        &bound_one(START + 17, 0, [0x283D_5079, 0xB306_1000], &before),
        &end(counts),
    ];
    assert!(rt; replays(&rt, alloc, &one_behind(), &frames, &releases)?);
    Ok(())
}

#[test]
fn a_packet_that_its_window_turns_away_is_refused(rt: HostRuntime) -> Result<(), Fail> {
    let alloc = rt.alloc();
    // The third packet releases the second, and the fourth is not above it.
    let frames: [&[u32]; 4] = [
        &data(START, 0),
        &data(START + 1, 1),
        &data(START + 2, 2),
        &data(START + 1, 3),
    ];
    let releases: [&[u32]; 5] = [
        &refused(4, 4, 0, START + 1),
        &raw(5, 0, START),
        &raw(5, 0, START + 1),
        &raw(5, 0, START + 2),
        &end_of_raw(4, 1, 3),
    ];
    assert!(rt; replays(&rt, alloc, &one_behind(), &frames, &releases)?);
    Ok(())
}

#[test]
fn a_packet_with_the_stamp_of_another_is_refused(rt: HostRuntime) -> Result<(), Fail> {
    let alloc = rt.alloc();
    for (count, refusal, detail) in [(5, 6, 3), (3, 5, 0)] {
        let packets: [&[u32]; 2] = [&data(START, 3), &data(START, count)];
        let turned = refused(2, refusal, detail, 0);
        let releases: [&[u32]; 3] = [&turned, &raw(5, 0, START), &end_of_raw(2, 1, 1)];
        assert!(rt; replays(&rt, alloc, &one_behind(), &packets, &releases)?);
    }
    Ok(())
}

#[test]
fn a_version_goes_to_the_port_of_its_stream(rt: HostRuntime) -> Result<(), Fail> {
    let alloc = rt.alloc();
    let version = [
        0x5960_000B,
        1,
        0x006A_621E,
        0x0001_0004,
        START,
        0,
        0,
        0x8000_0002,
        0xC,
        4,
        0,
    ];
    let counts = Counts {
        frames: 1,
        versions: 1,
        ..NONE
    };
    let releases: [&[u32]; 3] = [&[6, 48, 9], &version, &end(counts)];
    assert!(rt; replays(&rt, alloc, &routed(), &[&version], &releases)?);
    Ok(())
}

// The words of a header of form 2 with the ports 9 and 7 for stream 1.
fn two_ports() -> [u32; 87] {
    let mut words = [0; 87];
    words[..83].copy_from_slice(&second_form());
    words[83..].copy_from_slice(&[1, 0x0002_0009, 0x0007_0000, 0]);
    words
}

#[test]
fn a_run_goes_to_each_port_of_its_route(rt: HostRuntime) -> Result<(), Fail> {
    let alloc = rt.alloc();
    let record = gap_record(alloc, &two_ports(), &third_context())?;
    let nine = raw_at_half(2, 1, START + 1);
    let mut seven = nine;
    seven[3] = 7;
    let wanted: [&[u32]; 3] = [&nine, &seven, &end_of_raw(4, 0, 1)];
    assert!(rt; makes(&rt, alloc, record.as_slice(), Status::Done, &wanted)?);
    Ok(())
}

#[test]
fn a_migrated_record_has_the_same_releases(rt: HostRuntime) -> Result<(), Fail> {
    let alloc = rt.alloc();
    let record = gap_record(alloc, &routed(), &third_context())?;
    let migrated = run_line(&rt, alloc, &["migrate"], record.as_slice(), 4096, &[], &[])?;
    let one: [&[u32]; 2] = [&raw_at_half(2, 1, START + 1), &end_of_raw(4, 0, 1)];
    assert!(rt; makes(&rt, alloc, migrated.text.as_slice(), Status::Done, &one)?);
    Ok(())
}
