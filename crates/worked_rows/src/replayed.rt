//! What `replay` writes of samples, by the contexts that came.

use crate::releases::{
    Counts, HALF, NONE, START, context, data, data_at_half, end, end_of_raw, gap_record, makes,
    raw, raw_at_half, replays, third_context,
};
use difi_cmd::Status;
use std::alloc::Global;
use std::test::Fail;
use std::thread::Threads;
use test_records::{BASE, HEADER, routed};

// Where the words of a header have the contexts kept, and the packets that may wait.
const KEPT: usize = 7;

const WAITING: usize = 8;

#[test]
fn contexts_alone_release_nothing(rt: HostRuntime) -> Result<(), Fail> {
    let alloc = rt.alloc();
    assert!(rt; replays(&rt, alloc, &HEADER, &[], &[&end(NONE)])?);
    assert!(rt; replays(&rt, alloc, &routed(), &[&BASE], &[&end_of_raw(1, 0, 0)])?);
    Ok(())
}

// Whether the sample half a second behind the second of three contexts leaves as this, where the third
// has these words.
fn leaves_behind<R: Threads + Sync>(
    rt: &R,
    alloc: Global,
    third: &[u32],
    releases: &[&[u32]],
) -> Result<bool, Fail> {
    let record = gap_record(alloc, &routed(), third)?;
    makes(rt, alloc, record.as_slice(), Status::Done, releases)
}

#[test]
fn a_lost_context_makes_samples_uncertain(rt: HostRuntime) -> Result<(), Fail> {
    let alloc = rt.alloc();
    let lost: [&[u32]; 2] = [&raw_at_half(2, 1, START + 1), &end_of_raw(4, 0, 1)];
    // One was lost, and the third says that something changed.
    let mut third = third_context();
    assert!(rt; leaves_behind(&rt, alloc, &third, &lost)?);
    // The third says that nothing changed, and has another gain.
    third[7] = 0x7BB9_8000;
    third[18] = 0x600;
    assert!(rt; leaves_behind(&rt, alloc, &third, &lost)?);
    // Nothing changed, and two were lost.
    let mut fourth = context(START + 3, 4);
    fourth[7] = 0x7BB9_8000;
    let two: [&[u32]; 2] = [&raw_at_half(2, 2, START + 1), &end_of_raw(4, 0, 1)];
    assert!(rt; leaves_behind(&rt, alloc, &fourth, &two)?);
    Ok(())
}

#[test]
fn a_lost_context_that_changed_nothing_is_healed(rt: HostRuntime) -> Result<(), Fail> {
    let alloc = rt.alloc();
    let mut third = third_context();
    third[7] = 0x7BB9_8000;
    let mut bound = [0; 34];
    bound[..14].copy_from_slice(&[
        1,
        0x80,
        1,
        9,
        0,
        START + 1,
        HALF[0],
        HALF[1],
        0,
        1,
        0,
        0x5C,
        0x283D_4260,
        0xD307_9800,
    ]);
    bound[14..33].copy_from_slice(&BASE[8..]);
    bound[33] = 0x0001_0002;
    let counts = Counts {
        frames: 4,
        bound: 1,
        ..NONE
    };
    assert!(rt; leaves_behind(&rt, alloc, &third, &[&bound, &end(counts)])?);
    Ok(())
}

#[test]
fn samples_wait_and_leave_with_the_reason(rt: HostRuntime) -> Result<(), Fail> {
    let alloc = rt.alloc();
    // Two packets may wait: the first leaves as the third comes, the others at the end.
    let mut header = routed();
    header[WAITING] = 2;
    let frames: [&[u32]; 4] = [
        &BASE,
        &data(START, 0),
        &data(START + 1, 1),
        &data(START + 2, 2),
    ];
    let releases: [&[u32]; 4] = [
        &raw(3, 0, START),
        &raw(5, 0, START + 1),
        &raw(5, 0, START + 2),
        &end_of_raw(4, 0, 3),
    ];
    assert!(rt; replays(&rt, alloc, &header, &frames, &releases)?);
    Ok(())
}

#[test]
fn samples_before_all_kept_contexts_are_uncertain(rt: HostRuntime) -> Result<(), Fail> {
    let alloc = rt.alloc();
    // Two contexts are kept, and the first of three was.
    let mut header = routed();
    header[KEPT] = 2;
    let frames: [&[u32]; 4] = [
        &context(START, 0),
        &context(START + 1, 1),
        &context(START + 2, 2),
        &data_at_half(START, 0),
    ];
    let releases: [&[u32]; 2] = [&raw_at_half(4, 0, START), &end_of_raw(4, 0, 1)];
    assert!(rt; replays(&rt, alloc, &header, &frames, &releases)?);
    Ok(())
}

#[test]
fn samples_before_the_first_context_are_uncertain(rt: HostRuntime) -> Result<(), Fail> {
    let alloc = rt.alloc();
    let early = data(START - 1, 0);
    let frames: [&[u32]; 3] = [&early, &context(START, 0), &context(START + 1, 1)];
    let releases: [&[u32]; 2] = [&raw(1, 0, START - 1), &end_of_raw(3, 0, 1)];
    assert!(rt; replays(&rt, alloc, &routed(), &frames, &releases)?);
    // The record ends without a context.
    let ended: [&[u32]; 2] = [&raw(5, 0, START - 1), &end_of_raw(1, 0, 1)];
    assert!(rt; replays(&rt, alloc, &routed(), &[&early], &ended)?);
    Ok(())
}
