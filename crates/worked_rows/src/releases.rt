//! Records of contexts and data packets, and the releases that `replay` makes of them.

use crate::records::writes;
use difi_cmd::Status;
use std::alloc::Global;
use std::test::Fail;
use std::thread::Threads;
use test_records::{BASE, push_frame, push_words};

/// The second of the first context.
pub const START: u32 = 0x6553_F100;

/// The picoseconds of half a second.
pub const HALF: [u32; 2] = [0x74, 0x6A52_8800];

/// A context of stream 1 with this count.
pub fn context(second: u32, count: u32) -> [u32; 27] {
    let mut words = BASE;
    words[0] = 0x4960_001B | count << 16;
    words[4] = second;
    words
}

/// A data packet of one sample, of stream 1, with this count.
pub fn data(second: u32, count: u32) -> [u32; 8] {
    let first = 0x1860_0008 | count << 16;
    [first, 1, 0x006A_621E, 0, second, 0, 0, 0x0001_0002]
}

/// A data packet of one sample, half a second after this second.
pub fn data_at_half(second: u32, count: u32) -> [u32; 8] {
    let first = 0x1860_0008 | count << 16;
    [
        first,
        1,
        0x006A_621E,
        0,
        second,
        HALF[0],
        HALF[1],
        0x0001_0002,
    ]
}

/// The release of such a packet as a whole, at port 9, with the number and the detail of the reason.
pub fn raw(reason: u32, detail: u32, second: u32) -> [u32; 12] {
    [3, 40, 1, 9, 0, reason, detail, second, 0, 0, 0, 0x0001_0002]
}

/// The release of such a packet as a whole, half a second after this second.
pub fn raw_at_half(reason: u32, detail: u32, second: u32) -> [u32; 12] {
    [
        3,
        40,
        1,
        9,
        0,
        reason,
        detail,
        second,
        HALF[0],
        HALF[1],
        0,
        0x0001_0002,
    ]
}

/// The refusal of a frame that came on port 5. The last second that was released is 0 but for a packet
/// that is late.
pub fn refused(frame: u32, refusal: u32, detail: u32, released: u32) -> [u32; 10] {
    [5, 32, 0, frame, 5, refusal, detail, released, 0, 0]
}

/// What was counted.
#[derive(Clone, Copy)]
pub struct Counts {
    pub frames: u32,
    pub bound: u32,
    pub uncertain: u32,
    pub raw: u32,
    pub refused: u32,
    pub versions: u32,
}

/// Nothing.
pub const NONE: Counts = Counts {
    frames: 0,
    bound: 0,
    uncertain: 0,
    raw: 0,
    refused: 0,
    versions: 0,
};

/// The last release of a record.
pub fn end(counts: Counts) -> [u32; 16] {
    [
        7,
        56,
        0,
        counts.frames,
        0,
        counts.bound,
        0,
        counts.uncertain,
        0,
        counts.raw,
        0,
        counts.refused,
        0,
        0,
        0,
        counts.versions,
    ]
}

/// The End record of so many frames, of which so many are refused, and so many raw packets.
pub fn end_of_raw(frames: u32, refused: u32, raw: u32) -> [u32; 16] {
    end(Counts {
        frames,
        raw,
        refused,
        ..NONE
    })
}

/// A record: a header, and datagrams of these words.
pub fn record_of(alloc: Global, header: &[u32], datagrams: &[&[u32]]) -> Result<Vec<u8>, Fail> {
    let mut record = Vec::new(alloc);
    push_words(&mut record, header)?;
    for words in datagrams {
        let mut bytes = Vec::new(alloc);
        push_words(&mut bytes, words)?;
        push_frame(&mut record, bytes.as_slice())?;
    }
    Ok(record)
}

/// A record of three contexts, of which the third comes two seconds behind the second, and a sample half
/// a second behind the second.
pub fn gap_record(alloc: Global, header: &[u32], third: &[u32]) -> Result<Vec<u8>, Fail> {
    let first = context(START, 0);
    let second = context(START + 1, 1);
    let sample = data_at_half(START + 1, 0);
    record_of(alloc, header, &[&first, &second, third, &sample])
}

/// The third of the contexts, where the one in front of it was lost.
pub fn third_context() -> [u32; 27] {
    context(START + 3, 3)
}

/// The bytes of these releases.
pub fn bytes_of(alloc: Global, releases: &[&[u32]]) -> Result<Vec<u8>, Fail> {
    let mut bytes = Vec::new(alloc);
    for words in releases {
        push_words(&mut bytes, words)?;
    }
    Ok(bytes)
}

/// Whether `replay` of these bytes ends so and writes these releases, however reads and writes are cut.
pub fn makes<R: Threads + Sync>(
    rt: &R,
    alloc: Global,
    record: &[u8],
    status: Status,
    releases: &[&[u32]],
) -> Result<bool, Fail> {
    let wanted = bytes_of(alloc, releases)?;
    writes(rt, alloc, &["replay"], record, status, wanted.as_slice())
}

/// Whether `replay` of a header and these datagrams writes these releases.
pub fn replays<R: Threads + Sync>(
    rt: &R,
    alloc: Global,
    header: &[u32],
    datagrams: &[&[u32]],
    releases: &[&[u32]],
) -> Result<bool, Fail> {
    let record = record_of(alloc, header, datagrams)?;
    makes(rt, alloc, record.as_slice(), Status::Done, releases)
}
