//! Where datagrams are refused.

use crate::records::{header, run};
use difi_cmd::Status;
use std::alloc::Global;
use std::test::Fail;
use std::thread::Threads;
use test_records::{BASE, datagram, push_frame};

// What `check` writes of a record of one frame with the base context, of which some words are
// others.
fn check_changed<R: Threads + Sync>(
    rt: &R,
    alloc: Global,
    changes: &[(usize, u32)],
) -> Result<Vec<u8>, Fail> {
    let mut words = BASE;
    for (index, word) in changes {
        if *index < 27 {
            words[*index] = *word;
        }
    }
    let bytes = datagram(alloc, &words)?;
    check_bytes(rt, alloc, bytes.as_slice())
}

// What `check` writes of a record of one frame.
fn check_bytes<R: Threads + Sync>(rt: &R, alloc: Global, bytes: &[u8]) -> Result<Vec<u8>, Fail> {
    let mut record = header(alloc)?;
    push_frame(&mut record, bytes)?;
    let outcome = run(rt, alloc, record.as_slice())?;
    if outcome.status != Status::Done {
        return Err(Fail::from("not done"));
    }
    Ok(outcome.text)
}

const ACCEPTED: &str = "frame 1 ok context stream 00000001\nframes 1 ok 1 refused 0\n";

fn refused(alloc: Global, word: u32) -> Result<String, Fail> {
    Ok(format!(in alloc; "frame 1 refused at word {word}\nframes 1 ok 0 refused 1\n")?)
}

#[test]
fn a_size_of_26_words_is_refused_at_word_0(rt: HostRuntime) -> Result<(), Fail> {
    let text = check_changed(&rt, rt.alloc(), &[(0, 0x4960_001A)])?;
    assert_eq!(rt; text.as_slice(), refused(rt.alloc(), 0)?.as_bytes());
    Ok(())
}

#[test]
fn a_fraction_is_below_a_second(rt: HostRuntime) -> Result<(), Fail> {
    let text = check_changed(&rt, rt.alloc(), &[(5, 232), (6, 3_567_587_328)])?;
    assert_eq!(rt; text.as_slice(), refused(rt.alloc(), 6)?.as_bytes());
    let text = check_changed(&rt, rt.alloc(), &[(5, 232), (6, 3_567_587_327)])?;
    assert_eq!(rt; text.as_slice(), ACCEPTED.as_bytes());
    let text = check_changed(&rt, rt.alloc(), &[(5, 233), (6, 0)])?;
    assert_eq!(rt; text.as_slice(), refused(rt.alloc(), 5)?.as_bytes());
    Ok(())
}

#[test]
fn a_cut_packet_is_refused_where_it_ends_and_a_longer_one_behind_it(
    rt: HostRuntime,
) -> Result<(), Fail> {
    let mut bytes = datagram(rt.alloc(), &BASE)?;
    bytes.extend_from_slice(&[0; 4])?;
    let text = check_bytes(&rt, rt.alloc(), bytes.as_slice())?;
    assert_eq!(rt; text.as_slice(), refused(rt.alloc(), 27)?.as_bytes());
    bytes.truncate(107);
    let text = check_bytes(&rt, rt.alloc(), bytes.as_slice())?;
    assert_eq!(rt; text.as_slice(), refused(rt.alloc(), 26)?.as_bytes());
    let text = check_bytes(&rt, rt.alloc(), &[])?;
    assert_eq!(rt; text.as_slice(), refused(rt.alloc(), 0)?.as_bytes());
    Ok(())
}

#[test]
fn eight_bits_are_packed_in_any_way_and_three_bits_refused(rt: HostRuntime) -> Result<(), Fail> {
    let text = check_changed(&rt, rt.alloc(), &[(25, 0xA000_01C7)])?;
    assert_eq!(rt; text.as_slice(), ACCEPTED.as_bytes());
    let text = check_changed(&rt, rt.alloc(), &[(25, 0x2000_01C7)])?;
    assert_eq!(rt; text.as_slice(), ACCEPTED.as_bytes());
    let text = check_changed(&rt, rt.alloc(), &[(25, 0xA000_0082)])?;
    assert_eq!(rt; text.as_slice(), refused(rt.alloc(), 25)?.as_bytes());
    Ok(())
}

// A data packet of one sample, at the base context's stamp.
const DATA: [u32; 8] = [
    0x1860_0008,
    0x0000_0001,
    0x006A_621E,
    0x0000_0000,
    0x6553_F100,
    0x0000_0000,
    0x0000_0000,
    0x0001_0002,
];

// A version packet.
const VERSION: [u32; 11] = [
    0x5960_000B,
    0x0000_0001,
    0x006A_621E,
    0x0001_0004,
    0x6553_F100,
    0x0000_0000,
    0x0000_0000,
    0x8000_0002,
    0x0000_000C,
    0x0000_0004,
    0x0000_0000,
];

// What `check` writes of a record of one frame with a data packet whose first word is another.
fn check_first<R: Threads + Sync>(rt: &R, alloc: Global, first: u32) -> Result<Vec<u8>, Fail> {
    let mut words = DATA;
    words[0] = first;
    let bytes = datagram(alloc, &words)?;
    check_bytes(rt, alloc, bytes.as_slice())
}

#[test]
fn a_data_packet_is_accepted(rt: HostRuntime) -> Result<(), Fail> {
    let text = check_first(&rt, rt.alloc(), 0x1860_0008)?;
    let wanted = "frame 1 ok data stream 00000001\nframes 1 ok 1 refused 0\n";
    assert_eq!(rt; text.as_slice(), wanted.as_bytes());
    Ok(())
}

#[test]
fn a_data_packet_has_header_bit_26_clear_and_at_least_8_words(rt: HostRuntime) -> Result<(), Fail> {
    let text = check_first(&rt, rt.alloc(), 0x1C60_0008)?;
    assert_eq!(rt; text.as_slice(), refused(rt.alloc(), 0)?.as_bytes());
    let text = check_first(&rt, rt.alloc(), 0x1860_0007)?;
    assert_eq!(rt; text.as_slice(), refused(rt.alloc(), 0)?.as_bytes());
    Ok(())
}

#[test]
fn a_longer_data_packet_is_refused_where_the_words_end(rt: HostRuntime) -> Result<(), Fail> {
    let text = check_first(&rt, rt.alloc(), 0x1860_0009)?;
    assert_eq!(rt; text.as_slice(), refused(rt.alloc(), 8)?.as_bytes());
    Ok(())
}

#[test]
fn a_version_packet_names_the_three_fields(rt: HostRuntime) -> Result<(), Fail> {
    let mut words = VERSION;
    let bytes = datagram(rt.alloc(), &words)?;
    let text = check_bytes(&rt, rt.alloc(), bytes.as_slice())?;
    let wanted = "frame 1 ok version stream 00000001\nframes 1 ok 1 refused 0\n";
    assert_eq!(rt; text.as_slice(), wanted.as_bytes());
    words[8] = 0x0000_000D;
    let bytes = datagram(rt.alloc(), &words)?;
    let text = check_bytes(&rt, rt.alloc(), bytes.as_slice())?;
    assert_eq!(rt; text.as_slice(), refused(rt.alloc(), 8)?.as_bytes());
    Ok(())
}

#[test]
fn a_header_of_no_kind_is_refused_at_word_0(rt: HostRuntime) -> Result<(), Fail> {
    let text = check_first(&rt, rt.alloc(), 0x6A00_000A)?;
    assert_eq!(rt; text.as_slice(), refused(rt.alloc(), 0)?.as_bytes());
    Ok(())
}
