ghost use Rattle.std.specs.Prelude.{◌≡◌, ◌+◌, ◌≤◌, ◌<◌, ◌^◌, length, true};
ghost use Rattle.pcap_frames.specs.Reading.{IsRecordIn};

use super::*;
use std::alloc::Global;
use std::test::Fail;
use test_records::{BASE, routed};
use vrt_words::put_words;

// The words of a file's head, in which the lowest byte of a number comes first, and of a record's
// head: 150 bytes captured at 0x6553F100 seconds and five microseconds.
const FILE: [u32; 6] = [0xD4C3_B2A1, 0x0200_0400, 0, 0, 0x0000_0400, 0x0100_0000];

const RECORD: [u32; 4] = [0x00F1_5365, 0x0500_0000, 0x9600_0000, 0x9600_0000];

// A frame with a datagram from port 5 to port 4991, which carries a context packet of 108 bytes.
fn frame() -> [u8; 150] {
    let mut packet = [0; 108];
    put_words(&mut packet, 0, &BASE);
    let mut bytes = [0; 150];
    let head = [
        0x0800_4500,
        0x0088_0000,
        0x0000_4011,
        0x0000_7F00,
        0x0001_7F00,
        0x0001_0005,
        0x137F_0074,
    ];
    put_words(&mut bytes, 3, &head);
    bytes[42..].copy_from_slice(&packet);
    bytes
}

// The header of a record, the head of a file, and one record.
fn capture() -> [u8; 530] {
    let mut bytes = [0; 530];
    put_words(&mut bytes, 0, &routed());
    put_words(&mut bytes, 85, &FILE);
    put_words(&mut bytes, 91, &RECORD);
    bytes[380..].copy_from_slice(&frame());
    bytes
}

// The capture with these words from an index on.
fn changed(index: usize, words: &[u32]) -> [u8; 530]
    requires { index + length words.now ≤ 132 }
{
    let mut bytes = capture();
    put_words(&mut bytes, index, words);
    bytes
}

// The capture with one word changed, if there is a place for it.
fn with_word(index: usize, word: u32) -> [u8; 530] {
    let mut bytes = capture();
    if index < 132 {
        put_words(&mut bytes, index, &[word]);
    }
    bytes
}

fn bad(offset: u64) -> Result<(), RecordFault> {
    Err(RecordFault { offset })
}

// What a reader told: what was captured, record behind record, and each event with the number of
// bytes that were taken.
#[derive(Drop)]
struct Told {
    captured: Vec<u8>,
    events: Vec<(usize, CaptureEvent)>,
}

fn nothing_told(alloc: Global) -> Told {
    Told {
        captured: Vec::new(alloc),
        events: Vec::new(alloc),
    }
}

// Puts the bytes of the record that is whole, if one is, behind those of the records before, and
// answers its seconds and picoseconds as a sum.
fn put_record(reader: &CaptureReader, taken: &[u8], captured: &mut Vec<u8>) -> Result<u64, NoMemory>
    requires { reader.now.whole ≡ true → IsRecordIn reader.now taken.now }
{
    match reader.record(taken) {
        Some((stamp, bytes)) => match captured.extend_from_slice(bytes) {
            Ok(()) => Ok(u64::from(stamp.seconds()).wrapping_add(stamp.picos())),
            Err(_) => Err(NoMemory),
        },
        None => Ok(0),
    }
}

// Where the piece ends that begins here: the first one has another size.
fn end_of(at: usize, first: usize, piece: usize) -> usize
    requires here { at < 2 ^ 32 }
    requires some { 1 ≤ piece }
    requires few { piece < 2 ^ 32 }
    ensures { at < result }
{
    if at < first { first } else { at + piece }
}

// The sum of all times, and the verdict, where the bytes come in pieces of this size, behind a
// first one. What is told is put behind what was.
fn verdict_behind(
    alloc: Global,
    bytes: &[u8],
    first: usize,
    piece: usize,
    all: &mut Told,
) -> Result<(u64, Result<(), RecordFault>), NoMemory>
    requires some { 1 ≤ piece }
    requires few { piece < 2 ^ 32 }
    requires small { length bytes.now < 2 ^ 32 }
{
    let mut reader = CaptureReader::open(alloc)?;
    let mut told: u64 = 0;
    let mut at = 0;
    while at < bytes.len() {
        let end = bytes.len().min(end_of(at, first, piece));
        let part = &bytes[at..end];
        let (count, event) = match reader.feed(part) {
            Ok(step) => step,
            Err(fault) => return Ok((told, Err(fault))),
        };
        let time = put_record(&reader, &part[..count], &mut all.captured)?;
        all.events.push((count, event)).map_err(|_| NoMemory)?;
        told = told.wrapping_add(time);
        at += count;
    }
    Ok((told, reader.finish()))
}

// The sum of all times, and the verdict, where all pieces have this size.
fn verdict(
    alloc: Global,
    bytes: &[u8],
    piece: usize,
) -> Result<(u64, Result<(), RecordFault>), NoMemory>
    requires some { 1 ≤ piece }
    requires few { piece < 2 ^ 32 }
    requires small { length bytes.now < 2 ^ 32 }
{
    verdict_behind(alloc, bytes, 0, piece, &mut nothing_told(alloc))
}

// The verdict in one piece.
fn whole_verdict(alloc: Global, bytes: &[u8]) -> Result<(u64, Result<(), RecordFault>), NoMemory>
    requires { length bytes.now < 2 ^ 32 }
{
    verdict(alloc, bytes, 4_096)
}

// The verdict on the first bytes alone.
fn front_verdict(
    alloc: Global,
    bytes: &[u8],
    len: usize,
) -> Result<(u64, Result<(), RecordFault>), NoMemory>
    requires { length bytes.now < 2 ^ 32 }
{
    verdict(alloc, &bytes[..len.min(bytes.len())], 4_096)
}

// 0x6553F100 seconds and 5,000,000 picoseconds.
const TIME: u64 = 0x6553_F100 + 5_000_000;

#[test]
fn a_capture_is_read_in_any_pieces(rt: HostRuntime) -> Result<(), Fail> {
    let alloc = rt.alloc();
    let bytes = capture();
    assert!(rt; verdict(alloc, &bytes, 1).ok() == Some((TIME, Ok(()))));
    assert!(rt; verdict(alloc, &bytes, 7).ok() == Some((TIME, Ok(()))));
    assert!(rt; verdict(alloc, &bytes, 4_096).ok() == Some((TIME, Ok(()))));
    Ok(())
}

#[test]
fn a_record_is_lent_as_it_stands_wherever_it_is_cut(rt: HostRuntime) -> Result<(), Fail> {
    let alloc = rt.alloc();
    let bytes = capture();
    for cut in 0..=bytes.len() {
        let mut all = nothing_told(alloc);
        let told = verdict_behind(alloc, &bytes, cut, 4_096, &mut all);
        assert!(rt; told.ok() == Some((TIME, Ok(()))));
        assert!(rt; all.captured.as_slice() == &bytes[380..]);
    }
    Ok(())
}

#[test]
fn each_event_comes_in_its_turn(rt: HostRuntime) -> Result<(), Fail> {
    let alloc = rt.alloc();
    let mut all = nothing_told(alloc);
    // The first piece ends inside the record.
    let told = verdict_behind(alloc, &capture(), 400, 4_096, &mut all);
    assert!(rt; told.ok() == Some((TIME, Ok(()))));
    let events = [
        (340, CaptureEvent::Head),
        (24, CaptureEvent::File),
        (36, CaptureEvent::More),
        (130, CaptureEvent::Record),
    ];
    assert!(rt; all.events.as_slice() == events.as_slice());
    Ok(())
}

#[test]
fn a_header_is_told(rt: HostRuntime) -> Result<(), Fail> {
    let mut reader = CaptureReader::open(rt.alloc())?;
    assert!(rt; reader.head().is_none());
    assert!(rt; reader.record(&[]).is_none());
    assert!(rt; reader.feed(&capture()) == Ok((340, CaptureEvent::Head)));
    assert_eq!(rt; reader.head().ok_or("no header")?.max_words, 400);
    Ok(())
}

#[test]
fn a_fault_has_the_offset_of_its_field(rt: HostRuntime) -> Result<(), Fail> {
    let alloc = rt.alloc();
    // Words that are wrong, from an index on, and the offset of the first field that is.
    let faults: [(usize, u32, u64); 14] = [
        (0, 0x4449_4648, 0),
        (85, 0xD4C3_B2A2, 340),
        (85, 0x0A0D_0D0A, 340),
        // Version 3.4, 2.3, and 2.4 in the other order.
        (86, 0x0300_0400, 344),
        (86, 0x0200_0300, 346),
        (86, 0x0002_0004, 344),
        // No link, and that of raw IP.
        (90, 0, 360),
        (90, 0x6500_0000, 360),
        (90, 0x0000_0001, 360),
        // One second of microseconds, and the greatest number.
        (92, 0x4042_0F00, 368),
        (92, 0xFFFF_FFFF, 368),
        // 262,145 bytes, and the greatest number.
        (93, 0x0100_0400, 372),
        (93, 0xFFFF_FFFF, 372),
        (93, 0x0000_0001, 372),
    ];
    for (index, word, offset) in faults {
        let bytes = with_word(index, word);
        assert!(rt; whole_verdict(alloc, &bytes).ok() == Some((0, bad(offset))));
        assert!(rt; verdict(alloc, &bytes, 1).ok() == Some((0, bad(offset))));
    }
    Ok(())
}

#[test]
fn free_fields_have_any_value(rt: HostRuntime) -> Result<(), Fail> {
    let alloc = rt.alloc();
    for index in [87, 88, 89, 94] {
        let bytes = with_word(index, 0xFFFF_FFFF);
        assert!(rt; whole_verdict(alloc, &bytes).ok() == Some((TIME, Ok(()))));
    }
    // 999,999 microseconds.
    let told = whole_verdict(alloc, &changed(92, &[0x3F42_0F00]));
    assert!(rt; told.ok() == Some((999_999_000_000 + 0x6553_F100, Ok(()))));
    // 262,144 bytes, of which 150 are there.
    assert!(rt; whole_verdict(alloc, &changed(93, &[0x0000_0400])).ok() == Some((0, bad(530))));
    Ok(())
}

// The capture with a second record of no bytes, and this word as its fraction.
fn followed(fraction: u32) -> [u8; 546] {
    let mut head = [0; 16];
    put_words(&mut head, 1, &[fraction]);
    let mut bytes = [0; 546];
    bytes[..530].copy_from_slice(&capture());
    bytes[530..].copy_from_slice(&head);
    bytes
}

#[test]
fn a_second_record_is_judged_behind_the_first(rt: HostRuntime) -> Result<(), Fail> {
    let alloc = rt.alloc();
    // No microsecond; then a second of microseconds.
    assert!(rt; whole_verdict(alloc, &followed(0)).ok() == Some((TIME, Ok(()))));
    let bytes = followed(0x4042_0F00);
    assert!(rt; whole_verdict(alloc, &bytes).ok() == Some((TIME, bad(534))));
    assert!(rt; verdict(alloc, &bytes, 7).ok() == Some((TIME, bad(534))));
    Ok(())
}

#[test]
fn an_early_end_has_the_number_of_bytes(rt: HostRuntime) -> Result<(), Fail> {
    let alloc = rt.alloc();
    let bytes = capture();
    // Inside the header, in front of the head of the file, inside it, and inside a record.
    for len in [0, 100, 339, 340, 350, 363, 365, 379, 380, 529] {
        assert!(rt; front_verdict(alloc, &bytes, len).ok() == Some((0, bad(len as u64))));
    }
    // Behind the head of the file.
    assert!(rt; front_verdict(alloc, &bytes, 364).ok() == Some((0, Ok(()))));
    Ok(())
}

#[test]
fn each_magic_number_has_its_form(rt: HostRuntime) -> Result<(), Fail> {
    let alloc = rt.alloc();
    // Nanoseconds, lowest byte first: 999,999,999 and one more.
    let mut bytes = changed(85, &[0x4D3C_B2A1]);
    put_words(&mut bytes, 92, &[0xFFC9_9A3B]);
    assert!(rt; whole_verdict(alloc, &bytes).ok() == Some((999_999_999_000 + 0x6553_F100, Ok(()))));
    put_words(&mut bytes, 92, &[0x00CA_9A3B]);
    assert!(rt; whole_verdict(alloc, &bytes).ok() == Some((0, bad(368))));
    // Microseconds, highest byte first.
    let mut bytes = changed(85, &[0xA1B2_C3D4, 0x0002_0004, 0, 0, 0, 1]);
    put_words(&mut bytes, 91, &[0x6553_F100, 5, 150, 150]);
    assert!(rt; whole_verdict(alloc, &bytes).ok() == Some((TIME, Ok(()))));
    put_words(&mut bytes, 92, &[1_000_000]);
    assert!(rt; whole_verdict(alloc, &bytes).ok() == Some((0, bad(368))));
    // Nanoseconds, highest byte first.
    put_words(&mut bytes, 85, &[0xA1B2_3C4D]);
    assert!(rt; whole_verdict(alloc, &bytes).ok() == Some((1_000_000_000 + 0x6553_F100, Ok(()))));
    put_words(&mut bytes, 92, &[1_000_000_000]);
    assert!(rt; whole_verdict(alloc, &bytes).ok() == Some((0, bad(368))));
    Ok(())
}

// The capture up to the captured bytes, of which there are as many as there may be.
fn longest_head() -> [u8; 380] {
    let mut bytes = [0; 380];
    put_words(&mut bytes, 0, &routed());
    put_words(&mut bytes, 85, &FILE);
    put_words(&mut bytes, 91, &RECORD);
    put_words(&mut bytes, 93, &[0x0000_0400]);
    bytes
}

#[test]
fn the_longest_record_is_read(rt: HostRuntime) -> Result<(), Fail> {
    let alloc = rt.alloc();
    let mut bytes = Vec::new(alloc);
    bytes.extend_from_slice(&longest_head())?;
    for _ in 0..64 {
        bytes.extend_from_slice(&[0; 4_096])?;
    }
    if bytes.len() > 300_000 {
        return Err(Fail::from("too long"));
    }
    let mut all = nothing_told(alloc);
    let told = verdict_behind(alloc, &bytes, 0, 4_096, &mut all);
    assert!(rt; told.ok() == Some((TIME, Ok(()))));
    assert_eq!(rt; all.captured.len(), 262_144);
    Ok(())
}

#[test]
fn a_fault_stays(rt: HostRuntime) -> Result<(), Fail> {
    let mut reader = CaptureReader::open(rt.alloc())?;
    assert!(rt; reader.feed(b"DIFIREC3") == Err(RecordFault { offset: 0 }));
    assert!(rt; reader.feed(b"more") == Err(RecordFault { offset: 0 }));
    assert!(rt; reader.finish() == bad(0));
    assert!(rt; reader.record(&[]).is_none());
    assert!(rt; reader.head().is_none());
    Ok(())
}

// The form of a file: whether the highest byte comes first, and whether times are nanoseconds.
fn form_of(big: bool, nanos: bool) -> FileForm {
    FileForm { big, nanos }
}

#[test]
fn a_file_is_written(rt: HostRuntime) -> Result<(), Fail> {
    let mut wanted = [7; 25];
    let mut bytes = [7; 25];
    // The lowest byte first, microseconds; then the highest, nanoseconds.
    put_words(&mut wanted, 0, &FILE);
    encode_file_head(form_of(false, false), &mut bytes);
    assert!(rt; bytes == wanted);
    put_words(
        &mut wanted,
        0,
        &[0xA1B2_3C4D, 0x0002_0004, 0, 0, 0x0004_0000, 1],
    );
    encode_file_head(form_of(true, true), &mut bytes);
    assert!(rt; bytes == wanted);
    put_words(&mut wanted, 0, &[0xA1B2_C3D4]);
    encode_file_head(form_of(true, false), &mut bytes);
    assert!(rt; bytes == wanted);
    put_words(
        &mut wanted,
        0,
        &[0x4D3C_B2A1, 0x0200_0400, 0, 0, 0x0000_0400, 0x0100_0000],
    );
    encode_file_head(form_of(false, true), &mut bytes);
    assert!(rt; bytes == wanted);
    Ok(())
}

#[test]
fn a_record_is_written(rt: HostRuntime) -> Result<(), Fail> {
    let mut bytes = [7; 20];
    let mut wanted = [7; 20];
    // 0x6553F100 seconds and 5,000 nanoseconds.
    let time = Stamp::of_picos(0x6553_F100, 5_000_000).ok_or("stamp")?;
    let micros = FileForm {
        big: false,
        nanos: false,
    };
    assert_eq!(rt; encode_capture(micros, time, b"abc", &mut bytes), 19);
    put_words(
        &mut wanted,
        0,
        &[
            0x00F1_5365,
            0x0500_0000,
            0x0300_0000,
            0x0300_0000,
            0x6162_6307,
        ],
    );
    assert!(rt; bytes == wanted);
    let nanos = FileForm {
        big: true,
        nanos: true,
    };
    assert_eq!(rt; encode_capture(nanos, time, b"abc", &mut bytes), 19);
    put_words(&mut wanted, 0, &[0x6553_F100, 5_000, 3, 3]);
    assert!(rt; bytes == wanted);
    Ok(())
}
