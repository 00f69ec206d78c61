ghost use Rattle.std.specs.Prelude.{◌≡◌, ◌≤◌, ◌<◌, ◌^◌, length, true};
ghost use Rattle.replay_form.specs.HeadValues.{AreHeadValues};
ghost use Rattle.replay_form.specs.Reading.{IsFrameIn};

use super::*;
use std::alloc::Global;
use std::test::Fail;
use test_records::{BASE, HEADER, frame_head};
use vrt_words::{NoMemory, put_words};

// A header without routes.
fn header() -> [u8; 332] {
    let mut bytes = [0; 332];
    put_words(&mut bytes, 0, &HEADER);
    bytes
}

// A header with one route, from stream 1 to port 9.
fn routed() -> [u8; 340] {
    let mut bytes = [0; 340];
    put_words(&mut bytes, 0, &test_records::routed());
    bytes
}

// A header of form 2 with one route, from stream 1 to port 9.
fn second_form() -> [u8; 348] {
    let mut bytes = [0; 348];
    put_words(&mut bytes, 0, &test_records::second_form());
    put_words(&mut bytes, 83, &[1, 0x0001_0009, 0, 0]);
    bytes
}

// The port and the length of the frame that is whole, if one is, as a sum.
fn frame_sum(reader: &RecordReader, taken: &[u8]) -> u64
    requires { reader.now.whole ≡ true → IsFrameIn reader.now taken.now }
{
    match reader.frame(taken) {
        Some((_, port, datagram)) => u64::from(port) + datagram.len() as u64,
        None => 0,
    }
}

// Puts the bytes of that frame behind those of the frames before.
fn put_frame(reader: &RecordReader, taken: &[u8], frames: &mut Vec<u8>) -> Result<(), NoMemory>
    requires { reader.now.whole ≡ true → IsFrameIn reader.now taken.now }
{
    match reader.frame_bytes(taken) {
        Some(bytes) => frames.extend_from_slice(bytes).map_err(|_| NoMemory),
        None => Ok(()),
    }
}

// Where the piece ends that begins here: the first one has another size.
fn end_of(at: usize, first: usize, piece: usize) -> usize
    requires here { at < 2 ^ 32 }
    requires some { 1 ≤ piece }
    requires few { piece < 2 ^ 32 }
    ensures { at < result }
{
    if at < first { first } else { at + piece }
}

// The sum of the ports and the lengths of all frames, and the verdict, where the bytes come in
// pieces of this size, behind a first one. The bytes of the frames are put behind one another.
fn verdict_behind(
    alloc: Global,
    bytes: &[u8],
    first: usize,
    piece: usize,
    frames: &mut Vec<u8>,
) -> Result<(u64, Result<(), RecordFault>), NoMemory>
    requires some { 1 ≤ piece }
    requires few { piece < 2 ^ 32 }
    requires small { length bytes.now < 2 ^ 32 }
{
    let mut reader = RecordReader::open(alloc)?;
    let mut told: u64 = 0;
    let mut at = 0;
    while at < bytes.len() {
        let end = bytes.len().min(end_of(at, first, piece));
        let part = &bytes[at..end];
        let (count, _) = match reader.feed(part) {
            Ok(step) => step,
            Err(fault) => return Ok((told, Err(fault))),
        };
        told = told.wrapping_add(frame_sum(&reader, &part[..count]));
        put_frame(&reader, &part[..count], frames)?;
        at += count;
    }
    Ok((told, reader.finish()))
}

// The sum of the ports and the lengths of all frames, and the verdict, where all pieces have this
// size.
fn verdict(
    alloc: Global,
    bytes: &[u8],
    piece: usize,
) -> Result<(u64, Result<(), RecordFault>), NoMemory>
    requires some { 1 ≤ piece }
    requires few { piece < 2 ^ 32 }
    requires small { length bytes.now < 2 ^ 32 }
{
    verdict_behind(alloc, bytes, 0, piece, &mut Vec::new(alloc))
}

// The verdict in one piece.
pub(crate) fn whole_verdict(
    alloc: Global,
    bytes: &[u8],
) -> Result<(u64, Result<(), RecordFault>), NoMemory>
    requires { length bytes.now < 2 ^ 32 }
{
    verdict(alloc, bytes, 4_096)
}

// The header with one byte changed.
fn changed(at: usize, byte: u8) -> [u8; 332] {
    let mut bytes = header();
    if let Some(slot) = bytes.get_mut(at) {
        *slot = byte;
    }
    bytes
}

// The verdict on the first bytes alone.
fn front_verdict(
    alloc: Global,
    bytes: &[u8],
    len: usize,
) -> Result<(u64, Result<(), RecordFault>), NoMemory>
    requires within { len ≤ length bytes.now }
    requires small { length bytes.now < 2 ^ 32 }
{
    verdict(alloc, &bytes[..len], 4_096)
}

// A header with one route and two frames, the second of which came at this second.
fn framed(seconds: u32) -> [u8; 488] {
    let mut bytes = [0; 488];
    bytes[..340].copy_from_slice(&routed());
    put_words(&mut bytes, 85, &frame_head(0x6553_F10A, 108));
    put_words(&mut bytes, 90, &BASE);
    put_words(&mut bytes, 117, &frame_head(seconds, 0));
    bytes
}

fn bad(offset: u64) -> Result<(), RecordFault> {
    Err(RecordFault { offset })
}

#[test]
fn a_record_is_read_in_any_pieces(rt: HostRuntime) -> Result<(), Fail> {
    let alloc = rt.alloc();
    let bytes = framed(0x6553_F10A);
    assert!(rt; verdict(alloc, &bytes, 1).ok() == Some((118, Ok(()))));
    assert!(rt; verdict(alloc, &bytes, 7).ok() == Some((118, Ok(()))));
    assert!(rt; verdict(alloc, &bytes, 4_096).ok() == Some((118, Ok(()))));
    assert!(rt; whole_verdict(alloc, &header()).ok() == Some((0, Ok(()))));
    Ok(())
}

#[test]
fn a_frame_is_lent_as_it_stands_wherever_it_is_cut(rt: HostRuntime) -> Result<(), Fail> {
    let alloc = rt.alloc();
    let bytes = framed(0x6553_F10A);
    // The first frame ends at 468 bytes: up to there it is cut, and the second one stands whole.
    for cut in 0..=bytes.len() {
        let mut frames = Vec::new(alloc);
        let told = verdict_behind(alloc, &bytes, cut, 4_096, &mut frames);
        assert!(rt; told.ok() == Some((118, Ok(()))));
        assert!(rt; frames.as_slice() == &bytes[340..]);
    }
    Ok(())
}

#[test]
fn a_fault_has_the_offset_of_its_field(rt: HostRuntime) -> Result<(), Fail> {
    let alloc = rt.alloc();
    // A magic of another form, a timestamp code of 4, a cut header, and nothing.
    assert!(rt; whole_verdict(alloc, &changed(7, b'3')).ok() == Some((0, bad(0))));
    assert!(rt; whole_verdict(alloc, &changed(15, 4)).ok() == Some((0, bad(12))));
    assert!(rt; front_verdict(alloc, &header(), 100).ok() == Some((0, bad(100))));
    assert!(rt; whole_verdict(alloc, &[]).ok() == Some((0, bad(0))));
    assert!(rt; whole_verdict(alloc, b"DIFIREC2").ok() == Some((0, bad(8))));
    // A second frame that came before the first.
    assert!(rt; whole_verdict(alloc, &framed(0x6553_F100)).ok() == Some((113, bad(468))));
    // A frame with a second of picoseconds.
    let mut bytes = [0; 352];
    bytes[..340].copy_from_slice(&routed());
    put_words(&mut bytes, 85, &[0x6553_F10A, 232, 3_567_587_328]);
    assert!(rt; whole_verdict(alloc, &bytes).ok() == Some((0, bad(344))));
    // One port twice in a route of form 2.
    let mut bytes = [0; 348];
    put_words(&mut bytes, 0, &test_records::second_form());
    put_words(&mut bytes, 83, &[1, 0x0002_0009, 0x0009_0000, 0]);
    assert!(rt; verdict(alloc, &bytes, 1).ok() == Some((0, bad(340))));
    Ok(())
}

#[test]
fn each_field_of_the_header_is_judged(rt: HostRuntime) -> Result<(), Fail> {
    let alloc = rt.alloc();
    // A byte that is wrong, and the offset of its field.
    let faults: [(usize, u8, u64); 25] = [
        (0, b'd', 0),
        (8, 1, 8),
        (15, 0, 12),
        (16, 1, 16),
        (22, 0x20, 20),
        (26, 0x20, 24),
        (31, 1, 28),
        (35, 0, 32),
        (38, 2, 36),
        (43, 3, 40),
        (59, 1, 44),
        (104, 0x80, 104),
        (128, 0x40, 128),
        (135, 1, 132),
        (139, 2, 136),
        (147, 1, 140),
        (155, 1, 148),
        (163, 1, 156),
        (196, 0x80, 196),
        (211, 1, 204),
        (212, 0x80, 212),
        (295, 1, 288),
        (302, 0x80, 296),
        (303, 1, 296),
        (331, 1, 324),
    ];
    for (at, byte, offset) in faults {
        assert!(rt; whole_verdict(alloc, &changed(at, byte)).ok() == Some((0, bad(offset))));
    }
    Ok(())
}

#[test]
fn each_field_of_a_route_is_judged(rt: HostRuntime) -> Result<(), Fail> {
    let alloc = rt.alloc();
    let mut bytes = [0; 348];
    put_words(&mut bytes, 0, &HEADER);
    put_words(&mut bytes, 9, &[2]);
    // Form 1: two bytes behind a port, and a stream ID that is not above the one before.
    put_words(&mut bytes, 83, &[5, 0x0009_0001, 6, 0]);
    assert!(rt; whole_verdict(alloc, &bytes).ok() == Some((0, bad(338))));
    put_words(&mut bytes, 83, &[5, 0x0009_0000, 5, 0]);
    assert!(rt; whole_verdict(alloc, &bytes).ok() == Some((0, bad(340))));
    // Form 2: no port, five ports, and a port behind the last.
    put_words(&mut bytes, 1, &[0x5245_4332]);
    put_words(&mut bytes, 83, &[5, 0, 0, 0]);
    assert!(rt; whole_verdict(alloc, &bytes).ok() == Some((0, bad(336))));
    put_words(&mut bytes, 83, &[5, 0x0005_0001, 0x0002_0003, 0]);
    assert!(rt; whole_verdict(alloc, &bytes).ok() == Some((0, bad(336))));
    put_words(&mut bytes, 83, &[5, 0x0001_0009, 0x0007_0000, 0]);
    assert!(rt; whole_verdict(alloc, &bytes).ok() == Some((0, bad(340))));
    Ok(())
}

// The bytes of a header with one route, written into as many bytes as in form 2 and one more.
fn spelled(head: &RecordHead) -> Result<[u8; 349], Fail>
    requires { AreHeadValues head.now }
{
    if head.routes.as_slice().len() != 1 {
        return Err(Fail::from("routes"));
    }
    let mut bytes = [7; 349];
    encode_head(head, &mut bytes);
    Ok(bytes)
}

// The bytes of the header that these bytes are, written again.
fn written(alloc: Global, bytes: &[u8]) -> Result<[u8; 349], Fail>
    requires { length bytes.now < 2 ^ 32 }
{
    let mut reader = RecordReader::open(alloc)?;
    let Ok((_, Event::Head)) = reader.feed(bytes) else {
        return Err(Fail::from("no header"));
    };
    let Some(head) = reader.head() else {
        return Err(Fail::from("no header"));
    };
    spelled(head)
}

// The bytes of the same header in form 2.
fn migrated(alloc: Global, bytes: &[u8]) -> Result<[u8; 349], Fail>
    requires { length bytes.now < 2 ^ 32 }
{
    let mut reader = RecordReader::open(alloc)?;
    let Ok((_, Event::Head)) = reader.feed(bytes) else {
        return Err(Fail::from("no header"));
    };
    let Some(head) = reader.head() else {
        return Err(Fail::from("no header"));
    };
    spelled(&migrate_head(alloc, head)?)
}

#[test]
fn a_header_is_read(rt: HostRuntime) -> Result<(), Fail> {
    let mut reader = RecordReader::open(rt.alloc())?;
    assert!(rt; reader.head().is_none());
    assert!(rt; reader.feed(&routed()) == Ok((340, Event::Head)));
    let head = reader.head().ok_or("no header")?;
    assert_eq!(rt; head.form, 1);
    assert_eq!(rt; head.profile.cid(), 0x006A_621E);
    assert_eq!(rt; head.profile.tsi(), 1);
    assert_eq!(rt; head.max_words, 400);
    assert_eq!(rt; head.limits.kept, 4);
    assert_eq!(rt; head.limits.pending, 8);
    assert!(rt; head.identity == Ident::None);
    assert_eq!(rt; head.initial[11], 0x55);
    assert!(rt;
        head.bounds[5]
            == Limit {
                settable: true,
                step: 64,
                least: -2_560,
                greatest: 2_560,
            }
    );
    let route = Route {
        stream: 1,
        ports: [9, 0, 0, 0],
        number: 1,
    };
    assert!(rt; head.routes.as_slice() == [route].as_slice());
    Ok(())
}

#[test]
fn a_header_is_written_as_it_was_read(rt: HostRuntime) -> Result<(), Fail> {
    let alloc = rt.alloc();
    let first = routed();
    let again = written(alloc, &first)?;
    assert!(rt; again.starts_with(&first));
    assert_eq!(rt; again[340], 7);
    let second = second_form();
    let again = written(alloc, &second)?;
    assert!(rt; again.starts_with(&second));
    assert_eq!(rt; again[348], 7);
    Ok(())
}

#[test]
fn a_migrated_header_is_written_in_form_2(rt: HostRuntime) -> Result<(), Fail> {
    let first = routed();
    let again = migrated(rt.alloc(), &first)?;
    assert!(rt; again.starts_with(b"DIFIREC2"));
    assert!(rt; &again[8..332] == &first[8..332]);
    let route = [0, 0, 0, 1, 0, 1, 0, 9, 0, 0, 0, 0, 0, 0, 0, 0];
    assert!(rt; &again[332..348] == route.as_slice());
    assert_eq!(rt; again[348], 7);
    Ok(())
}

#[test]
fn a_frame_is_written(rt: HostRuntime) -> Result<(), Fail> {
    let moment = Stamp::of_picos(0x6553_F10A, 1).ok_or("stamp")?;
    let mut bytes = [7; 24];
    assert_eq!(rt; encode_frame(moment, 5, b"abc", &mut bytes), 23);
    let mut wanted = [0; 24];
    put_words(
        &mut wanted,
        0,
        &[0x6553_F10A, 0, 1, 0x0005_0000, 3, 0x6162_6307],
    );
    assert!(rt; bytes == wanted);
    Ok(())
}

#[test]
fn a_fault_stays(rt: HostRuntime) -> Result<(), Fail> {
    let alloc = rt.alloc();
    let mut reader = RecordReader::open(alloc)?;
    assert!(rt; reader.feed(b"DIFIREC3") == Err(RecordFault { offset: 0 }));
    assert!(rt; reader.feed(b"more") == Err(RecordFault { offset: 0 }));
    assert!(rt; reader.finish() == Err(RecordFault { offset: 0 }));
    assert!(rt; reader.frame(&[]).is_none());
    Ok(())
}
