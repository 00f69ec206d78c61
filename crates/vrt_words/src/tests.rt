use super::*;
use std::test::Fail;

#[test]
fn a_word_has_its_first_byte_highest(rt: HostRuntime) {
    let mut bytes = [0x49, 0x60, 0, 0x1B, 0, 0, 0, 1, 0];
    assert_eq!(rt; word_at(&bytes, 0), Some(0x4960_001B));
    assert_eq!(rt; word_at(&bytes, 1), Some(1));
    assert_eq!(rt; word_at(&bytes, 2), None);
    assert_eq!(rt; word_in(&bytes, 1), 1);
    put_word(&mut bytes, 1, 0x6A_621E);
    assert_eq!(rt; bytes, [0x49, 0x60, 0, 0x1B, 0, 0x6A, 0x62, 0x1E, 0]);
}

#[test]
fn a_bit_field_is_read_and_replaced(rt: HostRuntime) {
    assert_eq!(rt; bits_of(0x4960_001B, 28, 4), 4);
    assert_eq!(rt; bits_of(0x4960_001B, 0, 16), 27);
    assert_eq!(rt; with_bits(0x4960_001B, 16, 4, 15), 0x496F_001B);
    assert_eq!(rt; with_bits(0, 0, 32, u32::MAX), u32::MAX);
}

#[test]
fn words_in_a_row_are_read_and_written(rt: HostRuntime) {
    let mut bytes = [9; 16];
    put_words(&mut bytes, 1, &[0x0102_0304, 5]);
    assert_eq!(rt; bytes, [9, 9, 9, 9, 1, 2, 3, 4, 0, 0, 0, 5, 9, 9, 9, 9]);
    let mut words = [0; 3];
    read_words(&bytes, 1, &mut words);
    assert_eq!(rt; words, [0x0102_0304, 5, 0x0909_0909]);
}

#[test]
fn a_buffer_keeps_its_room(rt: HostRuntime) -> Result<(), Fail> {
    let Ok(mut buf) = PacketBuf::open(rt.alloc(), 43) else {
        return Err(Fail::from("no memory"));
    };
    assert_eq!(rt; buf.room(), 172);
    assert!(rt; buf.bytes().is_empty());
    buf.fill(&[7; 32]);
    assert_eq!(rt; buf.bytes(), [7; 32].as_slice());
    assert_eq!(rt; buf.room(), 172);
    Ok(())
}

#[test]
fn buffers_that_are_opened_together_are_apart(rt: HostRuntime) -> Result<(), Fail> {
    let Ok(mut bufs) = PacketBuf::open_many(rt.alloc(), 2, 2) else {
        return Err(Fail::from("no memory"));
    };
    let (Some(mut last), Some(mut first)) = (bufs.pop(), bufs.pop()) else {
        return Err(Fail::from("a buffer is missing"));
    };
    assert!(rt; bufs.is_empty());
    last.fill(&[7; 8]);
    first.fill(&[5; 3]);
    drop(bufs);
    assert_eq!(rt; last.bytes(), [7; 8].as_slice());
    assert_eq!(rt; first.bytes(), [5; 3].as_slice());
    assert_eq!(rt; first.room(), 8);
    Ok(())
}

#[test]
fn a_length_is_that_of_the_size_or_refused(rt: HostRuntime) {
    let bytes = [0; 60];
    assert!(rt; check_size(&bytes, 15) == Ok(()));
    assert!(rt; check_size(&bytes, 16) == Err(Place { word: 15 }));
    assert!(rt; check_size(&bytes, 14) == Err(Place { word: 14 }));
    assert!(rt; check_size(&bytes[..59], 15) == Err(Place { word: 14 }));
}

#[test]
fn a_missing_word_is_refused_at_the_number_of_words(rt: HostRuntime) {
    let bytes = [0, 0, 0, 7, 1, 2, 3];
    assert_eq!(rt; word_or_place(&bytes, 0), Ok(7));
    assert_eq!(rt; word_or_place(&bytes, 1), Err(Place { word: 1 }));
    assert_eq!(rt; word_or_place(&bytes, 9), Err(Place { word: 1 }));
}
