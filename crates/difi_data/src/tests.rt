ghost use Rattle.std.specs.Prelude.{◌≤◌};

use super::*;
use vrt_header::Profile;
use vrt_words::{put_words, word_at};

// The data packet of stream 1 at 1,700,000,000 s with one sample of 16 bits, (1, 2).
const PACKET: [u8; 32] = [
    0x18, 0x60, 0x00, 0x08, 0x00, 0x00, 0x00, 0x01, 0x00, 0x6A, 0x62, 0x1E, 0x00, 0x00, 0x00, 0x00,
    0x65, 0x53, 0xF1, 0x00, 0x00, 0x00, 0x00, 0x00, 0x00, 0x00, 0x00, 0x00, 0x00, 0x01, 0x00, 0x02,
];

// The place at which the datagram is refused, if it is.
fn refused_at(profile: Profile, bytes: &[u8]) -> Option<u32> {
    match decode(profile, bytes) {
        Ok(_) => None,
        Err(place) => Some(place.word),
    }
}

// What is written of the packet that is read.
fn written_again(profile: Profile, bytes: &[u8]) -> [u8; 32] {
    let mut written = [0xAA; 32];
    if let Ok(rec) = decode(profile, bytes) {
        if rec.prologue.header.size == 8 {
            encode(profile, &rec, &mut written);
        }
    }
    written
}

// The stream of the packet that is read, and the length and the first word of its payload.
fn shown(profile: Profile, bytes: &[u8]) -> Option<(u32, usize, Option<u32>)> {
    match decode(profile, bytes) {
        Ok(rec) => Some((
            rec.prologue.stream,
            rec.payload.len(),
            word_at(rec.payload, 0),
        )),
        Err(_) => None,
    }
}

#[test]
fn a_data_packet_lends_its_payload(rt: HostRuntime) {
    let profile = Profile::of(0x6A_621E, 1).expect(&rt, "a profile");
    assert_eq!(rt; shown(profile, &PACKET), Some((1, 4, Some(0x0001_0002))));
}

#[test]
fn a_data_packet_is_written_again(rt: HostRuntime) {
    let profile = Profile::of(0x6A_621E, 1).expect(&rt, "a profile");
    assert_eq!(rt; written_again(profile, &PACKET), PACKET);
}

#[test]
fn an_acknowledgement_bit_and_a_size_below_eight_are_refused_at_the_header(rt: HostRuntime) {
    let profile = Profile::of(0x6A_621E, 1).expect(&rt, "a profile");
    let mut bytes = PACKET;
    bytes[0] = 0x1C;
    assert_eq!(rt; refused_at(profile, &bytes), Some(0));
    bytes[0] = 0x18;
    bytes[3] = 7;
    assert_eq!(rt; refused_at(profile, &bytes), Some(0));
}

#[test]
fn eight_words_of_nine_are_refused_behind_them(rt: HostRuntime) {
    let profile = Profile::of(0x6A_621E, 1).expect(&rt, "a profile");
    let mut bytes = PACKET;
    bytes[3] = 9;
    assert_eq!(rt; refused_at(profile, &bytes), Some(8));
}

// The place at which so many bytes of a packet are refused whose first word is this.
fn refused_with(profile: Profile, first: u32, count: usize) -> Option<u32>
    requires { count ≤ 40 }
{
    let mut bytes = [0; 40];
    put_words(
        &mut bytes,
        0,
        &[first, 1, 0x006A621E, 0, 0x6553F100, 0, 0, 0xFFFFFFFF, 0, 7],
    );
    refused_at(profile, &bytes[..count])
}

#[test]
fn a_length_is_that_of_the_size(rt: HostRuntime) {
    let profile = Profile::of(0x6A_621E, 1).expect(&rt, "a profile");
    assert_eq!(rt; refused_with(profile, 0x18600008, 32), None);
    assert_eq!(rt; refused_with(profile, 0x18600008, 31), Some(7));
    assert_eq!(rt; refused_with(profile, 0x18600008, 33), Some(8));
    assert_eq!(rt; refused_with(profile, 0x18600008, 40), Some(8));
    assert_eq!(rt; refused_with(profile, 0x18600009, 36), None);
    assert_eq!(rt; refused_with(profile, 0x18600009, 39), Some(9));
    assert_eq!(rt; refused_with(profile, 0x1860000A, 40), None);
    assert_eq!(rt; refused_with(profile, 0x1860000A, 27), Some(6));
}

#[test]
fn a_header_of_another_kind_is_refused(rt: HostRuntime) {
    let profile = Profile::of(0x6A_621E, 1).expect(&rt, "a profile");
    assert_eq!(rt; refused_with(profile, 0x1A600008, 32), None);
    assert_eq!(rt; refused_with(profile, 0x6860000A, 40), Some(0));
    assert_eq!(rt; refused_with(profile, 0x4860001B, 40), Some(0));
    assert_eq!(rt; refused_with(profile, 0x5860000B, 40), Some(0));
}
