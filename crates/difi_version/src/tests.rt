use super::*;
use vrt_header::Profile;
use vrt_words::Place;

// The version packet of stream 1 at 1,700,000,000 s, changed, with specification version 4.
const PACKET: [u8; 44] = [
    0x59, 0x60, 0x00, 0x0B, 0x00, 0x00, 0x00, 0x01, 0x00, 0x6A, 0x62, 0x1E, 0x00, 0x01, 0x00, 0x04,
    0x65, 0x53, 0xF1, 0x00, 0x00, 0x00, 0x00, 0x00, 0x00, 0x00, 0x00, 0x00, 0x80, 0x00, 0x00, 0x02,
    0x00, 0x00, 0x00, 0x0C, 0x00, 0x00, 0x00, 0x04, 0x00, 0x00, 0x00, 0x00,
];

#[test]
fn a_version_packet_is_read(rt: HostRuntime) {
    let profile = Profile::of(0x6A_621E, 1).expect(&rt, "a profile");
    let rec = decode(profile, &PACKET).ok().expect(&rt, "a packet");
    assert!(rt; rec.changed);
    assert_eq!(rt; rec.spec, 4);
    assert_eq!(rt; rec.version, 0);
    assert_eq!(rt; rec.prologue.stream, 1);
}

// What is written of the packet that is read.
fn written_again(profile: Profile, bytes: &[u8]) -> [u8; 44] {
    let mut written = [0xAA; 44];
    if let Ok(rec) = decode(profile, bytes) {
        encode(profile, &rec, &mut written);
    }
    written
}

#[test]
fn a_version_packet_is_written_again(rt: HostRuntime) {
    let profile = Profile::of(0x6A_621E, 1).expect(&rt, "a profile");
    assert_eq!(rt; written_again(profile, &PACKET), PACKET);
}

#[test]
fn other_indicators_are_refused_at_their_word(rt: HostRuntime) {
    let profile = Profile::of(0x6A_621E, 1).expect(&rt, "a profile");
    let mut bytes = PACKET;
    bytes[35] = 0x0D;
    assert_eq!(rt; decode(profile, &bytes), Err(Place { word: 8 }));
}
