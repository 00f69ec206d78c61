ghost use Rattle.std.specs.Prelude.{◌≤◌};

use super::*;
use vrt_header::Profile;
use vrt_words::put_words;

// The version packet of stream 1, changed, with specification version 4.
const WORDS: [u32; 11] = [
    0x5960000B, 1, 0x006A621E, 0x00010004, 0x6553F100, 0, 0, 0x80000002, 12, 4, 0,
];

// The place at which the bytes are refused, if they are.
fn place_in(profile: Profile, bytes: &[u8]) -> Option<u32> {
    match decode(profile, bytes) {
        Ok(_) => None,
        Err(place) => Some(place.word),
    }
}

// The place at which so many bytes of these words, and zeros behind them, are refused.
fn place_of_first(profile: Profile, words: &[u32; 11], count: usize) -> Option<u32>
    requires { count ≤ 48 }
{
    let mut bytes = [0; 48];
    put_words(&mut bytes, 0, words);
    place_in(profile, &bytes[..count])
}

// The place at which the version packet with this word at this index is refused, if it is.
fn place_with(profile: Profile, index: u32, word: u32) -> Option<u32> {
    let mut packet = WORDS;
    if let Some(there) = packet.get_mut(index as usize) {
        *there = word;
    }
    place_of_first(profile, &packet, 44)
}

// All words of the first list are right at the index, and all of the second are refused there.
fn is_edge(profile: Profile, index: u32, right: &[u32], wrong: &[u32]) -> bool {
    test_records::is_edge(index, right, wrong, |word| place_with(profile, index, word))
}

#[test]
fn a_header_of_another_kind_is_refused(rt: HostRuntime) {
    let profile = Profile::of(0x6A_621E, 1).expect(&rt, "a profile");
    assert!(rt;
        is_edge(
            profile,
            0,
            &[0x5860000B, 0x5B6F000B],
            &[0x1860000B, 0x4960001B, 0x6860000B]
        )
    );
}

#[test]
fn the_first_indicator_names_the_second_alone(rt: HostRuntime) {
    let profile = Profile::of(0x6A_621E, 1).expect(&rt, "a profile");
    assert!(rt;
        is_edge(
            profile,
            7,
            &[0x80000002, 0x00000002],
            &[0x80000000, 0x80000003, 0x80000006, 0xC0000002, 0]
        )
    );
}

#[test]
fn the_second_indicator_names_both_versions_alone(rt: HostRuntime) {
    let profile = Profile::of(0x6A_621E, 1).expect(&rt, "a profile");
    assert!(rt; is_edge(profile, 8, &[12], &[0, 4, 8, 13, 14, 28, 0x8000000C]));
}

#[test]
fn the_versions_are_free(rt: HostRuntime) {
    let profile = Profile::of(0x6A_621E, 1).expect(&rt, "a profile");
    assert!(rt; is_edge(profile, 9, &[0, 0xFFFFFFFF], &[]));
    assert!(rt; is_edge(profile, 10, &[0, 0xFFFFFFFF], &[]));
}

#[test]
fn a_version_packet_has_11_words(rt: HostRuntime) {
    let profile = Profile::of(0x6A_621E, 1).expect(&rt, "a profile");
    assert_eq!(rt; place_of_first(profile, &WORDS, 44), None);
    assert_eq!(rt; place_of_first(profile, &WORDS, 43), Some(10));
    assert_eq!(rt; place_of_first(profile, &WORDS, 45), Some(11));
    assert_eq!(rt; place_of_first(profile, &WORDS, 28), Some(7));
}

// The versions that are read of a packet with these two words at its end.
fn versions_of(profile: Profile, spec: u32, version: u32) -> Option<(u32, u32)> {
    let mut bytes = [0; 44];
    put_words(&mut bytes, 0, &WORDS);
    put_words(&mut bytes, 9, &[spec, version]);
    match decode(profile, &bytes) {
        Ok(rec) => Some((rec.spec, rec.version)),
        Err(_) => None,
    }
}

// Year 20, day 335, revision 1, type 2 and interface version 3: 0010100 101001111 000001 0010 000011.
#[test]
fn the_version_word_is_carried_whole(rt: HostRuntime) {
    let profile = Profile::of(0x6A_621E, 1).expect(&rt, "a profile");
    assert_eq!(rt;
        versions_of(profile, 0xFFFFFFFF, 0x294F0483),
        Some((0xFFFFFFFF, 0x294F0483))
    );
}
