ghost use Rattle.std.specs.Prelude.{◌≤◌};

use super::*;
use vrt_header::Profile;
use vrt_words::put_words;

// A context of stream 1, changed, at 350,000 Hz, with items of 16 bits.
const WORDS: [u32; 27] = [
    0x4960001B, 1, 0x006A621E, 1, 0x6553F100, 0, 0, 0xFBB98000, 0, 0, 0, 0, 0, 0, 0, 0, 0, 0, 0,
    0x00000055, 0x73000000, 0, 0, 0, 0, 0xA00003CF, 0,
];

// The place at which the bytes are refused, if they are.
fn place_in(profile: Profile, bytes: &[u8]) -> Option<u32> {
    match decode(profile, bytes) {
        Ok(_) => None,
        Err(place) => Some(place.word),
    }
}

// The place at which so many bytes of these words, and zeros behind them, are refused.
fn place_of_first(profile: Profile, words: &[u32; 27], count: usize) -> Option<u32>
    requires { count ≤ 112 }
{
    let mut bytes = [0; 112];
    put_words(&mut bytes, 0, words);
    place_in(profile, &bytes[..count])
}

// The place at which the context with this word at this index is refused, if it is.
fn place_with(profile: Profile, index: u32, word: u32) -> Option<u32> {
    let mut context = WORDS;
    if let Some(there) = context.get_mut(index as usize) {
        *there = word;
    }
    place_of_first(profile, &context, 108)
}

// All words of the first list are right at the index of a context, and all of the second are refused
// there.
fn is_edge(profile: Profile, index: u32, right: &[u32], wrong: &[u32]) -> bool {
    test_records::is_edge(index, right, wrong, |word| place_with(profile, index, word))
}

// The place at which the context with this rate is refused, if it is.
fn place_of_rate(profile: Profile, high: u32, low: u32) -> Option<u32> {
    let mut context = WORDS;
    context[19] = high;
    context[20] = low;
    place_of_first(profile, &context, 108)
}

#[test]
fn a_header_of_another_kind_is_refused(rt: HostRuntime) {
    let profile = Profile::of(0x6A_621E, 1).expect(&rt, "a profile");
    assert!(rt;
        is_edge(
            profile,
            0,
            &[0x4860001B, 0x4B6F001B],
            &[0x1860001B, 0x5960000B, 0x6860001B]
        )
    );
}

#[test]
fn a_context_is_not_padded(rt: HostRuntime) {
    let profile = Profile::of(0x6A_621E, 1).expect(&rt, "a profile");
    assert!(rt; is_edge(profile, 2, &[0x006A621E], &[0x086A621E, 0x806A621E]));
}

#[test]
fn the_first_indicator_names_the_twelve_fields_and_the_change(rt: HostRuntime) {
    let profile = Profile::of(0x6A_621E, 1).expect(&rt, "a profile");
    assert!(rt;
        is_edge(
            profile,
            7,
            &[0xFBB98000, 0x7BB98000],
            &[
                0xFBB98001, 0xFBB98080, 0xFBB90000, 0xBBB98000, 0xFFB98000, 0
            ]
        )
    );
}

#[test]
fn a_rate_is_at_least_one_hertz(rt: HostRuntime) {
    let profile = Profile::of(0x6A_621E, 1).expect(&rt, "a profile");
    assert_eq!(rt; place_of_rate(profile, 0, 0x00100000), None);
    assert_eq!(rt; place_of_rate(profile, 0, 0x000FFFFF), Some(20));
    assert_eq!(rt; place_of_rate(profile, 1, 0), None);
    assert_eq!(rt; place_of_rate(profile, 0x7FFFFFFF, 0xFFFFFFFF), None);
    assert_eq!(rt; place_of_rate(profile, 0x80000000, 0x00100000), Some(19));
    assert_eq!(rt; place_of_rate(profile, 0xFFFFFFFF, 0xFFFFFFFF), Some(19));
}

#[test]
fn a_payload_format_has_two_words(rt: HostRuntime) {
    let profile = Profile::of(0x6A_621E, 1).expect(&rt, "a profile");
    assert!(rt;
        is_edge(
            profile,
            25,
            &[0xA00003CF, 0x200003CF, 0xA00002CB, 0xA00000C3],
            &[0x200002CB, 0x800003CF, 0xA00003CE, 0xA0000082]
        )
    );
    assert!(rt; is_edge(profile, 26, &[0], &[1, 0x80000000]));
}

// Whether each number may stand at each of these indices.
fn are_free(profile: Profile, indices: &[u32]) -> bool {
    for index in indices {
        if !is_edge(profile, *index, &[0, 0xFFFFFFFF], &[]) {
            return false;
        }
    }
    true
}

#[test]
fn all_other_fields_are_free(rt: HostRuntime) {
    let profile = Profile::of(0x6A_621E, 1).expect(&rt, "a profile");
    assert!(rt;
        are_free(
            profile,
            &[8, 9, 10, 11, 12, 13, 14, 15, 16, 17, 18, 21, 22, 23, 24]
        )
    );
}

#[test]
fn a_context_has_27_words(rt: HostRuntime) {
    let profile = Profile::of(0x6A_621E, 1).expect(&rt, "a profile");
    assert_eq!(rt; place_of_first(profile, &WORDS, 108), None);
    assert_eq!(rt; place_of_first(profile, &WORDS, 107), Some(26));
    assert_eq!(rt; place_of_first(profile, &WORDS, 109), Some(27));
    assert_eq!(rt; place_of_first(profile, &WORDS, 28), Some(7));
}
