ghost use Rattle.std.specs.Prelude.{◌≤◌};

use super::*;
use vrt_time::Stamp;
use vrt_words::put_words;

// A prologue of each kind under class identifier 0x6A621E and code 1, by its packet type and bit 26
// and bit 24: stream 1, at 1,700,000,000 s.
fn plain(kind: Kind) -> [u32; 7] {
    let (first, codes) = match kind {
        Kind::Data => (0x18600008, 0),
        Kind::Context => (0x4860001B, 0x00000001),
        Kind::Version => (0x5860000B, 0x00010004),
        Kind::Control => (0x6860000A, 0),
        Kind::Cancel => (0x6960000A, 0),
        Kind::Ack => (0x6C600009, 0),
    };
    [first, 1, 0x006A621E, codes, 0x6553F100, 0, 0]
}

// The place at which the prologue is refused, if it is.
fn place_in(profile: Profile, bytes: &[u8]) -> Option<u32> {
    match read_prologue(profile, bytes) {
        Ok(_) => None,
        Err(place) => Some(place.word),
    }
}

// The place at which the prologue is refused, if it is, in the first bytes of these words.
fn place_of_first(profile: Profile, words: &[u32; 7], count: usize) -> Option<u32>
    requires { count ≤ 28 }
{
    let mut bytes = [0; 28];
    put_words(&mut bytes, 0, words);
    place_in(profile, &bytes[..count])
}

// The place at which the plain prologue with this word at this index is refused, if it is.
fn place_with(profile: Profile, kind: Kind, index: u32, word: u32) -> Option<u32> {
    let mut words = plain(kind);
    if let Some(there) = words.get_mut(index as usize) {
        *there = word;
    }
    let mut bytes = [0; 28];
    put_words(&mut bytes, 0, &words);
    place_in(profile, &bytes)
}

// All words of the first list are right at the index of a prologue of the kind, and all of the
// second are refused there.
fn is_edge(profile: Profile, kind: Kind, index: u32, right: &[u32], wrong: &[u32]) -> bool {
    test_records::is_edge(index, right, wrong, |word| {
        place_with(profile, kind, index, word)
    })
}

#[test]
fn a_packet_type_is_that_of_a_kind(rt: HostRuntime) {
    let profile = Profile::of(0x6A_621E, 1).expect(&rt, "a profile");
    assert!(rt;
        is_edge(
            profile,
            Kind::Data,
            0,
            &[0x18600008],
            &[
                0x08600008, 0x28600008, 0x38600008, 0x78600008, 0x88600008, 0x98600008
            ]
        )
    );
}

#[test]
fn a_class_identifier_is_announced_by_bit_27(rt: HostRuntime) {
    let profile = Profile::of(0x6A_621E, 1).expect(&rt, "a profile");
    assert!(rt; is_edge(profile, Kind::Data, 0, &[0x18600008], &[0x10600008]));
    assert!(rt; is_edge(profile, Kind::Context, 0, &[0x4860001B], &[0x4060001B]));
    assert!(rt; is_edge(profile, Kind::Version, 0, &[0x5860000B], &[0x5060000B]));
    assert!(rt; is_edge(profile, Kind::Control, 0, &[0x6860000A], &[0x6060000A]));
    assert!(rt; is_edge(profile, Kind::Cancel, 0, &[0x6960000A], &[0x6160000A]));
    assert!(rt; is_edge(profile, Kind::Ack, 0, &[0x6C600009], &[0x64600009]));
}

// Bits 26, 25 and 24 in that order.
#[test]
fn the_three_bits_below_are_free_or_fixed_by_the_kind(rt: HostRuntime) {
    let profile = Profile::of(0x6A_621E, 1).expect(&rt, "a profile");
    assert!(rt;
        is_edge(
            profile,
            Kind::Data,
            0,
            &[0x1A600008],
            &[0x1C600008, 0x19600008, 0x1B600008]
        )
    );
    assert!(rt;
        is_edge(
            profile,
            Kind::Context,
            0,
            &[0x4960001B, 0x4A60001B, 0x4B60001B],
            &[0x4C60001B, 0x4D60001B]
        )
    );
    assert!(rt;
        is_edge(
            profile,
            Kind::Version,
            0,
            &[0x5960000B, 0x5A60000B, 0x5B60000B],
            &[0x5C60000B, 0x5D60000B]
        )
    );
    assert!(rt; is_edge(profile, Kind::Control, 0, &[0x6860000A], &[0x6A60000A]));
    assert!(rt; is_edge(profile, Kind::Cancel, 0, &[0x6960000A], &[0x6B60000A]));
    assert!(rt;
        is_edge(
            profile,
            Kind::Ack,
            0,
            &[0x6D600009],
            &[0x6E600009, 0x6F600009]
        )
    );
}

#[test]
fn a_stream_s_packets_are_timed_by_the_code_of_the_profile(rt: HostRuntime) {
    let profile = Profile::of(0x6A_621E, 1).expect(&rt, "a profile");
    assert!(rt;
        is_edge(
            profile,
            Kind::Data,
            0,
            &[0x18600008],
            &[0x18000008, 0x18200008, 0x18A00008, 0x18E00008]
        )
    );
    assert!(rt;
        is_edge(
            profile,
            Kind::Context,
            0,
            &[0x4860001B],
            &[0x4800001B, 0x4820001B, 0x48A0001B, 0x48E0001B]
        )
    );
    assert!(rt;
        is_edge(
            profile,
            Kind::Version,
            0,
            &[0x5860000B],
            &[0x5800000B, 0x5820000B, 0x58A0000B, 0x58E0000B]
        )
    );
}

#[test]
fn a_stream_s_packets_are_timed_in_picoseconds(rt: HostRuntime) {
    let profile = Profile::of(0x6A_621E, 1).expect(&rt, "a profile");
    assert!(rt;
        is_edge(
            profile,
            Kind::Data,
            0,
            &[0x18600008],
            &[0x18400008, 0x18500008, 0x18700008]
        )
    );
    assert!(rt;
        is_edge(
            profile,
            Kind::Context,
            0,
            &[0x4860001B],
            &[0x4840001B, 0x4850001B, 0x4870001B]
        )
    );
    assert!(rt;
        is_edge(
            profile,
            Kind::Version,
            0,
            &[0x5860000B],
            &[0x5840000B, 0x5850000B, 0x5870000B]
        )
    );
}

#[test]
fn a_command_is_timed_so_or_has_no_code_at_all(rt: HostRuntime) {
    let profile = Profile::of(0x6A_621E, 1).expect(&rt, "a profile");
    assert!(rt;
        is_edge(
            profile,
            Kind::Control,
            0,
            &[0x6860000A, 0x6800000A],
            &[
                0x68200007, 0x6840000A, 0x6850000A, 0x6870000A, 0x6810000A, 0x6830000A, 0x68A0000A
            ]
        )
    );
    assert!(rt;
        is_edge(
            profile,
            Kind::Cancel,
            0,
            &[0x6960000B, 0x6900000B],
            &[0x6920000B, 0x6940000B, 0x6910000B, 0x69E0000B]
        )
    );
    assert!(rt;
        is_edge(
            profile,
            Kind::Ack,
            0,
            &[0x6C600009, 0x6C000009],
            &[0x6C200009, 0x6C400009, 0x6C100009, 0x6CA00009]
        )
    );
}

#[test]
fn another_profile_has_another_code(rt: HostRuntime) {
    let gps = Profile::of(0x6A_621E, 2).expect(&rt, "a profile");
    assert!(rt; is_edge(gps, Kind::Data, 0, &[0x18A00008], &[0x18600008, 0x18E00008]));
    assert!(rt;
        is_edge(
            gps,
            Kind::Control,
            0,
            &[0x68A0000A, 0x6800000A],
            &[0x6860000A]
        )
    );
    let other = Profile::of(0x6A_621E, 3).expect(&rt, "a profile");
    assert!(rt;
        is_edge(
            other,
            Kind::Context,
            0,
            &[0x48E0001B],
            &[0x4860001B, 0x48A0001B]
        )
    );
}

#[test]
fn the_packet_count_is_free(rt: HostRuntime) {
    let profile = Profile::of(0x6A_621E, 1).expect(&rt, "a profile");
    assert!(rt; is_edge(profile, Kind::Data, 0, &[0x18610008, 0x186F0008], &[]));
    assert!(rt; is_edge(profile, Kind::Ack, 0, &[0x6C610009, 0x6C6F0009], &[]));
}

#[test]
fn a_stream_s_packet_has_a_size_of_its_kind(rt: HostRuntime) {
    let profile = Profile::of(0x6A_621E, 1).expect(&rt, "a profile");
    assert!(rt;
        is_edge(
            profile,
            Kind::Data,
            0,
            &[0x18600008, 0x18603FF8],
            &[0x18600000, 0x18600007, 0x18603FF9, 0x1860FFFF]
        )
    );
    assert!(rt;
        is_edge(
            profile,
            Kind::Context,
            0,
            &[0x4860001B],
            &[0x4860001A, 0x4860001C]
        )
    );
    assert!(rt;
        is_edge(
            profile,
            Kind::Version,
            0,
            &[0x5860000B],
            &[0x5860000A, 0x5860000C]
        )
    );
}

#[test]
fn a_command_has_a_size_of_its_kind(rt: HostRuntime) {
    let profile = Profile::of(0x6A_621E, 1).expect(&rt, "a profile");
    assert!(rt;
        is_edge(
            profile,
            Kind::Control,
            0,
            &[0x6860000A, 0x68600025, 0x68000007, 0x68000022],
            &[0x68600009, 0x68600026, 0x68000006, 0x68000023]
        )
    );
    assert!(rt;
        is_edge(
            profile,
            Kind::Ack,
            0,
            &[0x6C600009, 0x6C60002B, 0x6C000006, 0x6C000028],
            &[0x6C600008, 0x6C60002C, 0x6C000005, 0x6C000029]
        )
    );
}

#[test]
fn a_cancellation_has_one_of_six_sizes(rt: HostRuntime) {
    let profile = Profile::of(0x6A_621E, 1).expect(&rt, "a profile");
    assert!(rt;
        is_edge(
            profile,
            Kind::Cancel,
            0,
            &[
                0x6960000A, 0x6960000B, 0x6960000C, 0x6960000E, 0x6960000F, 0x69600012
            ],
            &[0x69600009, 0x6960000D, 0x69600010, 0x69600011, 0x69600013]
        )
    );
    assert!(rt;
        is_edge(
            profile,
            Kind::Cancel,
            0,
            &[
                0x69000007, 0x69000008, 0x69000009, 0x6900000B, 0x6900000C, 0x6900000F
            ],
            &[
                0x69000006, 0x6900000A, 0x6900000D, 0x6900000E, 0x69000010, 0x69000002
            ]
        )
    );
}

#[test]
fn a_stream_identifier_and_the_seconds_are_free(rt: HostRuntime) {
    let profile = Profile::of(0x6A_621E, 1).expect(&rt, "a profile");
    assert!(rt; is_edge(profile, Kind::Data, 1, &[0, 0xFFFFFFFF], &[]));
    assert!(rt; is_edge(profile, Kind::Control, 1, &[0, 0xFFFFFFFF], &[]));
    assert!(rt; is_edge(profile, Kind::Data, 4, &[0, 0xFFFFFFFF], &[]));
}

#[test]
fn only_data_are_padded(rt: HostRuntime) {
    let profile = Profile::of(0x6A_621E, 1).expect(&rt, "a profile");
    assert!(rt;
        is_edge(
            profile,
            Kind::Data,
            2,
            &[0x006A621E, 0x086A621E, 0xF86A621E],
            &[]
        )
    );
    assert!(rt;
        is_edge(
            profile,
            Kind::Context,
            2,
            &[0x006A621E],
            &[0x086A621E, 0x806A621E]
        )
    );
    assert!(rt; is_edge(profile, Kind::Version, 2, &[0x006A621E], &[0x086A621E]));
    assert!(rt; is_edge(profile, Kind::Control, 2, &[0x006A621E], &[0x086A621E]));
    assert!(rt; is_edge(profile, Kind::Cancel, 2, &[0x006A621E], &[0x086A621E]));
    assert!(rt; is_edge(profile, Kind::Ack, 2, &[0x006A621E], &[0x086A621E]));
}

#[test]
fn three_bits_of_the_class_word_are_clear(rt: HostRuntime) {
    let profile = Profile::of(0x6A_621E, 1).expect(&rt, "a profile");
    assert!(rt;
        is_edge(
            profile,
            Kind::Data,
            2,
            &[],
            &[0x016A621E, 0x026A621E, 0x046A621E]
        )
    );
    assert!(rt; is_edge(profile, Kind::Context, 2, &[], &[0x016A621E, 0x046A621E]));
    assert!(rt; is_edge(profile, Kind::Version, 2, &[], &[0x016A621E]));
    assert!(rt; is_edge(profile, Kind::Control, 2, &[], &[0x016A621E]));
    assert!(rt; is_edge(profile, Kind::Cancel, 2, &[], &[0x016A621E]));
    assert!(rt; is_edge(profile, Kind::Ack, 2, &[], &[0x016A621E]));
}

#[test]
fn the_class_identifier_is_that_of_the_profile(rt: HostRuntime) {
    let profile = Profile::of(0x6A_621E, 1).expect(&rt, "a profile");
    assert!(rt;
        is_edge(
            profile,
            Kind::Data,
            2,
            &[],
            &[0x006A621F, 0x006A621D, 0x00EA621E]
        )
    );
    assert!(rt; is_edge(profile, Kind::Context, 2, &[], &[0x006A621F]));
}

#[test]
fn the_class_codes_are_those_of_the_kind_and_free_in_commands(rt: HostRuntime) {
    let profile = Profile::of(0x6A_621E, 1).expect(&rt, "a profile");
    assert!(rt; is_edge(profile, Kind::Data, 3, &[0], &[1, 0x00010000]));
    assert!(rt; is_edge(profile, Kind::Context, 3, &[1], &[0, 2, 0x00010001]));
    assert!(rt;
        is_edge(
            profile,
            Kind::Version,
            3,
            &[0x00010004],
            &[0x00010003, 0x00010005, 0x00000004, 0x00020004]
        )
    );
    assert!(rt; is_edge(profile, Kind::Control, 3, &[0, 0xFFFFFFFF], &[]));
    assert!(rt; is_edge(profile, Kind::Cancel, 3, &[0, 0xFFFFFFFF], &[]));
    assert!(rt; is_edge(profile, Kind::Ack, 3, &[0, 0xFFFFFFFF], &[]));
}

#[test]
fn a_fraction_s_high_word_is_at_most_232(rt: HostRuntime) {
    let profile = Profile::of(0x6A_621E, 1).expect(&rt, "a profile");
    assert!(rt; is_edge(profile, Kind::Data, 5, &[0, 231, 232], &[233, 0xFFFFFFFF]));
    assert!(rt; is_edge(profile, Kind::Data, 6, &[0, 0xFFFFFFFF], &[]));
}

#[test]
fn a_prologue_that_ends_early_is_refused_at_its_whole_words(rt: HostRuntime) {
    let profile = Profile::of(0x6A_621E, 1).expect(&rt, "a profile");
    let data = plain(Kind::Data);
    assert_eq!(rt; place_of_first(profile, &data, 28), None);
    assert_eq!(rt; place_of_first(profile, &data, 27), Some(6));
    assert_eq!(rt; place_of_first(profile, &data, 3), Some(0));
    let command = [0x68000007, 1, 0x006A621E, 0, 9, 9, 9];
    assert_eq!(rt; place_of_first(profile, &command, 16), None);
    assert_eq!(rt; place_of_first(profile, &command, 15), Some(3));
}

#[test]
fn each_part_of_a_prologue_is_told(rt: HostRuntime) {
    let profile = Profile::of(0x6A_621E, 1).expect(&rt, "a profile");
    let mut bytes = [0; 28];
    put_words(&mut bytes, 0, &[0x1A6F0123, 9, 0xF86A621E, 0, 7, 1, 5]);
    let prologue = read_prologue(profile, &bytes)
        .ok()
        .expect(&rt, "a prologue");
    assert!(rt; prologue.header.bit25 && !prologue.header.bit24 && prologue.header.timed);
    assert_eq!(rt; prologue.header.count, 15);
    assert_eq!(rt; prologue.header.size, 0x123);
    assert_eq!(rt; prologue.pad, 31);
    assert_eq!(rt; prologue.stamp, Stamp::of_picos(7, 4_294_967_301));
    put_words(&mut bytes, 0, &[0x6D000006, 9, 0x006A621E, 0x00050006]);
    let command = read_prologue(profile, &bytes)
        .ok()
        .expect(&rt, "a prologue");
    assert_eq!(rt; (command.information, command.packet), (5, 6));
}
