ghost use Rattle.std.specs.Prelude.{◌≡◌, ◌-◌, ◌≤◌, ◌^◌, pos};

use super::*;
use std::process::Abort;

#[test]
fn four_bit_samples_are_counted_and_read(rt: HostRuntime) {
    let payload = [0x7F, 0x80, 0, 0];
    assert_eq!(rt; count_of(1, 16, 4), Some(2));
    assert_eq!(rt; count_of(1, 12, 4), None);
    assert_eq!(rt; count_of(0, 0, 4), None);
    let mut both = [Sample { i: 0, q: 0 }; 2];
    unpack_into(&payload, 4, 0, &mut both);
    assert_eq!(rt; both, [Sample { i: 7, q: -1 }, Sample { i: -8, q: 0 }]);
    let mut second = [Sample { i: 0, q: 0 }];
    unpack_into(&payload, 4, 1, &mut second);
    assert_eq!(rt; second, [Sample { i: -8, q: 0 }]);
}

#[test]
fn widths_of_four_to_eight_go_both_ways_across_words(rt: HostRuntime) {
    both_ways(&rt, 4, 7, b"\x78\xF0\x87\x1E\x07\x00\x00\x00");
    both_ways(&rt, 5, 15, b"\x7C\x3E\x08\x3C\x3E\x03\xC0\x00");
    both_ways(&rt, 6, 31, b"\x7E\x0F\xC0\x81\xF0\x7E\x01\xF0");
    both_ways(
        &rt,
        7,
        63,
        b"\x7F\x03\xF8\x08\x0F\xC0\xFE\x00\xFC\x00\x00\x00",
    );
    both_ways(
        &rt,
        8,
        127,
        b"\x7F\x80\xFF\x00\x80\x7F\x01\xFE\x00\x7F\x00\x00",
    );
}

#[test]
fn widths_of_nine_to_twelve_go_both_ways_across_words(rt: HostRuntime) {
    both_ways(
        &rt,
        9,
        255,
        b"\x7F\xC0\x3F\xE0\x08\x03\xFC\x03\xFE\x00\x3F\xC0",
    );
    both_ways(
        &rt,
        10,
        511,
        b"\x7F\xE0\x0F\xFC\x00\x80\x1F\xF0\x07\xFE\x00\x1F\xF0\x00\x00\x00",
    );
    both_ways(
        &rt,
        11,
        1023,
        b"\x7F\xF0\x03\xFF\x80\x08\x00\xFF\xC0\x0F\xFE\x00\x0F\xFC\x00\x00",
    );
    both_ways(
        &rt,
        12,
        2047,
        b"\x7F\xF8\x00\xFF\xF0\x00\x80\x07\xFF\x00\x1F\xFE\x00\x07\xFF\x00",
    );
}

#[test]
fn widths_of_thirteen_to_sixteen_go_both_ways_across_words(rt: HostRuntime) {
    both_ways(
        &rt,
        13,
        4095,
        b"\x7F\xFC\x00\x3F\xFE\x00\x08\x00\x3F\xFC\x00\x3F\xFE\x00\x03\xFF\xC0\x00\x00\x00",
    );
    both_ways(
        &rt,
        14,
        8191,
        b"\x7F\xFE\x00\x0F\xFF\xC0\x00\x80\x01\xFF\xF0\x00\x7F\xFE\x00\x01\xFF\xF0\x00\x00",
    );
    both_ways(
        &rt,
        15,
        16383,
        b"\x7F\xFF\x00\x03\xFF\xF8\x00\x08\x00\x0F\xFF\xC0\x00\xFF\xFE\x00\x00\xFF\xFC\x00",
    );
    both_ways(
        &rt,
        16,
        32767,
        b"\x7F\xFF\x80\x00\xFF\xFF\x00\x00\x80\x00\x7F\xFF\x00\x01\xFF\xFE\x00\x00\x7F\xFF",
    );
}

/// Five samples of `bits` bits, whose greatest number is `most`, are these words and back.
fn both_ways(rt: &impl Abort, bits: u8, most: i16, packed: &[u8])
    requires some_bits { 4 ≤ bits }
    requires most_bits { bits ≤ 16 }
    requires most { most ≡ pos (2 ^ (bits - 1) - 1) }
{
    let least = -most - 1;
    let samples = [
        Sample { i: most, q: least },
        Sample { i: -1, q: 0 },
        Sample { i: least, q: most },
        Sample { i: 1, q: -2 },
        Sample { i: 0, q: most },
    ];
    let used = 4 * ((10 * usize::from(bits) + 31) / 32);
    let mut words = [0xFF; 20];
    pack_into(&samples, bits, &mut words[..used]);
    assert_eq!(rt; &words[..used], packed);
    let mut again = [Sample { i: 0, q: 0 }; 5];
    unpack_into(&words[..used], bits, 0, &mut again);
    assert_eq!(rt; again, samples);
}
