ghost use Rattle.std.specs.Prelude.{◌≡◌, ◌≢◌, ◌*◌, ◌<◌, ◌≤◌, ◌^◌, None, Some, length};
ghost use Rattle.vrt_time.specs.Time.{stamp_of};
ghost use Rattle.release_form.specs.Refusals.{refusal_number};
ghost use Rattle.release_form.specs.Rules.{Obeys};
ghost use Rattle.release_form.specs.Sizes.{GoesWith, size_with};
ghost use Rattle.release_form.specs.declared.refusal.Refusal.TheVariants.{Late};
ghost use Rattle.release_form.specs.declared.shown.Shown.TheVariants.{Refused};

use super::*;
use sample_binder::{Reason, Run};
use std::process::Abort;
use test_records::BASE;
use vrt_time::{Moment, Stamp};
use vrt_words::{put_word, put_words};

// 1,700,000,000 s.
const START: u32 = 0x6553_F100;

// The fields of a context of 2 Hz: bandwidth 280,000 Hz, IF 70 MHz, RF 1,200 MHz, gain 10 dB,
// items of 16 bits.
const SLOW: [u32; 19] = [
    0x0000_0064,
    0x0000_0044,
    0x5C00_0000,
    0x0000_42C1,
    0xD800_0000,
    0x0004_7868,
    0xC000_0000,
    0,
    0,
    0,
    0x0000_0500,
    0,
    0x0020_0000,
    0,
    0,
    0,
    0xC00C_0000,
    0xA000_03CF,
    0,
];

// The fields of `SLOW` with a gain of 12 dB.
const SLOW_AND_LOUD: [u32; 19] = [
    0x0000_0064,
    0x0000_0044,
    0x5C00_0000,
    0x0000_42C1,
    0xD800_0000,
    0x0004_7868,
    0xC000_0000,
    0,
    0,
    0,
    0x0000_0600,
    0,
    0x0020_0000,
    0,
    0,
    0,
    0xC00C_0000,
    0xA000_03CF,
    0,
];

pub(crate) const END: [u32; 16] = [7, 0x38, 0, 0, 0, 0, 0, 0, 0, 0, 0, 0, 0, 0, 0, 0];

// A whole packet of stream 1, stamped half a second after a start, in which a context was lost.
pub(crate) const RAW: [u32; 12] = [
    3,
    0x28,
    1,
    9,
    0,
    2,
    1,
    0x6553_F101,
    0x0000_0074,
    0x6A52_8800,
    0,
    0x0001_0002,
];

// A sample bound across a gap in which nothing changed, at the fields above.
pub(crate) const HEALED: [u32; 34] = [
    1,
    0x80,
    1,
    9,
    0,
    0x6553_F101,
    0x0000_0074,
    0x6A52_8800,
    0,
    1,
    0,
    0x0000_005C,
    0x283D_4260,
    0xD307_9800,
    0x0000_0064,
    0x0000_0044,
    0x5C00_0000,
    0x0000_42C1,
    0xD800_0000,
    0x0004_7868,
    0xC000_0000,
    0,
    0,
    0,
    0x0000_0500,
    0x0000_0055,
    0x7300_0000,
    0,
    0,
    0,
    0xC00C_0000,
    0xA000_03CF,
    0,
    0x0001_0002,
];

// Two samples of four, one second after the first, whose format is another one.
pub(crate) const UNCERTAIN: [u32; 18] = [
    2,
    0x40,
    1,
    9,
    0,
    6,
    0,
    0x6553_F100,
    0,
    0,
    2,
    2,
    0,
    0x0000_005C,
    0x283D_41EC,
    0x68B5_1000,
    0x0005_0006,
    0x0007_0008,
];

pub(crate) const TOO_LARGE: [u32; 10] = [5, 0x20, 0, 1, 5, 1, 0x641, 0, 0, 0];

pub(crate) const LATE: [u32; 10] = [5, 0x20, 0, 4, 5, 4, 0, 0x6553_F101, 0, 0];

pub(crate) const VERSION: [u32; 14] = [
    6,
    0x30,
    9,
    0x5960_000B,
    0x0000_0001,
    0x006A_621E,
    0x0001_0004,
    0x6553_F100,
    0,
    0,
    0x8000_0002,
    0x0000_000C,
    0x0000_0004,
    0,
];

pub(crate) const ACK: [u32; 15] = [
    4,
    0x34,
    5,
    0x6C60_000C,
    0x0000_0001,
    0x006A_621E,
    0,
    0x6553_F10A,
    0,
    0,
    0x0109_0000,
    0x0000_0001,
    0x00A0_0000,
    0x8000_0000,
    0x9000_0000,
];

pub(crate) fn stamp(seconds: u32, picos: u64) -> Stamp
    requires { picos < 10 ^ 12 }
    ensures { result ≡ stamp_of seconds picos }
{
    match Stamp::of_picos(seconds, picos) {
        Some(stamp) => stamp,
        None => unreachable!(),
    }
}

// The record of a bound run of two samples.
fn bound(front: [u32; 14], fields: [u32; 19], samples: [u32; 2]) -> [u32; 35] {
    let mut words = [0; 35];
    words[..14].copy_from_slice(&front);
    words[14..33].copy_from_slice(&fields);
    words[33] = samples[0];
    words[34] = samples[1];
    words
}

// The record of a value with a payload or a packet.
fn is_written(rt: &impl Abort, shown: &Shown, payload: &[u32], words: &[u32])
    requires obeys { Obeys shown.now }
    requires given { GoesWith shown.now (4 * length payload.now) }
    requires fits { length payload.now ≤ 15 }
    requires room { size_with shown.now (4 * length payload.now) ≤ 160 }
    requires record_fits { length words.now ≤ 40 }
{
    let mut bytes = [0; 60];
    put_words(&mut bytes, 0, payload);
    let mut expected = [0xAA; 160];
    put_words(&mut expected, 0, words);
    let mut written = [0xAA; 160];
    let payload = &bytes[..4 * payload.len()];
    let size = encode(shown, payload, &mut written);
    assert_eq!(rt; size, 4 * words.len());
    assert!(rt; written == expected);
}

// What a record says, and its variable part.
pub(crate) fn is_read(rt: &impl Abort, words: &[u32], shown: &Shown, part: &[u32])
    requires fits { length words.now ≤ 40 }
    requires part_fits { length part.now ≤ 15 }
{
    let mut bytes = [0xAA; 160];
    put_words(&mut bytes, 0, words);
    let mut expected = [0; 60];
    put_words(&mut expected, 0, part);
    match decode(&bytes) {
        Some((found, lent, size)) => {
            assert!(rt; found == *shown);
            assert_eq!(rt; lent, &expected[..4 * part.len()]);
            assert_eq!(rt; size, 4 * words.len());
        }
        None => assert!(rt; false, "no record"),
    }
}

// With another word at a position, it is no words.
fn is_none_with(rt: &impl Abort, words: &[u32], position: usize, word: u32)
    requires fits { length words.now ≤ 40 }
    requires within { position < 40 }
{
    let mut bytes = [0; 160];
    put_words(&mut bytes, 0, words);
    put_word(&mut bytes, position, word);
    assert!(rt; decode(&bytes).is_none());
}

// So many bytes of a record are none.
fn is_none_of(rt: &impl Abort, words: &[u32], size: usize)
    requires fits { length words.now ≤ 40 }
    requires within { size ≤ 160 }
{
    let mut bytes = [0; 160];
    put_words(&mut bytes, 0, words);
    assert!(rt; decode(&bytes[..size]).is_none());
}

#[test]
fn the_end_has_seven_counts(rt: HostRuntime) {
    let shown = Shown::End { counts: [0; 7] };
    is_written(&rt, &shown, &[], &END);
    is_read(&rt, &END, &shown, &[]);
    is_none_with(&rt, &END, 0, 8);
    assert_eq!(rt; size_of(&shown, 0), 64);
}

#[test]
fn a_whole_packet_goes_both_ways(rt: HostRuntime) {
    let run = Run::Raw {
        reason: Reason::ContextLost(1),
        stamp: stamp(0x6553_F101, 500_000_000_000),
        pad: 0,
    };
    let shown = Shown::Run {
        stream: 1,
        port: 9,
        lost: 0,
        run,
    };
    is_written(&rt, &shown, &[0x0001_0002], &RAW);
    is_read(&rt, &RAW, &shown, &[0x0001_0002]);
}

#[test]
fn bound_runs_of_one_packet_go_both_ways(rt: HostRuntime) {
    let payload = [0x0001_0002, 0x0003_0004, 0x0005_0006, 0x0007_0008];
    let first = [
        1,
        0x84,
        1,
        9,
        0,
        START,
        0,
        0,
        0,
        2,
        0,
        0x0000_005C,
        0x283D_4103,
        0x9410_0000,
    ];
    let first = bound(first, SLOW, [0x0001_0002, 0x0003_0004]);
    let run = Run::Bound {
        stamp: stamp(START, 0),
        first: 0,
        number: 2,
        at: Moment::of(1_700_000_000_000_000_000_000),
        fields: SLOW,
        bits: 16,
    };
    let shown = Shown::Run {
        stream: 1,
        port: 9,
        lost: 0,
        run,
    };
    is_written(&rt, &shown, &payload, &first);
    is_read(&rt, &first, &shown, &payload[..2]);
}

#[test]
fn the_second_run_of_a_packet_goes_both_ways(rt: HostRuntime) {
    let payload = [0x0001_0002, 0x0003_0004, 0x0005_0006, 0x0007_0008];
    let second = [
        1,
        0x84,
        1,
        9,
        0,
        START,
        0,
        0,
        2,
        2,
        0,
        0x0000_005C,
        0x283D_41EC,
        0x68B5_1000,
    ];
    let second = bound(second, SLOW_AND_LOUD, [0x0005_0006, 0x0007_0008]);
    let run = Run::Bound {
        stamp: stamp(START, 0),
        first: 2,
        number: 2,
        at: Moment::of(1_700_000_001_000_000_000_000),
        fields: SLOW_AND_LOUD,
        bits: 16,
    };
    let shown = Shown::Run {
        stream: 1,
        port: 9,
        lost: 0,
        run,
    };
    is_written(&rt, &shown, &payload, &second);
    is_read(&rt, &second, &shown, &payload[2..]);
}

#[test]
fn a_run_bound_across_a_healed_gap_goes_both_ways(rt: HostRuntime) {
    let mut fields = [0; 19];
    fields.copy_from_slice(&BASE[8..]);
    let run = Run::Bound {
        stamp: stamp(0x6553_F101, 500_000_000_000),
        first: 0,
        number: 1,
        at: Moment::of(1_700_000_001_500_000_000_000),
        fields,
        bits: 16,
    };
    let shown = Shown::Run {
        stream: 1,
        port: 9,
        lost: 0,
        run,
    };
    is_written(&rt, &shown, &[0x0001_0002], &HEALED);
    is_read(&rt, &HEALED, &shown, &[0x0001_0002]);
}

#[test]
fn samples_of_a_changed_format_go_both_ways(rt: HostRuntime) {
    let payload = [0x0001_0002, 0x0003_0004, 0x0005_0006, 0x0007_0008];
    let run = Run::Uncertain {
        reason: Reason::FormatChanged,
        stamp: stamp(START, 0),
        first: 2,
        number: 2,
        at: Moment::of(1_700_000_001_000_000_000_000),
        bits: 16,
    };
    let shown = Shown::Run {
        stream: 1,
        port: 9,
        lost: 0,
        run,
    };
    is_written(&rt, &shown, &payload, &UNCERTAIN);
    is_read(&rt, &UNCERTAIN, &shown, &payload[2..]);
}

#[test]
fn four_bit_samples_are_written_with_sixteen(rt: HostRuntime) {
    let words = [
        2,
        0x40,
        1,
        9,
        0,
        5,
        0,
        START,
        0,
        0,
        0,
        2,
        0,
        0,
        0,
        7,
        0x0007_FFFF,
        0xFFF8_0000,
    ];
    let run = Run::Uncertain {
        reason: Reason::Ended,
        stamp: stamp(START, 0),
        first: 0,
        number: 2,
        at: Moment::of(7),
        bits: 4,
    };
    let shown = Shown::Run {
        stream: 1,
        port: 9,
        lost: 0,
        run,
    };
    is_written(&rt, &shown, &[0x7F80_0000], &words);
}

// The first frame of a record, refused for another reason than that it is late.
pub(crate) fn refused(refusal: Refusal, detail: u32) -> Shown
    requires { refusal ≢ Late }
    ensures refused { result ≡ Refused 1 5 (refusal_number refusal) detail None }
    ensures obeys { Obeys result }
{
    Shown::Refused {
        frame: 1,
        port: 5,
        reason: refusal.number(),
        detail,
        stamp: None,
    }
}

#[test]
fn refused_frames_go_both_ways(rt: HostRuntime) {
    let large = refused(Refusal::TooLarge, 1601);
    is_written(&rt, &large, &[], &TOO_LARGE);
    is_read(&rt, &TOO_LARGE, &large, &[]);
    let malformed = refused(Refusal::Malformed, 6);
    is_written(&rt, &malformed, &[], &[5, 0x20, 0, 1, 5, 2, 6, 0, 0, 0]);
    is_read(&rt, &[5, 0x20, 0, 1, 5, 2, 6, 0, 0, 0], &malformed, &[]);
    let command = refused(Refusal::Malformed, 0);
    is_written(&rt, &command, &[], &[5, 0x20, 0, 1, 5, 2, 0, 0, 0, 0]);
    is_read(&rt, &[5, 0x20, 0, 1, 5, 2, 0, 0, 0, 0], &command, &[]);
}

// The fourth frame of a record, refused since it is late.
pub(crate) fn late(last: Stamp) -> Shown
    ensures refused { result ≡ Refused 4 5 4 0 (Some last) }
    ensures obeys { Obeys result }
{
    Shown::Refused {
        frame: 4,
        port: 5,
        reason: Refusal::Late.number(),
        detail: 0,
        stamp: Some(last),
    }
}

#[test]
fn a_late_packet_is_told_with_a_stamp(rt: HostRuntime) {
    let late = late(stamp(0x6553_F101, 0));
    is_written(&rt, &late, &[], &LATE);
    is_read(&rt, &LATE, &late, &[]);
    is_none_with(&rt, &LATE, 5, 3);
}

#[test]
fn packets_are_carried_as_they_are(rt: HostRuntime) {
    let version = Shown::Version { port: 9 };
    is_written(&rt, &version, &VERSION[3..], &VERSION);
    is_read(&rt, &VERSION, &version, &VERSION[3..]);
    let ack = Shown::Ack { port: 5 };
    is_written(&rt, &ack, &ACK[3..], &ACK);
    is_read(&rt, &ACK, &ack, &ACK[3..]);
}

#[test]
fn a_run_outside_its_rules_is_no_record(rt: HostRuntime) {
    is_none_with(&rt, &RAW, 1, 0x29);
    is_none_with(&rt, &RAW, 3, 0x1_0000);
    is_none_with(&rt, &RAW, 4, 16);
    is_none_with(&rt, &RAW, 5, 6);
    is_none_with(&rt, &RAW, 6, 16);
    is_none_with(&rt, &RAW, 8, 0x0000_00E9);
    is_none_with(&rt, &RAW, 10, 32);
    is_none_with(&rt, &UNCERTAIN, 1, 0x44);
    is_none_with(&rt, &UNCERTAIN, 5, 7);
    is_none_with(&rt, &UNCERTAIN, 10, 0xFFFF_FFFF);
    is_none_with(&rt, &UNCERTAIN, 11, 1);
    is_none_with(&rt, &HEALED, 13, 0xD307_9801);
    is_none_with(&rt, &HEALED, 25, 0x8000_0000);
    is_none_with(&rt, &HEALED, 31, 0xA000_0082);
}

#[test]
fn samples_may_have_the_reason_that_contexts_are_no_longer_kept(rt: HostRuntime) {
    let mut words = UNCERTAIN;
    words[5] = 4;
    let run = Run::Uncertain {
        reason: Reason::TimelineFull,
        stamp: stamp(START, 0),
        first: 2,
        number: 2,
        at: Moment::of(1_700_000_001_000_000_000_000),
        bits: 16,
    };
    let shown = Shown::Run {
        stream: 1,
        port: 9,
        lost: 0,
        run,
    };
    is_read(&rt, &words, &shown, &[0x0005_0006, 0x0007_0008]);
}

#[test]
fn a_record_that_is_cut_is_none(rt: HostRuntime) {
    is_none_of(&rt, &END, 63);
    is_none_of(&rt, &RAW, 47);
    is_none_of(&rt, &RAW, 7);
    is_none_of(&rt, &RAW, 0);
}

#[test]
fn one_record_stands_first(rt: HostRuntime) {
    one_to_one();
    is_read(&rt, &END, &Shown::End { counts: [0; 7] }, &[]);
}
