//! Both sides of each rule of a release record.

ghost use Rattle.std.specs.Prelude.{◌≤◌, length};

use crate::tests::{
    ACK, END, HEALED, LATE, RAW, TOO_LARGE, UNCERTAIN, VERSION, is_read, refused, stamp,
};
use crate::{Refusal, Shown, decode};
use sample_binder::{Reason, Run};
use std::process::Abort;
use vrt_time::Moment;
use vrt_words::{put_word, put_words};

// Words that are others, each by its position.
type Changes<'a> = &'a [(usize, u32)];

// Whether words with such changes begin with a record.
fn is_record(words: &[u32], changes: Changes) -> bool
    requires fits { length words.now ≤ 40 }
{
    let mut bytes = [0; 160];
    put_words(&mut bytes, 0, words);
    for (position, word) in changes {
        if *position < 40 {
            put_word(&mut bytes, *position, *word);
        }
    }
    decode(&bytes).is_some()
}

// With each of the first changes the words are a record, and with each of the others none.
fn are_judged(rt: &impl Abort, words: &[u32], right: &[Changes], wrong: &[Changes])
    requires fits { length words.now ≤ 40 }
{
    for changes in right {
        assert!(rt; is_record(words, *changes));
    }
    for changes in wrong {
        assert!(rt; !is_record(words, *changes));
    }
}

#[test]
fn there_are_seven_kinds(rt: HostRuntime) {
    are_judged(&rt, &END, &[&[(0, 7)]], &[&[(0, 0)], &[(0, 8)]]);
}

#[test]
fn each_kind_has_its_lengths(rt: HostRuntime) {
    // A run of no samples.
    are_judged(
        &rt,
        &HEALED,
        &[&[]],
        &[&[(1, 124), (9, 0)], &[(9, 2)], &[(1, 129)]],
    );
    are_judged(
        &rt,
        &UNCERTAIN,
        &[&[]],
        &[&[(1, 56), (11, 0)], &[(11, 3)], &[(1, 65)]],
    );
    // A body of 36 bytes has no payload.
    are_judged(
        &rt,
        &RAW,
        &[&[(1, 40)], &[(1, 44)]],
        &[&[(1, 36)], &[(1, 42)]],
    );
    are_judged(&rt, &ACK, &[&[(1, 8)], &[(1, 52)]], &[&[(1, 4)], &[(1, 6)]]);
    are_judged(&rt, &TOO_LARGE, &[&[(1, 32)]], &[&[(1, 28)], &[(1, 36)]]);
    are_judged(&rt, &VERSION, &[&[(1, 48)]], &[&[(1, 44)], &[(1, 52)]]);
    are_judged(&rt, &END, &[&[(1, 56)]], &[&[(1, 52)], &[(1, 60)]]);
}

#[test]
fn a_port_has_sixteen_bits(rt: HostRuntime) {
    are_judged(&rt, &HEALED, &[&[(3, 0xFFFF)]], &[&[(3, 0x1_0000)]]);
    are_judged(&rt, &UNCERTAIN, &[&[(3, 0xFFFF)]], &[&[(3, 0x1_0000)]]);
    are_judged(&rt, &RAW, &[&[(3, 0xFFFF)]], &[&[(3, 0x1_0000)]]);
    are_judged(&rt, &ACK, &[&[(2, 0xFFFF)]], &[&[(2, 0x1_0000)]]);
    are_judged(&rt, &TOO_LARGE, &[&[(4, 0xFFFF)]], &[&[(4, 0x1_0000)]]);
    are_judged(&rt, &VERSION, &[&[(2, 0xFFFF)]], &[&[(2, 0x1_0000)]]);
}

#[test]
fn up_to_fifteen_packets_are_lost(rt: HostRuntime) {
    are_judged(&rt, &HEALED, &[&[(4, 0)], &[(4, 15)]], &[&[(4, 16)]]);
    are_judged(&rt, &UNCERTAIN, &[&[(4, 15)]], &[&[(4, 16)]]);
    are_judged(&rt, &RAW, &[&[(4, 15)]], &[&[(4, 16)]]);
}

#[test]
fn picoseconds_are_below_a_second(rt: HostRuntime) {
    // The last picosecond of a second, at which the first sample was captured.
    let last: Changes = &[
        (6, 0xE8),
        (7, 0xD4A5_0FFF),
        (11, 0x5C),
        (12, 0x283D_42D5),
        (13, 0x3D5A_1FFF),
    ];
    // A picosecond later.
    let next: Changes = &[
        (6, 0xE8),
        (7, 0xD4A5_1000),
        (11, 0x5C),
        (12, 0x283D_42D5),
        (13, 0x3D5A_2000),
    ];
    are_judged(&rt, &HEALED, &[last], &[next]);
    let last: Changes = &[(8, 0xE8), (9, 0xD4A5_0FFF)];
    let next: Changes = &[(8, 0xE8), (9, 0xD4A5_1000)];
    are_judged(&rt, &UNCERTAIN, &[last], &[next]);
    are_judged(&rt, &RAW, &[last], &[next]);
    are_judged(&rt, &LATE, &[last], &[next]);
}

#[test]
fn the_indices_of_samples_have_32_bits(rt: HostRuntime) {
    // At 2 Hz sample FFFFFFFE is captured 2,147,483,647 s behind the stamp.
    let last: Changes = &[
        (6, 0),
        (7, 0),
        (5, 0x6553_F100),
        (8, 0xFFFF_FFFE),
        (11, 0xD0),
        (12, 0x928F_C81A),
        (13, 0xBF6A_F000),
        (25, 0),
        (26, 0x0020_0000),
    ];
    are_judged(&rt, &HEALED, &[last], &[]);
    are_judged(
        &rt,
        &UNCERTAIN,
        &[&[(10, 0xFFFF_FFFE)]],
        &[&[(10, 0xFFFF_FFFF)]],
    );
}

#[test]
fn the_fields_of_a_run_are_those_of_a_context(rt: HostRuntime) {
    // The first sample is captured at the stamp at any rate.
    let right: [Changes; 6] = [
        &[(25, 0), (26, 0x0010_0000)],
        &[(25, 0x7FFF_FFFF), (26, 0xFFFF_FFFF)],
        &[(31, 0xA000_00C3)],
        &[(31, 0x2000_01C7)],
        &[(31, 0xA000_03CF)],
        &[(14, 0xFFFF_FFFF), (30, 0xFFFF_FFFF)],
    ];
    let wrong: [Changes; 6] = [
        &[(25, 0), (26, 0x000F_FFFF)],
        &[(25, 0x8000_0000)],
        &[(31, 0xA000_0082)],
        &[(31, 0xA000_0410)],
        &[(31, 0x2000_02CB)],
        &[(32, 1)],
    ];
    are_judged(&rt, &HEALED, &right, &wrong);
}

#[test]
fn a_run_is_captured_when_its_rate_says(rt: HostRuntime) {
    are_judged(
        &rt,
        &HEALED,
        &[&[]],
        &[&[(13, 0xD307_97FF)], &[(13, 0xD307_9801)], &[(10, 1)]],
    );
    // The moment of samples without a rate is free.
    let free: Changes = &[(12, 0xFFFF_FFFF), (13, 0xFFFF_FFFF)];
    are_judged(&rt, &UNCERTAIN, &[free], &[]);
}

#[test]
fn samples_have_the_reasons_two_to_six(rt: HostRuntime) {
    let right: [Changes; 6] = [
        &[(5, 2), (6, 1)],
        &[(5, 2), (6, 15)],
        &[(5, 3)],
        &[(5, 4)],
        &[(5, 5)],
        &[(5, 6)],
    ];
    let wrong: [Changes; 9] = [
        &[(5, 0)],
        &[(5, 1)],
        &[(5, 2), (6, 0)],
        &[(5, 2), (6, 16)],
        &[(5, 3), (6, 1)],
        &[(5, 4), (6, 1)],
        &[(5, 5), (6, 1)],
        &[(5, 6), (6, 1)],
        &[(5, 7)],
    ];
    are_judged(&rt, &UNCERTAIN, &right, &wrong);
}

#[test]
fn whole_packets_have_all_reasons_but_the_sixth(rt: HostRuntime) {
    let right: [Changes; 7] = [
        &[(5, 1), (6, 0)],
        &[(5, 2), (6, 1)],
        &[(5, 2), (6, 15)],
        &[(5, 3), (6, 0)],
        &[(5, 4), (6, 0)],
        &[(5, 5), (6, 0)],
        &[(5, 7), (6, 0)],
    ];
    let wrong: [Changes; 8] = [
        &[(5, 0), (6, 0)],
        &[(5, 1), (6, 1)],
        &[(5, 2), (6, 0)],
        &[(5, 2), (6, 16)],
        &[(5, 5), (6, 1)],
        &[(5, 6), (6, 0)],
        &[(5, 7), (6, 1)],
        &[(5, 8), (6, 0)],
    ];
    are_judged(&rt, &RAW, &right, &wrong);
    are_judged(&rt, &RAW, &[&[(10, 31)]], &[&[(10, 32)]]);
}

#[test]
fn a_refused_frame_has_one_of_ten_reasons(rt: HostRuntime) {
    let right: [Changes; 4] = [&[(3, 1)], &[(2, 1), (3, 0)], &[(5, 1)], &[(5, 10)]];
    let wrong: [Changes; 3] = [&[(3, 0)], &[(5, 0)], &[(5, 11)]];
    are_judged(&rt, &TOO_LARGE, &right, &wrong);
}

#[test]
fn a_late_packet_alone_has_a_stamp(rt: HostRuntime) {
    let wrong: [Changes; 5] = [
        &[(7, 1)],
        &[(8, 1)],
        &[(9, 1)],
        &[(5, 3), (7, 1)],
        &[(5, 5), (9, 1)],
    ];
    are_judged(&rt, &TOO_LARGE, &[&[(5, 4), (9, 1)]], &wrong);
    are_judged(&rt, &LATE, &[&[(9, 1)], &[(7, 0)]], &[&[(5, 3)], &[(5, 5)]]);
}

// Samples of the first reason that names how many contexts were lost, with two samples.
fn lost_run(rt: &impl Abort, lost: u8, reason: Reason, first: u32, words: &[u32])
    requires fits { length words.now ≤ 40 }
{
    let run = Run::Uncertain {
        reason,
        stamp: stamp(0x6553_F100, 0),
        first,
        number: 2,
        at: Moment::of(1_700_000_001_000_000_000_000),
        bits: 16,
    };
    let shown = Shown::Run {
        stream: 1,
        port: 9,
        lost,
        run,
    };
    is_read(rt, words, &shown, &[0x0005_0006, 0x0007_0008]);
}

#[test]
fn the_greatest_numbers_of_a_run_are_read(rt: HostRuntime) {
    let mut words = UNCERTAIN;
    words[10] = 0xFFFF_FFFE;
    lost_run(&rt, 0, Reason::FormatChanged, 0xFFFF_FFFE, &words);
    let mut words = UNCERTAIN;
    words[4] = 15;
    lost_run(&rt, 15, Reason::FormatChanged, 2, &words);
    let mut words = UNCERTAIN;
    words[5] = 2;
    words[6] = 15;
    lost_run(&rt, 0, Reason::ContextLost(15), 2, &words);
}

#[test]
fn the_greatest_pad_is_read(rt: HostRuntime) {
    let mut words = RAW;
    words[10] = 31;
    let run = Run::Raw {
        reason: Reason::ContextLost(1),
        stamp: stamp(0x6553_F101, 500_000_000_000),
        pad: 31,
    };
    let shown = Shown::Run {
        stream: 1,
        port: 9,
        lost: 0,
        run,
    };
    is_read(&rt, &words, &shown, &[0x0001_0002]);
}

#[test]
fn the_ten_refusals_have_the_numbers_of_the_table(rt: HostRuntime) {
    let table = [
        (Refusal::TooLarge, 1),
        (Refusal::Malformed, 2),
        (Refusal::NoRoute, 3),
        (Refusal::Late, 4),
        (Refusal::Repeat, 5),
        (Refusal::Conflict, 6),
        (Refusal::NotAddressed, 7),
        (Refusal::Reused, 8),
        (Refusal::ScheduleFull, 9),
        (Refusal::Answer, 10),
    ];
    for (refusal, number) in table {
        assert!(rt; u32::from(refusal.number()) == number);
        assert!(rt; Refusal::of_number(number) == Some(refusal));
    }
    assert!(rt; Refusal::of_number(0).is_none());
    assert!(rt; Refusal::of_number(11).is_none());
    let mut words = TOO_LARGE;
    words[5] = 10;
    words[6] = 0;
    is_read(&rt, &words, &refused(Refusal::Answer, 0), &[]);
}

#[test]
fn the_seven_counts_are_in_order(rt: HostRuntime) {
    let words = [7, 0x38, 0, 1, 0, 2, 0, 3, 0, 4, 0, 5, 0, 6, 0, 7];
    let shown = Shown::End {
        counts: [1, 2, 3, 4, 5, 6, 7],
    };
    is_read(&rt, &words, &shown, &[]);
    let words = [7, 0x38, 1, 0, 0, 2, 0, 3, 0, 4, 0, 5, 0, 6, 7, 0];
    let shown = Shown::End {
        counts: [1 << 32, 2, 3, 4, 5, 6, 7 << 32],
    };
    is_read(&rt, &words, &shown, &[]);
}
