//! Rules at their edges: what is just so, and what just is not.
use crate::tests::harness::*;
use crate::tests::script::Step::{End, Nothing};
use crate::tests::script::{
    Step, Wrong, bound, context_given, data_given, packet_leaves, play, raw, uncertain,
};
use crate::tests::{
    FASTER, FOUR, LIMITS, NARROW, ONE, ONE_HELD, PLAIN, SLOW, SLOW_OTHER_GAIN, TWO,
    across_a_context, across_a_loss, across_lost_packets,
};
use crate::{Limits, Reason};
use std::alloc::Global;

/// Windows of size 0, of which more contexts are kept.
const EIGHT_KEPT: Limits = Limits { kept: 8, ..LIMITS };

/// Windows of size 1, and one packet may wait.
const HELD_AND_ONE_WAITS: Limits = Limits {
    pending: 1,
    ..ONE_HELD
};

/// 2 Hz and 16 bits an item, in the other packing.
const OTHER_PACKING: Tuning = Tuning {
    format: 0x2000_03CF,
    ..SLOW
};

/// 2^-20 Hz more than 2 Hz.
const HARDLY_FASTER: Tuning = Tuning {
    rate: (0, 0x0020_0001),
    ..SLOW
};

/// 1 Hz, the least rate.
const SLOWEST: Tuning = Tuning {
    rate: (0, 0x0010_0000),
    ..SLOW
};

const SLOWEST_OTHER_GAIN: Tuning = Tuning {
    gain: 0x600,
    ..SLOWEST
};

// The last of the four samples is captured at 1.5 s, the stamp of the second context.
#[test]
fn a_packet_waits_where_its_last_sample_is_at_the_horizon(rt: HostRuntime) -> Result<(), Wrong> {
    let steps = [
        data_given(START, 0, FOUR),
        context_given(START, 0, CHANGED, SLOW),
        context_given(ONE_AND_A_HALF, 1, CHANGED, SLOW_OTHER_GAIN),
        Nothing,
        context_given(TWO_SECONDS, 2, CHANGED, SLOW),
        packet_leaves(0),
        bound(START, 0, 3, START, SLOW, 16),
        bound(START, 3, 1, ONE_AND_A_HALF, SLOW_OTHER_GAIN, 16),
        Nothing,
    ];
    play(rt.alloc(), LIMITS, &steps)
}

// The last of the four samples is captured half a second before the second context.
#[test]
fn a_packet_leaves_where_its_last_sample_is_below_the_horizon(
    rt: HostRuntime,
) -> Result<(), Wrong> {
    let steps = [
        data_given(START, 0, FOUR),
        context_given(START, 0, CHANGED, SLOW),
        Nothing,
        context_given(TWO_SECONDS, 1, CHANGED, SLOW),
        packet_leaves(0),
        bound(START, 0, 4, START, SLOW, 16),
        Nothing,
    ];
    play(rt.alloc(), LIMITS, &steps)
}

/// A picosecond after 1.5 s.
const HARDLY_LATER: Time = Time(5, 1);

// The last of the four samples is captured at 1.5 s, a picosecond before the second context.
#[test]
fn a_packet_leaves_where_its_last_sample_is_hardly_below_the_horizon(
    rt: HostRuntime,
) -> Result<(), Wrong> {
    let steps = [
        data_given(START, 0, FOUR),
        context_given(START, 0, CHANGED, SLOW),
        Nothing,
        context_given(HARDLY_LATER, 1, CHANGED, SLOW_OTHER_GAIN),
        packet_leaves(0),
        bound(START, 0, 4, START, SLOW, 16),
        Nothing,
    ];
    play(rt.alloc(), LIMITS, &steps)
}

// The last of the four samples is captured at 1.5 s, a picosecond before the second of three
// contexts: one run.
#[test]
fn a_context_hardly_after_the_last_sample_does_not_cut(rt: HostRuntime) -> Result<(), Wrong> {
    let second = context_given(HARDLY_LATER, 1, CHANGED, SLOW_OTHER_GAIN);
    let run = bound(START, 0, 4, START, SLOW, 16);
    across_a_context(rt.alloc(), second, run, Nothing)
}

// It is captured at the stamp of the second of three contexts: two runs, though the third is later.
#[test]
fn a_context_at_the_last_sample_cuts_before_a_later_one(rt: HostRuntime) -> Result<(), Wrong> {
    let second = context_given(ONE_AND_A_HALF, 1, CHANGED, SLOW);
    let first_run = bound(START, 0, 3, START, SLOW, 16);
    let second_run = bound(START, 3, 1, ONE_AND_A_HALF, SLOW, 16);
    across_a_context(rt.alloc(), second, first_run, second_run)
}

#[test]
fn a_sample_at_the_horizon_is_uncertain_at_the_end(rt: HostRuntime) -> Result<(), Wrong> {
    let steps = [
        data_given(START, 0, FOUR),
        context_given(START, 0, CHANGED, SLOW),
        context_given(ONE_AND_A_HALF, 1, CHANGED, SLOW),
        Nothing,
        End,
        packet_leaves(0),
        bound(START, 0, 3, START, SLOW, 16),
        uncertain(Reason::Ended, START, 3, 1, ONE_AND_A_HALF, 16),
        Nothing,
    ];
    play(rt.alloc(), LIMITS, &steps)
}

// Four samples across a context at 1 s with this tuning, of which two are bound and two leave with
// this run.
fn two_bound_and(alloc: Global, second: Tuning, run: Step) -> Result<(), Wrong> {
    let second = context_given(ONE_SECOND, 1, CHANGED, second);
    across_a_context(alloc, second, bound(START, 0, 2, START, SLOW, 16), run)
}

/// The last two of four samples, of another format.
const TWO_CHANGED: Step = Step::Uncertain {
    reason: Reason::FormatChanged,
    stamp: START,
    first: 2,
    number: 2,
    at: ONE_SECOND,
    bits: 16,
};

#[test]
fn another_format_of_the_same_item_size_is_another_format(rt: HostRuntime) -> Result<(), Wrong> {
    two_bound_and(rt.alloc(), OTHER_PACKING, TWO_CHANGED)
}

#[test]
fn another_item_size_at_the_same_rate_is_another_format(rt: HostRuntime) -> Result<(), Wrong> {
    two_bound_and(rt.alloc(), NARROW, TWO_CHANGED)
}

#[test]
fn another_rate_in_its_last_bit_is_another_format(rt: HostRuntime) -> Result<(), Wrong> {
    two_bound_and(rt.alloc(), HARDLY_FASTER, TWO_CHANGED)
}

#[test]
fn two_contexts_with_equal_fields_are_two(rt: HostRuntime) -> Result<(), Wrong> {
    let run = bound(START, 2, 2, ONE_SECOND, SLOW, 16);
    two_bound_and(rt.alloc(), SLOW, run)
}

// Contexts every half second from 0 to 2 s with these counts and tunings, and then four samples
// from 0 s on, one under each of the first four contexts, of which the first is bound and what
// follows leaves so.
fn four_under_four(
    alloc: Global,
    counts: [u8; 4],
    tunings: [Tuning; 2],
    rest: [Step; 3],
) -> Result<(), Wrong> {
    let steps = [
        context_given(START, 0, CHANGED, SLOW),
        context_given(HALF_PAST, counts[0], CHANGED, tunings[0]),
        context_given(ONE_SECOND, counts[1], CHANGED, tunings[1]),
        context_given(ONE_AND_A_HALF, counts[2], CHANGED, SLOW),
        context_given(TWO_SECONDS, counts[3], CHANGED, SLOW),
        data_given(START, 0, FOUR),
        packet_leaves(0),
        bound(START, 0, 1, START, SLOW, 16),
        rest[0],
        rest[1],
        rest[2],
    ];
    play(alloc, EIGHT_KEPT, &steps)
}

/// The last of the four samples, bound again.
const LAST_BOUND: Step = Step::Bound {
    stamp: START,
    first: 3,
    number: 1,
    at: ONE_AND_A_HALF,
    tuning: SLOW,
    bits: 16,
};

#[test]
fn one_context_lost_and_two_are_two_stretches(rt: HostRuntime) -> Result<(), Wrong> {
    let rest = [
        uncertain(Reason::ContextLost(1), START, 1, 1, HALF_PAST, 16),
        uncertain(Reason::ContextLost(2), START, 2, 1, ONE_SECOND, 16),
        LAST_BOUND,
    ];
    four_under_four(rt.alloc(), [1, 3, 6, 7], [SLOW, SLOW], rest)
}

#[test]
fn one_context_lost_twice_is_one_stretch(rt: HostRuntime) -> Result<(), Wrong> {
    let rest = [
        uncertain(Reason::ContextLost(1), START, 1, 2, HALF_PAST, 16),
        LAST_BOUND,
        Nothing,
    ];
    four_under_four(rt.alloc(), [1, 3, 5, 6], [SLOW, SLOW], rest)
}

#[test]
fn another_format_over_two_contexts_is_one_stretch(rt: HostRuntime) -> Result<(), Wrong> {
    let rest = [
        uncertain(Reason::FormatChanged, START, 1, 2, HALF_PAST, 16),
        LAST_BOUND,
        Nothing,
    ];
    four_under_four(rt.alloc(), [1, 2, 3, 4], [FASTER, NARROW], rest)
}

// The third context has the count of the second: fifteen were lost between them.
#[test]
fn fifteen_contexts_lost_are_told(rt: HostRuntime) -> Result<(), Wrong> {
    let run = raw(Reason::ContextLost(15), ONE_AND_A_HALF, 0);
    across_a_loss(
        rt.alloc(),
        context_given(THREE_SECONDS, 1, UNCHANGED, PLAIN),
        run,
    )
}

#[test]
fn fifteen_packets_lost_are_told(rt: HostRuntime) -> Result<(), Wrong> {
    across_lost_packets(rt.alloc(), [7, 7], 15)
}

// At the end the held context comes first, and then one more packet than may wait: the first was
// due before it.
#[test]
fn held_contexts_come_before_held_packets_at_the_end(rt: HostRuntime) -> Result<(), Wrong> {
    let steps = [
        context_given(START, 0, CHANGED, SLOW),
        context_given(ONE_SECOND, 1, CHANGED, SLOW),
        data_given(START, 0, ONE),
        data_given(HALF_PAST, 1, ONE),
        Nothing,
        End,
        packet_leaves(0),
        bound(START, 0, 1, START, SLOW, 16),
        packet_leaves(0),
        bound(HALF_PAST, 0, 1, HALF_PAST, SLOW, 16),
        Nothing,
    ];
    play(rt.alloc(), HELD_AND_ONE_WAITS, &steps)
}

// The second context is in force from 0.5 s on; the second sample is captured at 1 s.
#[test]
fn a_context_between_two_samples_has_the_second(rt: HostRuntime) -> Result<(), Wrong> {
    let steps = [
        context_given(START, 0, CHANGED, SLOWEST),
        context_given(HALF_PAST, 1, CHANGED, SLOWEST_OTHER_GAIN),
        context_given(TWO_SECONDS, 2, CHANGED, SLOWEST),
        data_given(START, 0, TWO),
        packet_leaves(0),
        bound(START, 0, 1, START, SLOWEST, 16),
        bound(START, 1, 1, ONE_SECOND, SLOWEST_OTHER_GAIN, 16),
        Nothing,
    ];
    play(rt.alloc(), LIMITS, &steps)
}

// Each reason with its number and its detail, as records tell them.
const ROWS: [(u32, u32, Reason); 8] = [
    (1, 0, Reason::BeforeFirst),
    (2, 1, Reason::ContextLost(1)),
    (2, 15, Reason::ContextLost(15)),
    (3, 0, Reason::PendingFull),
    (4, 0, Reason::TimelineFull),
    (5, 0, Reason::Ended),
    (6, 0, Reason::FormatChanged),
    (7, 0, Reason::Shape),
];

#[test]
fn each_reason_has_its_number_and_detail(rt: HostRuntime) -> Result<(), Wrong> {
    for (number, detail, reason) in ROWS.iter() {
        assert_eq!(rt; Reason::of(*number, *detail), Some(*reason));
        assert_eq!(rt; reason.number(), *number);
        assert_eq!(rt; reason.detail(), *detail);
    }
    Ok(())
}

#[test]
fn other_numbers_and_details_are_no_reason(rt: HostRuntime) -> Result<(), Wrong> {
    for (number, detail) in [(0, 0), (8, 0), (2, 0), (2, 16), (1, 1), (3, 1), (7, 1)].iter() {
        assert_eq!(rt; Reason::of(*number, *detail), None);
    }
    Ok(())
}
