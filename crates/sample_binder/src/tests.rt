mod edges;
mod harness;
mod player;
mod script;

use crate::tests::harness::*;
use crate::tests::player::{Kind, Player};
use crate::tests::script::Step::{End, Nothing};
use crate::tests::script::{
    Answer, Step, Wrong, bound, check, context_given, context_turned, data_given, data_turned,
    give_context, give_data, packet_leaves, play, raw, run_of, uncertain,
};
use crate::{Limits, Reason, Run};
use std::alloc::Global;

/// Windows of size 0: four contexts are kept, and eight packets may wait.
pub(crate) const LIMITS: Limits = Limits {
    data_window: 0,
    context_window: 0,
    kept: 4,
    pending: 8,
};

const ONE_WAITS: Limits = Limits {
    pending: 1,
    ..LIMITS
};

const TWO_WAIT: Limits = Limits {
    pending: 2,
    ..LIMITS
};

const TWO_KEPT: Limits = Limits { kept: 2, ..LIMITS };

/// Windows of size 1.
pub(crate) const ONE_HELD: Limits = Limits {
    data_window: 1,
    context_window: 1,
    ..LIMITS
};

/// 350,000 Hz, and 16 bits an item.
pub(crate) const PLAIN: Tuning = Tuning {
    gain: 0x500,
    rate: (0x55, 0x7300_0000),
    format: 0xA000_03CF,
};

const OTHER_GAIN: Tuning = Tuning {
    gain: 0x600,
    ..PLAIN
};

/// 2 Hz and 4 Hz, and 16 bits an item.
pub(crate) const SLOW: Tuning = Tuning {
    rate: (0, 0x0020_0000),
    ..PLAIN
};

pub(crate) const SLOW_OTHER_GAIN: Tuning = Tuning {
    gain: 0x600,
    ..SLOW
};

pub(crate) const FASTER: Tuning = Tuning {
    rate: (0, 0x0040_0000),
    ..PLAIN
};

/// 2 Hz, and 4 bits an item.
pub(crate) const NARROW: Tuning = Tuning {
    format: 0xA000_00C3,
    ..SLOW
};

/// 32,738 Hz, and 4 bits an item.
const LONG: Tuning = Tuning {
    rate: (7, 0xFE20_0000),
    ..NARROW
};

const LONG_OTHER_GAIN: Tuning = Tuning {
    gain: 0x600,
    ..LONG
};

/// One, two and four samples of two items of 16 bits.
pub(crate) const ONE: Payload = Payload {
    words: 1,
    front: [0x0001_0002, 0, 0, 0],
    pad: 0,
};

pub(crate) const TWO: Payload = Payload {
    words: 2,
    front: [0x0001_0002, 0x0003_0004, 0, 0],
    pad: 0,
};

pub(crate) const FOUR: Payload = Payload {
    words: 4,
    front: [0x0001_0002, 0x0003_0004, 0x0005_0006, 0x0007_0008],
    pad: 0,
};

/// 20 bits, and 16.
const TWENTY_BITS: Payload = Payload {
    words: 1,
    front: [0x7F80_0000, 0, 0, 0],
    pad: 12,
};

const SIXTEEN_BITS: Payload = Payload {
    words: 1,
    front: [0x7F80_0000, 0, 0, 0],
    pad: 16,
};

/// The longest: 65,476 samples of two items of 4 bits.
const LONGEST: Payload = Payload {
    words: 16_369,
    front: [0, 0, 0, 0],
    pad: 0,
};

#[test]
fn a_packet_leaves_at_the_second_context(rt: HostRuntime) -> Result<(), Wrong> {
    let steps = [
        context_given(START, 0, CHANGED, PLAIN),
        data_given(START, 0, TWO),
        Nothing,
        context_given(ONE_SECOND, 1, CHANGED, PLAIN),
        packet_leaves(0),
        bound(START, 0, 2, START, PLAIN, 16),
        Nothing,
    ];
    play(rt.alloc(), LIMITS, &steps)
}

// Contexts at 0 and 1 s and this one, and then a packet at 1.5 s, which leaves with this run.
pub(crate) fn across_a_loss(alloc: Global, third: Step, run: Step) -> Result<(), Wrong> {
    let steps = [
        context_given(START, 0, CHANGED, PLAIN),
        context_given(ONE_SECOND, 1, CHANGED, PLAIN),
        third,
        data_given(ONE_AND_A_HALF, 0, ONE),
        packet_leaves(0),
        run,
        Nothing,
    ];
    play(alloc, LIMITS, &steps)
}

#[test]
fn a_lost_context_is_told(rt: HostRuntime) -> Result<(), Wrong> {
    let run = raw(Reason::ContextLost(1), ONE_AND_A_HALF, 0);
    across_a_loss(
        rt.alloc(),
        context_given(THREE_SECONDS, 3, CHANGED, PLAIN),
        run,
    )
}

#[test]
fn a_loss_that_changed_nothing_is_healed(rt: HostRuntime) -> Result<(), Wrong> {
    let run = bound(ONE_AND_A_HALF, 0, 1, ONE_AND_A_HALF, PLAIN, 16);
    across_a_loss(
        rt.alloc(),
        context_given(THREE_SECONDS, 3, UNCHANGED, PLAIN),
        run,
    )
}

#[test]
fn a_loss_before_other_fields_is_not_healed(rt: HostRuntime) -> Result<(), Wrong> {
    let run = raw(Reason::ContextLost(1), ONE_AND_A_HALF, 0);
    across_a_loss(
        rt.alloc(),
        context_given(THREE_SECONDS, 3, UNCHANGED, OTHER_GAIN),
        run,
    )
}

#[test]
fn two_lost_contexts_are_not_healed(rt: HostRuntime) -> Result<(), Wrong> {
    let run = raw(Reason::ContextLost(2), ONE_AND_A_HALF, 0);
    across_a_loss(
        rt.alloc(),
        context_given(THREE_SECONDS, 4, UNCHANGED, PLAIN),
        run,
    )
}

// Contexts at 0 s, this one, and at 2 s, and then four samples from 0 s on, at 2 Hz, which leave
// with these runs.
pub(crate) fn across_a_context(
    alloc: Global,
    second: Step,
    first_run: Step,
    second_run: Step,
) -> Result<(), Wrong> {
    let steps = [
        context_given(START, 0, CHANGED, SLOW),
        second,
        context_given(TWO_SECONDS, 2, CHANGED, SLOW),
        data_given(START, 0, FOUR),
        packet_leaves(0),
        first_run,
        second_run,
        Nothing,
    ];
    play(alloc, LIMITS, &steps)
}

#[test]
fn samples_on_both_sides_of_a_context_are_two_runs(rt: HostRuntime) -> Result<(), Wrong> {
    let second = context_given(ONE_SECOND, 1, CHANGED, SLOW_OTHER_GAIN);
    let first_run = bound(START, 0, 2, START, SLOW, 16);
    let second_run = bound(START, 2, 2, ONE_SECOND, SLOW_OTHER_GAIN, 16);
    across_a_context(rt.alloc(), second, first_run, second_run)
}

#[test]
fn a_context_at_the_last_sample_has_that_sample(rt: HostRuntime) -> Result<(), Wrong> {
    let second = context_given(ONE_AND_A_HALF, 1, CHANGED, SLOW_OTHER_GAIN);
    let first_run = bound(START, 0, 3, START, SLOW, 16);
    let second_run = bound(START, 3, 1, ONE_AND_A_HALF, SLOW_OTHER_GAIN, 16);
    across_a_context(rt.alloc(), second, first_run, second_run)
}

#[test]
fn a_run_is_written_in_place(rt: HostRuntime) -> Result<(), &'static str> {
    let mut player = Player::open(rt.alloc(), LIMITS)?;
    give_context(&mut player, START, 0, CHANGED, SLOW, None)?;
    give_context(&mut player, ONE_SECOND, 1, CHANGED, SLOW_OTHER_GAIN, None)?;
    give_context(&mut player, TWO_SECONDS, 2, CHANGED, SLOW, None)?;
    give_data(&mut player, rt.alloc(), START, 0, &FOUR)?;
    let first_run = run_of(&bound(START, 0, 2, START, SLOW, 16))?;
    let second_run = run_of(&bound(START, 2, 2, ONE_SECOND, SLOW_OTHER_GAIN, 16))?;
    let mut run = Run::blank();
    check(player.next_into(&mut run) == Kind::Packet(0), "no packet")?;
    check(run == Run::blank(), "a packet was written")?;
    check(player.next_into(&mut run) == Kind::Run, "no first run")?;
    check(run == first_run, "another first run")?;
    check(player.next_into(&mut run) == Kind::Run, "no second run")?;
    check(run == second_run, "another second run")?;
    check(player.next_into(&mut run) == Kind::Nothing, "something")?;
    check(run == second_run, "nothing was written")
}

#[test]
fn samples_at_another_rate_are_uncertain(rt: HostRuntime) -> Result<(), Wrong> {
    let second = context_given(ONE_SECOND, 1, CHANGED, FASTER);
    let first_run = bound(START, 0, 2, START, SLOW, 16);
    let second_run = uncertain(Reason::FormatChanged, START, 2, 2, ONE_SECOND, 16);
    across_a_context(rt.alloc(), second, first_run, second_run)
}

#[test]
fn the_longest_packet_is_cut_at_each_context(rt: HostRuntime) -> Result<(), Wrong> {
    let steps = [
        context_given(START, 0, CHANGED, LONG),
        context_given(HALF_PAST, 1, CHANGED, LONG_OTHER_GAIN),
        context_given(ONE_SECOND, 2, CHANGED, LONG),
        context_given(THREE_SECONDS, 3, CHANGED, LONG),
        data_given(START, 0, LONGEST),
        packet_leaves(0),
        bound(START, 0, 16_369, START, LONG, 4),
        bound(START, 16_369, 16_369, HALF_PAST, LONG_OTHER_GAIN, 4),
        bound(START, 32_738, 32_738, ONE_SECOND, LONG, 4),
        Nothing,
    ];
    play(rt.alloc(), LIMITS, &steps)
}

#[test]
fn the_first_leaves_where_too_many_wait(rt: HostRuntime) -> Result<(), Wrong> {
    let steps = [
        context_given(START, 0, CHANGED, PLAIN),
        data_given(START, 0, ONE),
        data_given(ONE_SECOND, 1, ONE),
        Nothing,
        data_given(TWO_SECONDS, 2, ONE),
        packet_leaves(0),
        raw(Reason::PendingFull, START, 0),
        Nothing,
        End,
        packet_leaves(0),
        raw(Reason::Ended, ONE_SECOND, 0),
        packet_leaves(0),
        raw(Reason::Ended, TWO_SECONDS, 0),
        Nothing,
    ];
    play(rt.alloc(), TWO_WAIT, &steps)
}

#[test]
fn an_open_tail_is_uncertain_where_too_many_wait(rt: HostRuntime) -> Result<(), Wrong> {
    let steps = [
        context_given(START, 0, CHANGED, SLOW),
        context_given(ONE_SECOND, 1, CHANGED, SLOW),
        data_given(START, 0, FOUR),
        Nothing,
        data_given(TWO_SECONDS, 1, ONE),
        packet_leaves(0),
        bound(START, 0, 2, START, SLOW, 16),
        uncertain(Reason::PendingFull, START, 2, 2, ONE_SECOND, 16),
        Nothing,
    ];
    play(rt.alloc(), ONE_WAITS, &steps)
}

#[test]
fn a_context_that_is_no_longer_kept_is_told(rt: HostRuntime) -> Result<(), Wrong> {
    let steps = [
        context_given(START, 0, CHANGED, PLAIN),
        context_given(ONE_SECOND, 1, CHANGED, PLAIN),
        context_given(TWO_SECONDS, 2, CHANGED, PLAIN),
        data_given(HALF_PAST, 0, ONE),
        packet_leaves(0),
        raw(Reason::TimelineFull, HALF_PAST, 0),
        Nothing,
    ];
    play(rt.alloc(), TWO_KEPT, &steps)
}

#[test]
fn a_packet_before_the_first_context_leaves_with_it(rt: HostRuntime) -> Result<(), Wrong> {
    let steps = [
        data_given(BEFORE, 0, ONE),
        Nothing,
        context_given(START, 0, CHANGED, PLAIN),
        packet_leaves(0),
        raw(Reason::BeforeFirst, BEFORE, 0),
        Nothing,
        context_given(ONE_SECOND, 1, CHANGED, PLAIN),
        Nothing,
    ];
    play(rt.alloc(), LIMITS, &steps)
}

#[test]
fn a_packet_with_no_context_leaves_at_the_end(rt: HostRuntime) -> Result<(), Wrong> {
    let steps = [
        data_given(START, 0, ONE),
        Nothing,
        End,
        packet_leaves(0),
        raw(Reason::Ended, START, 0),
        Nothing,
    ];
    play(rt.alloc(), LIMITS, &steps)
}

#[test]
fn a_payload_that_does_not_divide_leaves_whole(rt: HostRuntime) -> Result<(), Wrong> {
    let steps = [
        context_given(START, 0, CHANGED, NARROW),
        context_given(TWO_SECONDS, 1, CHANGED, NARROW),
        data_given(START, 0, TWENTY_BITS),
        packet_leaves(0),
        raw(Reason::Shape, START, 12),
        Nothing,
        data_given(HALF_PAST, 1, SIXTEEN_BITS),
        packet_leaves(0),
        bound(HALF_PAST, 0, 2, HALF_PAST, NARROW, 4),
        Nothing,
    ];
    play(rt.alloc(), LIMITS, &steps)
}

// Two packets with these counts, of which the second leaves with so many lost before it.
pub(crate) fn across_lost_packets(alloc: Global, counts: [u8; 2], lost: u8) -> Result<(), Wrong> {
    let steps = [
        context_given(START, 0, CHANGED, PLAIN),
        context_given(THREE_SECONDS, 1, CHANGED, PLAIN),
        data_given(START, counts[0], ONE),
        packet_leaves(0),
        bound(START, 0, 1, START, PLAIN, 16),
        data_given(ONE_SECOND, counts[1], ONE),
        packet_leaves(lost),
        bound(ONE_SECOND, 0, 1, ONE_SECOND, PLAIN, 16),
        Nothing,
    ];
    play(alloc, LIMITS, &steps)
}

#[test]
fn the_number_of_packets_lost_is_told(rt: HostRuntime) -> Result<(), Wrong> {
    across_lost_packets(rt.alloc(), [15, 2], 2)
}

#[test]
fn a_late_packet_comes_back(rt: HostRuntime) -> Result<(), Wrong> {
    let steps = [
        data_given(ONE_SECOND, 0, ONE),
        data_turned(START, 1, TWO, Answer::Late(ONE_SECOND)),
        data_turned(ONE_SECOND, 0, ONE, Answer::Late(ONE_SECOND)),
        data_given(TWO_SECONDS, 1, ONE),
        Nothing,
    ];
    play(rt.alloc(), LIMITS, &steps)
}

#[test]
fn a_held_packet_turns_a_repeat_and_a_conflict_away(rt: HostRuntime) -> Result<(), Wrong> {
    let steps = [
        data_given(START, 3, ONE),
        data_turned(START, 3, ONE, Answer::Repeat),
        data_turned(START, 5, ONE, Answer::Conflict(3)),
        data_turned(START, 3, TWO, Answer::Conflict(3)),
        Nothing,
    ];
    play(rt.alloc(), ONE_HELD, &steps)
}

#[test]
fn a_late_context_is_turned_away(rt: HostRuntime) -> Result<(), Wrong> {
    let steps = [
        context_given(ONE_SECOND, 0, CHANGED, PLAIN),
        context_turned(START, 1, CHANGED, PLAIN, Answer::Late(ONE_SECOND)),
        context_given(TWO_SECONDS, 1, CHANGED, PLAIN),
        Nothing,
    ];
    play(rt.alloc(), LIMITS, &steps)
}

#[test]
fn a_held_context_turns_a_repeat_and_a_conflict_away(rt: HostRuntime) -> Result<(), Wrong> {
    let steps = [
        context_given(START, 3, CHANGED, PLAIN),
        context_turned(START, 3, CHANGED, PLAIN, Answer::Repeat),
        context_turned(START, 5, CHANGED, PLAIN, Answer::Conflict(3)),
        context_turned(START, 3, UNCHANGED, PLAIN, Answer::Conflict(3)),
        context_turned(START, 3, CHANGED, OTHER_GAIN, Answer::Conflict(3)),
        Nothing,
    ];
    play(rt.alloc(), ONE_HELD, &steps)
}

#[test]
fn what_is_held_leaves_in_order_at_the_end(rt: HostRuntime) -> Result<(), Wrong> {
    let steps = [
        context_given(START, 0, CHANGED, PLAIN),
        context_given(ONE_SECOND, 1, CHANGED, OTHER_GAIN),
        context_given(THREE_SECONDS, 2, CHANGED, PLAIN),
        data_given(ONE_SECOND, 1, ONE),
        Nothing,
        data_given(START, 0, ONE),
        packet_leaves(0),
        bound(START, 0, 1, START, PLAIN, 16),
        Nothing,
        data_given(TWO_SECONDS, 2, TWO),
        Nothing,
        End,
        packet_leaves(0),
        bound(ONE_SECOND, 0, 1, ONE_SECOND, OTHER_GAIN, 16),
        packet_leaves(0),
        bound(TWO_SECONDS, 0, 2, TWO_SECONDS, OTHER_GAIN, 16),
        Nothing,
    ];
    play(rt.alloc(), ONE_HELD, &steps)
}
