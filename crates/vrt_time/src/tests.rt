use super::*;
use std::test::Fail;

#[test]
fn a_fraction_is_below_a_second(rt: HostRuntime) -> Result<(), Fail> {
    let last = Stamp::of_parts(7, 232, 3_567_587_327).ok_or("below a second")?;
    assert_eq!(rt; last.seconds(), 7);
    assert_eq!(rt; last.picos(), 999_999_999_999);
    assert_eq!(rt; last.moment().picos(), 7_999_999_999_999);
    assert!(rt; Stamp::of_parts(7, 232, 3_567_587_328).is_none());
    assert!(rt; Stamp::of_parts(7, 233, 0).is_none());
    assert!(rt; Stamp::of_picos(7, 1_000_000_000_000).is_none());
    Ok(())
}

#[test]
fn stamps_are_in_the_order_of_their_moments(rt: HostRuntime) -> Result<(), Fail> {
    let early = Stamp::of_picos(1, 5).ok_or("early")?;
    let late = Stamp::of_picos(1, 6).ok_or("late")?;
    let next = Stamp::of_picos(2, 0).ok_or("next")?;
    stamps_compare_as_moments();
    assert!(rt; early < late);
    assert!(rt; late < next);
    assert!(rt; late.moment() < next.moment());
    assert!(rt; early == Stamp::of_parts(1, 0, 5).ok_or("parts")?);
    Ok(())
}

#[test]
fn no_error_adds_up_at_three_hertz(rt: HostRuntime) -> Result<(), Fail> {
    let start = Stamp::of_picos(0, 0).ok_or("start")?;
    let rate = 3 << 20;
    assert_eq!(rt; capture(start, 1, rate).picos(), 333_333_333_333);
    assert_eq!(rt; capture(start, 2, rate).picos(), 666_666_666_666);
    assert_eq!(rt; capture(start, 3, rate), Moment::of(1_000_000_000_000));
    Ok(())
}

#[test]
fn a_stamp_has_three_words(rt: HostRuntime) -> Result<(), Fail> {
    let last = Stamp::of_picos(7, 999_999_999_999).ok_or("last")?;
    assert_eq!(rt; last.parts(), [7, 232, 3_567_587_327]);
    let carried = Stamp::of_picos(u32::MAX, 4_294_967_296).ok_or("carried")?;
    assert_eq!(rt; carried.parts(), [u32::MAX, 1, 0]);
    let below = Stamp::of_picos(0, 4_294_967_295).ok_or("below")?;
    assert_eq!(rt; below.parts(), [0, 0, u32::MAX]);
    Ok(())
}

#[test]
fn moments_are_in_the_order_of_their_numbers(rt: HostRuntime) {
    moments_compare_as_numbers();
    let carried = Moment::of(1 << 64);
    assert!(rt; Moment::of(u128::from(u64::MAX)) < carried);
    assert!(rt; carried < Moment::of((1 << 64) + 1));
    assert!(rt; carried == Moment::of(1 << 64));
}

// At 2 Hz from 1 s on, samples are captured at 1, 1.5, 2 and 2.5 s.
#[test]
fn a_sample_captured_at_the_moment_is_not_before_it(rt: HostRuntime) -> Result<(), Fail> {
    let start = Stamp::of_picos(1, 0).ok_or("start")?;
    let rate = 2 << 20;
    let second = 1_000_000_000_000;
    assert_eq!(rt; captured_before(start, rate, 4, Moment::of(2 * second)), 2);
    assert_eq!(rt;
        captured_before(start, rate, 4, Moment::of(2 * second + 1)),
        3
    );
    assert_eq!(rt; captured_before(start, rate, 4, Moment::of(second)), 0);
    assert_eq!(rt; captured_before(start, rate, 4, Moment::of(second + 1)), 1);
    assert_eq!(rt; captured_before(start, rate, 4, Moment::of(0)), 0);
    assert_eq!(rt; captured_before(start, rate, 4, Moment::of(9 * second)), 4);
    assert_eq!(rt; captured_before(start, rate, 0, Moment::of(9 * second)), 0);
    Ok(())
}

// At 3 Hz the second sample is captured a third of a picosecond behind 333,333,333,333 ps.
#[test]
fn a_fraction_of_a_picosecond_is_cut_off(rt: HostRuntime) -> Result<(), Fail> {
    let start = Stamp::of_picos(0, 0).ok_or("start")?;
    let rate = 3 << 20;
    assert_eq!(rt;
        captured_before(start, rate, 3, Moment::of(333_333_333_333)),
        1
    );
    assert_eq!(rt;
        captured_before(start, rate, 3, Moment::of(333_333_333_334)),
        2
    );
    Ok(())
}
