ghost use Rattle.std.specs.Prelude.{◌≡◌, ◌+◌, ◌<◌, ◌↔◌, IsTrue, IfOk, OnOk};
ghost use Rattle.vrt_time.specs.Time.{moment_of};
ghost use Rattle.difi_context.specs.Context.{IsInGrammar};

use super::*;
use difi_context::{ContextRec, decode};
use std::test::Fail;
use vrt_header::Profile;
use vrt_time::{Moment, Stamp};
use vrt_words::{Place, put_word};

/// The change bit and the twelve fields, and the fields alone.
const CHANGED: u32 = 0xFBB9_8000;

const UNCHANGED: u32 = 0x7BB9_8000;

// A context of stream 1 at 1,700,000,000 s and so many seconds more, with this CIF0 and this gain.
fn spelled(second: u8, cif0: u32, gain: u32) -> [u8; 108] {
    let mut bytes = [0; 108];
    put_word(&mut bytes, 0, 0x4960_001B);
    put_word(&mut bytes, 1, 1);
    put_word(&mut bytes, 2, 0x006A_621E);
    put_word(&mut bytes, 3, 1);
    put_word(&mut bytes, 4, 1_700_000_000 + u32::from(second));
    put_word(&mut bytes, 7, cif0);
    put_word(&mut bytes, 18, gain);
    put_word(&mut bytes, 19, 0x0000_0055);
    put_word(&mut bytes, 20, 0x7300_0000);
    put_word(&mut bytes, 25, 0xA000_03CF);
    bytes
}

fn context(second: u8, cif0: u32, gain: u32) -> Result<ContextRec, Place>
    ensures { IfOk result IsInGrammar }
{
    match Profile::of(0x6A_621E, 1) {
        Some(profile) => decode(profile, &spelled(second, cif0, gain)),
        None => Err(Place { word: 0 }),
    }
}

fn is_above(horizon: Stamp, stamp: Stamp) -> bool
    ensures { IsTrue result ↔ (moment_of horizon < moment_of stamp) }
{
    horizon.moment() < stamp.moment()
}

// Adds it where it is above the horizon.
fn add_above(timeline: &mut Timeline, rec: &ContextRec, lost: u8) -> Result<(), Fail>
    requires grammar { IsInGrammar rec.now }
    requires few { timeline.old.added < 100 }
    ensures { OnOk result (timeline.new.added ≡ timeline.old.added + 1) }
{
    match timeline.horizon() {
        Some(horizon) => {
            if !is_above(horizon, rec.stamp()) {
                return Err(Fail::from("not above the horizon"));
            }
            timeline.add(rec, lost);
            Ok(())
        }
        None => {
            timeline.add(rec, lost);
            Ok(())
        }
    }
}

// Adds a context, and gives its fields.
fn add(
    timeline: &mut Timeline,
    second: u8,
    cif0: u32,
    gain: u32,
    lost: u8,
) -> Result<[u32; 19], Fail>
    requires { timeline.old.added < 100 }
    ensures { OnOk result (timeline.new.added ≡ timeline.old.added + 1) }
{
    match context(second, cif0, gain) {
        Ok(rec) => {
            add_above(timeline, &rec, lost)?;
            let fields = rec.fields;
            Ok(fields)
        }
        Err(_) => Err(Fail::from("no context")),
    }
}

// So many seconds after 1,700,000,000 s.
fn at(second: u8) -> Moment {
    Moment::of((1_700_000_000 + u128::from(second)) * 1_000_000_000_000)
}

#[test]
fn nothing_is_said_before_any_context(rt: HostRuntime) -> Result<(), Fail> {
    let timeline = Timeline::open(rt.alloc(), 4)?;
    assert_eq!(rt; timeline.mark(at(0)), Mark::Open);
    assert_eq!(rt; timeline.horizon(), None);
    Ok(())
}

#[test]
fn a_moment_is_bound_between_two_contexts(rt: HostRuntime) -> Result<(), Fail> {
    let mut timeline = Timeline::open(rt.alloc(), 4)?;
    let fields = add(&mut timeline, 1, CHANGED, 0, 0)?;
    add(&mut timeline, 2, CHANGED, 0x600, 0)?;
    let bound = Mark::Bound { place: 0, fields };
    let (mark, until) = timeline.mark_until(at(1));
    assert_eq!(rt; mark, bound);
    assert_eq!(rt; until, timeline.horizon());
    assert_eq!(rt;
        timeline.mark(Moment::of(1_700_000_001_999_999_999_999)),
        bound
    );
    assert_eq!(rt; timeline.mark(at(0)), Mark::BeforeFirst);
    assert_eq!(rt; timeline.mark(at(2)), Mark::Open);
    Ok(())
}

#[test]
fn the_fifth_context_of_four_drops_the_first(rt: HostRuntime) -> Result<(), Fail> {
    let mut timeline = Timeline::open(rt.alloc(), 4)?;
    add(&mut timeline, 1, CHANGED, 0, 0)?;
    add(&mut timeline, 2, CHANGED, 0, 0)?;
    add(&mut timeline, 3, CHANGED, 0, 0)?;
    add(&mut timeline, 4, CHANGED, 0, 0)?;
    assert!(rt; !timeline.has_dropped());
    add(&mut timeline, 5, CHANGED, 0, 0)?;
    assert!(rt; timeline.has_dropped());
    assert_eq!(rt; timeline.mark(at(1)), Mark::TimelineFull);
    Ok(())
}

#[test]
fn one_loss_that_changed_nothing_is_healed(rt: HostRuntime) -> Result<(), Fail> {
    let mut timeline = Timeline::open(rt.alloc(), 8)?;
    let fields = add(&mut timeline, 1, CHANGED, 0, 0)?;
    add(&mut timeline, 2, UNCHANGED, 0, 1)?;
    add(&mut timeline, 3, CHANGED, 0, 1)?;
    add(&mut timeline, 4, UNCHANGED, 0x600, 1)?;
    add(&mut timeline, 5, UNCHANGED, 0x600, 2)?;
    assert_eq!(rt; timeline.mark(at(1)), Mark::Bound { place: 0, fields });
    assert_eq!(rt; timeline.mark(at(2)), Mark::Lost(1));
    assert_eq!(rt; timeline.mark(at(3)), Mark::Lost(1));
    assert_eq!(rt; timeline.mark(at(4)), Mark::Lost(2));
    Ok(())
}

#[test]
fn none_is_dropped_where_just_as_many_are_kept(rt: HostRuntime) -> Result<(), Fail> {
    let mut timeline = Timeline::open(rt.alloc(), 2)?;
    add(&mut timeline, 1, CHANGED, 0, 0)?;
    add(&mut timeline, 2, CHANGED, 0, 0)?;
    assert!(rt; !timeline.has_dropped());
    assert_eq!(rt; timeline.mark(at(0)), Mark::BeforeFirst);
    Ok(())
}

#[test]
fn a_context_keeps_its_number_where_earlier_ones_are_dropped(rt: HostRuntime) -> Result<(), Fail> {
    let mut timeline = Timeline::open(rt.alloc(), 2)?;
    add(&mut timeline, 1, CHANGED, 0, 0)?;
    let fields = add(&mut timeline, 2, CHANGED, 0x600, 0)?;
    add(&mut timeline, 3, CHANGED, 0, 0)?;
    assert!(rt; timeline.has_dropped());
    let just_before = Moment::of(1_700_000_001_999_999_999_999);
    assert_eq!(rt; timeline.mark(just_before), Mark::TimelineFull);
    assert_eq!(rt; timeline.mark(at(2)), Mark::Bound { place: 1, fields });
    Ok(())
}

#[test]
fn a_moment_just_below_the_horizon_is_not_open(rt: HostRuntime) -> Result<(), Fail> {
    let mut timeline = Timeline::open(rt.alloc(), 4)?;
    add(&mut timeline, 1, CHANGED, 0, 0)?;
    let just_before = Moment::of(1_700_000_000_999_999_999_999);
    assert_eq!(rt; timeline.mark(just_before), Mark::BeforeFirst);
    assert_eq!(rt; timeline.mark(at(1)), Mark::Open);
    Ok(())
}

#[test]
fn fifteen_contexts_lost_are_told(rt: HostRuntime) -> Result<(), Fail> {
    let mut timeline = Timeline::open(rt.alloc(), 4)?;
    add(&mut timeline, 1, CHANGED, 0, 0)?;
    add(&mut timeline, 2, UNCHANGED, 0, 15)?;
    let just_before = Moment::of(1_700_000_001_999_999_999_999);
    assert_eq!(rt; timeline.mark(just_before), Mark::Lost(15));
    Ok(())
}
