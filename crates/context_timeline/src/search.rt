ghost use Rattle.std.specs.Prelude.{◌≡◌, ℕ, ◌+◌, ◌<◌, ◌≤◌, ◌↔◌, IsTrue, true, false, length, slice_index};
ghost use Rattle.context_timeline.specs.State.{IsRising, moments, state_of_kept};
ghost use Rattle.context_timeline.specs.Marks.{healed, mark_before, mark_of_pair};
ghost use Rattle.context_timeline.specs.Looks.{mark_of};
ghost use Rattle.context_timeline.specs.Cut.{IsPartitionPoint, mark_at_cut, stamp_at};

use crate::look::Look;
use crate::timed_context::TimedContext;
use circular_buffer::HeapCircularBuffer;
use vrt_time::{Moment, Stamp};

// The number of contexts in front whose stamps are not above the moment. Mostly it is that of all, or one less.
#[inline]
pub(crate) fn count_not_after(kept: &HeapCircularBuffer<TimedContext>, moment: Moment) -> usize
    requires { IsRising (moments kept.now.items) }
    ensures { IsPartitionPoint (moments kept.now.items) moment result }
{
    let number = kept.len();
    if is_reached(kept, number, moment) {
        return number;
    }
    if is_reached(kept, number - 1, moment) {
        return number - 1;
    }
    search_below(kept, number - 2, moment)
}

// Whether the stamps of so many contexts in front are not above the moment. Where not, that of the last of
// these is above it.
#[inline]
fn is_reached(kept: &HeapCircularBuffer<TimedContext>, count: usize, moment: Moment) -> bool
    requires rising { IsRising (moments kept.now.items) }
    requires within { count ≤ length kept.now.items }
    ensures before { result ≡ true → (k : ℕ) → k < count
        → slice_index (moments kept.now.items) k ≤ moment }
    ensures some { result ≡ false → 0 < count }
    ensures behind { result ≡ false → (k : ℕ) → count ≤ k + 1 → k < length (moments kept.now.items)
        → moment < slice_index (moments kept.now.items) k }
{
    count == 0 || is_not_after(kept, count - 1, moment)
}

// How many of the stamps are not above the moment, where those from this index on are above it.
#[inline(never)]
fn search_below(kept: &HeapCircularBuffer<TimedContext>, above: usize, moment: Moment) -> usize
    requires rising { IsRising (moments kept.now.items) }
    requires within { above ≤ length kept.now.items }
    requires behind { (k : ℕ) → above ≤ k → k < length (moments kept.now.items)
        → moment < slice_index (moments kept.now.items) k }
    ensures { IsPartitionPoint (moments kept.now.items) moment result }
{
    let mut low = 0;
    let mut high = above;
    while low < high {
        let middle = low + (high - low) / 2;
        if is_not_after(kept, middle, moment) {
            low = middle + 1;
        } else {
            high = middle;
        }
    }
    low
}

// Whether the stamp of the context at this index is not above the moment.
#[inline]
fn is_not_after(kept: &HeapCircularBuffer<TimedContext>, index: usize, moment: Moment) -> bool
    requires { index < length kept.now.items }
    ensures { IsTrue result ↔ (slice_index (moments kept.now.items) index ≤ moment) }
{
    match kept.get(index) {
        Some(context) => context.stamp.moment() <= moment,
        None => unreachable!(),
    }
}

// What is said of a moment that so many of the kept contexts are not after, and the stamp of the next.
#[inline]
pub(crate) fn look_and_next(
    kept: &HeapCircularBuffer<TimedContext>,
    added: u64,
    count: usize,
) -> (Look<'_>, Option<Stamp>)
    requires added { length kept.now.items ≤ added }
    requires within { count ≤ length kept.now.items }
    ensures mark { mark_of result.0
        ≡ mark_at_cut (state_of_kept kept.now.capacity added kept.now.items) count }
    ensures next { result.1 ≡ stamp_at kept.now.items count }
{
    let Some(after) = kept.get(count) else {
        return (Look::Open, None);
    };
    if count == 0 {
        return (
            before_kept(kept.capacity() as u64, added),
            Some(after.stamp),
        );
    }
    let Some(before) = kept.get(count - 1) else {
        unreachable!()
    };
    let place = added - kept.len() as u64 + (count - 1) as u64;
    (between(place, before, after), Some(after.stamp))
}

// What is said of a moment before all kept contexts.
fn before_kept<'a>(limit: u64, added: u64) -> Look<'a>
    ensures { mark_of result ≡ mark_before limit added }
{
    if limit < added {
        Look::TimelineFull
    } else {
        Look::BeforeFirst
    }
}

// What is said of a moment between two neighbouring contexts, of which the first has this number.
#[inline]
fn between<'a>(place: u64, before: &'a TimedContext, after: &'a TimedContext) -> Look<'a>
    ensures { mark_of result ≡ mark_of_pair place before.now after.now }
{
    if after.lost == 0 || is_healed(before, after) {
        Look::Bound {
            place,
            fields: &before.fields,
        }
    } else {
        Look::Lost(after.lost)
    }
}

// Whether what was lost between two contexts makes no difference.
fn is_healed(before: &TimedContext, after: &TimedContext) -> bool
    ensures { result ≡ healed before.now after.now }
{
    after.lost == 1 && !after.changed && before.fields == after.fields
}
