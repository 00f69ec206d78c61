ghost use Rattle.std.specs.Prelude.{◌≡◌, ◌==◌, ◌≤◌, nat_lt, slice_get, option_copied};
ghost use Rattle.std.specs.VecDeque.{deque_len};
ghost use Rattle.vrt_time.specs.Time.{moment_of};
ghost use Rattle.reorder_window.specs.Steps.{late_by, number_above, of_stamp, IsJudged};

use crate::entry::{Entry, Last};
use crate::held_item::HeldItem;
use std::collections::VecDeque;
use vrt_time::Stamp;

/// How an arrival stands to the packets that are held and to the one released last.
pub(crate) enum Judged {
    /// Its stamp is not above this one, that of the packet released last.
    NotAbove(Stamp),
    /// A packet with its stamp and its content is held.
    SameItem,
    /// A packet with its stamp and another content is held, with this count.
    OtherItem(u8),
    /// It is accepted at this place among the held.
    Fresh(usize),
}

// Judges an arrival by the held packets, whose stamps fall, and by the one released last.
pub(crate) fn judge<T: HeldItem>(
    held: &VecDeque<Entry<T>>,
    last: &Option<Last>,
    stamp: Stamp,
    item: &T,
) -> Judged
    ensures { IsJudged T.is_same held.now.items last.now stamp item.now result }
{
    if let Some(boundary) = boundary_over(last, stamp) {
        return Judged::NotAbove(boundary);
    }
    let place = place_of(held, stamp);
    let Some(twin) = twin_at(held, place, stamp) else {
        return Judged::Fresh(place);
    };
    let count = twin.count;
    if twin.item.same(item) {
        Judged::SameItem
    } else {
        Judged::OtherItem(count)
    }
}

// The stamp of the packet released last, where this one is not above it.
fn boundary_over(last: &Option<Last>, stamp: Stamp) -> Option<Stamp>
    ensures { result ≡ late_by last.now stamp }
{
    match last {
        Some(last) if !is_before(last.stamp, stamp) => Some(last.stamp),
        _ => None,
    }
}

// The number of packets with greater stamps, which are the first.
fn place_of<T>(held: &VecDeque<Entry<T>>, stamp: Stamp) -> usize
    ensures number { result ≡ number_above stamp held.now.items }
    ensures within { result ≤ deque_len held.now }
{
    let mut place = 0;
    while let Some(entry) = held.get(place) {
        if !is_before(stamp, entry.stamp) {
            return place;
        }
        place += 1;
    }
    place
}

// The packet at a place, where it is of this stamp.
fn twin_at<T>(held: &VecDeque<Entry<T>>, place: usize, stamp: Stamp) -> Option<&Entry<T>>
    ensures { option_copied result ≡ of_stamp stamp (slice_get held.now.items place) }
{
    match held.get(place) {
        Some(twin) if is_same_moment(twin.stamp, stamp) => Some(twin),
        _ => None,
    }
}

// Whether a stamp is of an earlier moment.
fn is_before(stamp: Stamp, other: Stamp) -> bool
    ensures { result ≡ nat_lt (moment_of stamp) (moment_of other) }
{
    stamp < other
}

// Whether two stamps are of one moment.
fn is_same_moment(stamp: Stamp, other: Stamp) -> bool
    ensures { result ≡ (moment_of stamp == moment_of other) }
{
    stamp == other
}
