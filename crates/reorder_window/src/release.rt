ghost use Rattle.std.specs.Prelude.{◌≡◌, ◌≤◌, ◌<◌, ◌+◌, [], length, insert, IfNone, IfSome};
ghost use Rattle.std.specs.VecDeque.{deque_len, deque_capacity};
ghost use Rattle.reorder_window.specs.State.{HoldingFits};
ghost use Rattle.reorder_window.specs.Steps.{lost_after, IsGiven, IsKept, IsReleased};

use crate::arrival::Arrival;
use crate::entry::{Entry, Last};
use std::collections::VecDeque;
use vrt_time::Stamp;

// The number lost before a packet of this count, where the last one was released before it.
pub(crate) fn lost_before(last: &Option<Last>, count: u8) -> u8
    ensures { result ≡ lost_after last.now count }
{
    match last {
        Some(last) => (count % 16 + 15 - last.count % 16) % 16,
        None => 0,
    }
}

// Takes the least of the held, which is the last, if there is one, with the number lost before it.
pub(crate) fn take_least<T>(
    held: &mut VecDeque<Entry<T>>,
    last: &mut Option<Last>,
) -> Option<(Stamp, u8, T)>
    ensures least { IfSome result (IsGiven held.old.items last.old held.new.items last.new) }
    ensures none { IfNone result ((held.old.items ≡ []) × (held.new.items ≡ [])
        × (last.new ≡ last.old)) }
    ensures room { deque_capacity held.new ≡ deque_capacity held.old }
    ensures counted { deque_len held.old ≡ length held.old.items
        → deque_len held.new ≡ length held.new.items }
    ensures fewer { deque_len held.new ≤ deque_len held.old }
    ensures one_less { 0 < deque_len held.old → deque_len held.new + 1 ≡ deque_len held.old }
{
    let least = held.pop_back()?;
    let lost = lost_before(last, least.count);
    *last = Some(Last {
        stamp: least.stamp,
        count: least.count,
    });
    Some((least.stamp, lost, least.item))
}

// Puts a packet at its place among the held: the latest of all, as packets in order are, in front.
fn put_at<T>(held: &mut VecDeque<Entry<T>>, place: usize, packet: Entry<T>)
    requires room { deque_len held.old < deque_capacity held.old }
    requires counted { deque_len held.old ≡ length held.old.items }
    requires among { place ≤ deque_len held.old }
    ensures items { held.new.items ≡ insert held.old.items place packet }
    ensures longer { deque_len held.new ≡ deque_len held.old + 1 }
    ensures capacity { deque_capacity held.old ≤ deque_capacity held.new }
{
    if place == 0 {
        return held.push_front_reserved(packet);
    }
    match held.insert(place, packet) {
        Ok(()) => (),
        Err(_) => unreachable!(),
    }
}

// Puts an accepted packet at its place among the held, and releases the least where they are more
// than the size.
pub(crate) fn accept<T>(
    held: &mut VecDeque<Entry<T>>,
    last: &mut Option<Last>,
    size: u32,
    place: usize,
    packet: Entry<T>,
) -> Arrival<T>
    requires room { HoldingFits (length held.old.items) (deque_len held.old) size
        (deque_capacity held.old) }
    requires among { place ≤ deque_len held.old }
    ensures kept { deque_len held.old < size
        → IsKept (insert held.old.items place packet) last.old held.new.items last.new result }
    ensures released { size ≤ deque_len held.old
        → IsReleased (insert held.old.items place packet) last.old held.new.items last.new result }
    ensures room { HoldingFits (length held.new.items) (deque_len held.new) size
        (deque_capacity held.new) }
{
    put_at(held, place, packet);
    if held.len() <= size as usize {
        return Arrival::Kept;
    }
    match take_least(held, last) {
        Some((stamp, lost, item)) => Arrival::Released { stamp, lost, item },
        None => unreachable!(),
    }
}
