ghost use Rattle.std.specs.Prelude.{◌≡◌, ◌+◌, true, false, [], ◌∷◌, None, length, IfSome, IfNone};
ghost use Rattle.std.specs.VecDeque.{deque_capacity};
ghost use Rattle.sample_binder.specs.declared.out.Run.{Run};
ghost use Rattle.sample_binder.specs.GivenOut.{out_with};
ghost use Rattle.sample_binder.specs.Left.{runs_left, runs_left_of, IsLeaving};
ghost use Rattle.sample_binder.specs.Outputs.{open_reason, packets_in};
ghost use Rattle.sample_binder.specs.Queue.{AreSound, AreShapes, first_decided};
ghost use Rattle.sample_binder.specs.Steps.{GivesPacket};

use crate::cut::next_stretch;
use crate::out::{Given, Run};
use crate::queue::{Pending, decide_first, why_open};
use crate::reason::Reason;
use crate::sampling::{Sampled, size_of};
use context_timeline::Timeline;
use std::collections::VecDeque;
use vrt_time::Stamp;

/// What is left of a packet that leaves.
#[derive(Clone, Copy)]
pub(crate) enum Leaving {
    /// The packet as a whole.
    Raw {
        reason: Reason,
        stamp: Stamp,
        pad: u8,
    },
    /// All its samples, for which the context of the first is in force.
    Whole {
        samples: Sampled,
    },
    /// Its samples from this one on.
    Cut {
        samples: Sampled,
        first: u32,
    },
}

// Writes the next run of the packet that leaves, if one leaves.
pub(crate) fn give_run(
    timeline: &Timeline,
    leaving: &mut Option<Leaving>,
    ended: bool,
    run: &mut Run,
) -> bool
    requires { IfSome leaving.old (IsLeaving timeline.now (open_reason ended)) }
    ensures given { result ≡ true → runs_left_of timeline.now (open_reason ended) leaving.old
        ≡ run.new ∷ runs_left_of timeline.now (open_reason ended) leaving.new }
    ensures none { result ≡ false → leaving.old ≡ None }
    ensures same { result ≡ false → leaving.new ≡ None }
    ensures still { result ≡ false → run.new ≡ run.old }
    ensures rest { IfSome leaving.new (IsLeaving timeline.now (open_reason ended)) }
{
    let Some(now) = leaving else {
        return false;
    };
    if take_run(timeline, why_open(ended), now, run) {
        *leaving = None;
    }
    true
}

// Writes the next run of a packet that leaves, which is then left without it: whether it is the
// last.
#[inline]
fn take_run(timeline: &Timeline, why: Reason, leaving: &mut Leaving, run: &mut Run) -> bool
    requires { IsLeaving timeline.now why leaving.old }
    ensures last { result ≡ true → runs_left timeline.now why leaving.old ≡ run.new ∷ [] }
    ensures more { result ≡ false → runs_left timeline.now why leaving.old
        ≡ run.new ∷ runs_left timeline.now why leaving.new }
    ensures rest { result ≡ false → IsLeaving timeline.now why leaving.new }
{
    match leaving {
        Leaving::Raw { reason, stamp, pad } => {
            *run = Run::Raw {
                reason: *reason,
                stamp: *stamp,
                pad: *pad,
            };
            true
        }
        Leaving::Whole { samples } => {
            *run = Run::Bound {
                stamp: samples.stamp,
                first: 0,
                number: samples.number,
                at: samples.stamp.moment(),
                fields: samples.fields,
                bits: size_of(&samples.fields),
            };
            true
        }
        Leaving::Cut { samples, first } => {
            let end = next_stretch(timeline, why, samples, *first, run);
            *first = end;
            end >= samples.number
        }
    }
}

// The first of the packets that wait, where it need not wait: it leaves.
pub(crate) fn give_packet(
    timeline: &Timeline,
    queue: &mut VecDeque<Pending>,
    leaving: &mut Option<Leaving>,
    pending: u32,
    ended: bool,
) -> Option<Given>
    requires sound { AreSound timeline.now.kept }
    requires shapes { AreShapes queue.old.items }
    ensures packet { (run : Run) → IfSome (out_with result run) (λ given.
        GivesPacket pending timeline.now ended queue.old.items queue.new.items leaving.new given) }
    ensures kept { (run : Run) → IfSome (out_with result run) (λ given.
        length queue.new.items + packets_in given ≡ length queue.old.items) }
    ensures none { IfNone result (first_decided pending timeline.now ended queue.old.items ≡ None) }
    ensures same_queue { IfNone result (queue.new.items ≡ queue.old.items) }
    ensures same_leaving { IfNone result (leaving.new ≡ None) }
    ensures room { deque_capacity queue.new ≡ deque_capacity queue.old }
{
    if !decide_first(timeline, queue, pending, ended, leaving) {
        return None;
    }
    match queue.pop_front() {
        Some(packet) => Some(given_of(packet)),
        None => unreachable!(),
    }
}

// A packet as it is given.
#[inline]
fn given_of(packet: Pending) -> Given
    ensures { result ≡ Given.Packet packet.buf packet.lost }
{
    let (buf, lost) = packet.into_parts();
    Given::Packet { buf, lost }
}
