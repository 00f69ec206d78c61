ghost use Rattle.std.specs.Prelude.{◌≡◌, ◌-◌, ◌<◌, ◌≤◌, ℕ, is_some, Some, None, true, false};
ghost use Rattle.context_timeline.specs.State.{horizon_of};
ghost use Rattle.context_timeline.specs.Marks.{mark_in, is_below, next_stamp};
ghost use Rattle.vrt_time.specs.Time.{moment_of, capture_at};
ghost use Rattle.sample_binder.specs.Sound.{HasSampling};
ghost use Rattle.sample_binder.specs.Queue.{AreSound, IsShape};
ghost use Rattle.sample_binder.specs.Left.{raw_of, decided, decided_bound};
ghost use Rattle.sample_binder.specs.Samples.{rate_in, size_in, number_of};

use crate::give::Leaving;
use crate::queue::Pending;
use crate::reason::Reason;
use crate::sampling::{Sampled, Shape, is_captured_before, rate_of, samples_of, size_of};
use context_timeline::{Look, Timeline};
use vrt_time::Stamp;

// Writes how a packet leaves, where nothing later can change what is known of it, or where it
// must: whether it leaves.
pub(crate) fn decide(
    timeline: &Timeline,
    packet: &Pending,
    must: bool,
    why: Reason,
    leaving: &mut Option<Leaving>,
) -> bool
    requires sound { AreSound timeline.now.kept }
    requires shape { IsShape packet.now.shape }
    ensures leaving { leaving.new
        ≡ decided timeline.now packet.now.shape must why
        (mark_in timeline.now (moment_of packet.now.shape.stamp)) }
    ensures leaves { result ≡ is_some leaving.new }
{
    let (look, until) = timeline.look_until(packet.stamp().moment());
    match look {
        Look::Open => {
            if must {
                leave_whole(why, &packet.shape(), leaving)
            } else {
                wait(leaving)
            }
        }
        Look::BeforeFirst => leave_whole(Reason::BeforeFirst, &packet.shape(), leaving),
        Look::TimelineFull => leave_whole(Reason::TimelineFull, &packet.shape(), leaving),
        Look::Lost(lost) => leave_whole(Reason::ContextLost(lost), &packet.shape(), leaving),
        Look::Bound { place: _, fields } => {
            decide_bound(timeline, &packet.shape(), must, fields, until, leaving)
        }
    }
}

// The packet leaves as a whole.
#[inline]
fn leave_whole(reason: Reason, shape: &Shape, leaving: &mut Option<Leaving>) -> bool
    ensures leaving { leaving.new ≡ Some (raw_of reason shape.now) }
    ensures leaves { result ≡ true }
{
    *leaving = Some(Leaving::Raw {
        reason,
        stamp: shape.stamp,
        pad: shape.pad,
    });
    true
}

// The packet waits.
#[inline]
fn wait(leaving: &mut Option<Leaving>) -> bool
    ensures leaving { leaving.new ≡ None }
    ensures leaves { result ≡ false }
{
    *leaving = None;
    false
}

// Writes how a packet leaves, and whether it does, whose first sample has a context with these
// fields, which is in force until this stamp.
fn decide_bound(
    timeline: &Timeline,
    shape: &Shape,
    must: bool,
    fields: &[u32; 19],
    until: Option<Stamp>,
    leaving: &mut Option<Leaving>,
) -> bool
    requires sampling { HasSampling fields.now }
    requires shape { IsShape shape.now }
    requires next { until ≡ next_stamp timeline.now.kept (moment_of shape.now.stamp) }
    requires closed { (later : ℕ) → moment_of shape.now.stamp ≤ later → is_below later until ≡ true
        → is_below later (horizon_of timeline.now) ≡ true }
    ensures leaving { leaving.new
        ≡ decided_bound timeline.now shape.now must fields.now
        (number_of shape.now (size_in fields.now)) }
    ensures leaves { result ≡ is_some leaving.new }
{
    let Some(number) = samples_of(shape, size_of(fields)) else {
        return leave_whole(Reason::Shape, shape, leaving);
    };
    let samples = Sampled {
        stamp: shape.stamp,
        fields: *fields,
        number,
    };
    if is_last_before(&samples, until) {
        *leaving = Some(Leaving::Whole { samples });
        true
    } else if is_last_before(&samples, timeline.horizon()) || must {
        *leaving = Some(Leaving::Cut { samples, first: 0 });
        true
    } else {
        wait(leaving)
    }
}

// Whether the last of the samples was captured before the stamp, if there is one.
#[inline]
fn is_last_before(samples: &Sampled, until: Option<Stamp>) -> bool
    requires sampling { HasSampling samples.now.fields }
    requires some { 0 < samples.now.number }
    ensures { result ≡ is_below
        (capture_at samples.now.stamp (samples.now.number - 1) (rate_in samples.now.fields)) until }
{
    match until {
        Some(until) => is_captured_before(
            samples.stamp,
            samples.number - 1,
            rate_of(&samples.fields),
            until,
        ),
        None => false,
    }
}
