ghost use Rattle.std.specs.Prelude.{◌≡◌, ◌<◌, ◌≤◌, ◌⊎◌, ℕ, true, false, IfSome, ◌∷◌};
ghost use Rattle.vrt_time.specs.Time.{moment_of, capture_at};
ghost use Rattle.context_timeline.specs.Marks.{mark_in};
ghost use Rattle.context_timeline.specs.Looks.{mark_of};
ghost use Rattle.sample_binder.specs.Samples.{rate_in};
ghost use Rattle.sample_binder.specs.Sound.{HasSampling};
ghost use Rattle.sample_binder.specs.Runs.{label_at, label_by, same_label, starts, run_at, run_by, cut_from};
ghost use Rattle.sample_binder.specs.Stretches.{IsPassedBy, IsStretch, GoesOn};
ghost use Rattle.sample_binder.specs.declared.give.Leaving.TheVariants as Leaving;
ghost use Rattle.sample_binder.specs.Left.{runs_left, runs_left_of, rest_from, IsLeaving, StartsStretch};

use crate::label::{has_same_sampling, is_same, label_of, reason_of};
use crate::out::Run;
use crate::reason::Reason;
use crate::sampling::{Sampled, captured, rate_of, samples_before, size_of};
use context_timeline::{Look, Timeline};
use vrt_time::Stamp;

// How many of the samples were captured before the stamp, if there is one.
fn passed_by(samples: &Sampled, until: Option<Stamp>) -> u32
    requires sampling { HasSampling samples.now.fields }
    requires some { 0 < samples.now.number }
    requires later { IfSome until (λ until. moment_of samples.now.stamp < moment_of until) }
    ensures { IsPassedBy samples.now until result }
{
    match until {
        Some(until) => samples_before(
            samples.stamp,
            rate_of(&samples.fields),
            samples.number,
            until,
        ),
        None => samples.number,
    }
}

// What is said of a sample, and the first sample behind it of which another may be said, or the
// number of samples.
fn look_end<'a>(timeline: &'a Timeline, samples: &Sampled, sample: u32) -> (Look<'a>, u32)
    requires sampling { HasSampling samples.now.fields }
    requires there { sample < samples.now.number }
    ensures mark { mark_of result.0
        ≡ mark_in timeline.now (capture_at samples.now.stamp sample (rate_in samples.now.fields)) }
    ensures later { sample < result.1 }
    ensures within { result.1 ≤ samples.now.number }
    ensures same { (m : ℕ) → sample ≤ m → m < result.1
        → mark_in timeline.now (capture_at samples.now.stamp m (rate_in samples.now.fields))
        ≡ mark_of result.0 }
{
    let at = captured(samples.stamp, sample, rate_of(&samples.fields));
    let (look, until) = timeline.look_until(at);
    (look, passed_by(samples, until))
}

// What is said of a sample, and the first sample behind it that has another label, or the number
// of samples.
#[inline]
pub(crate) fn stretch<'a>(
    timeline: &'a Timeline,
    samples: &Sampled,
    why: Reason,
    first: u32,
) -> (Look<'a>, u32)
    requires sampling { HasSampling samples.now.fields }
    requires there { first < samples.now.number }
    ensures { IsStretch (label_at timeline.now why samples.now.stamp samples.now.fields)
        samples.now.number first
        (label_by samples.now.fields why (mark_of result.0)) result.1 }
{
    let (look, end) = look_end(timeline, samples, first);
    if end >= samples.number {
        return (look, end);
    }
    (look, end_from(timeline, samples, why, look, end))
}

// The first sample from this one on that has another label than one of which this is said, or the
// number of samples.
#[inline(never)]
fn end_from(timeline: &Timeline, samples: &Sampled, why: Reason, look: Look<'_>, from: u32) -> u32
    requires sampling { HasSampling samples.now.fields }
    requires within { from ≤ samples.now.number }
    ensures { GoesOn (label_at timeline.now why samples.now.stamp samples.now.fields)
        samples.now.number from
        (label_by samples.now.fields why (mark_of look.entry)) result }
{
    let label = label_of(&samples.fields, why, look);
    let mut end = from;
    while end < samples.number {
        let (found, next) = look_end(timeline, samples, end);
        let other = label_of(&samples.fields, why, found);
        if !is_same(&label, &other) {
            return end;
        }
        end = next;
    }
    end
}

// Writes the stretch from this sample on as a run: the first sample behind it, or the number of
// samples.
#[inline]
pub(crate) fn next_stretch(
    timeline: &Timeline,
    why: Reason,
    samples: &Sampled,
    first: u32,
    run: &mut Run,
) -> u32
    requires { StartsStretch timeline.now why samples.now first }
    ensures runs { runs_left timeline.now why (Leaving.Cut samples.now first)
        ≡ run.new ∷ runs_left_of timeline.now why (rest_from samples.now result) }
    ensures rest { IfSome (rest_from samples.now result) (IsLeaving timeline.now why) }
{
    let (look, end) = stretch(timeline, samples, why, first);
    put_run(samples, first, end - first, why, look, run);
    end
}

// Writes so many samples as a run, of the first of which this is said.
#[inline]
fn put_run(samples: &Sampled, first: u32, number: u32, why: Reason, look: Look<'_>, run: &mut Run)
    requires { HasSampling samples.now.fields }
    ensures { run.new ≡ run_by (label_by samples.now.fields why (mark_of look.entry))
        samples.now.stamp samples.now.fields (first, number) }
{
    let at = captured(samples.stamp, first, rate_of(&samples.fields));
    let bits = size_of(&samples.fields);
    match look {
        Look::Bound { place: _, fields } if has_same_sampling(&samples.fields, fields) => {
            *run = Run::Bound {
                stamp: samples.stamp,
                first,
                number,
                at,
                fields: *fields,
                bits,
            };
        }
        _ => {
            *run = Run::Uncertain {
                reason: reason_of(why, look),
                stamp: samples.stamp,
                first,
                number,
                at,
                bits,
            };
        }
    }
}
