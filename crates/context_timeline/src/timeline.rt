ghost use Rattle.std.specs.Prelude.{◌≡◌, ℕ, ◌+◌, ◌<◌, ◌≤◌, ◌^◌, ◌↔◌, List, [], ◌∷◌, ◌++◌, IsTrue, IsNone, IfOk, IfSome};
ghost use Rattle.vrt_time.specs.Time.{moment_of};
ghost use Rattle.difi_context.specs.Context.{IsInGrammar};
ghost use Rattle.context_timeline.specs.declared.timed_context.TimedContext.{TimedContext};
ghost use Rattle.context_timeline.specs.State.{state_of, with_context, timed_context, stamp_in, horizon_of};
ghost use Rattle.context_timeline.specs.Marks.{mark_in, next_stamp};
ghost use Rattle.context_timeline.specs.Looks.{mark_of};
ghost use Rattle.context_timeline.specs.AllContexts.{IsMark};

use crate::look::Look;
use crate::mark::Mark;
use crate::search::{count_not_after, look_and_next};
use crate::timed_context::TimedContext;
use circular_buffer::HeapCircularBuffer;
use difi_context::ContextRec;
use std::alloc::Global;
use std::marker::Model;
use vrt_time::{Moment, Stamp};
use vrt_words::NoMemory;

/// The contexts of one stream in the order in which they were released, their stamps rising. The
/// last ones are kept, up to a number that is set at opening.
///
/// It takes all its memory at opening.
#[derive(Drop)]
pub struct Timeline {
    kept: HeapCircularBuffer<TimedContext>,
    added: u64,
}

impl Model for Timeline {
    ghost use Rattle.context_timeline.specs.State.{TimelineState, IsTimelineState, state_of_kept};

    ghost Value = { TimelineState };

    ghost view = { λ timeline. state_of_kept timeline.kept.capacity timeline.added timeline.kept.items };

    ghost invariant = { λ timeline. IsTimelineState (state_of_kept timeline.kept.capacity timeline.added timeline.kept.items) };
}

impl Timeline {
    /// A timeline without contexts, that keeps the last `kept` of those that will be added.
    pub fn open(alloc: Global, kept: u32) -> Result<Timeline, NoMemory>
        requires least { 2 ≤ kept }
        requires most { kept ≤ 4096 }
        ensures { IfOk result (λ timeline. timeline ≡ state_of kept []) }
    {
        match HeapCircularBuffer::with_capacity(alloc, kept as usize) {
            Ok(kept) => Ok(Timeline { kept, added: 0 }),
            Err(_) => Err(NoMemory),
        }
    }

    /// Adds a context, before which so many were lost. Where as many are kept as may be, the first of
    /// these is kept no longer.
    pub fn add(&mut self, rec: &ContextRec, lost: u8)
        requires grammar { IsInGrammar rec.now }
        requires later { IfSome (horizon_of self.old) (λ horizon.
            moment_of horizon < moment_of (stamp_in rec.now.prologue.stamp)) }
        requires room { self.old.added + 1 < 2 ^ 64 }
        ensures one_more { self.new ≡ with_context self.old (timed_context rec.now lost) }

        // Over all contexts that were ever added.
        ensures history { (contexts : List TimedContext)
            → self.old ≡ state_of self.old.limit contexts
            → self.new ≡ state_of self.old.limit (contexts ++ timed_context rec.now lost ∷ []) }
    {
        let context = TimedContext {
            stamp: rec.stamp(),
            changed: rec.changed,
            fields: rec.fields,
            lost,
        };
        let _ = self.kept.push_back(context);
        self.added += 1;
    }

    /// What the contexts say of a moment.
    pub fn mark(&self, moment: Moment) -> Mark
        ensures mark { result ≡ mark_in self.now moment }

        // Over all contexts that were ever added.
        ensures history { (contexts : List TimedContext)
            → self.now ≡ state_of self.now.limit contexts
            → IsMark self.now.limit contexts moment result }
    {
        self.mark_until(moment).0
    }

    /// What the contexts say of a moment, and the stamp up to which they say the same of every later
    /// moment, that of the first kept context after it. `None` where there is no such context: the
    /// mark is then `Open`, and `Open` for all later moments.
    pub fn mark_until(&self, moment: Moment) -> (Mark, Option<Stamp>)
        ensures mark { result.0 ≡ mark_in self.now moment }
        ensures until { result.1 ≡ next_stamp self.now.kept moment }
        ensures same { (later : ℕ) → moment ≤ later
            → IfSome result.1 (λ stamp. later < moment_of stamp)
            → mark_in self.now later ≡ result.0 }
        ensures history { (contexts : List TimedContext)
            → self.now ≡ state_of self.now.limit contexts
            → IsMark self.now.limit contexts moment result.0 }
    {
        let (look, until) = self.look_until(moment);
        (look.mark(), until)
    }

    /// What `mark_until` tells, with the fields of a context in force lent.
    #[inline]
    pub fn look_until(&self, moment: Moment) -> (Look<'_>, Option<Stamp>)
        ensures mark { mark_of result.0 ≡ mark_in self.now moment }
        ensures until { result.1 ≡ next_stamp self.now.kept moment }
        ensures same { (later : ℕ) → moment ≤ later
            → IfSome result.1 (λ stamp. later < moment_of stamp)
            → mark_in self.now later ≡ mark_of result.0 }
        ensures history { (contexts : List TimedContext)
            → self.now ≡ state_of self.now.limit contexts
            → IsMark self.now.limit contexts moment (mark_of result.0) }
    {
        let count = count_not_after(&self.kept, moment);
        look_and_next(&self.kept, self.added, count)
    }

    /// The stamp of the last context. `None` exactly where none was added.
    pub fn horizon(&self) -> Option<Stamp>
        ensures stamp { result ≡ horizon_of self.now }
        ensures none { IsNone result ↔ (self.now.added ≡ 0) }
    {
        self.kept.back().map(|context| context.stamp)
    }

    /// Whether more contexts were added than are kept.
    pub fn has_dropped(&self) -> bool
        ensures { IsTrue result ↔ (self.now.limit < self.now.added) }
    {
        (self.kept.capacity() as u64) < self.added
    }
}
