ghost use Rattle.std.specs.Prelude.{ℕ, List};
ghost use Rattle.context_timeline.specs.declared.timed_context.TimedContext.{TimedContext};
ghost use Rattle.context_timeline.specs.AllContexts.{IsMark};
ghost use Rattle.context_timeline.specs.State.{IsRising, state_of, moments};
ghost use Rattle.context_timeline.specs.Marks.{mark_in};

/// A law that a proof can cite, for every list of contexts whose last ones, which are kept, have
/// stamps that rise: the mark of a moment among those that are kept says what it says of all.
#[inline]
pub fn marks_speak_of_all_contexts()
    ensures { (limit : ℕ) (contexts : List TimedContext) (moment : ℕ)
        → IsRising (moments (state_of limit contexts).kept)
        → IsMark limit contexts moment (mark_in (state_of limit contexts) moment) }
{}
