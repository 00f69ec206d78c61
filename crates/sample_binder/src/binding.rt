ghost use Rattle.std.specs.Prelude.{◌≡◌, ◌≢◌, ℕ, ◌+◌, ◌<◌, ◌≤◌, ◌^◌, ◌↔◌, suc, true, false, List, [], ◌∷◌, ◌++◌, Some, None, length, slice_get, IsTrue, IfOk, IfSome, IfNone, OnSome, map};
ghost use Rattle.vrt_time.specs.Time.{moment_of};
ghost use Rattle.difi_context.specs.Context.{IsInGrammar};
ghost use Rattle.context_timeline.specs.State.{state_of, with_context, timed_context, stamp_in, horizon_of};
ghost use Rattle.vrt_fields.specs.declared.limits.Limits.{Limits};
ghost use Rattle.sample_binder.specs.Events.{Event, ContextEvent, DataEvent, EndEvent};
ghost use Rattle.sample_binder.specs.GivenOut.{out_with};
ghost use Rattle.sample_binder.specs.Outputs.{outputs, packets_in};
ghost use Rattle.sample_binder.specs.Queue.{owed, StandsFor, IsShape};
ghost use Rattle.sample_binder.specs.Arrivals.{released_list};
ghost use Rattle.sample_binder.specs.Calls.{context_event, data_event};
ghost use Rattle.sample_binder.specs.Given.{IsLater, IsDataBytes};
ghost use Rattle.sample_binder.specs.Released.{with_released, queue_with};

use crate::give::{Leaving, give_packet, give_run};
use crate::out::{Given, Run};
use crate::queue::{Pending, decide_first};
use context_timeline::Timeline;
use difi_context::ContextRec;
use std::alloc::Global;
use std::collections::VecDeque;
use std::marker::Model;
use vrt_time::Stamp;
use vrt_words::{NoMemory, PacketBuf};

/// The timeline of a stream, the data packets that wait for their contexts, and what is left of the
/// one that leaves. One event a call, and what it brings is taken before the next.
#[derive(Drop)]
pub(crate) struct Binding {
    pending: u32,
    timeline: Timeline,
    queue: VecDeque<Pending>,
    leaving: Option<Leaving>,
    ended: bool,
    // Whether the first that waits is known to need another context.
    waits: bool,
}

impl Model for Binding {
    ghost use Rattle.std.specs.VecDeque.{deque_capacity};
    ghost use Rattle.sample_binder.specs.Queue.{State, IsBinding};

    ghost Value = { State };

    ghost view = { λ b. record {
      pending = b.pending;
      line = b.timeline;
      queue = b.queue.items;
      leaving = b.leaving;
      ended = b.ended;
    } };

    ghost invariant = { λ b. IsBinding (record {
      pending = b.pending;
      line = b.timeline;
      queue = b.queue.items;
      leaving = b.leaving;
      ended = b.ended;
    }) (deque_capacity b.queue) b.waits };
}

impl Binding {
    /// One that keeps the last `kept` contexts, and lets so many packets wait.
    pub(crate) fn open(alloc: Global, kept: u32, pending: u32) -> Result<Binding, NoMemory>
        requires least { 2 ≤ kept }
        requires most { kept ≤ 4096 }
        requires few { pending ≤ 1048576 }
        ensures { IfOk result (λ b.
            b ≡ record {
              pending = pending;
              line = state_of kept [];
              queue = [];
              leaving = None;
              ended = false;
            }) }
    {
        let timeline = match Timeline::open(alloc, kept) {
            Ok(timeline) => timeline,
            Err(_) => return Err(NoMemory),
        };
        match VecDeque::with_capacity(alloc, pending as usize + 1) {
            Ok(queue) => Ok(Binding {
                pending,
                timeline,
                queue,
                leaving: None,
                ended: false,
                waits: false,
            }),
            Err(_) => Err(NoMemory),
        }
    }

    /// A context is released, before which so many were lost.
    pub(crate) fn context(&mut self, rec: &ContextRec, lost: u8)
        requires grammar { IsInGrammar rec.now }
        requires later { IfSome (horizon_of self.old.line) (λ horizon.
            moment_of horizon < moment_of (stamp_in rec.now.prologue.stamp)) }
        requires room { self.old.line.added + 1 < 2 ^ 64 }
        requires nothing { owed self.old ≡ [] }
        ensures state { self.new
            ≡ record self.old { line = with_context self.old.line (timed_context rec.now lost) } }
        ensures history { (limits : Limits) (events : List Event) (taken : ℕ)
            → StandsFor self.old limits events taken
            → StandsFor self.new limits
            (events ++ ContextEvent (timed_context rec.now lost) ∷ []) taken }
    {
        self.timeline.add(rec, lost);
        self.waits = false;
    }

    /// A data packet is released.
    pub(crate) fn data(&mut self, packet: Pending)
        requires shape { IsShape packet.shape }
        requires nothing { owed self.old ≡ [] }
        ensures state { self.new ≡ record self.old { queue = self.old.queue ++ packet ∷ [] } }
        ensures history { (limits : Limits) (events : List Event) (taken : ℕ)
            → StandsFor self.old limits events taken
            → StandsFor self.new limits (events ++ DataEvent packet ∷ []) taken }
    {
        // Nothing is owed, so what waits already needs more than one packet behind it.
        self.waits = !self.queue.is_empty();
        self.queue.push_back_reserved(packet);
    }

    /// The stream ends.
    pub(crate) fn end(&mut self)
        requires nothing { owed self.old ≡ [] }
        ensures state { self.new ≡ record self.old { ended = true } }
        ensures history { (limits : Limits) (events : List Event) (taken : ℕ)
            → StandsFor self.old limits events taken
            → StandsFor self.new limits (events ++ EndEvent ∷ []) taken }
    {
        self.ended = true;
    }

    /// The next that is due: a packet, and then its runs, each of which is written. `None` exactly
    /// where nothing is owed.
    pub(crate) fn next_into(&mut self, run: &mut Run) -> Option<Given>
        ensures given { IfSome (out_with result run.new) (λ given.
            owed self.old ≡ given ∷ owed self.new) }
        ensures none { IfNone (out_with result run.new) (owed self.old ≡ []) }
        ensures same { IfNone (out_with result run.new) (self.new ≡ self.old) }
        ensures kept { IfSome (out_with result run.new) (λ given.
            length self.new.queue + packets_in given ≡ length self.old.queue) }
        ensures line { self.new.line ≡ self.old.line }
        ensures limit { self.new.pending ≡ self.old.pending }
        ensures ended { self.new.ended ≡ self.old.ended }
        ensures history { (limits : Limits) (events : List Event) (taken : ℕ)
            → StandsFor self.old limits events taken
            → OnSome (out_with result run.new) (StandsFor self.new limits events (taken + 1)) }
        ensures run { result ≢ Some Given.Run → run.new ≡ run.old }
    {
        if self.still_waits() {
            return None;
        }
        if give_run(&self.timeline, &mut self.leaving, self.ended, run) {
            return Some(Given::Run);
        }
        self.waits = false;
        give_packet(
            &self.timeline,
            &mut self.queue,
            &mut self.leaving,
            self.pending,
            self.ended,
        )
    }

    // Whether it is known with no look at the timeline that nothing is owed.
    #[inline]
    fn still_waits(&self) -> bool
        ensures { result ≡ true → owed self.now ≡ [] }
    {
        self.waits
            && !self.ended
            && self.leaving.is_none()
            && self.queue.len() <= self.pending as usize
    }

    /// Whether something is owed.
    pub(crate) fn owes(&self) -> bool
        ensures owes { IsTrue result ↔ (owed self.now ≢ []) }
        ensures room { length self.now.queue ≤ self.now.pending + 1 }
    {
        if self.leaving.is_some() {
            return true;
        }
        let mut leaving = None;
        decide_first(
            &self.timeline,
            &self.queue,
            self.pending,
            self.ended,
            &mut leaving,
        )
    }

    /// Whether the end has come.
    pub(crate) fn has_ended(&self) -> bool
        ensures { result ≡ self.now.ended }
    {
        self.ended
    }
}

// The context that a window has released, if any, is an event.
pub(crate) fn give_context(binding: &mut Binding, released: Option<(Stamp, u8, ContextRec)>)
    requires later { IfSome released (λ r. IsLater binding.old.line r.2) }
    requires room { binding.old.line.added + 1 < 2 ^ 64 }
    requires nothing { owed binding.old ≡ [] }
    ensures state { binding.new
        ≡ record binding.old { line = with_released binding.old.line released } }
    ensures history { (limits : Limits) (events : List Event) (taken : ℕ)
        → StandsFor binding.old limits events taken
        → StandsFor binding.new limits
        (events ++ map context_event (released_list released)) taken }
{
    if let Some((_, lost, rec)) = released {
        binding.context(&rec, lost);
    }
}

// The data packet that a window has released, if any, is an event.
pub(crate) fn give_data(binding: &mut Binding, released: Option<(Stamp, u8, PacketBuf)>)
    requires front { IfSome released (λ r. IsDataBytes r.2.bytes) }
    requires nothing { owed binding.old ≡ [] }
    ensures state { binding.new
        ≡ record binding.old { queue = queue_with binding.old.queue released } }
    ensures history { (limits : Limits) (events : List Event) (taken : ℕ)
        → StandsFor binding.old limits events taken
        → StandsFor binding.new limits (events ++ map data_event (released_list released)) taken }
{
    if let Some((stamp, lost, buf)) = released {
        binding.data(Pending::new(stamp, lost, buf));
    }
}
