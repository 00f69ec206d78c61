ghost use Rattle.std.specs.Prelude.{◌≡◌, ℕ, ◌+◌, ◌<◌, true, false, List, [], length};
ghost use Rattle.vrt_words.specs.Buffer.{Buffer};
ghost use Rattle.difi_context.specs.declared.context.ContextRec.{ContextRec};
ghost use Rattle.reorder_window.specs.State.{Holding};
ghost use Rattle.vrt_fields.specs.declared.limits.Limits.{Limits};
ghost use Rattle.sample_binder.specs.Calls.{Call};
ghost use Rattle.sample_binder.specs.Queue.{owed};
ghost use Rattle.sample_binder.specs.Binder.{AreContextsSeen, ArePacketsSeen, AreSeen, Follows};
ghost use Rattle.sample_binder.specs.Drained.{MayDrain, Drains, steps_left};

use crate::binding::{Binding, give_context, give_data};
use difi_context::ContextRec;
use reorder_window::{Window, accepted_are_arrivals};
use vrt_words::PacketBuf;

// The least of the held contexts, if there is one, is an event.
fn drain_context(contexts: &mut Window<ContextRec>, binding: &mut Binding) -> bool
    requires seen { MayDrain contexts.old binding.old.line }
    requires nothing { owed binding.old ≡ [] }
    requires running { binding.old.ended ≡ false }
    ensures seen { (kept given : ℕ) → AreContextsSeen kept given contexts.old binding.old.line true
        → AreContextsSeen kept given contexts.new binding.new.line true }
    ensures follows { (limits : Limits) (packets : Holding Buffer) (calls : List Call) (taken : ℕ)
        → Follows limits contexts.old packets binding.old true calls taken
        → Follows limits contexts.new packets binding.new true calls taken }
    ensures size { contexts.new.size ≡ contexts.old.size }
    ensures pending { binding.new.pending ≡ binding.old.pending }
    ensures queue { binding.new.queue ≡ binding.old.queue }
    ensures running { binding.new.ended ≡ false }
    ensures fewer { result ≡ true → length contexts.new.held + 1 ≡ length contexts.old.held }
    ensures none { result ≡ false → contexts.new.held ≡ [] }
    ensures same { result ≡ false → binding.new ≡ binding.old }
    ensures still { result ≡ false → contexts.new ≡ contexts.old }
{
    accepted_are_arrivals::<ContextRec>();
    match contexts.drain_one() {
        Some(released) => {
            give_context(binding, Some(released));
            true
        }
        None => false,
    }
}

// The least of the held data packets, if there is one, is an event.
fn drain_data(packets: &mut Window<PacketBuf>, binding: &mut Binding) -> bool
    requires seen { ArePacketsSeen packets.old true }
    requires nothing { owed binding.old ≡ [] }
    requires running { binding.old.ended ≡ false }
    ensures seen { ArePacketsSeen packets.new true }
    ensures follows { (limits : Limits) (contexts : Holding ContextRec) (calls : List Call)
        (taken : ℕ)
        → contexts.held ≡ []
        → Follows limits contexts packets.old binding.old true calls taken
        → Follows limits contexts packets.new binding.new true calls taken }
    ensures size { packets.new.size ≡ packets.old.size }
    ensures pending { binding.new.pending ≡ binding.old.pending }
    ensures line { binding.new.line ≡ binding.old.line }
    ensures kept { length packets.new.held + length binding.new.queue
        ≡ length packets.old.held + length binding.old.queue }
    ensures running { binding.new.ended ≡ false }
    ensures fewer { result ≡ true → length packets.new.held + 1 ≡ length packets.old.held }
    ensures none { result ≡ false → packets.new.held ≡ [] }
    ensures same { result ≡ false → binding.new ≡ binding.old }
    ensures still { result ≡ false → packets.new ≡ packets.old }
{
    match packets.drain_one() {
        Some(released) => {
            give_data(binding, Some(released));
            true
        }
        None => false,
    }
}

// The least of the held contexts, or else of the held data packets, is an event, if there is one.
fn drain_held(
    contexts: &mut Window<ContextRec>,
    packets: &mut Window<PacketBuf>,
    binding: &mut Binding,
) -> bool
    requires contexts { MayDrain contexts.old binding.old.line }
    requires packets { ArePacketsSeen packets.old true }
    requires nothing { owed binding.old ≡ [] }
    requires running { binding.old.ended ≡ false }
    ensures drains { Drains contexts.old packets.old binding.old
        contexts.new packets.new binding.new }
    ensures running { binding.new.ended ≡ false }
    ensures fewer { result ≡ true → length contexts.new.held + length packets.new.held
        < length contexts.old.held + length packets.old.held }
    ensures no_contexts { result ≡ false → contexts.new.held ≡ [] }
    ensures no_packets { result ≡ false → packets.new.held ≡ [] }
    ensures nothing { result ≡ false → owed binding.new ≡ [] }
    ensures still { result ≡ false → length contexts.new.held + length packets.new.held
        ≡ length contexts.old.held + length packets.old.held }
{
    if drain_context(contexts, binding) {
        return true;
    }
    drain_data(packets, binding)
}

// The next event of the end: one that is held, or else the end itself.
fn drain_event(
    contexts: &mut Window<ContextRec>,
    packets: &mut Window<PacketBuf>,
    binding: &mut Binding,
)
    requires contexts { MayDrain contexts.old binding.old.line }
    requires packets { ArePacketsSeen packets.old true }
    requires nothing { owed binding.old ≡ [] }
    requires running { binding.old.ended ≡ false }
    ensures drains { Drains contexts.old packets.old binding.old
        contexts.new packets.new binding.new }
    ensures fewer { steps_left contexts.new packets.new binding.new.ended
        < steps_left contexts.old packets.old binding.old.ended }
{
    if drain_held(contexts, packets, binding) {
        return;
    }
    binding.end();
}

// Whether the next event may come: nothing is owed, and the end has not come.
fn may_go_on(binding: &Binding) -> bool
    ensures on { result ≡ true → owed binding.now ≡ [] }
    ensures running { result ≡ true → binding.now.ended ≡ false }
    ensures off { result ≡ false → owed binding.now ≡ [] → binding.now.ended ≡ true }
{
    if binding.owes() {
        return false;
    }
    !binding.has_ended()
}

// Takes the events of the end, one after another, until something is owed or the end has come.
pub(crate) fn advance(
    contexts: &mut Window<ContextRec>,
    packets: &mut Window<PacketBuf>,
    binding: &mut Binding,
)
    requires contexts { MayDrain contexts.old binding.old.line }
    requires packets { ArePacketsSeen packets.old true }
    ensures drains { Drains contexts.old packets.old binding.old
        contexts.new packets.new binding.new }
    ensures at_rest { owed binding.new ≡ [] → binding.new.ended ≡ true }
{
    while may_go_on(binding) {
        drain_event(contexts, packets, binding);
    }
}

// Takes the events of the end as `advance` does, where the end was told; else nothing happens.
pub(crate) fn go_on(
    told: bool,
    contexts: &mut Window<ContextRec>,
    packets: &mut Window<PacketBuf>,
    binding: &mut Binding,
)
    requires contexts { told ≡ true → MayDrain contexts.old binding.old.line }
    requires packets { told ≡ true → ArePacketsSeen packets.old true }
    ensures seen { (kept given : ℕ)
        → AreSeen kept given contexts.old packets.old binding.old.line told
        → AreSeen kept given contexts.new packets.new binding.new.line told }
    ensures follows { (limits : Limits) (calls : List Call) (taken : ℕ)
        → Follows limits contexts.old packets.old binding.old told calls taken
        → Follows limits contexts.new packets.new binding.new told calls taken }
    ensures context_size { contexts.new.size ≡ contexts.old.size }
    ensures data_size { packets.new.size ≡ packets.old.size }
    ensures pending { binding.new.pending ≡ binding.old.pending }
    ensures kept { length packets.new.held + length binding.new.queue
        ≡ length packets.old.held + length binding.old.queue }
    ensures running { told ≡ false → binding.new.ended ≡ binding.old.ended }
    ensures at_rest { told ≡ true → owed binding.new ≡ [] → binding.new.ended ≡ true }
{
    if told {
        advance(contexts, packets, binding);
    }
}
