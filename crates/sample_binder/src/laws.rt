ghost use Rattle.std.specs.Prelude.{◌≡◌, ℕ, ◌≤◌, ◌↔◌, Bool, List, [], ◌∷◌, ◌++◌, false, length, Some, Err};
ghost use Rattle.vrt_words.specs.Buffer.{Buffer};
ghost use Rattle.vrt_words.specs.Begins.{IsDatagram};
ghost use Rattle.vrt_header.specs.Profile.{PacketProfile};
ghost use Rattle.difi_data.specs.Data.{DataPacket, IsData};
ghost use Rattle.sample_binder.specs.declared.label.Label.{Label};
ghost use Rattle.vrt_fields.specs.declared.limits.Limits.{Limits};
ghost use Rattle.sample_binder.specs.declared.out.Out.{Out};
ghost use Rattle.sample_binder.specs.Binder.{BinderState, StandsFor};
ghost use Rattle.sample_binder.specs.Calls.{Call, ContextCall, DataCall, EndCall, context_arrivals, data_arrivals, context_entry, data_entry, is_told, behind, all_releases, events_by, events_of, outputs_of, given_by, outcome};
ghost use Rattle.sample_binder.specs.declared.arrive.Turned.{Turned};
ghost use Rattle.sample_binder.specs.Due.{due};
ghost use Rattle.sample_binder.specs.Events.{Event};
ghost use Rattle.sample_binder.specs.Outputs.{outputs};
ghost use Rattle.sample_binder.specs.Parts.{AreCallsOf, AreWhole, AreParts, AnyPart, samples_told, counted_told, payload_bytes};
ghost use Rattle.sample_binder.specs.Runs.{cut};
ghost use Rattle.sample_binder.specs.Readings.{AreReleases, AreAllReleases, IsDueEvent, AreStretches, IsRead};
ghost use Rattle.sample_binder.specs.Given.{IsDataOf, HasDataSize};
ghost use Rattle.sample_binder.specs.Sound.{HasSampling};
ghost use Rattle.difi_context.specs.Context.{IsInGrammar};
ghost use Rattle.difi_context.specs.declared.context.ContextRec.{ContextRec};
ghost use Rattle.reorder_window.specs.declared.entry.Entry.{Entry};
ghost use Rattle.reorder_window.specs.Window.{releases, answer};

/// A law that a proof can cite. A packet is due at the least event at which one of its cases holds
/// and which is not before the due event of the packet before it. What leaves stays: what events
/// give is the front of what they give with more events behind them.
#[inline]
pub fn due_events_are_the_first()
    ensures due { (limits : Limits) (events : List Event) (j e : ℕ)
        → (due limits events j ≡ Some e) ↔ IsDueEvent limits events j e }
    ensures stays { (limits : Limits) (events later : List Event)
        → (more : List Out) × (outputs limits (events ++ later) ≡ outputs limits events ++ more) }
{}

/// A law that a proof can cite. The samples of a packet are cut into the longest stretches of equal
/// label: one after another from the first to the last sample, alike within each, and not across.
#[inline]
pub fn stretches_are_the_longest()
    ensures { (labels : ℕ → Label) (number : ℕ) → AreStretches labels number 0 (cut labels number) }
{}

/// A law that a proof can cite. What is read of the words of a data packet is what the packet says.
#[inline]
pub fn data_packets_are_read()
    ensures { (profile : PacketProfile) (packet : DataPacket) (bytes : List ℕ)
        → IsDatagram (IsData profile) packet bytes → IsRead packet bytes }
{}

/// A law that a proof can cite. Where the packet of each call is one of its kind, the outputs are
/// whole packets, and so is what each call adds. Each packet is one that was given; at most fifteen
/// are said to be lost before it; its runs follow it, one at least; each can be written with its
/// payload; and they tell no more samples than that has bytes.
#[inline]
pub fn outputs_are_whole_packets()
    ensures all { (profile : PacketProfile) (limits : Limits) (calls : List Call)
        → AreCallsOf profile calls → AreWhole calls (outputs_of limits calls) }
    ensures added { (profile : PacketProfile) (limits : Limits) (calls : List Call) (call : Call)
        → AreCallsOf profile (calls ++ call ∷ [])
        → AreWhole (calls ++ call ∷ []) (given_by limits calls call) }
{}

/// A law that a proof can cite. Outputs append: those of calls are what each of them adds, one
/// after another. And more events add whole packets, each with its runs.
#[inline]
pub fn outputs_append()
    ensures added { (limits : Limits) (calls : List Call) (call : Call)
        → outputs_of limits (calls ++ call ∷ [])
        ≡ outputs_of limits calls ++ given_by limits calls call }
    ensures whole { (limits : Limits) (events later : List Event)
        → (more : List Out) × (outputs limits (events ++ later) ≡ outputs limits events ++ more)
        × AreParts AnyPart more }
{}

/// A law that a proof can cite. No more outputs were taken than there are.
#[inline]
pub fn taken_are_outputs()
    ensures { (bound : BinderState) (calls : List Call) (taken : ℕ) → StandsFor bound calls taken
        → taken ≤ length (outputs_of bound.limits calls) }
{}

/// A law that a proof can cite, for every list of arrivals. What a window has released stays so,
/// and what more arrivals release comes behind it; so does, at the end, what was held.
#[inline]
pub fn releases_only_grow<T>()
    ensures arriving { (size : ℕ) (arrivals later : List (Entry T))
        → releases size (arrivals ++ later) 0 ≡ releases size arrivals 0
        ++ behind (releases size arrivals 0) (releases size (arrivals ++ later) 0) }
    ensures ending { (size : ℕ) (arrivals : List (Entry T))
        → all_releases size arrivals ≡ releases size arrivals 0
        ++ behind (releases size arrivals 0) (all_releases size arrivals) }
{}

/// A law that a proof can cite. The events of one more call stand behind those of the calls before.
/// The contexts and the data packets of all events are all releases, each in order; once the end is
/// told, they are all that were accepted, and the end is the last event, and comes once.
#[inline]
pub fn events_are_all_releases()
    ensures more { (limits : Limits) (calls : List Call) (call : Call)
        → events_of limits (calls ++ call ∷ [])
        ≡ events_of limits calls ++ events_by limits calls call }
    ensures arriving { (limits : Limits) (calls : List Call) → is_told calls ≡ false
        → AreReleases limits calls }
    ensures ending { (limits : Limits) (calls : List Call) → is_told calls ≡ false
        → AreAllReleases limits calls }
{}

/// A law that a proof can cite. The fields of a context in the grammar have a sample rate and an
/// item size within their ranges, and a data packet is whole words, of which the payload has one at
/// least.
#[inline]
pub fn packets_are_sound()
    ensures sampling { (rec : ContextRec) → IsInGrammar rec → HasSampling rec.fields }
    ensures size { (profile : PacketProfile) (bytes : List ℕ) → IsDataOf profile bytes
        → HasDataSize bytes }
{}

/// A law that a proof can cite. Where the packet of each call is one of its kind, a stream tells
/// no more samples than the payloads that it was given have bytes; nor does it where each packet
/// that is told as a whole counts as one more.
#[inline]
pub fn samples_are_at_most_bytes()
    ensures arriving { (profile : PacketProfile) (limits : Limits) (calls : List Call)
        → AreCallsOf profile calls → is_told calls ≡ false
        → samples_told (outputs_of limits calls) ≤ payload_bytes calls }
    ensures ending { (profile : PacketProfile) (limits : Limits) (calls : List Call)
        → AreCallsOf profile calls → is_told calls ≡ false
        → samples_told (outputs_of limits (calls ++ EndCall ∷ [])) ≤ payload_bytes calls }
    ensures counted_arriving { (profile : PacketProfile) (limits : Limits) (calls : List Call)
        → AreCallsOf profile calls → is_told calls ≡ false
        → counted_told (outputs_of limits calls) ≤ payload_bytes calls }
    ensures counted_ending { (profile : PacketProfile) (limits : Limits) (calls : List Call)
        → AreCallsOf profile calls → is_told calls ≡ false
        → counted_told (outputs_of limits (calls ++ EndCall ∷ [])) ≤ payload_bytes calls }
{}

/// A law that a proof can cite. A packet that its window turns away changes nothing, then or later:
/// whatever calls come behind it, the outputs are those of the calls without it.
#[inline]
pub fn turned_away_changes_nothing()
    ensures contexts { (same : ContextRec → ContextRec → Bool) (limits : Limits)
        (calls later : List Call) (rec : ContextRec) (why : Turned × ContextRec)
        → outcome (answer same limits.context_window (context_arrivals calls) (context_entry rec))
        ≡ Err why
        → outputs_of limits (calls ++ ContextCall rec ∷ later)
        ≡ outputs_of limits (calls ++ later) }
    ensures packets { (same : Buffer → Buffer → Bool) (limits : Limits) (calls later : List Call)
        (buf : Buffer) (why : Turned × Buffer)
        → outcome (answer same limits.data_window (data_arrivals calls) (data_entry buf)) ≡ Err why
        → outputs_of limits (calls ++ DataCall buf ∷ later) ≡ outputs_of limits (calls ++ later) }
{}
