ghost use Rattle.std.specs.Prelude.{◌≡◌, ℕ, Bool, true, List, ◌∷◌, ◌++◌, slice_get, slice_index, Some};
ghost use Rattle.vrt_words.specs.Buffer.{Buffer};
ghost use Rattle.vrt_header.specs.Profile.{PacketProfile};
ghost use Rattle.difi_context.specs.declared.context.ContextRec.{ContextRec};
ghost use Rattle.reorder_window.specs.Delivery.{occurs};
ghost use Rattle.sample_binder.specs.declared.out.Out.{Out};
ghost use Rattle.sample_binder.specs.declared.out.Run.{Run};
ghost use Rattle.sample_binder.specs.Calls.{Call, ContextCall, DataCall, outputs_of};
ghost use Rattle.sample_binder.specs.Parts.{Part};
ghost use Rattle.site_truth.specs.Consequences.{Binds, IsBoundIn, IsContextTaken, IsKnown, IsPacketTaken, IsUnlost, IsWithin, LeavesOnce};
ghost use Rattle.site_truth.specs.Delivered.{Delivery, IsDelivered, all_calls};
ghost use Rattle.site_truth.specs.Site.{IsInForce, IsSite, packet_moment, sample_moment};
ghost use Rattle.site_truth.specs.Truth.{AreTrue};

/// A law that a proof can cite. For whatever a site sends on a stream, and however that is delivered
/// within the windows with fewer than sixteen losses in a row of each kind, the outputs are true.
///
/// They are the data packets that arrive, in the order of sending, each once and with the number
/// that are absent before it. Each leaves whole, or in runs that cover its samples, each once. A
/// bound sample has its capture time and the fields of the context in force then. No sample is
/// uncertain without its cause: a neighbouring context was lost, a stated number was reached, or
/// what arrives began or ended.
#[inline]
pub fn outputs_are_true()
    ensures { (profile : PacketProfile) (most_words : ℕ) (delivery : Delivery)
        → IsSite profile most_words delivery.site → IsDelivered delivery
        → AreTrue delivery (outputs_of delivery.limits (all_calls delivery)) }
{}

/// A law that a proof can cite. Of such a delivery no packet that arrives for the first time is
/// turned away: it is neither late nor a repeat nor in conflict with another.
#[inline]
pub fn first_arrivals_are_taken()
    ensures contexts { (profile : PacketProfile) (most_words : ℕ) (delivery : Delivery)
        → IsSite profile most_words delivery.site → IsDelivered delivery
        → (same : ContextRec → ContextRec → Bool) (before later : List Call) (rec : ContextRec)
        → delivery.calls ≡ before ++ ContextCall rec ∷ later
        → IsContextTaken delivery same before rec }
    ensures packets { (profile : PacketProfile) (most_words : ℕ) (delivery : Delivery)
        → IsSite profile most_words delivery.site → IsDelivered delivery
        → (same : Buffer → Buffer → Bool) (before later : List Call) (buf : Buffer)
        → delivery.calls ≡ before ++ DataCall buf ∷ later
        → IsPacketTaken delivery same before buf }
{}

/// A law that a proof can cite. Of such a delivery each data packet that arrives leaves once, and
/// each of its samples is in one run and no other, where the packet does not leave whole.
#[inline]
pub fn each_sample_leaves_once()
    ensures { (profile : PacketProfile) (most_words : ℕ) (delivery : Delivery) (number : ℕ)
        → IsSite profile most_words delivery.site → IsDelivered delivery
        → occurs number delivery.packets ≡ true
        → LeavesOnce delivery (outputs_of delivery.limits (all_calls delivery)) number }
{}

/// A law that a proof can cite. Where outputs are true, no sample is bound whose context in force
/// neither arrives nor is healed, as one that is absent alone and differs in nothing from the one
/// before.
#[inline]
pub fn bound_contexts_are_known()
    ensures { (delivery : Delivery) (outs : List Out) (truth : AreTrue delivery outs)
        (place : ℕ) (part : Part) → slice_get truth.parts place ≡ Some part
        → (at : ℕ) (run : Run) → slice_get part.runs at ≡ Some run
        → (sample : ℕ) → Binds run sample
        → (context in_force : ℕ)
        → IsInForce delivery.site
        (packet_moment delivery.site (slice_index truth.packets place)) context
        → IsInForce delivery.site
        (sample_moment delivery.site (slice_index truth.packets place) context sample) in_force
        → IsKnown delivery in_force }
{}

/// A law that a proof can cite. Where nothing that a site sends is lost, and as many contexts may be
/// kept and as many data packets may wait as are sent, each sample is bound that is captured before
/// the last context, of a packet that is stamped not before the first.
#[inline]
pub fn all_samples_are_bound()
    ensures { (profile : PacketProfile) (most_words : ℕ) (delivery : Delivery)
        → IsSite profile most_words delivery.site → IsDelivered delivery → IsUnlost delivery
        → (packet context number sample : ℕ) → IsWithin delivery packet context number sample
        → IsBoundIn delivery (outputs_of delivery.limits (all_calls delivery)) packet sample }
{}
