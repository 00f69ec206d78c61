ghost use Rattle.std.specs.Prelude.{◌≡◌, ◌↔◌, ℕ, ◌+◌, ◌≤◌, Bool, true, false, List, [], ◌∷◌, ◌++◌, length, map, slice_get, Option, Some};
ghost use Rattle.std.specs.List.{AllByRecursion, sum_by};
ghost use Rattle.vrt_time.specs.Time.{TimeStamp};
ghost use Rattle.vrt_header.specs.Profile.{PacketProfile};
ghost use Rattle.vrt_fields.specs.Route.{AreRoutes};
ghost use Rattle.replay_form.specs.FrameFields.{Frame};
ghost use Rattle.replay_form.specs.declared.record_head.RecordHead.{RecordHead};
ghost use Rattle.reorder_window.specs.Delivery.{occurs};
ghost use Rattle.sample_binder.specs.Calls.{EndCall, is_told, outputs_of};
ghost use Rattle.sample_binder.specs.Parts.{AreCallsOf};
ghost use Rattle.site_truth.specs.Delivered.{Delivery, IsDelivered};
ghost use Rattle.site_truth.specs.Consequences.{IsUnlost, IsWithin};
ghost use Rattle.site_truth.specs.Site.{IsSite, packet_moment};
ghost use Rattle.release_form.specs.declared.refusal.Refusal.{Refusal};
ghost use Rattle.difi_gateway.specs.Calls.{calls};
ghost use Rattle.difi_gateway.specs.Contents.{Content, IsContent, Received, IsReceived, frame_of, AreReceived};
ghost use Rattle.difi_gateway.specs.Datagrams.{HoldBytes};
ghost use Rattle.difi_gateway.specs.Isolation.{runs_of_stream, only, releases_of_stream, AreStreamRecords};
ghost use Rattle.difi_gateway.specs.Told.{RefusedItem, is_listed, runs_told, told_by, told, told_from};
ghost use Rattle.record_run.specs.Outcome.{IsPart};
ghost use Rattle.difi_gateway.specs.Replayed.{BeginsEach, replay_of};
ghost use Rattle.difi_gateway.specs.Releases.{Release, copies, bound_samples, uncertain_samples, raw_packets, refused_frames, versions, part_of, all_told, out_of, AreRecordsOf, IsPartOf, IsOutOf};
ghost use Rattle.difi_gateway.specs.StreamDelivered.{IsPortOf, IsStreamDelivered};
ghost use Rattle.difi_gateway.specs.ToldOnce.{IsToldOnce, IsTrueRelease, binds_sample, number_telling};
ghost use Rattle.difi_gateway.specs.TrueText.{AreTrueOf, AreTrueReleases, IsTrueText, releases_for};
ghost use Rattle.difi_gateway.specs.Written.{IsWritableItem, CanBeWritten};

/// A law that a proof can cite. A datagram holds one thing at most: it is larger than a packet may
/// be, or no packet, refused at one word, or one packet. So frames hold one list of things.
#[inline]
pub fn datagrams_hold_one_thing()
    ensures contents { (head : RecordHead) (datagram : List ℕ) (a b : Content)
        → IsContent head datagram a → IsContent head datagram b → a ≡ b }
    ensures frames { (head : RecordHead) (frames : List Frame) (a b : List Received)
        → AreReceived head frames a → AreReceived head frames b → a ≡ b }
{}

/// A law that a proof can cite. The bytes of the releases of frames are one text, before the end and
/// with it.
#[inline]
pub fn frames_have_one_text()
    ensures so_far { (head : RecordHead) (frames : List Frame) (a b : List ℕ)
        → IsPartOf head frames a → IsPartOf head frames b → a ≡ b }
    ensures whole { (head : RecordHead) (frames : List Frame) (a b : List ℕ)
        → IsOutOf head frames a → IsOutOf head frames b → a ≡ b }
{}

/// A law that a proof can cite. What is told of more frames, and their releases, begin with those of
/// the first of them, and so do the bytes; and the releases with the end, and their bytes, begin with
/// those before the end. So what is written of some frames stays right, whatever comes behind them.
#[inline]
pub fn more_frames_append()
    ensures told { (head : RecordHead) (received later : List Received)
        → told head (received ++ later) ≡ told head received ++ told_from head received later }
    ensures releases { (head : RecordHead) (received later : List Received)
        → part_of head (received ++ later)
        ≡ part_of head received ++ copies head.routes (told_from head received later) }
    ensures bytes { (head : RecordHead) (frames later : List Frame) (bytes : List ℕ)
        → IsPartOf head (frames ++ later) bytes
        → (front : List ℕ) × (rest : List ℕ) × (bytes ≡ front ++ rest)
        × IsPartOf head frames front }
    ensures begins { (head : RecordHead) (frames later : List Frame) (a b : List ℕ)
        → IsPartOf head frames a → IsPartOf head (frames ++ later) b
        → (rest : List ℕ) × (b ≡ a ++ rest) }
    ensures all_releases { (head : RecordHead) (received : List Received)
        → (more : List Release) × (out_of head received ≡ part_of head received ++ more) }
    ensures all_bytes { (head : RecordHead) (frames : List Frame) (bytes : List ℕ)
        → IsOutOf head frames bytes
        → (front : List ℕ) × (rest : List ℕ) × (bytes ≡ front ++ rest)
        × IsPartOf head frames front }
    ensures all_begins { (head : RecordHead) (frames later : List Frame) (a b : List ℕ)
        → IsPartOf head frames a → IsOutOf head (frames ++ later) b
        → (rest : List ℕ) × (b ≡ a ++ rest) }
{}

/// A law that a proof can cite. What is told of bytes begins what is told of all bytes that begin with
/// them, as far as these go and as a whole record. So what was written before a read failed begins
/// what is written of every record that begins with the bytes that were taken.
#[inline]
pub fn more_bytes_append()
    ensures { (most : ℕ) (bytes text : List ℕ) → IsPart (replay_of most) bytes text
        → BeginsEach (replay_of most) bytes text }
{}

/// A law that a proof can cite. Where a stream is listed among the routes, its runs among what is told
/// of frames are the runs of the outputs that its calls give, in order; and among what is told with the
/// end, those that its calls and the end give.
#[inline]
pub fn runs_are_of_outputs()
    ensures so_far { (head : RecordHead) (stream : ℕ) (received : List Received)
        → is_listed head.routes stream ≡ true
        → runs_of_stream stream (told head received)
        ≡ runs_told stream (outputs_of head.limits (calls head stream received)) }
    ensures whole { (head : RecordHead) (second : Bool) (stream : ℕ) (received : List Received)
        → AreRoutes second head.routes → is_listed head.routes stream ≡ true
        → runs_of_stream stream (all_told head received)
        ≡ runs_told stream (outputs_of head.limits (calls head stream received ++ EndCall ∷ [])) }
{}

/// A law that a proof can cite. The calls that received frames make of a stream's binder are of packets
/// in the grammar, and none of them is the end.
#[inline]
pub fn calls_are_of_packets()
    ensures packets { (head : RecordHead) (stream : ℕ) (received : List Received)
        → AllByRecursion (IsReceived head) received → HoldBytes received
        → AreCallsOf head.profile (calls head stream received) }
    ensures running { (head : RecordHead) (stream : ℕ) (received : List Received)
        → is_told (calls head stream received) ≡ false }
{}

/// A law that a proof can cite. The samples and the raw packets that are told, each once, are no more
/// than the bytes of all datagrams, before the end and with it; and the refusals and the versions no more
/// than the frames.
#[inline]
pub fn counts_are_at_most_bytes()
    ensures so_far { (head : RecordHead) (second : Bool) (received : List Received)
        → AreRoutes second head.routes → AllByRecursion (IsReceived head) received
        → HoldBytes received
        → sum_by bound_samples (told head received) + sum_by uncertain_samples (told head received)
        + sum_by raw_packets (told head received)
        ≤ sum_by (λ r. length r.frame.datagram) received }
    ensures whole { (head : RecordHead) (second : Bool) (received : List Received)
        → AreRoutes second head.routes → AllByRecursion (IsReceived head) received
        → HoldBytes received
        → sum_by bound_samples (all_told head received)
        + sum_by uncertain_samples (all_told head received)
        + sum_by raw_packets (all_told head received)
        ≤ sum_by (λ r. length r.frame.datagram) received }
    ensures frames_so_far { (head : RecordHead) (received : List Received)
        → sum_by refused_frames (told head received) + sum_by versions (told head received)
        ≤ length received }
    ensures frames { (head : RecordHead) (received : List Received)
        → sum_by refused_frames (all_told head received) + sum_by versions (all_told head received)
        ≤ length received }
{}

/// A law that a proof can cite. A frame that is refused changes no run of any stream, then or later: the
/// runs of each stream are those that are told without it, before the end and with it.
#[inline]
pub fn refused_frames_change_no_run()
    ensures so_far { (head : RecordHead) (stream : ℕ) (before later : List Received) (r : Received)
        (frame port : ℕ) (refusal : Refusal) (detail : ℕ) (stamp : Option TimeStamp)
        → told_by head before r ≡ RefusedItem frame port refusal detail stamp ∷ []
        → runs_of_stream stream (told head (before ++ r ∷ later))
        ≡ runs_of_stream stream (told head (before ++ later)) }
    ensures whole { (head : RecordHead) (second : Bool) (stream : ℕ) (before later : List Received)
        (r : Received)
        (frame port : ℕ) (refusal : Refusal) (detail : ℕ) (stamp : Option TimeStamp)
        → AreRoutes second head.routes
        → told_by head before r ≡ RefusedItem frame port refusal detail stamp ∷ []
        → runs_of_stream stream (all_told head (before ++ r ∷ later))
        ≡ runs_of_stream stream (all_told head (before ++ later)) }
{}

/// A law that a proof can cite. Streams are kept apart: the runs of a stream, and its releases of kinds 1
/// to 3, are those of the record with the stream's data and context frames alone, in the same order and
/// with the same bytes, before the end and with it.
#[inline]
pub fn streams_are_kept_apart()
    ensures only_received { (head : RecordHead) (stream : ℕ) (frames : List Frame)
        (received : List Received)
        → AreReceived head frames received
        → AreReceived head (map frame_of (only stream received)) (only stream received) }
    ensures runs_so_far { (head : RecordHead) (stream : ℕ) (received : List Received)
        → runs_of_stream stream (told head received)
        ≡ runs_of_stream stream (told head (only stream received)) }
    ensures runs { (head : RecordHead) (second : Bool) (stream : ℕ) (received : List Received)
        → AreRoutes second head.routes
        → runs_of_stream stream (all_told head received)
        ≡ runs_of_stream stream (all_told head (only stream received)) }
    ensures releases_so_far { (head : RecordHead) (stream : ℕ) (received : List Received)
        → releases_of_stream stream (part_of head received)
        ≡ releases_of_stream stream (part_of head (only stream received)) }
    ensures releases { (head : RecordHead) (second : Bool) (stream : ℕ) (received : List Received)
        → AreRoutes second head.routes
        → releases_of_stream stream (out_of head received)
        ≡ releases_of_stream stream (out_of head (only stream received)) }
    ensures there { (stream : ℕ) (releases : List Release) (bytes : List ℕ)
        → AreRecordsOf releases bytes
        → (part : List ℕ) × AreStreamRecords stream releases bytes part }
    ensures bytes_so_far { (head : RecordHead) (stream : ℕ) (received : List Received)
        (bytes others part other : List ℕ)
        → AreStreamRecords stream (part_of head received) bytes part
        → AreStreamRecords stream (part_of head (only stream received)) others other
        → part ≡ other }
    ensures bytes { (head : RecordHead) (second : Bool) (stream : ℕ) (received : List Received)
        (bytes others part other : List ℕ)
        → AreRoutes second head.routes
        → AreStreamRecords stream (out_of head received) bytes part
        → AreStreamRecords stream (out_of head (only stream received)) others other → part ≡ other }
{}

/// A law that a proof can cite. All that is told of received frames can be written, and so can each of
/// their releases, in 262,144 bytes at most.
#[inline]
pub fn releases_can_be_written()
    ensures items { (head : RecordHead) (received : List Received)
        → AllByRecursion (IsReceived head) received → HoldBytes received
        → AllByRecursion IsWritableItem (all_told head received) }
    ensures releases { (head : RecordHead) (received : List Received)
        → AllByRecursion (IsReceived head) received → HoldBytes received
        → AllByRecursion CanBeWritten (out_of head received) }
{}

/// A law that a proof can cite. The form of a record changes nothing: with the same header in another
/// form the same frames have the same releases and the same bytes. So a record that was migrated has
/// the releases that it had.
#[inline]
pub fn forms_have_the_same_releases()
    ensures releases_so_far { (head : RecordHead) (form : ℕ) (received : List Received)
        → part_of (record head { form = form }) received ≡ part_of head received }
    ensures releases { (head : RecordHead) (form : ℕ) (received : List Received)
        → out_of (record head { form = form }) received ≡ out_of head received }
    ensures bytes_so_far { (head : RecordHead) (form : ℕ) (frames : List Frame) (bytes : List ℕ)
        → IsPartOf (record head { form = form }) frames bytes ↔ IsPartOf head frames bytes }
    ensures bytes { (head : RecordHead) (form : ℕ) (frames : List Frame) (bytes : List ℕ)
        → IsOutOf (record head { form = form }) frames bytes ↔ IsOutOf head frames bytes }
{}

/// A law that a proof can cite. Where the data packets and the contexts of a stream among received
/// frames are a delivery of what a site sends, the releases of the stream for each of its ports are
/// true, and so is the text of all releases.
#[inline]
pub fn releases_are_true()
    ensures releases { (head : RecordHead) (second : Bool) (received : List Received)
        → AreRoutes second head.routes → AreTrueOf head received (out_of head received) }
    ensures text { (head : RecordHead) (second : Bool) (frames : List Frame)
        (received : List Received) (text : List ℕ) → AreRoutes second head.routes
        → AreReceived head frames received → IsOutOf head frames text
        → IsTrueText head received text }
{}

/// A law that a proof can cite. Where the releases of a stream are true for one of its ports, each
/// of them is true by itself: a packet that arrived, whole and with the cause why, or samples of
/// one, with their capture time, and either the fields of the context in force at each, which
/// arrived or is healed, or a cause for each.
#[inline]
pub fn each_record_is_true()
    ensures { (delivery : Delivery) (stream port : ℕ) (releases : List Release)
        → AreTrueReleases delivery stream port releases
        → (i : ℕ) (release : Release)
        → slice_get (releases_for stream port releases) i ≡ Some release
        → IsTrueRelease delivery stream port release }
{}

/// A law that a proof can cite. Where the releases of a stream are true for one of its ports, each
/// data packet that arrived is told whole in one of them and in no other, or each of its samples
/// is.
#[inline]
pub fn each_sample_is_told_once()
    ensures { (profile : PacketProfile) (most_words : ℕ) (delivery : Delivery)
        → IsSite profile most_words delivery.site → IsDelivered delivery
        → (stream port : ℕ) (releases : List Release)
        → AreTrueReleases delivery stream port releases
        → (number : ℕ) → occurs number delivery.packets ≡ true
        → IsToldOnce delivery (releases_for stream port releases) number }
{}

/// A law that a proof can cite. Where nothing is lost that a site sends on a stream, and as many
/// contexts may be kept and as many data packets may wait as are sent, each sample is bound in one
/// release for each port that is captured before the last context, of a packet stamped not before
/// the first.
#[inline]
pub fn samples_are_bound_where_nothing_is_lost()
    ensures { (head : RecordHead) (second : Bool) (received : List Received)
        → AreRoutes second head.routes → (stream port : ℕ) (delivery : Delivery)
        → IsPortOf head.routes stream port → IsStreamDelivered head received stream delivery
        → IsUnlost delivery
        → (packet context number sample : ℕ) → IsWithin delivery packet context number sample
        → number_telling (binds_sample (packet_moment delivery.site packet) sample)
        (releases_for stream port (out_of head received)) ≡ 1 }
{}
