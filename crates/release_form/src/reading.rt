ghost use Rattle.std.specs.Prelude.{◌≡◌, ◌≢◌, ℕ, ◌+◌, ◌*◌, ◌≤◌, length, ◌↔◌, IsTrue, IfSome, IfNone, List, take, IsSomeAnd};
ghost use Rattle.release_form.specs.Positions.{word};
ghost use Rattle.sample_binder.specs.Reasons.{number_of};
ghost use Rattle.release_form.specs.Steps.{IsReadAs, IsNoRecord, IsSource, IsSpan, IsFirstRecord};
ghost use Rattle.release_form.specs.Release.{StandsFirst, IsRecordOf, IsPartOf, as_read};
ghost use Rattle.release_form.specs.declared.shown.Shown.{Shown};

use crate::fields::{are_fields, is_captured};
use crate::positions::{double_in, port_in, quadruple_in, stamp_in, word_in};
use crate::refusal::Refusal;
use crate::shown::Shown;
use crate::size::front_len;
use sample_binder::{Reason, Run};
use vrt_time::{Moment, Stamp};
use vrt_words::{read_words, word_at};

/// The release record that stands first: what it says, its variable part and its length in bytes.
/// The part is lent from the bytes: the samples of a run, a payload, a packet, or nothing. A run
/// of samples has 16 bits, each sample I and then Q.
///
/// `None` exactly where no release record stands first. What `encode` wrote is read with the same
/// value, but for the bits of its samples, with the same samples, payload or packet, and with its
/// length.
pub fn decode(bytes: &[u8]) -> Option<(Shown, &[u8], usize)>
    ensures found { IfSome result (λ it. StandsFirst it.0 it.1.now it.2 bytes.now) }
    ensures only { (shown : Shown) (part : List ℕ) (size : ℕ)
        → StandsFirst shown part size bytes.now
        → IsSomeAnd result (λ it. (it.0 ≡ shown) × (it.1.now ≡ part) × (it.2 ≡ size)) }
    ensures none { IfNone result ((shown : Shown) (part : List ℕ) (size : ℕ)
        → ¬ StandsFirst shown part size bytes.now) }

    // What was written of a value with a payload or a packet.
    ensures again { (shown : Shown) (payload : List ℕ) (size : ℕ) → size ≤ length bytes.now
        → IsRecordOf shown payload (take size bytes.now)
        → IsSomeAnd result (λ it.
        (it.0 ≡ as_read shown) × IsPartOf shown payload it.1.now × (it.2 ≡ size)) }
{
    let record = first_record(bytes)?;
    let shown = read(record)?;
    Some((shown, &record[front_len(&shown)..], record.len()))
}

// As many bytes as the length of a record that stands first says, with it and the kind.
fn first_record(bytes: &[u8]) -> Option<&[u8]>
    ensures found { IfSome result (λ first. IsFirstRecord first.now bytes.now) }
    ensures none { IfNone result ((first : List ℕ) → ¬ IsFirstRecord first bytes.now) }
{
    let length = word_at(bytes, 1)?;
    let size = length as usize + 8;
    if bytes.len() < size {
        return None;
    }
    Some(&bytes[..size])
}

// What a record says whose length is that of all the bytes. `None` exactly where they are no
// record.
fn read(bytes: &[u8]) -> Option<Shown>
    requires there { 8 ≤ length bytes.now }
    requires length { word bytes.now 1 + 8 ≡ length bytes.now }
    ensures found { IfSome result (λ shown. IsReadAs shown bytes.now) }
    ensures none { IfNone result (IsNoRecord bytes.now) }
{
    match word_in(bytes, 0) {
        1 => read_bound(bytes),
        2 => read_uncertain(bytes),
        3 => read_raw(bytes),
        4 => read_ack(bytes),
        5 => read_refused(bytes),
        6 => read_version(bytes),
        7 => read_end(bytes),
        _ => None,
    }
}

// Bound samples.
fn read_bound(bytes: &[u8]) -> Option<Shown>
    requires there { 8 ≤ length bytes.now }
    requires length { word bytes.now 1 + 8 ≡ length bytes.now }
    requires kind { word bytes.now 0 ≡ 1 }
    ensures found { IfSome result (λ shown. IsReadAs shown bytes.now) }
    ensures none { IfNone result (IsNoRecord bytes.now) }
{
    if bytes.len() < 132 {
        return None;
    }
    let (stream, port, lost) = read_source(bytes)?;
    let stamp = stamp_in(bytes, 5)?;
    let (first, number) = read_span(bytes, 8, 132)?;
    let moment = Moment::of(quadruple_in(bytes, 10));
    let mut fields = [0; 19];
    read_words(bytes, 14, &mut fields);
    if !are_fields(&fields) || !is_captured(stamp, first, &fields, moment) {
        return None;
    }
    let run = Run::Bound {
        stamp,
        first,
        number,
        at: moment,
        fields,
        bits: 16,
    };
    Some(Shown::Run {
        stream,
        port,
        lost,
        run,
    })
}

// Samples without a context.
fn read_uncertain(bytes: &[u8]) -> Option<Shown>
    requires there { 8 ≤ length bytes.now }
    requires length { word bytes.now 1 + 8 ≡ length bytes.now }
    requires kind { word bytes.now 0 ≡ 2 }
    ensures found { IfSome result (λ shown. IsReadAs shown bytes.now) }
    ensures none { IfNone result (IsNoRecord bytes.now) }
{
    if bytes.len() < 64 {
        return None;
    }
    let (stream, port, lost) = read_source(bytes)?;
    let reason = Reason::of(word_in(bytes, 5), word_in(bytes, 6))?;
    let stamp = stamp_in(bytes, 7)?;
    let (first, number) = read_span(bytes, 10, 64)?;
    if !is_of_samples(reason) {
        return None;
    }
    let run = Run::Uncertain {
        reason,
        stamp,
        first,
        number,
        at: Moment::of(quadruple_in(bytes, 12)),
        bits: 16,
    };
    Some(Shown::Run {
        stream,
        port,
        lost,
        run,
    })
}

// A whole packet.
fn read_raw(bytes: &[u8]) -> Option<Shown>
    requires there { 8 ≤ length bytes.now }
    requires length { word bytes.now 1 + 8 ≡ length bytes.now }
    requires kind { word bytes.now 0 ≡ 3 }
    ensures found { IfSome result (λ shown. IsReadAs shown bytes.now) }
    ensures none { IfNone result (IsNoRecord bytes.now) }
{
    if bytes.len() < 48 || bytes.len() % 4 != 0 {
        return None;
    }
    let (stream, port, lost) = read_source(bytes)?;
    let reason = Reason::of(word_in(bytes, 5), word_in(bytes, 6))?;
    let stamp = stamp_in(bytes, 7)?;
    let pad = word_in(bytes, 10);
    if !is_of_packets(reason) || pad > 31 {
        return None;
    }
    let run = Run::Raw {
        reason,
        stamp,
        pad: pad as u8,
    };
    Some(Shown::Run {
        stream,
        port,
        lost,
        run,
    })
}

// An acknowledgement.
fn read_ack(bytes: &[u8]) -> Option<Shown>
    requires there { 8 ≤ length bytes.now }
    requires length { word bytes.now 1 + 8 ≡ length bytes.now }
    requires kind { word bytes.now 0 ≡ 4 }
    ensures found { IfSome result (λ shown. IsReadAs shown bytes.now) }
    ensures none { IfNone result (IsNoRecord bytes.now) }
{
    if bytes.len() < 16 || bytes.len() % 4 != 0 {
        return None;
    }
    let port = port_in(bytes, 2)?;
    Some(Shown::Ack { port })
}

// A refused frame.
fn read_refused(bytes: &[u8]) -> Option<Shown>
    requires there { 8 ≤ length bytes.now }
    requires length { word bytes.now 1 + 8 ≡ length bytes.now }
    requires kind { word bytes.now 0 ≡ 5 }
    ensures found { IfSome result (λ shown. IsReadAs shown bytes.now) }
    ensures none { IfNone result (IsNoRecord bytes.now) }
{
    if bytes.len() != 40 {
        return None;
    }
    let frame = double_in(bytes, 2);
    let port = port_in(bytes, 4)?;
    let refusal = Refusal::of_number(word_in(bytes, 5))?;
    let detail = word_in(bytes, 6);
    if frame == 0 {
        return None;
    }
    let reason = refusal.number();
    if refusal.is_late() {
        let stamp = stamp_in(bytes, 7)?;
        return Some(Shown::Refused {
            frame,
            port,
            reason,
            detail,
            stamp: Some(stamp),
        });
    }
    if word_in(bytes, 7) != 0 || double_in(bytes, 8) != 0 {
        return None;
    }
    Some(Shown::Refused {
        frame,
        port,
        reason,
        detail,
        stamp: None,
    })
}

// A version.
fn read_version(bytes: &[u8]) -> Option<Shown>
    requires there { 8 ≤ length bytes.now }
    requires length { word bytes.now 1 + 8 ≡ length bytes.now }
    requires kind { word bytes.now 0 ≡ 6 }
    ensures found { IfSome result (λ shown. IsReadAs shown bytes.now) }
    ensures none { IfNone result (IsNoRecord bytes.now) }
{
    if bytes.len() != 56 {
        return None;
    }
    let port = port_in(bytes, 2)?;
    Some(Shown::Version { port })
}

// The end, with seven counts.
fn read_end(bytes: &[u8]) -> Option<Shown>
    requires there { 8 ≤ length bytes.now }
    requires length { word bytes.now 1 + 8 ≡ length bytes.now }
    requires kind { word bytes.now 0 ≡ 7 }
    ensures found { IfSome result (λ shown. IsReadAs shown bytes.now) }
    ensures none { IfNone result (IsNoRecord bytes.now) }
{
    if bytes.len() != 64 {
        return None;
    }
    let counts = [
        double_in(bytes, 2),
        double_in(bytes, 4),
        double_in(bytes, 6),
        double_in(bytes, 8),
        double_in(bytes, 10),
        double_in(bytes, 12),
        double_in(bytes, 14),
    ];
    Some(Shown::End { counts })
}

// The stream, the port and the number lost of a run.
fn read_source(bytes: &[u8]) -> Option<(u32, u16, u8)>
    requires { 20 ≤ length bytes.now }
    ensures found { IfSome result (λ source. IsSource source.0 source.1 source.2 bytes.now) }
    ensures none { IfNone result ((stream port lost : ℕ) → ¬ IsSource stream port lost bytes.now) }
{
    let port = port_in(bytes, 3)?;
    let lost = word_in(bytes, 4);
    if lost > 15 {
        return None;
    }
    Some((word_in(bytes, 2), port, lost as u8))
}

// The index of the first sample and the number of samples, which stand from `index` on, where as
// many samples stand behind the front.
fn read_span(bytes: &[u8], index: usize, front: usize) -> Option<(u32, u32)>
    requires there { 4 * index + 8 ≤ length bytes.now }
    requires front { front ≤ length bytes.now }
    ensures found { IfSome result (λ span. IsSpan span.0 span.1 index front bytes.now) }
    ensures none { IfNone result ((first number : ℕ)
        → ¬ IsSpan first number index front bytes.now) }
{
    let first = word_in(bytes, index);
    let number = word_in(bytes, index + 1);
    let is_within = u64::from(first) + u64::from(number) <= 1 << 32;
    if number == 0 || !is_within || bytes.len() - front != 4 * number as usize {
        return None;
    }
    Some((first, number))
}

// Whether samples that are cut out of a packet may have this reason.
fn is_of_samples(reason: Reason) -> bool
    ensures { IsTrue result ↔ ((2 ≤ number_of reason) × (number_of reason ≤ 6)) }
{
    !matches!(reason, Reason::BeforeFirst | Reason::Shape)
}

// Whether a whole packet may have this reason.
fn is_of_packets(reason: Reason) -> bool
    ensures { IsTrue result ↔ (number_of reason ≢ 6) }
{
    !matches!(reason, Reason::FormatChanged)
}
