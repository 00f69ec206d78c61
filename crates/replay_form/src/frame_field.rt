ghost use Rattle.std.specs.Prelude.{◌≡◌, ◌+◌, ◌<◌, ◌≤◌, ◌^◌, ◌↔◌, IsTrue, length, take, ℕ, IfOk, IfErr, IfSome, IfNone};
ghost use Rattle.replay_form.specs.FrameFields.{AreFrameRight, IsWholeFrame, IsFrameRightIn, IsFrameWrongAt, IsFrameJudged, ArePicos, frame_offset, frame_end, frame_field, frame_size};
ghost use Rattle.replay_form.specs.Numbers.{number_at};

use crate::numbers::{u16_at, u32_at, u64_at};
use vrt_time::Stamp;

/// The bytes of a frame in front of its datagram.
pub(crate) const FRAME_HEAD: usize = 20;

/// The fields of a frame.
const FRAME_FIELDS: usize = 6;

/// A field of a frame.
#[derive(Clone, Copy, Debug, PartialEq, Eq)]
pub(crate) enum FrameField {
    Seconds,
    Picos,
    Port,
    Zero,
    Length,
    Datagram,
}

impl FrameField {
    // The field of this number, in the order of layout.
    fn at(index: usize) -> FrameField
        ensures { result ≡ frame_field index }
    {
        match index {
            0 => FrameField::Seconds,
            1 => FrameField::Picos,
            2 => FrameField::Port,
            3 => FrameField::Zero,
            4 => FrameField::Length,
            _ => FrameField::Datagram,
        }
    }

    // Where the field begins.
    fn offset(self) -> usize
        ensures { result ≡ frame_offset self }
    {
        match self {
            FrameField::Seconds => 0,
            FrameField::Picos => 4,
            FrameField::Port => 12,
            FrameField::Zero => 14,
            FrameField::Length => 16,
            FrameField::Datagram => 20,
        }
    }

    // Where the field ends. The length of a datagram stands in front of it.
    fn end(self, bytes: &[u8]) -> usize
        requires { frame_offset self ≤ length bytes.now }
        ensures { result ≡ frame_end self bytes.now }
    {
        match self {
            FrameField::Seconds => 4,
            FrameField::Picos => 12,
            FrameField::Port => 14,
            FrameField::Zero => 16,
            FrameField::Length => 20,
            FrameField::Datagram => size_of_frame(bytes),
        }
    }
}

/// The bytes of a frame.
pub(crate) fn size_of_frame(bytes: &[u8]) -> usize
    requires { 20 ≤ length bytes.now }
    ensures { result ≡ frame_size bytes.now }
{
    FRAME_HEAD + u32_at(bytes, 16) as usize
}

/// The bytes of the frame with which these begin, where all of it is there and none of it is wrong.
#[inline]
pub(crate) fn whole_frame(last: Stamp, bytes: &[u8]) -> Option<usize>
    ensures few { IfSome result (λ size. size ≤ length bytes.now) }
    ensures most { IfSome result (λ size. size ≤ 65555) }
    ensures whole { IfSome result (λ size. IsWholeFrame last (take size bytes.now)) }
    ensures none { IfNone result ((n : ℕ) → n ≤ length bytes.now
        → ¬ IsWholeFrame last (take n bytes.now)) }
{
    if bytes.len() < FRAME_HEAD {
        return None;
    }
    if !is_front_right(last, bytes) {
        return None;
    }
    let size = size_of_frame(bytes);
    if bytes.len() < size { None } else { Some(size) }
}

// Whether the fields in front of the datagram are right.
#[inline]
fn is_front_right(last: Stamp, bytes: &[u8]) -> bool
    requires { 20 ≤ length bytes.now }
    ensures { IsTrue result ↔ AreFrameRight last bytes.now 5 }
{
    let seconds = u32_at(bytes, 0);
    if seconds < last.seconds() {
        return false;
    }
    if u16_at(bytes, 14) != 0 {
        return false;
    }
    if u32_at(bytes, 16) > 65_535 {
        return false;
    }
    are_picos(last, seconds, u64_at(bytes, 4))
}

/// Judges the fields of a frame whose bytes are all there. Answers how many are there and right, of
/// six, or `Err` with the offset of the first that is wrong.
pub(crate) fn judge_frame(last: Stamp, bytes: &[u8]) -> Result<usize, usize>
    ensures judged { IfOk result (λ judged. IsFrameJudged last bytes.now judged) }
    ensures wrong { IfErr result (λ offset. IsFrameWrongAt last bytes.now offset) }
{
    for index in 0..FRAME_FIELDS {
        let field = FrameField::at(index);
        let end = field.end(bytes);
        if bytes.len() < end {
            return Ok(index);
        }
        if !is_right(last, field, &bytes[..end]) {
            return Err(field.offset());
        }
    }
    Ok(FRAME_FIELDS)
}

// Whether a field is right, which depends on the bytes up to its end and the stamp of the frame
// before alone.
fn is_right(last: Stamp, field: FrameField, front: &[u8]) -> bool
    requires { frame_end field front.now ≤ length front.now }
    ensures { IsTrue result ↔ IsFrameRightIn last field front.now }
{
    match field {
        FrameField::Seconds => last.seconds() <= u32_at(front, 0),
        FrameField::Picos => are_picos(last, u32_at(front, 0), u64_at(front, 4)),
        FrameField::Zero => u16_at(front, 14) == 0,
        FrameField::Length => u32_at(front, 16) <= 65_535,
        FrameField::Port | FrameField::Datagram => true,
    }
}

fn are_picos(last: Stamp, seconds: u32, picos: u64) -> bool
    ensures { IsTrue result ↔ ArePicos last seconds picos }
{
    picos < 1_000_000_000_000 && (seconds != last.seconds() || last.picos() <= picos)
}
