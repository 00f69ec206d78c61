ghost use Rattle.std.specs.Prelude.{◌≡◌, ◌+◌, ◌*◌, ◌<◌, ◌≤◌, ◌^◌, ◌++◌, true, false, length, take, drop, vec_len, vec_capacity, IfOk, IfErr};
ghost use Rattle.replay_form.specs.HeadFields.{IsHeadOpen, IsWholeHead, IsHeadWrongAt, head_size};
ghost use Rattle.replay_form.specs.Taking.{IsHeadTaken, IsHeadBegun, TakesSome, IsFrameTaken, IsFrameMoved, IsFrameBegun, FrameTakesSome};
ghost use Rattle.replay_form.specs.FrameFields.{IsFramePart, IsWholeFrame, IsFrameWrongAt};

use crate::frame_field::{FRAME_HEAD, judge_frame, size_of_frame, whole_frame};
use crate::head_field::{FIXED_SIZE, ROUTES, size_of_route};
use crate::judge_head::{is_second_form, judge_head};
use crate::numbers::u32_at;
use vrt_time::Stamp;

/// What a piece makes of a header that has begun.
pub(crate) enum HeadTaken {
    /// The whole piece was taken, and the header isn't whole yet: so many fields are judged.
    Part(usize),
    /// So many bytes were taken, and the header is whole.
    Whole(usize),
}

/// What a piece makes of a frame that has begun.
pub(crate) enum FrameTaken {
    /// The whole piece was taken, and the frame isn't whole yet.
    Part,
    /// So many bytes were taken, and the frame is whole.
    Whole(usize),
}

/// The most bytes of a header or a frame: a frame with the longest datagram.
pub(crate) const MOST_HELD: usize = 65_555;

/// The bytes of a header, whose part in front of the routes is there.
fn size_of_head(bytes: &[u8]) -> usize
    requires { 332 ≤ length bytes.now }
    ensures { result ≡ head_size bytes.now }
{
    FIXED_SIZE + size_of_route(is_second_form(bytes)) * u32_at(bytes, ROUTES) as usize
}

/// Moves bytes of the piece behind those held until there are `size`, and answers how many.
fn take_up_to(held: &mut Vec<u8>, piece: &[u8], size: usize) -> usize
    requires { size ≤ vec_capacity held.old }
    ensures few { result ≤ length piece.now }
    ensures held { held.new.items ≡ held.old.items ++ take result piece.now }
    ensures len { vec_len held.new ≡ length held.new.items }
    ensures all { length held.new.items < size → result ≡ length piece.now }
    ensures within { length held.old.items ≤ size → length held.new.items ≤ size }
    ensures none { size ≤ length held.old.items → result ≡ 0 }
    ensures capacity { vec_capacity held.old ≤ vec_capacity held.new }
{
    let count = size.saturating_sub(held.len()).min(piece.len());
    match held.extend_from_slice(&piece[..count]) {
        Ok(()) => count,
        Err(_) => unreachable!(),
    }
}

/// Takes bytes of the piece until a header is whole, and judges each field as soon as it is there.
/// `Err` has the offset of the first field that is wrong, in the header.
pub(crate) fn take_head(held: &mut Vec<u8>, judged: usize, piece: &[u8]) -> Result<HeadTaken, usize>
    requires begun { IsHeadOpen held.old.items judged }
    requires room { 65555 ≤ vec_capacity held.old }
    ensures taken { IfOk result
        (λ taken. IsHeadTaken held.old.items piece.now taken held.new.items) }
    ensures progress { IfOk result TakesSome }
    ensures wrong { IfErr result (λ offset. IsHeadWrongAt (held.old.items ++ piece.now) offset) }
    ensures capacity { vec_capacity held.old ≤ vec_capacity held.new }
{
    let first = take_up_to(held, piece, FIXED_SIZE);
    let judged = match judge_head(held, judged) {
        Ok(judged) => judged,
        Err(offset) => return Err(offset),
    };
    if held.len() < FIXED_SIZE {
        return Ok(HeadTaken::Part(judged));
    }
    match take_routes(held, judged, &piece[first..]) {
        Ok(HeadTaken::Part(judged)) => Ok(HeadTaken::Part(judged)),
        Ok(HeadTaken::Whole(count)) => Ok(HeadTaken::Whole(first + count)),
        Err(offset) => Err(offset),
    }
}

// Takes bytes of the piece until a header is whole whose part in front of the routes is there, and
// judges each field as soon as it is there. `Err` has the offset of the first field that is wrong,
// in the header.
fn take_routes(held: &mut Vec<u8>, judged: usize, piece: &[u8]) -> Result<HeadTaken, usize>
    requires begun { IsHeadBegun held.old.items judged }
    requires room { 65555 ≤ vec_capacity held.old }
    ensures taken { IfOk result
        (λ taken. IsHeadTaken held.old.items piece.now taken held.new.items) }
    ensures wrong { IfErr result (λ offset. IsHeadWrongAt (held.old.items ++ piece.now) offset) }
    ensures capacity { vec_capacity held.old ≤ vec_capacity held.new }
{
    let size = size_of_head(held);
    let count = take_up_to(held, piece, size);
    let judged = match judge_head(held, judged) {
        Ok(judged) => judged,
        Err(offset) => return Err(offset),
    };
    if held.len() < size {
        Ok(HeadTaken::Part(judged))
    } else {
        Ok(HeadTaken::Whole(count))
    }
}

/// Takes bytes of the piece until a frame is whole, and judges each field as soon as it is there. A
/// frame that stands in the piece alone stays there. `Err` has the offset of the first field that
/// is wrong, in the frame.
#[inline]
pub(crate) fn take_frame(held: &mut Vec<u8>, last: Stamp, piece: &[u8]) -> Result<FrameTaken, usize>
    requires begun { IsFramePart last held.old.items }
    requires room { 65555 ≤ vec_capacity held.old }
    ensures taken { IfOk result
        (λ taken. IsFrameTaken last held.old.items piece.now taken held.new.items) }
    ensures progress { IfOk result FrameTakesSome }
    ensures wrong { IfErr result
        (λ offset. IsFrameWrongAt last (held.old.items ++ piece.now) offset) }
    ensures capacity { vec_capacity held.old ≤ vec_capacity held.new }
{
    if !held.as_slice().is_empty() {
        return take_in_parts(held, last, piece);
    }
    match whole_frame(last, piece) {
        Some(size) => Ok(FrameTaken::Whole(size)),
        None => take_in_parts(held, last, piece),
    }
}

// Takes bytes of the piece until a frame is whole that doesn't stand in the piece alone, or is
// wrong, and judges each field as soon as it is there. `Err` has the offset of the first field that
// is wrong, in the frame.
#[inline(never)]
fn take_in_parts(held: &mut Vec<u8>, last: Stamp, piece: &[u8]) -> Result<FrameTaken, usize>
    requires begun { IsFramePart last held.old.items }
    requires room { 65555 ≤ vec_capacity held.old }
    ensures taken { IfOk result
        (λ taken. IsFrameMoved last held.old.items piece.now taken held.new.items) }
    ensures progress { IfOk result FrameTakesSome }
    ensures wrong { IfErr result
        (λ offset. IsFrameWrongAt last (held.old.items ++ piece.now) offset) }
    ensures capacity { vec_capacity held.old ≤ vec_capacity held.new }
{
    let first = take_up_to(held, piece, FRAME_HEAD);
    if let Err(offset) = judge_frame(last, held) {
        return Err(offset);
    }
    if held.len() < FRAME_HEAD {
        return Ok(FrameTaken::Part);
    }
    match take_datagram(held, last, &piece[first..]) {
        FrameTaken::Part => Ok(FrameTaken::Part),
        FrameTaken::Whole(count) => Ok(FrameTaken::Whole(first + count)),
    }
}

// Takes bytes of the piece until a frame is whole whose part in front of the datagram is there.
fn take_datagram(held: &mut Vec<u8>, last: Stamp, piece: &[u8]) -> FrameTaken
    requires begun { IsFrameBegun last held.old.items }
    requires room { 65555 ≤ vec_capacity held.old }
    ensures taken { IsFrameMoved last held.old.items piece.now result held.new.items }
    ensures capacity { vec_capacity held.old ≤ vec_capacity held.new }
{
    let size = size_of_frame(held);
    let count = take_up_to(held, piece, size);
    if held.len() < size {
        FrameTaken::Part
    } else {
        FrameTaken::Whole(count)
    }
}
