ghost use Rattle.std.specs.Prelude.{◌≡◌, ◌+◌, ◌<◌, ◌≤◌, ◌++◌, length, take, vec_len, vec_capacity, IfOk, IfErr};
ghost use Rattle.pcap_frames.specs.CaptureFields.{IsFilePart, IsFileWrongAt, IsRecordPart, IsRecordWrongAt};
ghost use Rattle.pcap_frames.specs.Taking.{IsFileTaken, IsRecordBegun, IsRecordMoved, IsRecordTaken, TakesSome};

use crate::form::FileForm;
use crate::judge::{
    FILE_HEAD, RECORD_HEAD, judge_file_head, judge_record, size_of_record, whole_record,
};

/// What a piece makes of a file's head that has begun.
pub(crate) enum FileTaken {
    /// The whole piece was taken, and the head isn't whole yet.
    Part,
    /// So many bytes were taken, and the head is whole: a file of this form.
    Whole(FileForm, usize),
}

/// What a piece makes of a record that has begun.
pub(crate) enum RecordTaken {
    /// The whole piece was taken, and the record isn't whole yet.
    Part,
    /// So many bytes were taken, and the record is whole.
    Whole(usize),
}

/// The most bytes of a record.
pub(crate) const MOST_HELD: usize = 262_160;

/// Moves bytes of the piece behind those held until there are `size`, and answers how many.
fn take_up_to(held: &mut Vec<u8>, piece: &[u8], size: usize) -> usize
    requires { size ≤ vec_capacity held.old }
    ensures few { result ≤ length piece.now }
    ensures held { held.new.items ≡ held.old.items ++ take result piece.now }
    ensures len { vec_len held.new ≡ length held.new.items }
    ensures all { length held.new.items < size → result ≡ length piece.now }
    ensures within { length held.old.items ≤ size → length held.new.items ≤ size }
    ensures none { size ≤ length held.old.items → result ≡ 0 }
    ensures capacity { vec_capacity held.old ≤ vec_capacity held.new }
{
    let count = size.saturating_sub(held.len()).min(piece.len());
    match held.extend_from_slice(&piece[..count]) {
        Ok(()) => count,
        Err(_) => unreachable!(),
    }
}

/// Takes bytes of the piece until the head of a file is whole, and judges each field as soon as it
/// is there. `Err` has the offset of the first field that is wrong, in the head.
pub(crate) fn take_file_head(held: &mut Vec<u8>, piece: &[u8]) -> Result<FileTaken, usize>
    requires begun { IsFilePart held.old.items }
    requires room { 262160 ≤ vec_capacity held.old }
    ensures taken { IfOk result
        (λ taken. IsFileTaken held.old.items piece.now taken held.new.items) }
    ensures wrong { IfErr result (λ offset. IsFileWrongAt (held.old.items ++ piece.now) offset) }
    ensures capacity { vec_capacity held.old ≤ vec_capacity held.new }
{
    let count = take_up_to(held, piece, FILE_HEAD);
    match judge_file_head(held) {
        Ok(None) => Ok(FileTaken::Part),
        Ok(Some(form)) => Ok(FileTaken::Whole(form, count)),
        Err(offset) => Err(offset),
    }
}

/// Takes bytes of the piece until a record is whole, and judges each field as soon as it is there.
/// A record that stands in the piece alone stays there. `Err` has the offset of the first field
/// that is wrong, in the record.
#[inline]
pub(crate) fn take_record(
    held: &mut Vec<u8>,
    form: FileForm,
    piece: &[u8],
) -> Result<RecordTaken, usize>
    requires begun { IsRecordPart form held.old.items }
    requires room { 262160 ≤ vec_capacity held.old }
    ensures taken { IfOk result
        (λ taken. IsRecordTaken form held.old.items piece.now taken held.new.items) }
    ensures progress { IfOk result TakesSome }
    ensures wrong { IfErr result
        (λ offset. IsRecordWrongAt form (held.old.items ++ piece.now) offset) }
    ensures capacity { vec_capacity held.old ≤ vec_capacity held.new }
{
    if !held.as_slice().is_empty() {
        return take_in_parts(held, form, piece);
    }
    match whole_record(form, piece) {
        Some(size) => Ok(RecordTaken::Whole(size)),
        None => take_in_parts(held, form, piece),
    }
}

// Takes bytes of the piece until a record is whole that doesn't stand in the piece alone, or is
// wrong, and judges each field as soon as it is there. `Err` has the offset of the first field that
// is wrong, in the record.
#[inline(never)]
fn take_in_parts(held: &mut Vec<u8>, form: FileForm, piece: &[u8]) -> Result<RecordTaken, usize>
    requires begun { IsRecordPart form held.old.items }
    requires room { 262160 ≤ vec_capacity held.old }
    ensures taken { IfOk result
        (λ taken. IsRecordMoved form held.old.items piece.now taken held.new.items) }
    ensures progress { IfOk result TakesSome }
    ensures wrong { IfErr result
        (λ offset. IsRecordWrongAt form (held.old.items ++ piece.now) offset) }
    ensures capacity { vec_capacity held.old ≤ vec_capacity held.new }
{
    let first = take_up_to(held, piece, RECORD_HEAD);
    if let Err(offset) = judge_record(form, held) {
        return Err(offset);
    }
    if held.len() < RECORD_HEAD {
        return Ok(RecordTaken::Part);
    }
    match take_captured(held, form, &piece[first..]) {
        RecordTaken::Part => Ok(RecordTaken::Part),
        RecordTaken::Whole(count) => Ok(RecordTaken::Whole(first + count)),
    }
}

// Takes bytes of the piece until a record is whole whose part in front of the captured bytes is
// there.
fn take_captured(held: &mut Vec<u8>, form: FileForm, piece: &[u8]) -> RecordTaken
    requires begun { IsRecordBegun form held.old.items }
    requires room { 262160 ≤ vec_capacity held.old }
    ensures taken { IsRecordMoved form held.old.items piece.now result held.new.items }
    ensures capacity { vec_capacity held.old ≤ vec_capacity held.new }
{
    let size = size_of_record(form, held);
    let count = take_up_to(held, piece, size);
    if held.len() < size {
        RecordTaken::Part
    } else {
        RecordTaken::Whole(count)
    }
}
