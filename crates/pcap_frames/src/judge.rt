ghost use Rattle.std.specs.Prelude.{◌≡◌, ◌+◌, ◌≤◌, ◌<◌, ℕ, true, length, take, IfOk, OnOk, IfErr, IfSome, IfNone};
ghost use Rattle.pcap_frames.specs.CaptureFields.{AreRecordFields, IsFileWrongAt, IsRecordWrongAt, IsWholeRecord, fraction_limit, magic_of, record_size};
ghost use Rattle.pcap_frames.specs.Numbers.{number_in};
ghost use Rattle.pcap_frames.specs.Taking.{IsFileJudged};

use crate::form::FileForm;
use crate::numbers::{u16_in, u32_in};

/// The bytes of a file's head.
pub(crate) const FILE_HEAD: usize = 24;

/// The bytes of a record in front of what was captured.
pub(crate) const RECORD_HEAD: usize = 16;

/// The most bytes of a frame that a record holds.
pub(crate) const MOST_CAPTURED: u32 = 262_144;

/// The link type of Ethernet.
pub(crate) const ETHERNET: u32 = 1;

// The form that a magic number tells, read with its highest byte first.
fn form_of(magic: u32) -> Option<FileForm>
    ensures some { IfSome result (λ form. magic ≡ magic_of form) }
    ensures none { IfNone result ((form : FileForm) → ¬ (magic ≡ magic_of form)) }
{
    let (big, nanos) = match magic {
        0xA1B2_C3D4 => (true, false),
        0xA1B2_3C4D => (true, true),
        0xD4C3_B2A1 => (false, false),
        0x4D3C_B2A1 => (false, true),
        _ => return None,
    };
    Some(FileForm { big, nanos })
}

/// Judges the fields of a file's head whose bytes are all there. Answers the form of the file once
/// its head is whole, or `Err` with the offset of the first field that is wrong.
pub(crate) fn judge_file_head(bytes: &[u8]) -> Result<Option<FileForm>, usize>
    requires { length bytes.now ≤ 24 }
    ensures judged { IfOk result (λ form. IsFileJudged form bytes.now) }
    ensures wrong { IfErr result (λ offset. IsFileWrongAt bytes.now offset) }
{
    if bytes.len() < 4 {
        return Ok(None);
    }
    let Some(form) = form_of(u32_in(true, bytes, 0)) else {
        return Err(0);
    };
    if bytes.len() < 6 {
        return Ok(None);
    }
    if u16_in(form.big, bytes, 4) != 2 {
        return Err(4);
    }
    if bytes.len() < 8 {
        return Ok(None);
    }
    if u16_in(form.big, bytes, 6) != 4 {
        return Err(6);
    }
    if bytes.len() < FILE_HEAD {
        return Ok(None);
    }
    if u32_in(form.big, bytes, 20) != ETHERNET {
        return Err(20);
    }
    Ok(Some(form))
}

// So many fractions are a second.
fn limit_of(form: FileForm) -> u32
    ensures { result ≡ fraction_limit form }
{
    if form.nanos { 1_000_000_000 } else { 1_000_000 }
}

/// The bytes of a record.
pub(crate) fn size_of_record(form: FileForm, bytes: &[u8]) -> usize
    requires { 16 ≤ length bytes.now }
    ensures { result ≡ record_size form bytes.now }
{
    RECORD_HEAD + u32_in(form.big, bytes, 8) as usize
}

/// Judges the fields of a record whose bytes are all there, or gives `Err` with the offset of the
/// first that is wrong.
pub(crate) fn judge_record(form: FileForm, bytes: &[u8]) -> Result<(), usize>
    ensures right { OnOk result (AreRecordFields form (length bytes.now) bytes.now) }
    ensures wrong { IfErr result (λ offset. IsRecordWrongAt form bytes.now offset) }
{
    if bytes.len() < 8 {
        return Ok(());
    }
    if u32_in(form.big, bytes, 4) >= limit_of(form) {
        return Err(4);
    }
    if bytes.len() < 12 {
        return Ok(());
    }
    if u32_in(form.big, bytes, 8) > MOST_CAPTURED {
        return Err(8);
    }
    Ok(())
}

/// The bytes of the record with which these begin, where all of it is there and none of it is
/// wrong.
#[inline]
pub(crate) fn whole_record(form: FileForm, bytes: &[u8]) -> Option<usize>
    ensures few { IfSome result (λ size. size ≤ length bytes.now) }
    ensures whole { IfSome result (λ size. IsWholeRecord form (take size bytes.now)) }
    ensures none { IfNone result ((n : ℕ) → n ≤ length bytes.now
        → ¬ IsWholeRecord form (take n bytes.now)) }
{
    if bytes.len() < RECORD_HEAD {
        return None;
    }
    if let Err(_) = judge_record(form, bytes) {
        return None;
    }
    let size = size_of_record(form, bytes);
    if bytes.len() < size { None } else { Some(size) }
}
