ghost use Rattle.std.specs.Prelude.{◌≡◌, ◌+◌, ◌*◌, ◌<◌, ◌≤◌, ◌^◌, length, IfOk, IfErr};
ghost use Rattle.replay_form.specs.HeadFields.{AreRight, AreJudged, IsHeadWrongAt, is_second, field_count, route_fields};

use crate::head_field::{FIXED_FIELDS, HeadField, MAGIC, ROUTES, fields_of_route};
use crate::head_rules::{SECOND_MAGIC, is_right};
use crate::numbers::{u32_at, u64_at};

/// Whether the bytes begin a record of form 2.
pub(crate) fn is_second_form(bytes: &[u8]) -> bool
    ensures { result ≡ is_second bytes.now }
{
    bytes.len() >= 8 && u64_at(bytes, MAGIC) == SECOND_MAGIC
}

/// Judges the fields of a header whose bytes are all there, those in front of `from` aside, which
/// are right. Answers how many fields are there and right, or `Err` with the offset of the first
/// that is wrong.
pub(crate) fn judge_head(bytes: &[u8], from: usize) -> Result<usize, usize>
    requires right { AreRight bytes.now from }
    requires among { from ≤ field_count bytes.now }
    ensures judged { IfOk result (λ judged. AreJudged bytes.now judged (field_count bytes.now)) }
    ensures wrong { IfErr result (λ offset. IsHeadWrongAt bytes.now offset) }
{
    let second = is_second_form(bytes);
    let fixed = judge_fields(bytes, second, from.min(FIXED_FIELDS), FIXED_FIELDS)?;
    if fixed < FIXED_FIELDS {
        return Ok(fixed);
    }
    judge_routes(bytes, second, from.max(FIXED_FIELDS))
}

// Judges the fields of a header in front of whose routes all fields are right, those in front of
// `from` aside, and answers as `judge_head` does.
fn judge_routes(bytes: &[u8], second: bool, from: usize) -> Result<usize, usize>
    requires form { second ≡ is_second bytes.now }
    requires right { AreRight bytes.now from }
    requires behind { 58 ≤ from }
    requires among { from ≤ field_count bytes.now }
    ensures judged { IfOk result (λ judged. AreJudged bytes.now judged (field_count bytes.now)) }
    ensures wrong { IfErr result (λ offset. IsHeadWrongAt bytes.now offset) }
{
    let fields = fields_of_route(second) * u32_at(bytes, ROUTES) as usize;
    judge_fields(bytes, second, from, FIXED_FIELDS + fields)
}

// Judges the fields in front of `to`, those in front of `from` aside, and answers as `judge_head`
// does.
fn judge_fields(bytes: &[u8], second: bool, from: usize, to: usize) -> Result<usize, usize>
    requires form { second ≡ is_second bytes.now }
    requires right { AreRight bytes.now from }
    requires order { from ≤ to }
    requires among { to ≤ field_count bytes.now }
    requires bound { to ≤ 58 + route_fields second * 2 ^ 32 }
    ensures judged { IfOk result (λ judged. AreJudged bytes.now judged to) }
    ensures wrong { IfErr result (λ offset. IsHeadWrongAt bytes.now offset) }
{
    for index in from..to {
        let field = HeadField::at(second, index);
        let offset = field.offset(second);
        let end = offset + field.width();
        if bytes.len() < end {
            return Ok(index);
        }
        if !is_right(second, field, &bytes[..end]) {
            return Err(offset);
        }
    }
    Ok(to)
}
