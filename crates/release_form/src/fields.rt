ghost use Rattle.std.specs.Prelude.{◌≡◌, ◌↔◌, IsTrue};
ghost use Rattle.vrt_time.specs.Time.{capture_at};
ghost use Rattle.vrt_fields.specs.declared.field.Field.TheVariants.{SampleRate};
ghost use Rattle.vrt_fields.specs.FieldWords.{AreFields, field_of};

use vrt_fields::{FORMAT_WORD, PayloadFormat, RATE_WORD, is_rate, rate_of};
use vrt_time::{Moment, Stamp, capture};

/// Whether these are the words of the fields of a context.
pub(crate) fn are_fields(fields: &[u32; 19]) -> bool
    ensures { IsTrue result ↔ AreFields fields.now }
{
    let rate = is_rate(fields[RATE_WORD], fields[RATE_WORD + 1]);
    rate && PayloadFormat::read(fields[FORMAT_WORD], fields[FORMAT_WORD + 1]).is_ok()
}

/// Whether sample `first` of a packet with this stamp was captured at this moment.
pub(crate) fn is_captured(stamp: Stamp, first: u32, fields: &[u32; 19], moment: Moment) -> bool
    requires { AreFields fields.now }
    ensures { IsTrue result ↔ (moment ≡ capture_at stamp first (field_of fields.now SampleRate)) }
{
    moment == capture(stamp, first, rate_of(fields))
}
