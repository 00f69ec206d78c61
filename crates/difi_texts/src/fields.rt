ghost use Rattle.std.specs.Prelude.{◌≡◌};
ghost use Rattle.vrt_fields.specs.Field.{fields_in_order};

use vrt_fields::Field;

/// All fields, as they stand in a packet.
pub(crate) fn all_fields() -> [Field; 12]
    ensures { result ≡ fields_in_order }
{
    [
        Field::ReferencePoint,
        Field::Bandwidth,
        Field::IfReference,
        Field::RfReference,
        Field::IfOffset,
        Field::ReferenceLevel,
        Field::Gain,
        Field::SampleRate,
        Field::TimeAdjustment,
        Field::Calibration,
        Field::State,
        Field::Format,
    ]
}
