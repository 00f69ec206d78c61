ghost use Rattle.std.specs.Prelude.{◌≡◌, ◌<◌, ◌≤◌, ◌≢◌, IfSome, IfNone, Some};
ghost use Rattle.vrt_fields.specs.declared.field.Field.{Field};
ghost use Rattle.vrt_fields.specs.Field.{bit_of, width_of};
ghost use Rattle.vrt_fields.specs.FieldSet.{index_of};

/// A field of a context packet, of those that ANSI/VITA 49.2 lists under CIF0.
///
/// In a packet the fields stand from the highest bit of CIF0 down.
#[derive(Clone, Copy, Debug, PartialEq, Eq, Hash)]
pub enum Field {
    /// Reference point identifier.
    ReferencePoint,
    /// Bandwidth, signed, in units of 2^-20 Hz.
    Bandwidth,
    /// IF reference frequency, signed, in units of 2^-20 Hz.
    IfReference,
    /// RF reference frequency, signed, in units of 2^-20 Hz.
    RfReference,
    /// IF band offset, signed, in units of 2^-20 Hz.
    IfOffset,
    /// Reference level: the low half, signed, in units of 1/128 dBm.
    ReferenceLevel,
    /// Gain of stage 1 in the low half and of stage 2 in the high one, signed, in units of 1/128 dB.
    Gain,
    /// Sample rate, signed, in units of 2^-20 Hz.
    SampleRate,
    /// Timestamp adjustment, signed, in femtoseconds.
    TimeAdjustment,
    /// Timestamp calibration time, in seconds.
    Calibration,
    /// State and event indicators.
    State,
    /// Signal data packet payload format.
    Format,
}

impl Field {
    /// The bit of CIF0 that says that the field is there.
    #[inline]
    pub fn bit(self) -> u32
        ensures number { result ≡ bit_of self }
        ensures within { result < 32 }
    {
        match self {
            Field::ReferencePoint => 30,
            Field::Bandwidth => 29,
            Field::IfReference => 28,
            Field::RfReference => 27,
            Field::IfOffset => 25,
            Field::ReferenceLevel => 24,
            Field::Gain => 23,
            Field::SampleRate => 21,
            Field::TimeAdjustment => 20,
            Field::Calibration => 19,
            Field::State => 16,
            Field::Format => 15,
        }
    }

    /// How many words the field takes: 1 or 2.
    #[inline]
    pub fn width(self) -> usize
        ensures number { result ≡ width_of self }
        ensures some { 1 ≤ result }
        ensures most { result ≤ 2 }
    {
        match self {
            Field::ReferencePoint
            | Field::ReferenceLevel
            | Field::Gain
            | Field::Calibration
            | Field::State => 1,
            Field::Bandwidth
            | Field::IfReference
            | Field::RfReference
            | Field::IfOffset
            | Field::SampleRate
            | Field::TimeAdjustment
            | Field::Format => 2,
        }
    }

    /// The number of the field among all, 0 to 11, from the highest bit down.
    #[inline]
    pub fn number(self) -> usize
        ensures number { result ≡ index_of self }
        ensures within { result < 12 }
    {
        match self {
            Field::ReferencePoint => 0,
            Field::Bandwidth => 1,
            Field::IfReference => 2,
            Field::RfReference => 3,
            Field::IfOffset => 4,
            Field::ReferenceLevel => 5,
            Field::Gain => 6,
            Field::SampleRate => 7,
            Field::TimeAdjustment => 8,
            Field::Calibration => 9,
            Field::State => 10,
            Field::Format => 11,
        }
    }

    /// The field of this bit of CIF0. `None` exactly where no field has it.
    pub fn of_bit(bit: u32) -> Option<Field>
        ensures found { IfSome result (λ field. bit_of field ≡ bit) }
        ensures only { (field : Field) → bit_of field ≡ bit → result ≡ Some field }
        ensures none { IfNone result ((field : Field) → bit_of field ≢ bit) }
    {
        match bit {
            30 => Some(Field::ReferencePoint),
            29 => Some(Field::Bandwidth),
            28 => Some(Field::IfReference),
            27 => Some(Field::RfReference),
            25 => Some(Field::IfOffset),
            24 => Some(Field::ReferenceLevel),
            23 => Some(Field::Gain),
            21 => Some(Field::SampleRate),
            20 => Some(Field::TimeAdjustment),
            19 => Some(Field::Calibration),
            16 => Some(Field::State),
            15 => Some(Field::Format),
            _ => None,
        }
    }
}
