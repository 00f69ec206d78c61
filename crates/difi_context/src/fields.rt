ghost use Rattle.std.specs.Prelude.{◌≡◌, ◌≤ℤ◌, ◌+◌, ◌^◌, pos, slice_index, Some};
ghost use Rattle.vrt_fields.specs.Field.{place_of};
ghost use Rattle.vrt_fields.specs.Format.{IsFormat};
ghost use Rattle.vrt_fields.specs.declared.field.Field.TheVariants.{Format, SampleRate};
ghost use Rattle.difi_context.specs.Context.{IsInGrammar, field_of};

use crate::context::ContextRec;
use vrt_fields::{FORMAT_WORD, Field, PayloadFormat, value_in};
use vrt_time::Stamp;

impl ContextRec {
    /// The value of a field: its one word, or its two words as a number of 64 bits.
    pub fn field(&self, field: Field) -> u64
        ensures { result ≡ field_of self.now.fields field }
    {
        value_in(&self.fields, field)
    }

    /// The sample rate, in units of 2^-20 Hz. It is at least 1 Hz.
    pub fn rate(&self) -> i64
        requires { IsInGrammar self.now }
        ensures rate { result ≡ pos (field_of self.now.fields SampleRate) }
        ensures least { pos (2 ^ 20) ≤ℤ result }
    {
        self.field(Field::SampleRate) as i64
    }

    /// The payload format of the samples.
    pub fn format(&self) -> PayloadFormat
        requires { IsInGrammar self.now }
        ensures { IsFormat result (slice_index self.now.fields (place_of Format))
            (slice_index self.now.fields (place_of Format + 1)) }
    {
        match PayloadFormat::read(self.fields[FORMAT_WORD], self.fields[FORMAT_WORD + 1]) {
            Ok(format) => format,
            Err(_) => unreachable!(),
        }
    }

    /// The stamp from which on the context is in force.
    pub fn stamp(&self) -> Stamp
        requires { IsInGrammar self.now }
        ensures { self.now.prologue.stamp ≡ Some result }
    {
        match self.prologue.stamp {
            Some(stamp) => stamp,
            None => unreachable!(),
        }
    }
}
