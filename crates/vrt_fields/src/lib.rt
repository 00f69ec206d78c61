//! The twelve fields of a context packet: their bits in CIF0, their words, sets of them with their
//! values, the texts of these, and the payload format that one of them holds.
#![tactic(auto)]

mod field;
mod field_set;
mod field_words;
mod format;
mod laws;
mod limit;
mod limits;
mod number_text;
mod round_trip;
mod route;
#[cfg(test)]
mod tests;
mod text;
mod values;

pub use crate::field::Field;
pub use crate::field_set::FieldSet;
pub use crate::field_words::{
    FORMAT_WORD, RATE_WORD, is_rate, item_size_of, rate_of, raw_rate, value_in,
};
pub use crate::format::PayloadFormat;
pub use crate::laws::{
    a_bit_for_each_field, fields_stand_apart, one_set_for_values, whole_hertz_and_rest,
};
pub use crate::limit::Limit;
pub use crate::limits::Limits;
pub use crate::number_text::{
    fill_decimal, hexadecimal_of, push_decimal, push_hexadecimal, push_padded, push_signed,
    push_text,
};
pub use crate::round_trip::{one_set_for_words, written_and_read};
pub use crate::route::Route;
pub use crate::text::{push_text_of, text_of};
pub use crate::values::{bit_under, field_at, is_field_mask, mask_number, mask_width};
