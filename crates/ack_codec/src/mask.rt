ghost use Rattle.std.specs.Prelude.{◌≡◌, ◌+◌, ◌≤◌, ◌<◌, ◌^◌, ◌≢◌, ℕ, Some, IfSome, IfNone};
ghost use Rattle.vrt_words.specs.Words.{words_of};
ghost use Rattle.vrt_fields.specs.FieldSet.{width_of_mask, number_in_mask};
ghost use Rattle.ack_codec.specs.Steps.{IsMaskAt};

use vrt_fields::{is_field_mask, mask_number, mask_width};
use vrt_words::word_or_place;

/// The word at `at`, where it is a mask that lists `least` to `most` fields.
pub(crate) fn listing_at(bytes: &[u8], at: usize, least: usize, most: usize) -> Option<u32>
    requires { at < 2 ^ 32 }
    ensures found { IfSome result (λ mask. IsMaskAt (words_of bytes.now) at mask
        × (least ≤ number_in_mask mask) × (number_in_mask mask ≤ most)) }
    ensures none { IfNone result ((mask : ℕ) → IsMaskAt (words_of bytes.now) at mask
        → least ≤ number_in_mask mask → ¬ (number_in_mask mask ≤ most)) }
{
    let mask = mask_at(bytes, at)?;
    let fields = mask_number(mask);
    if least <= fields && fields <= most {
        Some(mask)
    } else {
        None
    }
}

/// The word at `at`, where it is a mask of fields that take so many words.
pub(crate) fn spread_at(bytes: &[u8], at: usize, words: usize) -> Option<u32>
    requires { at < 2 ^ 32 }
    ensures found { IfSome result (λ mask. IsMaskAt (words_of bytes.now) at mask
        × (width_of_mask mask ≡ words)) }
    ensures none { IfNone result ((mask : ℕ) → IsMaskAt (words_of bytes.now) at mask
        → width_of_mask mask ≢ words) }
{
    let mask = mask_at(bytes, at)?;
    if mask_width(mask) == words {
        Some(mask)
    } else {
        None
    }
}

// The word at `at`, where it is a mask of fields.
fn mask_at(bytes: &[u8], at: usize) -> Option<u32>
    requires { at < 2 ^ 32 }
    ensures found { IfSome result (λ mask. IsMaskAt (words_of bytes.now) at mask) }
    ensures only { (mask : ℕ) → IsMaskAt (words_of bytes.now) at mask → result ≡ Some mask }
{
    match word_or_place(bytes, at as u32) {
        Ok(word) if is_field_mask(word) => Some(word),
        _ => None,
    }
}
