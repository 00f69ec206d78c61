ghost use Rattle.std.specs.Prelude.{◌≡◌, [], ◌∷◌, IfSome, IfNone, IfOk, IfErr, Ok};
ghost use Rattle.vrt_fields.specs.declared.format.PayloadFormat.{PayloadFormat};
ghost use Rattle.vrt_fields.specs.Format.{IsFormat, IsFormatFirst, IsFormatRefused, IsFormatWords, format_of};
ghost use Rattle.vrt_words.specs.Begins.{IsRefusedAt};

use vrt_words::{Place, bits_of};

/// How the samples of a payload are laid out: complex Cartesian, signed fixed point.
#[derive(Clone, Copy, Debug, PartialEq, Eq, Hash)]
pub struct PayloadFormat {
    /// The item size: bits of one number, of which a sample has two. From 4 to 16.
    pub bits: u8,
    /// Whether items are packed link-efficiently. At 8 and 16 bits both packings are laid out alike.
    pub packed: bool,
}

impl PayloadFormat {
    /// The format that the two words of the field tell, laid out as the payload format field of
    /// ANSI/VITA 49.2.
    ///
    /// The first word is in the rule where samples are complex Cartesian and signed fixed point, with
    /// no repeat, tags or fraction, the item size is from 4 to 16 bits, the packing size equals it,
    /// and the packing is link-efficient, or any at 8 and 16 bits. The second word is 0. `Err` gives
    /// the first word that is outside: 0, whatever the second is, or 1.
    #[inline(always)]
    pub fn read(first: u32, second: u32) -> Result<PayloadFormat, Place>
        ensures found { IfOk result (λ format. IsFormat format first second) }
        ensures only { (format : PayloadFormat) → IsFormat format first second
            → result ≡ Ok format }
        ensures wrong { IfErr result (λ place. IsFormatRefused first second place.word) }
        ensures refused { IfErr result (λ place.
            IsRefusedAt IsFormatWords (first ∷ second ∷ []) place.word) }
    {
        let Some(format) = format_of_first(first) else {
            return Err(Place { word: 0 });
        };
        if second != 0 {
            return Err(Place { word: 1 });
        }
        Ok(format)
    }
}

/// The format that the first word tells, where it is in the rule.
#[inline(always)]
fn format_of_first(first: u32) -> Option<PayloadFormat>
    ensures format { IfSome result (λ format. format ≡ format_of first) }
    ensures right { IfSome result (λ _. IsFormatFirst first) }
    ensures wrong { IfNone result (¬ IsFormatFirst first) }
{
    let bits = bits_of(first, 0, 6) + 1;
    let packing = bits_of(first, 6, 6) + 1;
    let packed = bits_of(first, 31, 1) == 1;
    let is_cartesian = bits_of(first, 29, 2) == 0b01;
    let is_plain = bits_of(first, 12, 17) == 0;
    let is_sized = (4..=16).contains(&bits) && packing == bits;
    let is_packed_right = packed || bits == 8 || bits == 16;
    if is_cartesian && is_plain && is_sized && is_packed_right {
        Some(PayloadFormat {
            bits: bits as u8,
            packed,
        })
    } else {
        None
    }
}
