ghost use Rattle.std.specs.Prelude.{◌≡◌, ◌≤◌, ◌<◌, ◌+◌, ◌^◌, ◌++◌, ◌∷◌, [], true, drop, length, replicate, vec_len, vec_capacity};
ghost use Rattle.std.specs.Fmt.{decimal, signed_decimal, digit_glyph};
ghost use Rattle.vrt_fields.specs.NumberText.{hexadecimal, hexadecimal_half, padded_decimal};

use vrt_words::bits_of;

/// Puts a text behind the bytes, where there is room for it.
pub fn push_text(into: &mut Vec<u8>, text: &[u8])
    requires { vec_len into.old + length text.now ≤ vec_capacity into.old }
    ensures text { into.new.items ≡ into.old.items ++ text.now }
    ensures length { vec_len into.new ≡ vec_len into.old + length text.now }
    ensures capacity { vec_capacity into.old ≤ vec_capacity into.new }
{
    match into.extend_from_slice(text) {
        Ok(()) => {}
        Err(_) => unreachable!(),
    }
}

/// Puts a number behind the bytes, in decimal digits, where there is room for 20.
pub fn push_decimal(into: &mut Vec<u8>, number: u64)
    requires { vec_len into.old + 20 ≤ vec_capacity into.old }
    ensures text { into.new.items ≡ into.old.items ++ decimal number }
    ensures length { vec_len into.new ≤ vec_len into.old + 20 }
    ensures capacity { vec_capacity into.old ≤ vec_capacity into.new }
{
    let mut digits = [0; 20];
    let start = fill_decimal(&mut digits, number);
    push_text(into, &digits[start..]);
}

/// Puts a number behind the bytes, in decimal digits with zeros in front of them up to `width`, where
/// there is room for 20.
pub fn push_padded(into: &mut Vec<u8>, number: u64, width: usize)
    requires width { width ≤ 20 }
    requires room { vec_len into.old + 20 ≤ vec_capacity into.old }
    ensures text { into.new.items ≡ into.old.items ++ padded_decimal width number }
    ensures length { vec_len into.new ≤ vec_len into.old + 20 }
    ensures capacity { vec_capacity into.old ≤ vec_capacity into.new }
{
    let mut digits = [0; 20];
    let start = fill_decimal(&mut digits, number);
    let text = &digits[start..];
    push_zeros(into, width.saturating_sub(text.len()));
    push_text(into, text);
}

// Puts so many zeros behind the bytes.
fn push_zeros(into: &mut Vec<u8>, number: usize)
    requires number { number ≤ 20 }
    requires room { vec_len into.old + number ≤ vec_capacity into.old }
    ensures text { into.new.items ≡ into.old.items ++ replicate number 48 }
    ensures length { vec_len into.new ≡ vec_len into.old + number }
    ensures capacity { vec_capacity into.old ≤ vec_capacity into.new }
{
    let zeros = [b'0'; 20];
    push_text(into, &zeros[..number]);
}

/// Puts a number behind the bytes, in decimal digits with its sign where it is negative, where there
/// is room for 21.
pub fn push_signed(into: &mut Vec<u8>, number: i64)
    requires { vec_len into.old + 21 ≤ vec_capacity into.old }
    ensures text { into.new.items ≡ into.old.items ++ signed_decimal number }
    ensures length { vec_len into.new ≤ vec_len into.old + 21 }
    ensures capacity { vec_capacity into.old ≤ vec_capacity into.new }
{
    if number < 0 {
        push_text(into, b"-");
    }
    push_decimal(into, number.unsigned_abs());
}

/// Puts a word behind the bytes, in eight upper-case digits to the base 16, where there is room.
pub fn push_hexadecimal(into: &mut Vec<u8>, word: u32)
    requires { vec_len into.old + 8 ≤ vec_capacity into.old }
    ensures text { into.new.items ≡ into.old.items ++ hexadecimal word }
    ensures length { vec_len into.new ≡ vec_len into.old + 8 }
    ensures capacity { vec_capacity into.old ≤ vec_capacity into.new }
{
    push_text(into, &hexadecimal_of(word));
}

/// A word in eight upper-case digits to the base 16.
#[inline]
pub fn hexadecimal_of(word: u32) -> [u8; 8]
    ensures { result ≡ hexadecimal word }
{
    [
        glyph(bits_of(word, 28, 4)),
        glyph(bits_of(word, 24, 4)),
        glyph(bits_of(word, 20, 4)),
        glyph(bits_of(word, 16, 4)),
        glyph(bits_of(word, 12, 4)),
        glyph(bits_of(word, 8, 4)),
        glyph(bits_of(word, 4, 4)),
        glyph(bits_of(word, 0, 4)),
    ]
}

/// Puts half a word behind the bytes, in four upper-case digits to the base 16.
pub(crate) fn push_half(into: &mut Vec<u8>, half: u16)
    requires { vec_len into.old + 4 ≤ vec_capacity into.old }
    ensures text { into.new.items ≡ into.old.items ++ hexadecimal_half half }
    ensures length { vec_len into.new ≡ vec_len into.old + 4 }
    ensures capacity { vec_capacity into.old ≤ vec_capacity into.new }
{
    let word = u32::from(half);
    push_text(
        into,
        &[
            glyph(bits_of(word, 12, 4)),
            glyph(bits_of(word, 8, 4)),
            glyph(bits_of(word, 4, 4)),
            glyph(bits_of(word, 0, 4)),
        ],
    );
}

// The digit that stands for a number below 16.
#[inline]
fn glyph(digit: u32) -> u8
    requires { digit < 16 }
    ensures { result ≡ digit_glyph true digit }
{
    if digit < 10 {
        b'0' + digit as u8
    } else {
        b'A' - 10 + digit as u8
    }
}

/// Writes a number in decimal digits to the end of `into`, and tells where they start.
pub fn fill_decimal(into: &mut [u8; 20], number: u64) -> usize
    ensures within { result ≤ 20 }
    ensures text { drop result into.new ≡ decimal number }
{
    let mut start = 20;
    let mut rest = number;
    while rest >= 10 {
        start -= 1;
        into[start] = b'0' + (rest % 10) as u8;
        rest /= 10;
    }
    start -= 1;
    into[start] = b'0' + rest as u8;
    start
}
