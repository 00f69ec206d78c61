ghost use Rattle.std.specs.Prelude.{◌≡◌, ◌≤◌, ◌<◌, ◌+◌, ◌++◌, ◌^◌, ◌↔◌, [], ◌∷◌, length, IsTrue, IfOk};
ghost use Rattle.std.specs.Fmt.{decimal};
ghost use Rattle.vrt_fields.specs.Field.{width_of};
ghost use Rattle.vrt_fields.specs.NumberText.{hexadecimal, padded_decimal};
ghost use Rattle.vrt_fields.specs.Text.{field_text};

use std::alloc::Global;
use std::marker::Model;
use vrt_fields::{
    Field, hexadecimal_of, push_decimal, push_hexadecimal, push_padded, push_text, push_text_of,
};
use vrt_words::NoMemory;

/// The bytes that a buffer has room for: those of a full one, and 262,144 more, which is more than is
/// put at once.
const ROOM: usize = 327_680;

/// A buffer that holds so many bytes is written.
const FULL: usize = 65_536;

/// A buffer for what is to be written next. Its room is taken once.
#[derive(Debug, Drop)]
pub struct TextBuffer {
    bytes: Vec<u8>,
}

impl Model for TextBuffer {
    ghost use Rattle.std.specs.Prelude.{ℕ, ◌≤◌, List, vec_capacity};

    ghost Value = { List ℕ };

    ghost view = { λ buffer. buffer.bytes.items };

    ghost invariant = { λ buffer. 327680 ≤ vec_capacity buffer.bytes };
}

impl TextBuffer {
    /// An empty buffer.
    pub fn open(alloc: Global) -> Result<Self, NoMemory>
        ensures { IfOk result (λ buffer. buffer ≡ []) }
    {
        match Vec::with_capacity(alloc, ROOM) {
            Ok(bytes) => Ok(TextBuffer { bytes }),
            Err(_) => Err(NoMemory),
        }
    }

    /// The bytes held.
    pub fn as_slice(&self) -> &[u8]
        ensures { result.now ≡ self.now }
    {
        self.bytes.as_slice()
    }

    /// Whether it is time to write the bytes.
    pub fn is_full(&self) -> bool
        ensures { IsTrue result ↔ (65536 ≤ length self.now) }
    {
        self.bytes.len() >= FULL
    }

    /// Takes all bytes out.
    pub fn clear(&mut self)
        ensures { self.new ≡ [] }
    {
        self.bytes.clear();
    }

    /// Puts a text behind the bytes.
    #[inline]
    pub fn push(&mut self, text: &[u8])
        requires { length self.old + length text.now ≤ 327680 }
        ensures { self.new ≡ self.old ++ text.now }
    {
        push_text(&mut self.bytes, text);
    }

    /// Puts a number behind the bytes, in decimal digits.
    pub fn push_decimal(&mut self, number: u64)
        requires { length self.old + 20 ≤ 327680 }
        ensures text { self.new ≡ self.old ++ decimal number }
        ensures length { length self.new ≤ length self.old + 20 }
    {
        push_decimal(&mut self.bytes, number);
    }

    /// Puts a number behind the bytes, in twelve decimal digits or more.
    pub fn push_twelve_digits(&mut self, number: u64)
        requires { length self.old + 20 ≤ 327680 }
        ensures text { self.new ≡ self.old ++ padded_decimal 12 number }
        ensures length { length self.new ≤ length self.old + 20 }
    {
        push_padded(&mut self.bytes, number, 12);
    }

    /// Puts a word behind the bytes, in eight digits to the base 16.
    pub fn push_hexadecimal(&mut self, word: u32)
        requires { length self.old + 8 ≤ 327680 }
        ensures { self.new ≡ self.old ++ hexadecimal word }
    {
        push_hexadecimal(&mut self.bytes, word);
    }

    /// Puts a word behind the bytes, in eight digits to the base 16, and the end of a line.
    #[inline]
    pub fn push_last_word(&mut self, word: u32)
        requires { length self.old + 9 ≤ 327680 }
        ensures text { self.new ≡ self.old ++ hexadecimal word ++ 10 ∷ [] }
        ensures length { length self.new ≡ length self.old + 9 }
    {
        let [a, b, c, d, e, f, g, h] = hexadecimal_of(word);
        self.push(&[a, b, c, d, e, f, g, h, b'\n']);
    }

    /// Puts the text of a field behind the bytes.
    pub fn push_field(&mut self, field: Field, value: u64)
        requires room { length self.old + 80 ≤ 327680 }
        requires fits { width_of field ≡ 1 → value < 2 ^ 32 }
        ensures text { self.new ≡ self.old ++ field_text field value }
        ensures length { length self.new ≤ length self.old + 80 }
    {
        push_text_of(field, value, &mut self.bytes);
    }
}
