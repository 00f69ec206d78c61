ghost use Rattle.std.specs.Prelude.{◌≡◌, ◌+◌, ◌*◌, ◌≤◌, ◌<◌, ◌++◌, ◌↔◌, length, take, drop, slice_get, slice_index, slice_set, IsSome, IfOk, IfErr, Some};
ghost use Rattle.vrt_words.specs.Words.{AreBytes, words_of};

use crate::place::Place;
use byteorder::{BigEndian, ByteOrder};

/// The word at `index` of a datagram: the bytes from `4 * index` on, most significant first.
///
/// `None` exactly where fewer than `4 * index + 4` bytes are there.
#[inline]
pub fn word_at(bytes: &[u8], index: usize) -> Option<u32>
    ensures word { result ≡ slice_get (words_of bytes.now) index }
    ensures there { IsSome result ↔ (4 * index + 4 ≤ length bytes.now) }
{
    if index >= bytes.len() / 4 {
        return None;
    }
    Some(word_in(bytes, index))
}

/// The word at `index` of a datagram that has one there.
#[inline]
pub fn word_in(bytes: &[u8], index: usize) -> u32
    requires { 4 * index + 4 ≤ length bytes.now }
    ensures { result ≡ slice_index (words_of bytes.now) index }
{
    BigEndian::read_u32(&bytes[4 * index..])
}

/// The word at `index`, or the place at which the datagram is refused for want of it: the number of
/// its whole words.
#[inline]
pub fn word_or_place(bytes: &[u8], index: u32) -> Result<u32, Place>
    ensures word { IfOk result (λ word. (index < length (words_of bytes.now))
        × (word ≡ slice_index (words_of bytes.now) index)) }
    ensures missing { IfErr result (λ place. (place.word ≡ length (words_of bytes.now))
        × (length (words_of bytes.now) ≤ index)) }
{
    match word_at(bytes, index as usize) {
        Some(word) => Ok(word),
        None => Err(Place {
            word: (bytes.len() / 4) as u32,
        }),
    }
}

/// Writes `word` at `index`, most significant byte first. All other bytes stay.
///
/// The word is read back from there, and writing what was read there changes no byte.
#[inline]
pub fn put_word(bytes: &mut [u8], index: usize, word: u32)
    requires { 4 * index + 4 ≤ length bytes.old }
    ensures words { words_of bytes.new ≡ slice_set (words_of bytes.old) index word }
    ensures before { take (4 * index) bytes.new ≡ take (4 * index) bytes.old }
    ensures behind { drop (4 * index + 4) bytes.new ≡ drop (4 * index + 4) bytes.old }
    ensures again { AreBytes bytes.old → slice_get (words_of bytes.old) index ≡ Some word
        → bytes.new ≡ bytes.old }
{
    BigEndian::write_u32(&mut bytes[4 * index..], word);
}

/// Reads consecutive words from `index` on into `into`.
#[inline]
pub fn read_words(bytes: &[u8], index: usize, into: &mut [u32])
    requires { 4 * (index + length into.old) ≤ length bytes.now }
    ensures { into.new ≡ take (length into.old) (drop index (words_of bytes.now)) }
{
    let start = 4 * index;
    let end = start + 4 * into.len();
    BigEndian::read_u32_into(&bytes[start..end], into);
}

/// Writes consecutive words from `index` on. All other bytes stay.
#[inline]
pub fn put_words(bytes: &mut [u8], index: usize, words: &[u32])
    requires { 4 * (index + length words.now) ≤ length bytes.old }
    ensures words { words_of bytes.new
        ≡ take index (words_of bytes.old) ++ (words.now
        ++ drop (index + length words.now) (words_of bytes.old)) }
    ensures before { take (4 * index) bytes.new ≡ take (4 * index) bytes.old }
    ensures behind { drop (4 * (index + length words.now)) bytes.new
        ≡ drop (4 * (index + length words.now)) bytes.old }
{
    let start = 4 * index;
    let end = start + 4 * words.len();
    BigEndian::write_u32_into(words, &mut bytes[start..end]);
}
