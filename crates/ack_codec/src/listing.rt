ghost use Rattle.std.specs.Prelude.{◌≡◌, ◌+◌, ◌*◌, ◌≤◌, ◌++◌, length, take, drop};
ghost use Rattle.vrt_words.specs.Words.{words_of};
ghost use Rattle.vrt_fields.specs.FieldSet.{bit_in, IsFieldMask, number_in_mask};
ghost use Rattle.ack_codec.specs.Responses.{AreResponses, listed_words, word_if};
ghost use Rattle.ack_codec.specs.Steps.{first_response};

use crate::responses::Responses;
use vrt_fields::{Field, bit_under, field_at, mask_number};
use vrt_words::{put_words, read_words};

/// The responses that the mask lists, in the words from `at` on: from the highest bit down.
pub(crate) fn read_responses(mask: u32, bytes: &[u8], at: usize) -> Responses
    requires only { IsFieldMask mask }
    requires there { at + number_in_mask mask ≤ length (words_of bytes.now) }
    ensures mask { result.cif0 ≡ mask }
    ensures responses { AreResponses result }
    ensures listed { listed_words result
        ≡ take (number_in_mask mask) (drop at (words_of bytes.now)) }
{
    let mut words = [0; 12];
    let listed = mask_number(mask);
    read_words(bytes, at, &mut words[..listed]);
    spread(mask, &words[..listed])
}

// The words under the mask, each beside its field, and 0 beside the others.
fn spread(mask: u32, listed: &[u32]) -> Responses
    requires only { IsFieldMask mask }
    requires all { number_in_mask mask ≡ length listed.now }
    ensures mask { result.cif0 ≡ mask }
    ensures responses { AreResponses result }
    ensures listed { listed_words result ≡ listed.now }
{
    let mut words = [0; 12];
    let mut rest = listed;
    for index in 0..12 {
        let (word, behind) = split_response(mask, field_at(index), rest);
        words[index] = word;
        rest = behind;
    }
    Responses { cif0: mask, words }
}

// The response to a field in the first of the words, where the mask lists it, and the words behind.
fn split_response(mask: u32, field: Field, words: &[u32]) -> (u32, &[u32])
    requires { bit_in mask field ≤ length words.now }
    ensures word { result.0 ≡ first_response (bit_in mask field) words.now }
    ensures rest { result.1.now ≡ drop (bit_in mask field) words.now }
{
    if bit_under(mask, field) == 0 {
        return (0, words);
    }
    let (own, behind) = words.split_at(1);
    (own[0], behind)
}

/// Writes the words of the responses from the word `at` on, and tells where they end. All other
/// bytes stay.
pub(crate) fn put_responses(into: &mut [u8], at: usize, responses: &Responses) -> usize
    requires room { 4 * (at + length (listed_words responses.now)) ≤ length into.old }
    ensures end { result ≡ at + length (listed_words responses.now) }
    ensures words { words_of into.new
        ≡ take at (words_of into.old) ++ (listed_words responses.now
        ++ drop result (words_of into.old)) }
    ensures behind { drop (4 * result) into.new ≡ drop (4 * result) into.old }
{
    let mut words = [0; 12];
    let listed = gather(responses, &mut words);
    put_words(into, at, &words[..listed]);
    at + listed
}

// Gathers the words of the fields that are listed, and tells their number.
fn gather(responses: &Responses, into: &mut [u32; 12]) -> usize
    ensures number { result ≡ length (listed_words responses.now) }
    ensures most { result ≤ 12 }
    ensures words { take result into.new ≡ listed_words responses.now }
{
    let mut count = 0;
    for index in 0..12 {
        let listed = bit_under(responses.cif0, field_at(index));
        count = put_response(into, count, listed, responses.words[index]);
    }
    count
}

// Puts a word behind the first ones, where its field is listed, and tells where they end.
fn put_response(into: &mut [u32; 12], at: usize, listed: usize, word: u32) -> usize
    requires { at + length (word_if listed word) ≤ 12 }
    ensures end { result ≡ at + length (word_if listed word) }
    ensures words { take result into.new ≡ take at into.old ++ word_if listed word }
{
    if listed == 0 {
        return at;
    }
    into[at] = word;
    at + 1
}
