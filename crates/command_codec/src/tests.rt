ghost use Rattle.std.specs.Prelude.{◌≤◌, length};

mod cancel;

use super::*;
use cam_field::Ident;
use vrt_fields::{Field, FieldSet};
use vrt_header::Profile;
use vrt_words::{Place, put_words};

// Gain and sample rate are set at once.
const TUNES: [u32; 10] = [
    0x6800000A, 1, 0x006A621E, 0, 0x01080000, 1, 0x00A00000, 0x600, 0, 0x00100000,
];

// A radio frequency and a gain, at a time.
const TIMED: [u32; 13] = [
    0x6860000D, 1, 0x006A621E, 0, 0x6553F114, 0, 0, 0x01081000, 3, 0x08800000, 0x00047868,
    0xC0000000, 0x600,
];

// Gain and sample rate are set at once, of a controllee that is named.
const NAMED: [u32; 11] = [
    0x6800000B, 1, 0x006A621E, 0, 0x81080000, 1, 7, 0x00A00000, 0x600, 0, 0x00100000,
];

// A query of the radio frequency.
const QUERY: [u32; 7] = [0x68000007, 1, 0x006A621E, 0, 0x00040000, 7, 0x08000000];

// A cancellation of the gain.
const CANCELS: [u32; 7] = [0x69000007, 1, 0x006A621E, 0, 0x00080000, 3, 0x00800000];

// All twelve fields, at a time, with a UUID for each of the two.
const GREATEST: [u32; 37] = [
    0x68600025, 1, 0x006A621E, 0, 0x6553F114, 0, 0, 0xF1081000, 5, 11, 12, 13, 14, 21, 22, 23, 24,
    0x7BB98000, 31, 32, 33, 34, 35, 36, 37, 38, 39, 40, 41, 42, 43, 44, 45, 46, 47, 48, 49,
];

// The words as bytes, behind them zeros.
fn bytes_of(words: &[u32]) -> [u8; 148]
    requires { length words.now ≤ 37 }
{
    let mut bytes = [0; 148];
    put_words(&mut bytes, 0, words);
    bytes
}

// What is written of the command that is read.
fn written_again(profile: Profile, bytes: &[u8]) -> [u8; 148] {
    let mut written = [0; 148];
    if let Ok(packet) = decode_control(profile, bytes) {
        if packet.prologue.header.size <= 37 {
            encode_control(profile, &packet, &mut written);
        }
    }
    written
}

// Whether these words are a command, and it is written as the same bytes.
fn is_written_again(profile: Profile, words: &[u32]) -> bool
    requires { length words.now ≤ 37 }
{
    let bytes = bytes_of(words);
    written_again(profile, &bytes[..4 * words.len()]) == bytes
}

// The place at which so many bytes of the words are refused as a command, if they are.
fn refused_at(profile: Profile, words: &[u32], size: usize) -> Option<u32>
    requires few { length words.now ≤ 37 }
    requires within { size ≤ 148 }
{
    let bytes = bytes_of(words);
    match decode_control(profile, &bytes[..size]) {
        Ok(_) => None,
        Err(Place { word }) => Some(word),
    }
}

#[test]
fn commands_are_read_and_written_again(rt: HostRuntime) {
    let profile = Profile::of(0x6A_621E, 1).expect(&rt, "a profile");
    assert!(rt; is_written_again(profile, &TUNES));
    assert!(rt; is_written_again(profile, &TIMED));
    assert!(rt; is_written_again(profile, &NAMED));
    assert!(rt; is_written_again(profile, &QUERY));
    assert!(rt; is_written_again(profile, &GREATEST));
}

#[test]
fn flags_and_messages_are_carried(rt: HostRuntime) {
    let profile = Profile::of(0x6A_621E, 1).expect(&rt, "a profile");
    // In part, with another message; with warnings, of the gain alone.
    let mut partial = TUNES;
    partial[4] = 0x09080000;
    partial[5] = 2;
    assert!(rt; is_written_again(profile, &partial));
    let warned = [
        0x68000008, 1, 0x006A621E, 0, 0x05080000, 8, 0x00800000, 0x601,
    ];
    assert!(rt; is_written_again(profile, &warned));
    // No field at all, with the action to execute and with none.
    let mut none = QUERY;
    none[6] = 0;
    assert!(rt; is_written_again(profile, &none));
    none[4] = 0x01080000;
    assert!(rt; is_written_again(profile, &none));
}

// The fields of the command that the words are.
fn fields_of(profile: Profile, words: &[u32]) -> Option<Option<FieldSet>>
    requires { length words.now ≤ 37 }
{
    let bytes = bytes_of(words);
    match decode_control(profile, &bytes[..4 * words.len()]) {
        Ok(packet) => Some(packet.fields),
        Err(_) => None,
    }
}

#[test]
fn a_query_has_no_values_and_no_fields_are_an_empty_set(rt: HostRuntime) {
    let profile = Profile::of(0x6A_621E, 1).expect(&rt, "a profile");
    let mut tuned = FieldSet::empty();
    tuned.set(Field::Gain, 0x600);
    tuned.set(Field::SampleRate, 0x00100000);
    assert_eq!(rt; fields_of(profile, &TUNES), Some(Some(tuned)));
    assert_eq!(rt; fields_of(profile, &QUERY), Some(None));
    let mut none = QUERY;
    none[6] = 0;
    assert_eq!(rt; fields_of(profile, &none), Some(Some(FieldSet::empty())));
}

// The controllee and the controller of the command that the words are.
fn parties_of(profile: Profile, words: &[u32]) -> Option<(Ident, Ident)>
    requires { length words.now ≤ 37 }
{
    let bytes = bytes_of(words);
    match decode_control(profile, &bytes[..4 * words.len()]) {
        Ok(packet) => Some((packet.controllee, packet.controller)),
        Err(_) => None,
    }
}

#[test]
fn identities_have_the_form_that_the_mode_word_tells(rt: HostRuntime) {
    let profile = Profile::of(0x6A_621E, 1).expect(&rt, "a profile");
    let uuids = (Ident::Uuid([11, 12, 13, 14]), Ident::Uuid([21, 22, 23, 24]));
    assert!(rt; parties_of(profile, &TUNES) == Some((Ident::None, Ident::None)));
    assert!(rt; parties_of(profile, &NAMED) == Some((Ident::Word(7), Ident::None)));
    assert!(rt; parties_of(profile, &GREATEST) == Some(uuids));
}

#[test]
fn a_command_is_refused_at_its_mode_word(rt: HostRuntime) {
    let profile = Profile::of(0x6A_621E, 1).expect(&rt, "a profile");
    // Action 11; two UUIDs that the size has no room for; fewer identities than the size needs.
    let mut words = TUNES;
    words[4] = 0x01880000;
    assert_eq!(rt; refused_at(profile, &words, 40), Some(4));
    words[4] = 0xF1080000;
    assert_eq!(rt; refused_at(profile, &words, 40), Some(4));
    let mut long = GREATEST;
    long[7] = 0x01081000;
    assert_eq!(rt; refused_at(profile, &long, 148), Some(7));
}

#[test]
fn a_command_is_refused_at_cif0(rt: HostRuntime) {
    let profile = Profile::of(0x6A_621E, 1).expect(&rt, "a profile");
    // One word of fields where there are three; a bit that is no field's; a command that executes
    // and has no values.
    let mut words = TUNES;
    words[6] = 0x00800000;
    assert_eq!(rt; refused_at(profile, &words, 40), Some(6));
    words[6] = 0x80A00000;
    assert_eq!(rt; refused_at(profile, &words, 40), Some(6));
    let mut query = QUERY;
    query[4] = 0x01080000;
    assert_eq!(rt; refused_at(profile, &query, 28), Some(6));
}

#[test]
fn a_command_of_another_length_is_refused_where_it_ends(rt: HostRuntime) {
    let profile = Profile::of(0x6A_621E, 1).expect(&rt, "a profile");
    assert_eq!(rt; refused_at(profile, &TUNES, 40), None);
    assert_eq!(rt; refused_at(profile, &TUNES, 36), Some(9));
    assert_eq!(rt; refused_at(profile, &TUNES, 24), Some(6));
    assert_eq!(rt; refused_at(profile, &TUNES, 23), Some(5));
    assert_eq!(rt; refused_at(profile, &TUNES, 41), Some(10));
    assert_eq!(rt; refused_at(profile, &TUNES, 44), Some(10));
    assert_eq!(rt; refused_at(profile, &CANCELS, 28), Some(0));
    assert_eq!(rt; refused_at(profile, &TUNES, 0), Some(0));
}
