ghost use Rattle.std.specs.Prelude.{◌≤◌, length};

use super::*;
use cam_field::Ident;
use vrt_fields::Field;
use vrt_header::Profile;
use vrt_words::put_words;

// Of an execution with two errors, in the gain and in the sample rate.
const TWO_ERRORS: [u32; 12] = [
    0x6C60000C, 1, 0x006A621E, 0, 0x6553F10A, 0, 0, 0x01090000, 1, 0x00A00000, 0x80000000,
    0x90000000,
];

// Of an execution in part, with an error in the sample rate.
const ONE_ERROR: [u32; 11] = [
    0x6C60000B, 1, 0x006A621E, 0, 0x6553F10A, 0, 0, 0x09090C00, 2, 0x00200000, 0x90000000,
];

// Of a cancellation, with neither warnings nor errors.
const NOTHING_LISTED: [u32; 9] = [
    0x6D600009, 1, 0x006A621E, 0, 0x6553F10F, 0, 0, 0x00080400, 3,
];

// Of an execution with a warning in the gain.
const ONE_WARNING: [u32; 11] = [
    0x6C60000B, 1, 0x006A621E, 0, 0x6553F10A, 0, 0, 0x050A0400, 8, 0x00800000, 0x08000000,
];

// The state of the RF reference frequency.
const STATE: [u32; 12] = [
    0x6C60000C, 1, 0x006A621E, 0, 0x6553F10A, 0, 0, 0x00040000, 7, 0x08000000, 0x00047868,
    0xC0000000,
];

// Of a validation, with a warning in the gain and an error in the sample rate.
const BOTH: [u32; 13] = [
    0x6C60000D, 1, 0x006A621E, 0, 0x6553F10A, 0, 0, 0x00130000, 9, 0x00800000, 0x00200000,
    0x08000000, 0x10000000,
];

// The longest one: two UUIDs, and a warning and an error in each field.
const LONGEST: [u32; 43] = [
    0x6C60002B, 1, 0x006A621E, 0, 0x6553F10A, 0, 0, 0xF00B0000, 5, 11, 12, 13, 14, 21, 22, 23, 24,
    0x7BB98000, 0x7BB98000, 101, 102, 103, 104, 105, 106, 107, 108, 109, 110, 111, 112, 201, 202,
    203, 204, 205, 206, 207, 208, 209, 210, 211, 212,
];

// Of a validation that lists no field, whose masks of warnings and errors are there.
const EMPTY_MASKS: [u32; 11] = [
    0x6C60000B, 1, 0x006A621E, 0, 0x6553F10A, 0, 0, 0x00130000, 9, 0, 0,
];

// The states of all twelve fields, of nobody, of a word and to a UUID: behind the message ID the
// identities, CIF0 and the nineteen words.
const WHOLE_STATE: [u32; 29] = [
    0x6C60001D, 1, 0x006A621E, 0, 0x6553F10A, 0, 0, 0x00040000, 5, 0x7BB98000, 31, 32, 33, 34, 35,
    36, 37, 38, 39, 40, 41, 42, 43, 44, 45, 46, 47, 48, 49,
];

const WHOLE_STATE_OF_WORDS: [u32; 31] = [
    0x6C60001F, 1, 0x006A621E, 0, 0x6553F10A, 0, 0, 0xA0040000, 5, 11, 21, 0x7BB98000, 31, 32, 33,
    34, 35, 36, 37, 38, 39, 40, 41, 42, 43, 44, 45, 46, 47, 48, 49,
];

const WHOLE_STATE_OF_UUIDS: [u32; 37] = [
    0x6C600025, 1, 0x006A621E, 0, 0x6553F10A, 0, 0, 0xF0040000, 5, 11, 12, 13, 14, 21, 22, 23, 24,
    0x7BB98000, 31, 32, 33, 34, 35, 36, 37, 38, 39, 40, 41, 42, 43, 44, 45, 46, 47, 48, 49,
];

const WHOLE_STATE_OF_BOTH: [u32; 34] = [
    0x6C600022, 1, 0x006A621E, 0, 0x6553F10A, 0, 0, 0xE0040000, 5, 11, 12, 13, 14, 21, 0x7BB98000,
    31, 32, 33, 34, 35, 36, 37, 38, 39, 40, 41, 42, 43, 44, 45, 46, 47, 48, 49,
];

// What is written of the acknowledgement that is read.
fn written_again(profile: Profile, bytes: &[u8]) -> [u8; 172]
    requires { length bytes.now ≤ 172 }
{
    let mut written = [0; 172];
    if let Ok(ack) = decode_ack(profile, bytes) {
        encode_ack(profile, &ack, &mut written);
    }
    written
}

// Whether these words are an acknowledgement, and it is written as the same bytes.
fn is_written_again(profile: Profile, words: &[u32]) -> bool
    requires { length words.now ≤ 43 }
{
    let mut bytes = [0; 172];
    put_words(&mut bytes, 0, words);
    written_again(profile, &bytes[..4 * words.len()]) == bytes
}

// The place at which the words are refused, if they are.
fn refused_at(profile: Profile, words: &[u32]) -> Option<u32>
    requires { length words.now ≤ 43 }
{
    let mut bytes = [0; 172];
    put_words(&mut bytes, 0, words);
    match decode_ack(profile, &bytes[..4 * words.len()]) {
        Ok(_) => None,
        Err(place) => Some(place.word),
    }
}

// The acknowledgement that the words are, if they are one.
fn read(profile: Profile, words: &[u32]) -> Option<Ack>
    requires { length words.now ≤ 43 }
{
    let mut bytes = [0; 172];
    put_words(&mut bytes, 0, words);
    match decode_ack(profile, &bytes[..4 * words.len()]) {
        Ok(ack) => Some(ack),
        Err(_) => None,
    }
}

#[test]
fn each_kind_is_read_and_written_again(rt: HostRuntime) {
    let profile = Profile::of(0x6A_621E, 1).expect(&rt, "a profile");
    assert!(rt; is_written_again(profile, &TWO_ERRORS));
    assert!(rt; is_written_again(profile, &ONE_ERROR));
    assert!(rt; is_written_again(profile, &NOTHING_LISTED));
    assert!(rt; is_written_again(profile, &ONE_WARNING));
    assert!(rt; is_written_again(profile, &STATE));
    assert!(rt; is_written_again(profile, &BOTH));
    assert!(rt; is_written_again(profile, &LONGEST));
}

#[test]
fn a_state_of_all_fields_is_read_and_written_again(rt: HostRuntime) {
    let profile = Profile::of(0x6A_621E, 1).expect(&rt, "a profile");
    assert!(rt; is_written_again(profile, &WHOLE_STATE));
    assert!(rt; is_written_again(profile, &WHOLE_STATE_OF_WORDS));
    assert!(rt; is_written_again(profile, &WHOLE_STATE_OF_UUIDS));
    assert!(rt; is_written_again(profile, &WHOLE_STATE_OF_BOTH));
}

#[test]
fn a_mask_may_name_no_field(rt: HostRuntime) {
    let profile = Profile::of(0x6A_621E, 1).expect(&rt, "a profile");
    assert!(rt; is_written_again(profile, &EMPTY_MASKS));
    let Some(Ack::V(report)) = read(profile, &EMPTY_MASKS) else {
        panic!(rt; "a validation");
    };
    let none = Responses {
        cif0: 0,
        words: [0; 12],
    };
    assert!(rt; report.warnings == Some(none));
    assert!(rt; report.errors == Some(none));
}

#[test]
fn a_state_of_all_fields_tells_each(rt: HostRuntime) {
    let profile = Profile::of(0x6A_621E, 1).expect(&rt, "a profile");
    let Some(Ack::S(state)) = read(profile, &WHOLE_STATE_OF_BOTH) else {
        panic!(rt; "a state");
    };
    assert_eq!(rt; state.controllee, Ident::Uuid([11, 12, 13, 14]));
    assert_eq!(rt; state.controller, Ident::Word(21));
    assert_eq!(rt; state.fields.get(Field::ReferencePoint), Some(31));
    assert_eq!(rt; state.fields.get(Field::Bandwidth), Some((32 << 32) + 33));
    assert_eq!(rt; state.fields.get(Field::ReferenceLevel), Some(40));
    assert_eq!(rt; state.fields.get(Field::Gain), Some(41));
    assert_eq!(rt; state.fields.get(Field::SampleRate), Some((42 << 32) + 43));
    assert_eq!(rt; state.fields.get(Field::State), Some(47));
    assert_eq!(rt; state.fields.get(Field::Format), Some((48 << 32) + 49));
}

#[test]
fn a_response_stands_in_the_place_of_its_field(rt: HostRuntime) {
    let profile = Profile::of(0x6A_621E, 1).expect(&rt, "a profile");
    let Some(Ack::X(report)) = read(profile, &TWO_ERRORS) else {
        panic!(rt; "an execution");
    };
    assert_eq!(rt; report.warnings, None);
    let errors = report.errors.expect(&rt, "errors");
    assert_eq!(rt; errors.cif0, 0x00A0_0000);
    assert_eq!(rt;
        errors.words,
        [0, 0, 0, 0, 0, 0, 0x8000_0000, 0x9000_0000, 0, 0, 0, 0]
    );
}

#[test]
fn warnings_stand_in_front_of_errors(rt: HostRuntime) {
    let profile = Profile::of(0x6A_621E, 1).expect(&rt, "a profile");
    let Some(Ack::V(report)) = read(profile, &BOTH) else {
        panic!(rt; "a validation");
    };
    let warnings = report.warnings.expect(&rt, "warnings");
    let errors = report.errors.expect(&rt, "errors");
    assert_eq!(rt;
        (warnings.cif0, warnings.words[6]),
        (0x0080_0000, 0x0800_0000)
    );
    assert_eq!(rt; (errors.cif0, errors.words[7]), (0x0020_0000, 0x1000_0000));
}

#[test]
fn a_state_tells_its_fields(rt: HostRuntime) {
    let profile = Profile::of(0x6A_621E, 1).expect(&rt, "a profile");
    let Some(Ack::S(state)) = read(profile, &STATE) else {
        panic!(rt; "a state");
    };
    assert_eq!(rt; state.message, 7);
    assert_eq!(rt;
        state.fields.get(Field::RfReference),
        Some(0x0004_7868_C000_0000)
    );
    assert_eq!(rt; state.fields.get(Field::Gain), None);
}

#[test]
fn a_mask_with_another_bit_is_refused_at_its_word(rt: HostRuntime) {
    let profile = Profile::of(0x6A_621E, 1).expect(&rt, "a profile");
    let mut errors = TWO_ERRORS;
    errors[9] = 0x00A0_0001;
    assert_eq!(rt; refused_at(profile, &errors), Some(9));
    let mut both = BOTH;
    both[10] = 0x8020_0000;
    assert_eq!(rt; refused_at(profile, &both), Some(10));
    both[9] = 0x8080_0000;
    assert_eq!(rt; refused_at(profile, &both), Some(9));
    let mut state = STATE;
    state[9] = 0x8800_0000;
    assert_eq!(rt; refused_at(profile, &state), Some(9));
}

#[test]
fn a_mask_that_does_not_fill_the_size_is_refused_at_its_word(rt: HostRuntime) {
    let profile = Profile::of(0x6A_621E, 1).expect(&rt, "a profile");
    let mut errors = TWO_ERRORS;
    errors[9] = 0x0080_0000;
    assert_eq!(rt; refused_at(profile, &errors), Some(9));
    let mut both = BOTH;
    both[10] = 0x00A0_0000;
    assert_eq!(rt; refused_at(profile, &both), Some(10));
    let mut state = STATE;
    state[9] = 0x0100_0000;
    assert_eq!(rt; refused_at(profile, &state), Some(9));
}

#[test]
fn warnings_that_no_errors_can_meet_are_refused_at_their_word(rt: HostRuntime) {
    let profile = Profile::of(0x6A_621E, 1).expect(&rt, "a profile");
    let mut both = BOTH;
    both[9] = 0x00A0_8000;
    assert_eq!(rt; refused_at(profile, &both), Some(9));
    let mut longest = LONGEST;
    longest[17] = 0x7BB9_0000;
    assert_eq!(rt; refused_at(profile, &longest), Some(17));
}

#[test]
fn a_mode_word_of_two_kinds_is_refused_at_its_word(rt: HostRuntime) {
    let profile = Profile::of(0x6A_621E, 1).expect(&rt, "a profile");
    let mut errors = TWO_ERRORS;
    errors[7] = 0x0119_0000;
    assert_eq!(rt; refused_at(profile, &errors), Some(7));
}

#[test]
fn a_word_missing_and_a_word_too_many_are_refused_where_they_are(rt: HostRuntime) {
    let profile = Profile::of(0x6A_621E, 1).expect(&rt, "a profile");
    assert_eq!(rt; refused_at(profile, &TWO_ERRORS[..11]), Some(11));
    assert_eq!(rt; refused_at(profile, &STATE[..9]), Some(9));
    assert_eq!(rt; refused_at(profile, &NOTHING_LISTED[..8]), Some(8));
    let mut longer = [0; 13];
    longer[..12].copy_from_slice(&TWO_ERRORS);
    assert_eq!(rt; refused_at(profile, &longer), Some(12));
}

#[test]
fn a_command_is_refused_at_the_header(rt: HostRuntime) {
    let profile = Profile::of(0x6A_621E, 1).expect(&rt, "a profile");
    let mut errors = TWO_ERRORS;
    errors[0] = 0x6860_000C;
    assert_eq!(rt; refused_at(profile, &errors), Some(0));
}
