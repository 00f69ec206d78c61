ghost use Rattle.std.specs.Prelude.{◌≤◌, length};

use crate::*;
use vrt_header::Profile;
use vrt_words::{Place, put_words};

// A cancellation of the gain.
const CANCELS: [u32; 7] = [0x69000007, 1, 0x006A621E, 0, 0x00080000, 3, 0x00800000];

// A cancellation of the gain with a time, a word for the controllee and a UUID for the controller.
const NAMED: [u32; 15] = [
    0x6960000F, 1, 0x006A621E, 0, 0x6553F114, 0, 0, 0xB0080000, 3, 7, 21, 22, 23, 24, 0x00800000,
];

// The words as bytes, behind them zeros.
fn bytes_of(words: &[u32]) -> [u8; 72]
    requires { length words.now ≤ 18 }
{
    let mut bytes = [0; 72];
    put_words(&mut bytes, 0, words);
    bytes
}

// What is written of the cancellation that is read.
fn written_again(profile: Profile, bytes: &[u8]) -> [u8; 72] {
    let mut written = [0; 72];
    if let Ok(packet) = decode_cancel(profile, bytes) {
        if packet.prologue.header.size <= 18 {
            encode_cancel(profile, &packet, &mut written);
        }
    }
    written
}

// Whether these words are a cancellation, and it is written as the same bytes.
fn is_written_again(profile: Profile, words: &[u32]) -> bool
    requires { length words.now ≤ 18 }
{
    let bytes = bytes_of(words);
    written_again(profile, &bytes[..4 * words.len()]) == bytes
}

// The place at which so many bytes of the words are refused as a cancellation, if they are.
fn refused_at(profile: Profile, words: &[u32], size: usize) -> Option<u32>
    requires few { length words.now ≤ 18 }
    requires within { size ≤ 72 }
{
    let bytes = bytes_of(words);
    match decode_cancel(profile, &bytes[..size]) {
        Ok(_) => None,
        Err(Place { word }) => Some(word),
    }
}

#[test]
fn cancellations_are_read_and_written_again(rt: HostRuntime) {
    let profile = Profile::of(0x6A_621E, 1).expect(&rt, "a profile");
    assert!(rt; is_written_again(profile, &CANCELS));
    assert!(rt; is_written_again(profile, &NAMED));
}

#[test]
fn a_cancellation_is_refused_at_its_first_wrong_word(rt: HostRuntime) {
    let profile = Profile::of(0x6A_621E, 1).expect(&rt, "a profile");
    // A validation asked for; a time to act at; an identity that the size has no room for; a bit
    // that is no field's; a word too few and one too many; a command.
    let mut words = CANCELS;
    words[4] = 0x00100000;
    assert_eq!(rt; refused_at(profile, &words, 28), Some(4));
    words[4] = 0x80080000;
    assert_eq!(rt; refused_at(profile, &words, 28), Some(4));
    let mut timed = NAMED;
    timed[7] = 0xB0081000;
    assert_eq!(rt; refused_at(profile, &timed, 60), Some(7));
    let mut mask = CANCELS;
    mask[6] = 0x80800000;
    assert_eq!(rt; refused_at(profile, &mask, 28), Some(6));
    assert_eq!(rt; refused_at(profile, &CANCELS, 24), Some(6));
    assert_eq!(rt; refused_at(profile, &CANCELS, 32), Some(7));
    let mut command = CANCELS;
    command[0] = 0x68000007;
    assert_eq!(rt; refused_at(profile, &command, 28), Some(0));
}
