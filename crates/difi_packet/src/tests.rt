ghost use Rattle.std.specs.Prelude.{◌≤◌, length};

use super::*;
use vrt_header::Profile;
use vrt_words::{Place, put_words};

// A data packet of stream 1 at 1,700,000,000 s with one sample of 16 bits, (1, 2).
const DATA: [u32; 8] = [0x18600008, 1, 0x006A621E, 0, 0x6553F100, 0, 0, 0x00010002];

// A context of stream 1 at 350,000 Hz, with items of 16 bits.
const CONTEXT: [u32; 27] = [
    0x4960001B, 1, 0x006A621E, 1, 0x6553F100, 0, 0, 0xFBB98000, 0, 0, 0, 0, 0, 0, 0, 0, 0, 0, 0,
    0x00000055, 0x73000000, 0, 0, 0, 0, 0xA00003CF, 0,
];

// A version packet of stream 1, changed, with specification version 4.
const VERSION: [u32; 11] = [
    0x5960000B, 1, 0x006A621E, 0x00010004, 0x6553F100, 0, 0, 0x80000002, 12, 4, 0,
];

// A command that sets the gain and the sample rate, at once.
const CONTROL: [u32; 10] = [
    0x6800000A, 1, 0x006A621E, 0, 0x01080000, 1, 0x00A00000, 0x600, 0, 0x00100000,
];

// A cancellation of the gain.
const CANCEL: [u32; 7] = [0x69000007, 1, 0x006A621E, 0, 0x00080000, 3, 0x00800000];

// Acknowledgements of an execution with errors, of a cancellation without, and of a query.
const ACK_X: [u32; 12] = [
    0x6C60000C, 1, 0x006A621E, 0, 0x6553F10A, 0, 0, 0x01090000, 1, 0x00A00000, 0x80000000,
    0x90000000,
];

const ACK_NONE: [u32; 9] = [
    0x6D600009, 1, 0x006A621E, 0, 0x6553F10F, 0, 0, 0x00080400, 3,
];

const ACK_S: [u32; 12] = [
    0x6C60000C, 1, 0x006A621E, 0, 0x6553F10A, 0, 0, 0x00040000, 7, 0x08000000, 0x00047868,
    0xC0000000,
];

// The acknowledgement of a command's validation.
const ACK_V: [u32; 9] = [
    0x6C600009, 1, 0x006A621E, 0, 0x6553F10A, 0, 0, 0x00100000, 7,
];

// The other commands and answers of an exchange: in part, at a time, a query and a warning.
const OTHERS: [[u32; 13]; 4] = [
    [
        0x6800000A, 1, 0x006A621E, 0, 0x09080000, 2, 0x00A00000, 0x600, 0, 0x00100000, 0, 0, 0,
    ],
    [
        0x6860000D, 1, 0x006A621E, 0, 0x6553F114, 0, 0, 0x01081000, 3, 0x08800000, 0x00047868,
        0xC0000000, 0x600,
    ],
    [
        0x68000007, 1, 0x006A621E, 0, 0x00040000, 7, 0x08000000, 0, 0, 0, 0, 0, 0,
    ],
    [
        0x68000008, 1, 0x006A621E, 0, 0x05080000, 8, 0x00800000, 0x601, 0, 0, 0, 0, 0,
    ],
];

const ANSWERS: [[u32; 11]; 3] = [
    [
        0x6C60000B, 1, 0x006A621E, 0, 0x6553F10A, 0, 0, 0x09090C00, 2, 0x00200000, 0x90000000,
    ],
    [
        0x6C60000B, 1, 0x006A621E, 0, 0x6553F114, 0, 0, 0x01091C00, 3, 0x00800000, 0x80000000,
    ],
    [
        0x6C60000B, 1, 0x006A621E, 0, 0x6553F10A, 0, 0, 0x050A0400, 8, 0x00800000, 0x08000000,
    ],
];

// What is written of the packet that is read.
fn written_again(profile: Profile, bytes: &[u8]) -> [u8; 108] {
    let mut written = [0; 108];
    if let Ok(packet) = decode(profile, bytes) {
        if size_of(&packet) <= 27 {
            encode(profile, &packet, &mut written);
        }
    }
    written
}

// Whether these words are a packet, and it is written as the same bytes.
fn is_written_again(profile: Profile, words: &[u32]) -> bool
    requires { length words.now ≤ 27 }
{
    let mut bytes = [0; 108];
    put_words(&mut bytes, 0, words);
    written_again(profile, &bytes[..4 * words.len()]) == bytes
}

// The place at which the words are refused, if they are.
fn refused_at(profile: Profile, words: &[u32; 11]) -> Option<Place> {
    let mut bytes = [0; 44];
    put_words(&mut bytes, 0, words);
    match decode(profile, &bytes) {
        Ok(_) => None,
        Err(place) => Some(place),
    }
}

// The kind and the stream that these words tell, or the place at which they are refused.
fn class_of(profile: Profile, words: &[u32]) -> Result<(PacketKind, u32), Place>
    requires { length words.now ≤ 27 }
{
    let mut bytes = [0; 108];
    put_words(&mut bytes, 0, words);
    classify(profile, &bytes[..4 * words.len()])
}

#[test]
fn each_kind_is_told_with_its_stream(rt: HostRuntime) {
    let profile = Profile::of(0x6A_621E, 1).expect(&rt, "a profile");
    assert_eq!(rt; class_of(profile, &DATA), Ok((PacketKind::Data, 1)));
    assert_eq!(rt; class_of(profile, &CONTEXT), Ok((PacketKind::Context, 1)));
    assert_eq!(rt; class_of(profile, &VERSION), Ok((PacketKind::Version, 1)));
    assert_eq!(rt; class_of(profile, &CONTROL), Ok((PacketKind::Control, 1)));
    assert_eq!(rt; class_of(profile, &CANCEL), Ok((PacketKind::Cancel, 1)));
    assert_eq!(rt; class_of(profile, &ACK_V), Ok((PacketKind::AckV, 1)));
    assert_eq!(rt; class_of(profile, &ACK_X), Ok((PacketKind::AckX, 1)));
    assert_eq!(rt; class_of(profile, &ACK_S), Ok((PacketKind::AckS, 1)));
    assert_eq!(rt; class_of(profile, &DATA[..7]), Err(Place { word: 7 }));
}

#[test]
fn each_kind_is_read_and_written_again(rt: HostRuntime) {
    let profile = Profile::of(0x6A_621E, 1).expect(&rt, "a profile");
    assert!(rt; is_written_again(profile, &DATA));
    assert!(rt; is_written_again(profile, &CONTEXT));
    assert!(rt; is_written_again(profile, &VERSION));
    assert!(rt; is_written_again(profile, &CONTROL));
    assert!(rt; is_written_again(profile, &CANCEL));
    assert!(rt; is_written_again(profile, &ACK_X));
    assert!(rt; is_written_again(profile, &ACK_NONE));
    assert!(rt; is_written_again(profile, &ACK_S));
}

#[test]
fn another_packet_type_is_refused_at_the_header(rt: HostRuntime) {
    let profile = Profile::of(0x6A_621E, 1).expect(&rt, "a profile");
    let mut words = VERSION;
    words[0] = 0x3960000B;
    assert_eq!(rt; refused_at(profile, &words), Some(Place { word: 0 }));
}

#[test]
fn a_packet_is_refused_at_the_word_of_its_kind(rt: HostRuntime) {
    let profile = Profile::of(0x6A_621E, 1).expect(&rt, "a profile");
    let mut words = VERSION;
    words[8] = 13;
    assert_eq!(rt; refused_at(profile, &words), Some(Place { word: 8 }));
    assert_eq!(rt; refused_at(profile, &VERSION), None);
}

#[test]
fn an_exchange_is_read_and_written_again(rt: HostRuntime) {
    let profile = Profile::of(0x6A_621E, 1).expect(&rt, "a profile");
    assert!(rt; is_written_again(profile, &OTHERS[0][..10]));
    assert!(rt; is_written_again(profile, &OTHERS[1]));
    assert!(rt; is_written_again(profile, &OTHERS[2][..7]));
    assert!(rt; is_written_again(profile, &OTHERS[3][..8]));
    assert!(rt; is_written_again(profile, &ANSWERS[0]));
    assert!(rt; is_written_again(profile, &ANSWERS[1]));
    assert!(rt; is_written_again(profile, &ANSWERS[2]));
}
