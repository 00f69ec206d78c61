use super::*;
use cam_field::{Ident, Role};
use vrt_header::Profile;
use vrt_words::{Place, put_words};

// A command with a word for its controllee and a UUID for its controller.
const COMMAND: [u32; 15] = [
    0x6800000F, 1, 0x006A621E, 0, 0xB1080000, 9, 7, 21, 22, 23, 24, 0x00A00000, 0x600, 0,
    0x00100000,
];

// The words as bytes.
fn bytes_of(words: &[u32; 15]) -> [u8; 60] {
    let mut bytes = [0; 60];
    put_words(&mut bytes, 0, words);
    bytes
}

// The place at which the words are refused in a role, if they are.
fn refused_at(profile: Profile, role: Role, words: &[u32; 15]) -> Option<u32> {
    match read_command_prologue(profile, role, &bytes_of(words)) {
        Ok(_) => None,
        Err(Place { word }) => Some(word),
    }
}

// What is written of the prologue that is read.
fn written_again(profile: Profile, bytes: &[u8]) -> [u8; 60] {
    let mut written = [0; 60];
    if let Ok(front) = read_command_prologue(profile, Role::Control, bytes) {
        if front.words() <= 15 {
            write_command_prologue(profile, Role::Control, &front, &mut written);
        }
    }
    written
}

#[test]
fn a_prologue_is_read_and_written_again(rt: HostRuntime) {
    let profile = Profile::of(0x6A_621E, 1).expect(&rt, "a profile");
    let mut bytes = bytes_of(&COMMAND);
    let written = written_again(profile, &bytes);
    bytes[44..].fill(0);
    assert!(rt; written == bytes);
}

#[test]
fn the_parts_of_a_prologue_are_told(rt: HostRuntime) {
    let profile = Profile::of(0x6A_621E, 1).expect(&rt, "a profile");
    match read_command_prologue(profile, Role::Control, &bytes_of(&COMMAND)) {
        Ok(front) => {
            assert_eq!(rt; front.words(), 11);
            assert_eq!(rt; front.message, 9);
            assert!(rt; front.controllee == Ident::Word(7));
            assert!(rt; front.controller == Ident::Uuid([21, 22, 23, 24]));
        }
        Err(_) => assert!(rt; false, "refused"),
    }
}

#[test]
fn a_prologue_is_refused_at_its_first_wrong_word(rt: HostRuntime) {
    let profile = Profile::of(0x6A_621E, 1).expect(&rt, "a profile");
    assert_eq!(rt; refused_at(profile, Role::Control, &COMMAND), None);
    assert_eq!(rt; refused_at(profile, Role::Cancel, &COMMAND), Some(0));
    assert_eq!(rt; refused_at(profile, Role::Ack, &COMMAND), Some(0));
    // Two UUIDs, and 7 words less than the prologue would then have; another class identifier.
    let mut words = COMMAND;
    words[0] = 0x6800000A;
    words[4] = 0xF1080000;
    assert_eq!(rt; refused_at(profile, Role::Control, &words), Some(4));
    let mut class = COMMAND;
    class[2] = 0x006A621F;
    assert_eq!(rt; refused_at(profile, Role::Control, &class), Some(2));
}

// Whether the mode word is right with each size of the first list, and refused with each of the
// second. The words of the header without its size, and of the mode, are given.
fn is_sized(profile: Profile, role: Role, front: (u32, u32), right: &[u32], wrong: &[u32]) -> bool {
    is_sized_all(profile, role, front, right, None)
        && is_sized_all(profile, role, front, wrong, Some(4))
}

// Whether each of the sizes is answered so.
fn is_sized_all(
    profile: Profile,
    role: Role,
    front: (u32, u32),
    sizes: &[u32],
    place: Option<u32>,
) -> bool {
    for size in sizes {
        let mut words = COMMAND;
        words[0] = front.0 | *size;
        words[4] = front.1;
        if refused_at(profile, role, &words) != place {
            return false;
        }
    }
    true
}

// Five words of identities behind the six in front leave the sizes from 11 on.
#[test]
fn a_size_leaves_words_for_the_content_of_the_role(rt: HostRuntime) {
    let profile = Profile::of(0x6A_621E, 1).expect(&rt, "a profile");
    assert!(rt;
        is_sized(
            profile,
            Role::Control,
            (0x68000000, 0xB1080000),
            &[12, 31],
            &[7, 11, 32, 34]
        )
    );
    assert!(rt;
        is_sized(
            profile,
            Role::Cancel,
            (0x69000000, 0xB0080000),
            &[12],
            &[7, 11, 15]
        )
    );
}

#[test]
fn a_size_leaves_words_for_the_masks_of_an_answer(rt: HostRuntime) {
    let profile = Profile::of(0x6A_621E, 1).expect(&rt, "a profile");
    assert!(rt;
        is_sized(
            profile,
            Role::Ack,
            (0x6C000000, 0xB0080000),
            &[11],
            &[6, 10, 12]
        )
    );
    assert!(rt;
        is_sized(
            profile,
            Role::Ack,
            (0x6C000000, 0xB00A0000),
            &[12, 24],
            &[11, 25]
        )
    );
    assert!(rt;
        is_sized(
            profile,
            Role::Ack,
            (0x6C000000, 0xB00B0000),
            &[13, 37],
            &[12, 38]
        )
    );
    assert!(rt;
        is_sized(
            profile,
            Role::Ack,
            (0x6C000000, 0xB0040000),
            &[12, 31],
            &[11, 32]
        )
    );
}
