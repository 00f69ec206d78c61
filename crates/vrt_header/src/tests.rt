use super::*;
use std::test::Fail;
use vrt_words::{Place, put_words};

fn profile() -> Result<Profile, Fail> {
    Ok(Profile::of(0x6A_621E, 1).ok_or("profile")?)
}

#[test]
fn a_profile_has_24_bits_and_a_code(rt: HostRuntime) -> Result<(), Fail> {
    let profile = profile()?;
    assert_eq!(rt; profile.cid(), 0x6A_621E);
    assert_eq!(rt; profile.tsi(), 1);
    assert!(rt; Profile::of(1 << 24, 1).is_none());
    assert!(rt; Profile::of(0, 0).is_none());
    assert!(rt; Profile::of(0, 4).is_none());
    Ok(())
}

#[test]
fn a_prologue_is_read_and_written(rt: HostRuntime) -> Result<(), Fail> {
    let profile = profile()?;
    let mut bytes = [0; 28];
    put_words(
        &mut bytes,
        0,
        &[
            0x4963_001B,
            9,
            0x006A_621E,
            1,
            0x6553_F100,
            232,
            3_567_587_327,
        ],
    );
    let Ok(prologue) = read_prologue(profile, &bytes) else {
        return Err(Fail::from("refused"));
    };
    assert!(rt; prologue.header.kind == Kind::Context);
    assert!(rt; prologue.header.bit24);
    assert_eq!(rt; prologue.header.count, 3);
    assert_eq!(rt; prologue.header.size, 27);
    assert_eq!(rt; prologue.stream, 9);
    Ok(())
}

#[test]
fn a_full_second_is_refused_at_its_word(rt: HostRuntime) -> Result<(), Fail> {
    let profile = profile()?;
    let mut bytes = [0; 28];
    put_words(
        &mut bytes,
        0,
        &[0x4960_001B, 1, 0x006A_621E, 1, 0, 232, 3_567_587_328],
    );
    assert!(rt; read_prologue(profile, &bytes) == Err(Place { word: 6 }));
    put_words(&mut bytes, 5, &[233, 0]);
    assert!(rt; read_prologue(profile, &bytes) == Err(Place { word: 5 }));
    Ok(())
}

#[test]
fn what_is_written_is_what_was_read(rt: HostRuntime) -> Result<(), Fail> {
    let profile = profile()?;
    let mut bytes = [0; 16];
    put_words(&mut bytes, 0, &[0x6900_0007, 1, 0x006A_621E, 0x0005_0006]);
    let Ok(prologue) = read_prologue(profile, &bytes) else {
        return Err(Fail::from("refused"));
    };
    assert!(rt; prologue.header.kind == Kind::Cancel);
    assert!(rt; prologue.stamp.is_none());
    assert!(rt; !prologue.header.timed);
    let mut copy = [7; 20];
    assert_eq!(rt; write_prologue(profile, &prologue, &mut copy), 4);
    assert!(rt; copy[..16] == bytes[..]);
    assert_eq!(rt; copy[16], 7);
    Ok(())
}
