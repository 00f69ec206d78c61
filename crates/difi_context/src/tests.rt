use super::*;
use std::test::Fail;
use vrt_fields::Field;
use vrt_header::{Kind, Profile};
use vrt_words::{Place, put_word};

// A context of stream 1 at 350,000 Hz, with items of 16 bits.
fn base() -> [u8; 108] {
    let mut bytes = [0; 108];
    put_word(&mut bytes, 0, 0x4960_001B);
    put_word(&mut bytes, 1, 1);
    put_word(&mut bytes, 2, 0x006A_621E);
    put_word(&mut bytes, 3, 1);
    put_word(&mut bytes, 4, 0x6553_F100);
    put_word(&mut bytes, 7, 0xFBB9_8000);
    put_word(&mut bytes, 19, 0x0000_0055);
    put_word(&mut bytes, 20, 0x7300_0000);
    put_word(&mut bytes, 25, 0xA000_03CF);
    bytes
}

#[test]
fn a_context_is_read(rt: HostRuntime) -> Result<(), Fail> {
    let profile = Profile::of(0x6A_621E, 1).ok_or("profile")?;
    let bytes = base();
    let Ok(rec) = decode(profile, &bytes) else {
        return Err(Fail::from("refused"));
    };
    assert!(rt; rec.prologue.header.kind == Kind::Context);
    assert!(rt; rec.changed);
    assert_eq!(rt; rec.fields[12], 0x7300_0000);
    Ok(())
}

#[test]
fn a_context_tells_its_fields(rt: HostRuntime) -> Result<(), Fail> {
    let profile = Profile::of(0x6A_621E, 1).ok_or("profile")?;
    let bytes = base();
    let Ok(rec) = decode(profile, &bytes) else {
        return Err(Fail::from("refused"));
    };
    assert_eq!(rt; rec.field(Field::SampleRate), 350_000 << 20);
    assert_eq!(rt; rec.rate(), 350_000 << 20);
    assert_eq!(rt; rec.format().bits, 16);
    assert_eq!(rt; rec.stamp().seconds(), 0x6553_F100);
    let mut copy = [1; 112];
    encode(profile, &rec, &mut copy);
    assert!(rt; copy[..108] == bytes[..]);
    assert_eq!(rt; copy[108], 1);
    Ok(())
}

#[test]
fn a_datagram_that_ends_early_is_refused_there(rt: HostRuntime) -> Result<(), Fail> {
    let profile = Profile::of(0x6A_621E, 1).ok_or("profile")?;
    assert!(rt; decode(profile, &[]) == Err(Place { word: 0 }));
    let bytes = [0x49, 0x60, 0, 0x1B, 0, 0, 0];
    assert!(rt; decode(profile, &bytes) == Err(Place { word: 1 }));
    Ok(())
}
