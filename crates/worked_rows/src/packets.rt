//! Packets that are decoded and encoded again.

use difi_packet::{Packet, decode, size_of};
use std::test::Fail;
use test_records::push_words;
use vrt_header::Profile;

#[test]
fn the_greatest_data_packet_lends_its_payload(rt: HostRuntime) -> Result<(), Fail> {
    let profile = Profile::of(0x6A_621E, 1).ok_or("profile")?;
    let mut bytes = Vec::new(rt.alloc());
    push_words(
        &mut bytes,
        &[0x1860_3FF8, 1, 0x006A_621E, 0, 0x6553_F100, 0, 0],
    )?;
    for word in 0..16_369 {
        push_words(&mut bytes, &[word])?;
    }
    let Ok(packet) = decode(profile, bytes.as_slice()) else {
        return Err(Fail::from("refused"));
    };
    assert_eq!(rt; size_of(&packet), 16_376);
    let Packet::Data(rec) = packet else {
        return Err(Fail::from("no data packet"));
    };
    assert_eq!(rt; rec.payload.len(), 65_476);
    assert_eq!(rt; bytes.len(), 65_504);
    assert!(rt; rec.payload == &bytes.as_slice()[28..]);
    Ok(())
}
