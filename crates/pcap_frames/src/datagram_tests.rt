ghost use Rattle.std.specs.Prelude.{◌≤◌};

use super::*;
use std::test::Fail;
use vrt_words::put_words;

// A frame with a datagram from port 5 to port 4991, which carries 108 bytes, with so many tags, the
// provider's in front, and so many bytes behind.
fn tagged(tags: usize) -> [u8; 166]
    requires { tags ≤ 3 }
{
    let mut bytes = [0; 166];
    let marks = [0x88A8_0064, 0x8100_0065, 0x8100_0066];
    put_words(&mut bytes, 3, &marks[3 - tags..]);
    let head = [
        0x0800_4500,
        0x0088_0000,
        0x0000_4011,
        0x0000_7F00,
        0x0001_7F00,
        0x0001_0005,
        0x137F_0074,
    ];
    put_words(&mut bytes, 3 + tags, &head);
    bytes
}

// The frame with no tag, 16 bytes behind it, and one byte changed.
fn changed(at: usize, byte: u8) -> [u8; 166] {
    let mut bytes = tagged(0);
    if let Some(slot) = bytes.get_mut(at) {
        *slot = byte;
    }
    bytes
}

// How many bytes the datagram carries, if there is one.
fn carried(bytes: &[u8]) -> Option<usize> {
    match datagram_of(bytes) {
        Some(datagram) => Some(datagram.payload.len()),
        None => None,
    }
}

#[test]
fn a_datagram_stands_behind_at_most_two_tags(rt: HostRuntime) -> Result<(), Fail> {
    for tags in 0..3 {
        let mut bytes = tagged(tags);
        // What it carries begins with these bytes, behind 42 bytes and the tags.
        bytes[42 + 4 * tags] = b'a';
        bytes[149 + 4 * tags] = b'z';
        let datagram = datagram_of(&bytes).ok_or("no datagram")?;
        assert_eq!(rt; datagram.source, 5);
        assert_eq!(rt; datagram.destination, 4_991);
        assert_eq!(rt; datagram.payload.len(), 108);
        assert!(rt; datagram.payload.starts_with(b"a"));
        assert!(rt; datagram.payload.ends_with(b"z"));
    }
    assert!(rt; datagram_of(&tagged(3)).is_none());
    Ok(())
}

#[test]
fn what_is_no_packet_is_none(rt: HostRuntime) -> Result<(), Fail> {
    // A byte that is changed, and how many bytes the datagram carries then.
    let edges: [(usize, u8, Option<usize>); 11] = [
        (0, 1, Some(108)),
        // The EtherType.
        (12, 0x86, None),
        (13, 6, None),
        (12, 0x81, None),
        // The version, and a header of 16 bytes.
        (14, 0x55, None),
        (14, 0x35, None),
        (14, 0x44, None),
        // A total length up to the end and past it, or in front of the datagram's.
        (17, 0x98, Some(108)),
        (17, 0x99, None),
        (17, 0x87, None),
        (16, 1, None),
    ];
    for (at, byte, wanted) in edges {
        assert!(rt; carried(&changed(at, byte)) == wanted);
    }
    Ok(())
}

#[test]
fn what_is_no_datagram_is_none(rt: HostRuntime) -> Result<(), Fail> {
    // A byte that is changed, and how many bytes the datagram carries then.
    let edges: [(usize, u8, Option<usize>); 16] = [
        // More fragments, and a fragment's place; not to be cut, and the highest bit.
        (20, 0x20, None),
        (20, 0x1F, None),
        (20, 0x01, None),
        (21, 1, None),
        (20, 0x40, Some(108)),
        (20, 0x80, Some(108)),
        (20, 0xC0, Some(108)),
        // Another protocol.
        (23, 6, None),
        (23, 18, None),
        // A datagram of 7 and of 8 bytes, one shorter than the packet has room for, and one longer.
        (39, 7, None),
        (39, 8, Some(0)),
        (39, 9, Some(1)),
        (39, 0x73, Some(107)),
        (39, 0x75, None),
        (38, 1, None),
        // The checksum.
        (40, 1, Some(108)),
    ];
    for (at, byte, wanted) in edges {
        assert!(rt; carried(&changed(at, byte)) == wanted);
    }
    Ok(())
}

#[test]
fn options_are_passed_over(rt: HostRuntime) -> Result<(), Fail> {
    let mut bytes = [0; 154];
    // A header of 24 bytes: four bytes of options in front of the ports.
    let head = [
        0x0800_4600,
        0x008C_0000,
        0x0000_4011,
        0x0000_7F00,
        0x0001_7F00,
        0x0001_0101,
        0x0101_0005,
        0x137F_0074,
    ];
    put_words(&mut bytes, 3, &head);
    let datagram = datagram_of(&bytes).ok_or("no datagram")?;
    assert_eq!(rt; datagram.source, 5);
    assert_eq!(rt; datagram.destination, 4_991);
    assert_eq!(rt; datagram.payload.len(), 108);
    // A total length of 31 has no room behind the header, one of 32 has.
    put_words(&mut bytes, 10, &[0x137F_0008]);
    put_words(&mut bytes, 4, &[0x001F_0000]);
    assert!(rt; carried(&bytes).is_none());
    put_words(&mut bytes, 4, &[0x0020_0000]);
    assert!(rt; carried(&bytes) == Some(0));
    Ok(())
}

// How many bytes the datagram in the first bytes carries.
fn carried_in_front(bytes: &[u8], len: usize) -> Option<usize> {
    carried(&bytes[..len.min(bytes.len())])
}

// The shortest frame with a datagram, which carries nothing.
fn shortest() -> [u8; 42] {
    let mut bytes = [0; 42];
    let head = [
        0x0800_4500,
        0x001C_0000,
        0x0000_4011,
        0x0000_7F00,
        0x0001_7F00,
        0x0001_0005,
        0x137F_0008,
    ];
    put_words(&mut bytes, 3, &head);
    bytes
}

#[test]
fn all_bytes_of_the_packet_are_there(rt: HostRuntime) -> Result<(), Fail> {
    let bytes = tagged(0);
    assert!(rt; carried_in_front(&bytes, 166) == Some(108));
    assert!(rt; carried_in_front(&bytes, 150) == Some(108));
    assert!(rt; carried_in_front(&bytes, 149).is_none());
    assert!(rt; carried_in_front(&bytes, 42).is_none());
    assert!(rt; carried_in_front(&bytes, 0).is_none());
    assert!(rt; carried(&shortest()) == Some(0));
    assert!(rt; carried_in_front(&shortest(), 41).is_none());
    Ok(())
}
