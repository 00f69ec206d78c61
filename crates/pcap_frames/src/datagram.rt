ghost use Rattle.std.specs.Prelude.{◌≡◌, ◌+◌, ◌<◌, ◌≤◌, ◌⊎◌, ◌↔◌, ℕ, IsTrue, length, IfSome, IfNone};
ghost use Rattle.pcap_frames.specs.Datagrams.{UdpDatagram, HoldsDatagram, IsPacketAt, IsTag, IsUdpAt, datagram_at, datagram_size, header_size, number_at};

use crate::numbers::u16_in;

/// A UDP datagram of a frame.
#[derive(Clone, Copy, Debug, PartialEq, Eq)]
pub struct Datagram<'a> {
    /// The port that it came from.
    pub source: u16,
    /// The port that it went to.
    pub destination: u16,
    /// What it carries.
    pub payload: &'a [u8],
}

/// The EtherType of IPv4.
const IPV4: u16 = 0x0800;

/// The EtherTypes of a customer's and a provider's tag (IEEE 802.1Q).
const CUSTOMER_TAG: u16 = 0x8100;

const SERVICE_TAG: u16 = 0x88A8;

/// The protocol number of UDP.
const UDP: u8 = 17;

/// The bytes of a UDP header.
const UDP_HEADER: usize = 8;

/// The fewest bytes of a frame that holds a datagram: an Ethernet, an IPv4 and a UDP header.
const FEWEST: usize = 42;

/// The UDP datagram that the bytes of an Ethernet frame hold, if they do: behind at most two tags
/// (IEEE 802.1Q), in an IPv4 packet that is no fragment (RFC 791), whose bytes are all there, with
/// the length of the UDP header inside the packet (RFC 768). Checksums are not judged.
pub fn datagram_of(bytes: &[u8]) -> Option<Datagram<'_>>
    ensures found { IfSome result
        (λ d. HoldsDatagram (record {
          source = d.source;
          destination = d.destination;
          payload = d.payload.now;
        }) bytes.now) }
    ensures none { IfNone result ((datagram : UdpDatagram) → ¬ HoldsDatagram datagram bytes.now) }
{
    if bytes.len() < FEWEST {
        return None;
    }
    match start_of_packet(bytes) {
        Some(start) => datagram_in(bytes, start),
        None => None,
    }
}

fn is_tag(type_number: u16) -> bool
    ensures { IsTrue result ↔ IsTag type_number }
{
    type_number == CUSTOMER_TAG || type_number == SERVICE_TAG
}

// Where the IPv4 packet begins, if there is one.
fn start_of_packet(bytes: &[u8]) -> Option<usize>
    requires { 42 ≤ length bytes.now }
    ensures some { IfSome result (λ start. IsPacketAt bytes.now start) }
    ensures none { IfNone result ((start : ℕ) → ¬ IsPacketAt bytes.now start) }
{
    let first = u16_in(true, bytes, 12);
    if first == IPV4 {
        return Some(14);
    }
    if !is_tag(first) {
        return None;
    }
    let second = u16_in(true, bytes, 16);
    if second == IPV4 {
        return Some(18);
    }
    if !is_tag(second) {
        return None;
    }
    if u16_in(true, bytes, 20) == IPV4 {
        Some(22)
    } else {
        None
    }
}

// The datagram in the packet that begins there, if it holds one.
fn datagram_in(bytes: &[u8], start: usize) -> Option<Datagram<'_>>
    requires long { 42 ≤ length bytes.now }
    requires low { start ≤ 22 }
    ensures found { IfSome result (λ d. IsUdpAt bytes.now start
        × (record { source = d.source; destination = d.destination; payload = d.payload.now }
        ≡ datagram_at bytes.now (start + header_size bytes.now start)
        (datagram_size bytes.now start))) }
    ensures none { IfNone result (¬ IsUdpAt bytes.now start) }
{
    let first = bytes[start];
    let header = 4 * (first % 16) as usize;
    if first / 16 != 4 {
        return None;
    }
    if header < 20 {
        return None;
    }
    let total = u16_in(true, bytes, start + 2) as usize;
    if total < header + UDP_HEADER {
        return None;
    }
    if bytes.len() < start + total {
        return None;
    }
    // No more fragments, and none in front.
    if u16_in(true, bytes, start + 6) % 0x4000 != 0 {
        return None;
    }
    if bytes[start + 9] != UDP {
        return None;
    }
    datagram_within(bytes, start + header, total - header)
}

// The datagram whose header begins at this offset and that has at most `room` bytes, if its length
// is one.
fn datagram_within(bytes: &[u8], offset: usize, room: usize) -> Option<Datagram<'_>>
    requires least { 8 ≤ room }
    requires there { offset + room ≤ length bytes.now }
    ensures found { IfSome result (λ d. (8 ≤ number_at (offset + 4) bytes.now)
        × ((number_at (offset + 4) bytes.now ≤ room)
        × (record { source = d.source; destination = d.destination; payload = d.payload.now }
        ≡ datagram_at bytes.now offset (number_at (offset + 4) bytes.now)))) }
    ensures none { IfNone result ((number_at (offset + 4) bytes.now < 8)
        ⊎ (room < number_at (offset + 4) bytes.now)) }
{
    let length = u16_in(true, bytes, offset + 4) as usize;
    if length < UDP_HEADER {
        return None;
    }
    if length > room {
        return None;
    }
    Some(Datagram {
        source: u16_in(true, bytes, offset),
        destination: u16_in(true, bytes, offset + 2),
        payload: &bytes[offset + UDP_HEADER..offset + length],
    })
}
