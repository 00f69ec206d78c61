ghost use Rattle.std.specs.Prelude.{◌≡◌, ◌+◌, ◌≤◌, length};
ghost use Rattle.pcap_frames.specs.Numbers.{number_in};

use byteorder::{BigEndian, ByteOrder, LittleEndian};

// The number in two or four bytes from an offset on, the highest byte first where `big`, else the
// lowest.

pub(crate) fn u16_in(big: bool, bytes: &[u8], offset: usize) -> u16
    requires { offset + 2 ≤ length bytes.now }
    ensures { result ≡ number_in big offset 2 bytes.now }
{
    if big {
        BigEndian::read_u16(&bytes[offset..])
    } else {
        LittleEndian::read_u16(&bytes[offset..])
    }
}

pub(crate) fn u32_in(big: bool, bytes: &[u8], offset: usize) -> u32
    requires { offset + 4 ≤ length bytes.now }
    ensures { result ≡ number_in big offset 4 bytes.now }
{
    if big {
        BigEndian::read_u32(&bytes[offset..])
    } else {
        LittleEndian::read_u32(&bytes[offset..])
    }
}
