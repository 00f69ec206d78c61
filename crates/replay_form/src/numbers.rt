ghost use Rattle.std.specs.Prelude.{◌≡◌, ◌+◌, ◌*◌, ◌≤◌, ◌<◌, ◌^◌, length};
ghost use Rattle.replay_form.specs.Numbers.{AreNumbers, number_at, signed_at};

use byteorder::{BigEndian, ByteOrder};

// The number in two, four or eight bytes from an offset on, the highest byte first.

pub(crate) fn u16_at(bytes: &[u8], offset: usize) -> u16
    requires { offset + 2 ≤ length bytes.now }
    ensures { result ≡ number_at offset 2 bytes.now }
{
    BigEndian::read_u16(&bytes[offset..])
}

pub(crate) fn u32_at(bytes: &[u8], offset: usize) -> u32
    requires { offset + 4 ≤ length bytes.now }
    ensures { result ≡ number_at offset 4 bytes.now }
{
    BigEndian::read_u32(&bytes[offset..])
}

pub(crate) fn u64_at(bytes: &[u8], offset: usize) -> u64
    requires { offset + 8 ≤ length bytes.now }
    ensures { result ≡ number_at offset 8 bytes.now }
{
    BigEndian::read_u64(&bytes[offset..])
}

pub(crate) fn i64_at(bytes: &[u8], offset: usize) -> i64
    requires { offset + 8 ≤ length bytes.now }
    ensures { result ≡ signed_at offset bytes.now }
{
    u64_at(bytes, offset).cast_signed()
}

// The words from an offset on, as many as there is room for.
pub(crate) fn read_words(bytes: &[u8], offset: usize, into: &mut [u32])
    requires { offset + 4 * length into.old ≤ length bytes.now }
    ensures { AreNumbers into.new offset (length into.old) bytes.now }
{
    let end = offset + 4 * into.len();
    BigEndian::read_u32_into(&bytes[offset..end], into);
}
