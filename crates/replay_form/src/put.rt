ghost use Rattle.std.specs.Prelude.{◌≡◌, ◌+◌, ◌≤◌, ◌<◌, ◌^◌, ℕ, List, length, take, drop};
ghost use Rattle.vrt_words.specs.Words.{AreBytes};
ghost use Rattle.replay_form.specs.Numbers.{number_at};

use byteorder::{BigEndian, ByteOrder};

// Writes a number of two, four or eight bytes at an offset, the highest byte first, and answers the
// offset behind it. Where the bytes so far are those of some bytes that have the number there, they
// are so up to its end. The bytes behind it stay.

pub(crate) fn put_u16(into: &mut [u8], offset: usize, number: u16) -> usize
    requires { offset + 2 ≤ length into.old }
    ensures behind { result ≡ offset + 2 }
    ensures agrees { (bytes : List ℕ) → AreBytes bytes → offset + 2 ≤ length bytes
        → take offset into.old ≡ take offset bytes
        → number ≡ number_at offset 2 bytes → take (offset + 2) into.new ≡ take (offset + 2) bytes }
    ensures stays { (n : ℕ) → offset + 2 ≤ n → drop n into.new ≡ drop n into.old }
{
    BigEndian::write_u16(&mut into[offset..], number);
    offset + 2
}

pub(crate) fn put_u32(into: &mut [u8], offset: usize, number: u32) -> usize
    requires { offset + 4 ≤ length into.old }
    ensures behind { result ≡ offset + 4 }
    ensures agrees { (bytes : List ℕ) → AreBytes bytes → offset + 4 ≤ length bytes
        → take offset into.old ≡ take offset bytes
        → number ≡ number_at offset 4 bytes → take (offset + 4) into.new ≡ take (offset + 4) bytes }
    ensures stays { (n : ℕ) → offset + 4 ≤ n → drop n into.new ≡ drop n into.old }
{
    BigEndian::write_u32(&mut into[offset..], number);
    offset + 4
}

pub(crate) fn put_u64(into: &mut [u8], offset: usize, number: u64) -> usize
    requires { offset + 8 ≤ length into.old }
    ensures behind { result ≡ offset + 8 }
    ensures agrees { (bytes : List ℕ) → AreBytes bytes → offset + 8 ≤ length bytes
        → take offset into.old ≡ take offset bytes
        → number ≡ number_at offset 8 bytes → take (offset + 8) into.new ≡ take (offset + 8) bytes }
    ensures stays { (n : ℕ) → offset + 8 ≤ n → drop n into.new ≡ drop n into.old }
{
    BigEndian::write_u64(&mut into[offset..], number);
    offset + 8
}
