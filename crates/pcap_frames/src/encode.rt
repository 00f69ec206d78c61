ghost use Rattle.std.specs.Prelude.{◌≡◌, ◌+◌, ◌/◌, ◌≤◌, ℕ, length, take, drop};
ghost use Rattle.pcap_frames.specs.CaptureFields.{IsCaptured, IsFileHead, magic_of, unit_of};
ghost use Rattle.pcap_frames.specs.Numbers.{number_in};
ghost use Rattle.pcap_frames.specs.Spelling.{IsWholeIn};

use crate::form::FileForm;
use crate::judge::{ETHERNET, FILE_HEAD, MOST_CAPTURED, RECORD_HEAD};
use byteorder::{BigEndian, ByteOrder, LittleEndian};
use replay_form::Stamp;

/// Writes the head of a file of this form at the front of `into`: version 2.4, zone and accuracy 0,
/// the greatest snap length, and the link type of Ethernet. All other bytes stay.
pub fn encode_file_head(form: FileForm, into: &mut [u8])
    requires { 24 ≤ length into.old }
    ensures head { IsFileHead form (take 24 into.new) }
    ensures free { (number_in form.big 8 4 into.new ≡ 0)
        × ((number_in form.big 12 4 into.new ≡ 0) × (number_in form.big 16 4 into.new ≡ 262144)) }
    ensures behind { drop 24 into.new ≡ drop 24 into.old }
{
    put_u32(true, into, 0, magic(form));
    put_u16(form.big, into, 4, 2);
    put_u16(form.big, into, 6, 4);
    put_u32(form.big, into, 8, 0);
    put_u32(form.big, into, 12, 0);
    put_u32(form.big, into, 16, MOST_CAPTURED);
    put_u32(form.big, into, 20, ETHERNET);
}

/// Writes a record at the front of `into`: what was captured at this time, all of it. Answers the
/// number of bytes, which is 16 more than were captured. All other bytes stay.
///
/// The time must be whole in the unit of the form's fractions.
pub fn encode_capture(form: FileForm, time: Stamp, bytes: &[u8], into: &mut [u8]) -> usize
    requires unit { IsWholeIn form time }
    requires most { length bytes.now ≤ 262144 }
    requires room { 16 + length bytes.now ≤ length into.old }
    ensures length { result ≡ 16 + length bytes.now }
    ensures captured { IsCaptured form (record { stamp = time; bytes = bytes.now })
        (take result into.new) }
    ensures original { number_in form.big 12 4 into.new ≡ length bytes.now }
    ensures behind { drop result into.new ≡ drop result into.old }
{
    let size = bytes.len() as u32;
    put_u32(form.big, into, 0, time.seconds());
    put_u32(form.big, into, 4, fraction_of(form, time));
    put_u32(form.big, into, 8, size);
    put_u32(form.big, into, 12, size);
    let end = RECORD_HEAD + bytes.len();
    into[RECORD_HEAD..end].copy_from_slice(bytes);
    end
}

// The magic number, as its bytes have it.
fn magic(form: FileForm) -> u32
    ensures { result ≡ magic_of form }
{
    match (form.big, form.nanos) {
        (true, false) => 0xA1B2_C3D4,
        (true, true) => 0xA1B2_3C4D,
        (false, false) => 0xD4C3_B2A1,
        (false, true) => 0x4D3C_B2A1,
    }
}

// The fraction of a second in the form's unit.
fn fraction_of(form: FileForm, time: Stamp) -> u32
    ensures { result ≡ time.picos / unit_of form }
{
    if form.nanos {
        (time.picos() / 1_000) as u32
    } else {
        (time.picos() / 1_000_000) as u32
    }
}

// Writes a number of two or four bytes at an offset, the highest byte first where `big`, else the
// lowest. All other bytes stay.

fn put_u16(big: bool, into: &mut [u8], offset: usize, number: u16)
    requires { offset + 2 ≤ length into.old }
    ensures there { number_in big offset 2 into.new ≡ number }
    ensures front { (n : ℕ) → n ≤ offset → take n into.new ≡ take n into.old }
    ensures stays { (n : ℕ) → offset + 2 ≤ n → drop n into.new ≡ drop n into.old }
{
    if big {
        BigEndian::write_u16(&mut into[offset..], number);
    } else {
        LittleEndian::write_u16(&mut into[offset..], number);
    }
}

fn put_u32(big: bool, into: &mut [u8], offset: usize, number: u32)
    requires { offset + 4 ≤ length into.old }
    ensures there { number_in big offset 4 into.new ≡ number }
    ensures front { (n : ℕ) → n ≤ offset → take n into.new ≡ take n into.old }
    ensures stays { (n : ℕ) → offset + 4 ≤ n → drop n into.new ≡ drop n into.old }
{
    if big {
        BigEndian::write_u32(&mut into[offset..], number);
    } else {
        LittleEndian::write_u32(&mut into[offset..], number);
    }
}
