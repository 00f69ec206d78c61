ghost use Rattle.std.specs.Prelude.{◌≡◌, ◌+◌, ◌≤◌, ℕ, List, length, take, drop};
ghost use Rattle.vrt_time.specs.Time.{TimeStamp, IsStamp, moment_of};
ghost use Rattle.vrt_words.specs.Words.{AreBytes};
ghost use Rattle.replay_form.specs.FrameFields.{IsFrame};
ghost use Rattle.replay_form.specs.FrameSpelling.{IsFrameHead};

use crate::frame_field::FRAME_HEAD;
use crate::put::{put_u16, put_u32, put_u64};
use vrt_time::Stamp;

/// Writes a frame at the front of `into`: a datagram of at most 65,535 bytes that came at this
/// moment on this port. Answers the number of bytes, which is 20 more than the datagram's. All
/// other bytes stay.
///
/// Read behind a frame whose moment is not later, it gives the same, and writing what was read
/// gives the same bytes.
pub fn encode_frame(moment: Stamp, port: u16, bytes: &[u8], into: &mut [u8]) -> usize
    requires datagram { length bytes.now ≤ 65535 }
    requires room { 20 + length bytes.now ≤ length into.old }
    ensures length { result ≡ 20 + length bytes.now }
    ensures frame { (last : TimeStamp) → moment_of last ≤ moment_of moment
        → IsFrame last (record { stamp = moment; port = port; datagram = bytes.now })
        (take result into.new) }
    ensures again { (last : TimeStamp) (spelled : List ℕ) → AreBytes spelled
        → IsFrame last (record { stamp = moment; port = port; datagram = bytes.now }) spelled
        → take result into.new ≡ spelled }
    ensures behind { drop result into.new ≡ drop result into.old }
{
    put_frame_head(moment, port, bytes.len() as u32, into);
    let end = FRAME_HEAD + bytes.len();
    into[FRAME_HEAD..end].copy_from_slice(bytes);
    end
}

// The part in front of the datagram.
fn put_frame_head(moment: Stamp, port: u16, len: u32, into: &mut [u8])
    requires { 20 ≤ length into.old }
    ensures agrees { (bytes : List ℕ) → IsFrameHead moment port len bytes
        → take 20 into.new ≡ take 20 bytes }
    ensures stays { drop 20 into.new ≡ drop 20 into.old }
    ensures stamp { IsStamp moment }
{
    put_u32(into, 0, moment.seconds());
    put_u64(into, 4, moment.picos());
    put_u16(into, 12, port);
    put_u16(into, 14, 0);
    put_u32(into, 16, len);
}
