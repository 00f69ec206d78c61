ghost use Rattle.std.specs.Prelude.{◌≡◌, ◌≤◌, ◌+◌, ◌++◌, length, codes};
ghost use Rattle.std.specs.Fmt.{decimal};
ghost use Rattle.difi_packet.specs.Packet.{value_of};
ghost use Rattle.difi_texts.specs.Accounts.{accepted};
ghost use Rattle.difi_texts.specs.Lines.{acceptance, line, outcome, counts};

use crate::frame_words::FrameWords;
use difi_packet::{Packet, PacketKind, kind_and_stream};
use text_buffer::TextBuffer;

/// What is told of the frames of a record.
#[derive(Clone, Copy, Debug, PartialEq, Eq)]
pub enum Listing {
    /// A line for each frame.
    Check,
    /// And under it, what an accepted packet holds.
    Show,
}

/// What is judged of a datagram.
#[derive(Clone, Copy, Debug, PartialEq, Eq)]
pub enum Judgement {
    /// It is a packet of this kind and stream.
    Accepted { kind: PacketKind, stream: u32 },
    /// It is no packet. The word is where no packet goes on so.
    Refused { word: u32 },
    /// It has more words than the record allows.
    TooLarge,
}

/// What is judged of a packet.
pub fn accepted(packet: &Packet<'_>) -> Judgement
    ensures { result ≡ accepted (value_of packet.now) }
{
    let (kind, stream) = kind_and_stream(packet);
    Judgement::Accepted { kind, stream }
}

/// Puts the line of the frame with this number behind the text.
#[inline(always)]
pub fn push_line(out: &mut TextBuffer, number: &FrameWords, judgement: Judgement)
    requires { length out.old + 64 ≤ 327680 }
    ensures text { out.new ≡ out.old ++ line number.now judgement }
    ensures length { length out.new ≤ length out.old + 64 }
{
    out.push(number.as_slice());
    push_outcome(out, judgement);
}

// What a line says of a datagram, with the end of the line.
#[inline(always)]
fn push_outcome(out: &mut TextBuffer, judgement: Judgement)
    requires { length out.old + 38 ≤ 327680 }
    ensures text { out.new ≡ out.old ++ outcome judgement ++ codes "\n" }
    ensures length { length out.new ≤ length out.old + 38 }
{
    match judgement {
        Judgement::Accepted { kind, stream } => {
            push_acceptance(out, kind);
            out.push_last_word(stream);
        }
        Judgement::Refused { word } => push_refusal(out, word),
        Judgement::TooLarge => out.push(b" too large\n"),
    }
}

// What a line says of an accepted packet in front of its stream.
#[inline(always)]
fn push_acceptance(out: &mut TextBuffer, kind: PacketKind)
    requires { length out.old + 19 ≤ 327680 }
    ensures text { out.new ≡ out.old ++ acceptance kind }
    ensures length { length out.new ≤ length out.old + 19 }
{
    match kind {
        PacketKind::Data => out.push(b" ok data stream "),
        PacketKind::Context => out.push(b" ok context stream "),
        PacketKind::Version => out.push(b" ok version stream "),
        PacketKind::Control => out.push(b" ok control stream "),
        PacketKind::Cancel => out.push(b" ok cancel stream "),
        PacketKind::AckV => out.push(b" ok ackv stream "),
        PacketKind::AckX => out.push(b" ok ackx stream "),
        PacketKind::AckS => out.push(b" ok acks stream "),
    }
}

// What a line says of a datagram that is no packet, with the end of the line.
#[inline(never)]
fn push_refusal(out: &mut TextBuffer, word: u32)
    requires { length out.old + 38 ≤ 327680 }
    ensures text { out.new ≡ out.old ++ (codes " refused at word " ++ decimal word) ++ codes "\n" }
    ensures length { length out.new ≤ length out.old + 38 }
{
    out.push(b" refused at word ");
    out.push_decimal(u64::from(word));
    out.push(b"\n");
}

/// Puts the last line behind the text.
pub fn push_counts(out: &mut TextBuffer, frames: u64, accepted: u64)
    requires room { length out.old + 96 ≤ 327680 }
    requires accepted { accepted ≤ frames }
    ensures text { out.new ≡ out.old ++ counts frames accepted }
    ensures length { length out.new ≤ length out.old + 96 }
{
    out.push(b"frames ");
    out.push_decimal(frames);
    out.push(b" ok ");
    out.push_decimal(accepted);
    out.push(b" refused ");
    out.push_decimal(frames - accepted);
    out.push(b"\n");
}
