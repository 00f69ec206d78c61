ghost use Rattle.std.specs.Prelude.{◌≤◌};

use crate::judging::{judge, packet_in};
use difi_packet::Packet;
use difi_texts::{
    FrameWords, Judgement, Listing, TextBuffer, accepted, push_counts, push_line, push_under,
};
use record_run::Teller;
use replay_form::{RecordHead, RecordReader};
use std::alloc::Global;
use vrt_words::NoMemory;

/// What `check` and `show` tell of a record's frames: a line for each, and a last one with their
/// numbers.
#[derive(Debug, Drop)]
pub(crate) struct Report {
    /// What is told.
    pub listing: Listing,
    /// How many frames were judged.
    pub frames: FrameWords,
    /// How many of them are packets.
    pub accepted: u64,
    /// Whether the last line was told.
    pub ended: bool,
    ghost counted: { accepted ≤ frames },
}

impl Report {
    ghost use Rattle.std.specs.Prelude.{◌≡◌, ℕ, ◌+◌, ◌^◌, ◌<◌, ◌≤◌, length, false};
    ghost use Rattle.difi_packet.specs.Packet.{value_of};
    ghost use Rattle.difi_texts.specs.Lines.{Account};
    ghost use Rattle.difi_texts.specs.Accounts.{account_of, turned_away};
    ghost use Rattle.difi_cmd.specs.Text.{IsAccount};
    ghost use Rattle.difi_cmd.specs.Telling.{IsNoted};

    /// No frame so far.
    pub fn new(listing: Listing) -> Self
        ensures listing { result.listing ≡ listing }
        ensures frames { result.frames ≡ 0 }
        ensures accepted { result.accepted ≡ 0 }
        ensures ended { result.ended ≡ false }
    {
        Report {
            listing,
            frames: FrameWords::none(),
            accepted: 0,
            ended: false,
        }
    }

    // Judges a frame, counts it and puts what is told of it behind the text.
    fn tell(&mut self, head: &RecordHead, datagram: &[u8], out: &mut TextBuffer)
        requires fits { self.old.frames + 1 < 2 ^ 63 }
        requires room { length out.old < 65536 }
        ensures { (account : Account) × IsAccount self.old.listing head.now datagram.now account
            × IsNoted self.old self.new out.old out.new account }
    {
        match self.listing {
            Listing::Check => self.note(judge(head, datagram), out),
            Listing::Show => self.tell_all(head, datagram, out),
        }
    }

    // The same with what a packet holds.
    #[inline(never)]
    fn tell_all(&mut self, head: &RecordHead, datagram: &[u8], out: &mut TextBuffer)
        requires fits { self.old.frames + 1 < 2 ^ 63 }
        requires room { length out.old < 65536 }
        ensures { (account : Account) × IsAccount self.old.listing head.now datagram.now account
            × IsNoted self.old self.new out.old out.new account }
    {
        match packet_in(head, datagram) {
            Ok(packet) => self.note_packet(&packet, out),
            Err(judgement) => self.note(judgement, out),
        }
    }

    // Counts a packet, and puts what is told of it behind the text.
    fn note_packet(&mut self, packet: &Packet<'_>, out: &mut TextBuffer)
        requires fits { self.old.frames + 1 < 2 ^ 63 }
        requires room { length out.old < 65536 }
        ensures { IsNoted self.old self.new out.old out.new
            (account_of self.old.listing (value_of packet.now)) }
    {
        self.note(accepted(packet), out);
        push_under(out, self.listing, packet);
    }

    // Counts a frame, and puts its line behind the text.
    #[inline(always)]
    fn note(&mut self, judgement: Judgement, out: &mut TextBuffer)
        requires fits { self.old.frames + 1 < 2 ^ 63 }
        requires room { length out.old < 65536 }
        ensures room { length out.new ≤ length out.old + 64 }
        ensures noted { IsNoted self.old self.new out.old out.new (turned_away judgement) }
    {
        self.frames.step();
        if let Judgement::Accepted { .. } = judgement {
            self.accepted += 1;
        }
        push_line(out, &self.frames, judgement);
    }
}

impl Teller<RecordReader> for Report {
    ghost use Rattle.difi_cmd.specs.Telling.{told_by};

    ghost tells = { told_by };

    fn wants_memory(&self) -> bool {
        false
    }

    fn begin(&mut self, _alloc: Global, _intake: &RecordReader) -> Result<(), NoMemory> {
        Ok(())
    }

    #[inline(always)]
    fn frame(&mut self, intake: &RecordReader, bytes: &[u8], out: &mut TextBuffer) {
        let Some(head) = intake.head() else {
            unreachable!()
        };
        let Some((_, _, datagram)) = intake.frame(bytes) else {
            unreachable!()
        };
        self.tell(head, datagram, out);
    }

    fn end(&mut self, out: &mut TextBuffer) {
        push_counts(out, self.frames.number(), self.accepted);
        self.ended = true;
    }

    #[inline(always)]
    fn next(&mut self, _out: &mut TextBuffer) -> bool {
        false
    }
}
