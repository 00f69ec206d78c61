ghost use Rattle.std.specs.Prelude.{◌≡◌, ◌-◌, ◌<◌, ◌≤◌, ◌↔◌, ◌⊎◌, [], take, length, min, Some, IsErr, OnOk, IfOk, OnErr, Contains};
ghost use Rattle.std.specs.Io.KnownBytes.{Appends, Keeps};
ghost use Rattle.difi_io.specs.Faults.{HasCause, counted};

use crate::failures::Failures;
use crate::{Failed, Sink};
use std::alloc::Global;
use std::marker::Model;
use vrt_words::NoMemory;

/// A sink that holds its bytes in memory up to a given number, and of which chosen calls fail. It
/// tells its bytes.
#[derive(Debug, Drop)]
pub struct MemSink {
    stored: Vec<u8>,
    room: usize,
    piece: usize,
    failures: Failures,
}

impl Model for MemSink {
    ghost use Rattle.std.specs.Prelude.{◌≤◌, vec_len, vec_capacity};
    ghost use Rattle.difi_io.specs.Store.{Store};
    ghost use Rattle.difi_io.specs.StoreFits.{StoreFits};

    ghost Value = { Store };

    ghost view = { λ s. record {
      held = s.stored.items;
      room = s.room;
      piece = s.piece;
      fails = s.failures.listed.items;
      calls = s.failures.calls;
      faults = s.failures.faults;
    } };

    ghost invariant = { λ s. StoreFits (vec_len s.stored) s.room (vec_capacity s.stored) s.piece };
}

impl MemSink {
    /// An empty sink with room for `room` bytes, of which a write takes at most `piece`. Exactly
    /// the calls whose numbers, from 1 on and 2^64 - 1 from there on, stand in `fails` are to fail,
    /// and those that come where the room is full. It takes all its memory here.
    pub fn new(alloc: Global, room: usize, piece: usize, fails: Vec<u64>) -> Result<Self, NoMemory>
        requires { 1 ≤ piece }
        ensures { IfOk result (λ sink. sink ≡ record {
          held = [];
          room = room;
          piece = piece;
          fails = fails.items;
          calls = 0;
          faults = 0;
        }) }
    {
        let Ok(stored) = Vec::with_capacity(alloc, room) else {
            return Err(NoMemory);
        };
        Ok(MemSink {
            stored,
            room,
            piece,
            failures: Failures::new(fails),
        })
    }

    /// The bytes held.
    pub fn bytes(&self) -> &[u8]
        ensures held { result.now ≡ self.now.held }
        ensures within { length result.now ≤ self.now.room }
    {
        self.stored.as_slice()
    }
}

impl Sink for MemSink {
    ghost held = { λ sink. Some sink.held };

    ghost faults = { λ sink. sink.faults };

    /// Takes bytes from the front of `from`, as many as the piece, the room left and `from` allow,
    /// and tells how many. `Failed` comes exactly where the number of the call is listed or the
    /// room is full, and changes nothing but the counts.
    fn write(&mut self, from: &[u8]) -> Result<usize, Failed>
        requires { 0 < length from.now }
        ensures some { IfOk result (λ n. 1 ≤ n) }
        ensures bound { IfOk result (λ n. n ≤ length from.now) }
        ensures bytes { IfOk result (λ n.
            Appends (Some self.old.held) (Some self.new.held) (take n from.now)) }
        ensures err { OnErr result (Keeps (Some self.old.held) (Some self.new.held)) }
        ensures cause { HasCause self.old.faults self.new.faults result }

        // It fails on the listed calls and where the room is full, and on no other.
        ensures fails { IsErr result ↔
            (Contains self.old.fails (counted self.old.calls)
            ⊎ (length self.old.held ≡ self.old.room)) }
        ensures takes { IfOk result (λ n.
            n ≡ min self.old.piece (min (self.old.room - length self.old.held) (length from.now))) }

        // What stays as it was.
        ensures counts { OnOk result
            (self.new ≡ record self.old { held = self.new.held; calls = counted self.old.calls }) }
        ensures counts_fault { OnErr result
            (self.new
            ≡ record self.old { calls = counted self.old.calls; faults = counted self.old.faults }) }
    {
        if self.failures.next_is_listed() || self.stored.len() == self.room {
            return Err(self.failures.count_fault());
        }
        let room_left = self.room - self.stored.len();
        let count = self.piece.min(room_left).min(from.len());
        match self.stored.extend_from_slice(&from[..count]) {
            Ok(()) => Ok(count),
            Err(_) => unreachable!(),
        }
    }
}
