ghost use Rattle.std.specs.Prelude.{◌≡◌, ◌<◌, ◌≤◌, ◌↔◌, [], take, drop, length, min, Some, IsErr, OnOk, IfOk, OnErr, Contains};
ghost use Rattle.std.specs.Io.KnownBytes.{Consumes, IsAtEnd, Keeps};
ghost use Rattle.difi_io.specs.Faults.{HasCause, counted};

use crate::failures::Failures;
use crate::{Failed, Source, SureSource};
use std::marker::Model;

/// A source over bytes in memory, of which chosen calls fail. It tells its bytes.
#[derive(Debug, Drop)]
pub struct MemSource {
    supply: SureSource,
    failures: Failures,
}

impl Model for MemSource {
    ghost use Rattle.difi_io.specs.Supply.{FailingSupply};

    ghost Value = { FailingSupply };

    ghost view = { λ s. record {
      left = s.supply.left;
      piece = s.supply.piece;
      fails = s.failures.listed.items;
      calls = s.failures.calls;
      faults = s.failures.faults;
    } };
}

impl MemSource {
    /// A source of these bytes, of which a read gives at most `piece`. Exactly the calls whose
    /// numbers, from 1 on and 2^64 - 1 from there on, stand in `fails` are to fail.
    pub fn new(bytes: Vec<u8>, piece: usize, fails: Vec<u64>) -> Self
        requires { 1 ≤ piece }
        ensures { result
            ≡ record { left = bytes.items; piece = piece; fails = fails.items; calls = 0; faults = 0 } }
    {
        MemSource {
            supply: SureSource::new(bytes, piece),
            failures: Failures::new(fails),
        }
    }
}

impl Source for MemSource {
    ghost left = { λ source. Some source.left };

    ghost faults = { λ source. source.faults };

    /// Puts the next bytes into the front of `into`, as many as the piece, `into` and what is left
    /// allow, and tells how many. `Failed` comes exactly where the number of the call is listed,
    /// and changes nothing but the counts.
    fn read(&mut self, into: &mut [u8]) -> Result<usize, Failed>
        requires { 0 < length into.old }
        ensures bound { IfOk result (λ n. n ≤ length into.new) }
        ensures bytes { IfOk result (λ n.
            Consumes (Some self.old.left) (Some self.new.left) (take n into.new)) }
        ensures end { IfOk result (λ n. n ≡ 0 → IsAtEnd (Some self.new.left)) }
        ensures err { OnErr result (Keeps (Some self.old.left) (Some self.new.left)) }
        ensures cause { HasCause self.old.faults self.new.faults result }

        // It fails on the listed calls and on no other.
        ensures fails { IsErr result ↔ Contains self.old.fails (counted self.old.calls) }
        ensures gives { IfOk result (λ n. n
            ≡ min self.old.piece (min (length into.old) (length self.old.left))) }

        // What stays as it was.
        ensures behind { IfOk result (λ n. drop n into.new ≡ drop n into.old) }
        ensures untouched { OnErr result (into.new ≡ into.old) }
        ensures counts { OnOk result
            (self.new ≡ record self.old { left = self.new.left; calls = counted self.old.calls }) }
        ensures counts_fault { OnErr result
            (self.new
            ≡ record self.old { calls = counted self.old.calls; faults = counted self.old.faults }) }
    {
        if self.failures.next_is_listed() {
            return Err(self.failures.count_fault());
        }
        self.supply.read(into)
    }
}
