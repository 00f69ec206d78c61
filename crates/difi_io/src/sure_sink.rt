ghost use Rattle.std.specs.Prelude.{◌≡◌, ◌+◌, ◌%◌, ◌^◌, ◌<◌, ◌≤◌, None, Ok, take, length, IfOk, OnErr};
ghost use Rattle.std.specs.Io.KnownBytes.{Appends, Keeps};
ghost use Rattle.difi_io.specs.Faults.{HasCause};

use crate::{Failed, Sink};
use std::marker::Model;

/// A sink that takes all bytes and keeps none. It keeps their number, modulo 2^64, and does not
/// tell them.
#[derive(Debug, Drop)]
pub struct SureSink {
    taken: u64,
}

impl Model for SureSink {
    ghost use Rattle.std.specs.Prelude.{ℕ};

    ghost Value = { ℕ };

    ghost view = { λ s. s.taken };
}

impl SureSink {
    /// A sink that took no byte.
    pub fn new() -> Self
        ensures { result ≡ 0 }
    {
        SureSink { taken: 0 }
    }
}

impl Sink for SureSink {
    ghost held = { λ _. None };

    ghost faults = { λ _. 0 };

    /// Takes all bytes of `from`.
    fn write(&mut self, from: &[u8]) -> Result<usize, Failed>
        requires { 0 < length from.now }
        ensures some { IfOk result (λ n. 1 ≤ n) }
        ensures bound { IfOk result (λ n. n ≤ length from.now) }
        ensures bytes { IfOk result (λ n. Appends None None (take n from.now)) }
        ensures err { OnErr result (Keeps None None) }
        ensures cause { HasCause 0 0 result }

        // It always takes all, and counts it.
        ensures sure { result ≡ Ok (length from.now) }
        ensures number { self.new ≡ (self.old + length from.now) % 2 ^ 64 }
    {
        self.taken = self.taken.wrapping_add(from.len() as u64);
        Ok(from.len())
    }
}
