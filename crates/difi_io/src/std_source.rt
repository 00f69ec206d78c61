ghost use Rattle.std.specs.Prelude.{◌≡◌, ◌<◌, ◌≤◌, None, take, length, OnOk, IfOk, OnErr};
ghost use Rattle.std.specs.Io.KnownBytes.{Consumes, IsAtEnd, Keeps};
ghost use Rattle.difi_io.specs.Faults.{HasCause, counted};

use crate::{Failed, Source};
use std::io::Read;
use std::marker::Model;

/// A source over a reader of the standard library. It does not tell its bytes, and counts each
/// `Err` of the reader, an interrupted read too, as a fault.
#[derive(Debug, Drop)]
pub struct StdSource<R: Read + Drop> {
    reader: R,
    faults: u64,
}

impl<R: Read + Drop> Model for StdSource<R> {
    ghost use Rattle.difi_io.specs.Counted.{Counted};

    ghost Value = { Counted R };

    ghost view = { λ s. record { inner = s.reader; faults = s.faults } };
}

impl<R: Read + Drop> StdSource<R> {
    /// A source of what this reader gives.
    pub fn new(reader: R) -> Self
        ensures { result ≡ record { inner = reader; faults = 0 } }
    {
        StdSource { reader, faults: 0 }
    }
}

impl<R: Read + Drop> Source for StdSource<R> {
    ghost left = { λ _. None };

    ghost faults = { λ source. source.faults };

    /// Reads once. `Failed` comes exactly where the reader gives an `Err`.
    fn read(&mut self, into: &mut [u8]) -> Result<usize, Failed>
        requires { 0 < length into.old }
        ensures bound { IfOk result (λ n. n ≤ length into.new) }
        ensures bytes { IfOk result (λ n. Consumes None None (take n into.new)) }
        ensures end { IfOk result (λ n. n ≡ 0 → IsAtEnd None) }
        ensures err { OnErr result (Keeps None None) }
        ensures cause { HasCause self.old.faults self.new.faults result }

        // What the reader says of its own bytes.
        ensures reads { IfOk result (λ n.
            Consumes (R.remaining self.old.inner) (R.remaining self.new.inner) (take n into.new)) }
        ensures reads_end { IfOk result (λ n. n ≡ 0 → IsAtEnd (R.remaining self.new.inner)) }
        ensures reads_none { OnErr result
            (Keeps (R.remaining self.old.inner) (R.remaining self.new.inner)) }
        ensures counts_fault { OnErr result (self.new.faults ≡ counted self.old.faults) }
    {
        match self.reader.read(into) {
            Ok(count) => Ok(count),
            Err(_) => {
                self.faults = self.faults.saturating_add(1);
                Err(Failed)
            }
        }
    }
}
