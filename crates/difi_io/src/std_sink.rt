ghost use Rattle.std.specs.Prelude.{◌≡◌, ◌<◌, ◌≤◌, None, take, length, IfOk, OnErr};
ghost use Rattle.std.specs.Io.KnownBytes.{Appends, Keeps};
ghost use Rattle.difi_io.specs.Faults.{HasCause, counted};

use crate::{Failed, Sink};
use std::io::Write;
use std::marker::Model;

/// A sink over a writer of the standard library, which it flushes after each write that took bytes. It does not
/// tell its bytes. It counts each `Err` of a write or a flush, and each write that takes nothing,
/// as a fault.
#[derive(Debug, Drop)]
pub struct StdSink<W: Write + Drop> {
    writer: W,
    faults: u64,
}

impl<W: Write + Drop> Model for StdSink<W> {
    ghost use Rattle.difi_io.specs.Counted.{Counted};

    ghost Value = { Counted W };

    ghost view = { λ s. record { inner = s.writer; faults = s.faults } };
}

impl<W: Write + Drop> StdSink<W> {
    /// A sink that gives its bytes to this writer.
    pub fn new(writer: W) -> Self
        ensures { result ≡ record { inner = writer; faults = 0 } }
    {
        StdSink { writer, faults: 0 }
    }
}

impl<W: Write + Drop> Sink for StdSink<W> {
    ghost held = { λ _. None };

    ghost faults = { λ sink. sink.faults };

    /// Writes once and flushes. `Failed` comes where the writer gives an `Err` or takes nothing,
    /// and where the flush gives an `Err`: the writer may then have taken bytes.
    fn write(&mut self, from: &[u8]) -> Result<usize, Failed>
        requires { 0 < length from.now }
        ensures some { IfOk result (λ n. 1 ≤ n) }
        ensures bound { IfOk result (λ n. n ≤ length from.now) }
        ensures bytes { IfOk result (λ n. Appends None None (take n from.now)) }
        ensures err { OnErr result (Keeps None None) }
        ensures cause { HasCause self.old.faults self.new.faults result }

        // What the writer says of its own bytes.
        ensures writes { IfOk result (λ n.
            Appends (W.contents self.old.inner) (W.contents self.new.inner) (take n from.now)) }
        ensures counts_fault { OnErr result (self.new.faults ≡ counted self.old.faults) }
    {
        if let Ok(count) = self.writer.write(from)
            && count > 0
            && self.writer.flush().is_ok()
        {
            return Ok(count);
        }
        self.faults = self.faults.saturating_add(1);
        Err(Failed)
    }
}
