use crate::transfer::write_all;
use difi_io::{Failed, Sink};
use text_buffer::TextBuffer;

/// The bytes that are to be written, on their way to a sink.
///
/// A write that fails is the last one. What is put behind it is dropped.
#[derive(Debug, Drop)]
pub(crate) struct Outgoing {
    /// The bytes that are to be written next.
    pub text: TextBuffer,
    /// Whether a write failed.
    pub failed: bool,
}

impl Outgoing {
    ghost use Rattle.std.specs.Prelude.{◌≡◌, ℕ, ◌<◌, List, [], Option, length, true, false, OnOk, OnErr};
    ghost use Rattle.record_run.specs.Progress.{IsSent};

    /// Nothing is to be written.
    pub fn new(text: TextBuffer) -> Self
        ensures { result ≡ record { text = text; failed = false } }
    {
        Outgoing {
            text,
            failed: false,
        }
    }

    /// Writes the bytes where there are so many that it is time to.
    #[inline]
    pub fn send_if_full<K: Sink>(&mut self, sink: &mut K)
        ensures room { length self.new.text < 65536 }
        ensures sent { (start : Option (List ℕ)) (before : ℕ) (text : List ℕ)
            → IsSent self.old.failed start (K.held sink.old) before
            (K.faults sink.old) self.old.text text
            → IsSent self.new.failed start (K.held sink.new) before
            (K.faults sink.new) self.new.text text }
    {
        if self.text.is_full() {
            self.send(sink);
        }
    }

    // Writes the bytes, where no write failed.
    fn send<K: Sink>(&mut self, sink: &mut K)
        ensures text { self.new.text ≡ [] }
        ensures idle { self.old.text ≡ [] → sink.new ≡ sink.old }
        ensures sent { (start : Option (List ℕ)) (before : ℕ) (text : List ℕ)
            → IsSent self.old.failed start (K.held sink.old) before
            (K.faults sink.old) self.old.text text
            → IsSent self.new.failed start (K.held sink.new) before
            (K.faults sink.new) self.new.text text }
    {
        if !self.failed {
            self.failed = write_all(sink, self.text.as_slice()).is_err();
        }
        self.text.clear();
    }

    /// Writes the bytes, where there are some. `Err` where a write failed, now or before.
    pub fn flush<K: Sink>(&mut self, sink: &mut K) -> Result<(), Failed>
        ensures text { self.new.text ≡ [] }
        ensures idle { self.old.text ≡ [] → sink.new ≡ sink.old }
        ensures all { OnOk result (self.new.failed ≡ false) }
        ensures cut { OnErr result (self.new.failed ≡ true) }
        ensures sent { (start : Option (List ℕ)) (before : ℕ) (text : List ℕ)
            → IsSent self.old.failed start (K.held sink.old) before
            (K.faults sink.old) self.old.text text
            → IsSent self.new.failed start (K.held sink.new) before
            (K.faults sink.new) self.new.text text }
    {
        self.send(sink);
        if self.failed { Err(Failed) } else { Ok(()) }
    }
}
