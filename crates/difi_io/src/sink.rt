ghost use Rattle.std.specs.Prelude.{◌≡◌, ℕ, ◌<◌, ◌≤◌, List, take, length, Option, IfOk, OnErr};
ghost use Rattle.std.specs.Io.KnownBytes.{Appends, Keeps};
ghost use Rattle.difi_io.specs.Faults.{HasCause};

use crate::Failed;

/// Where bytes go.
///
/// Its meanings are the bytes that it holds, told or not, and a count of its faults, which never
/// falls and stops at 2^64 - 1.
pub trait Sink {
    ghost held: { Self → Option (List ℕ) };

    ghost faults: { Self → ℕ };

    /// Takes bytes from the front of `from`, at least one, and tells how many.
    ///
    /// `Failed` comes only where the count of faults rose in this call or stands at its last value.
    /// The bytes held, where they are told, are then as before. An `Ok` leaves the count.
    fn write(&mut self, from: &[u8]) -> Result<usize, Failed>
        requires { 0 < length from.now }
        ensures some { IfOk result (λ n. 1 ≤ n) }
        ensures bound { IfOk result (λ n. n ≤ length from.now) }
        ensures bytes { IfOk result (λ n.
            Appends (held self.old) (held self.new) (take n from.now)) }
        ensures err { OnErr result (Keeps (held self.old) (held self.new)) }
        ensures cause { HasCause (faults self.old) (faults self.new) result };
}

impl<K: Sink> Sink for &mut K {
    ghost held = { λ sink. K.held sink.now };

    ghost faults = { λ sink. K.faults sink.now };

    fn write(&mut self, from: &[u8]) -> Result<usize, Failed> {
        Sink::write(&mut **self, from)
    }
}
