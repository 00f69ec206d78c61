ghost use Rattle.std.specs.Prelude.{◌≡◌, ℕ, ◌<◌, ◌≤◌, List, take, length, Option, IfOk, OnErr};
ghost use Rattle.std.specs.Io.KnownBytes.{Consumes, IsAtEnd, Keeps};
ghost use Rattle.difi_io.specs.Faults.{HasCause};

use crate::Failed;

/// Where bytes come from.
///
/// Its meanings are the bytes that it has left, told or not, and a count of its faults, which never
/// falls and stops at 2^64 - 1.
pub trait Source {
    ghost left: { Self → Option (List ℕ) };

    ghost faults: { Self → ℕ };

    /// Puts the next bytes into the front of `into`, and tells how many: 0 only at the end.
    ///
    /// `Failed` comes only where the count of faults rose in this call or stands at its last value.
    /// The bytes left are then as before. An `Ok` leaves the count.
    fn read(&mut self, into: &mut [u8]) -> Result<usize, Failed>
        requires { 0 < length into.old }
        ensures bound { IfOk result (λ n. n ≤ length into.new) }
        ensures bytes { IfOk result (λ n.
            Consumes (left self.old) (left self.new) (take n into.new)) }
        ensures end { IfOk result (λ n. n ≡ 0 → IsAtEnd (left self.new)) }
        ensures err { OnErr result (Keeps (left self.old) (left self.new)) }
        ensures cause { HasCause (faults self.old) (faults self.new) result };
}

impl<S: Source> Source for &mut S {
    ghost left = { λ source. S.left source.now };

    ghost faults = { λ source. S.faults source.now };

    fn read(&mut self, into: &mut [u8]) -> Result<usize, Failed> {
        Source::read(&mut **self, into)
    }
}
