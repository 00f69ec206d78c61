ghost use Rattle.std.specs.Prelude.{◌≡◌, ◌<◌, ◌≤◌, take, drop, length, min, Some, IsOk, IfOk, OnErr};
ghost use Rattle.std.specs.Io.KnownBytes.{Consumes, IsAtEnd, Keeps};
ghost use Rattle.difi_io.specs.Faults.{HasCause};

use crate::{Failed, Source};
use std::marker::Model;

/// A source over bytes in memory that never fails. It tells its bytes.
#[derive(Debug, Drop)]
pub struct SureSource {
    bytes: Vec<u8>,
    given: usize,
    piece: usize,
}

impl Model for SureSource {
    ghost use Rattle.std.specs.Prelude.{◌≤◌, drop, vec_len};
    ghost use Rattle.difi_io.specs.Supply.{Supply};

    ghost Value = { Supply };

    ghost view = { λ s. record { left = drop s.given s.bytes.items; piece = s.piece } };

    ghost invariant = { λ s. (s.given ≤ vec_len s.bytes) × (1 ≤ s.piece) };
}

impl SureSource {
    /// A source of these bytes, of which a read gives at most `piece`.
    pub fn new(bytes: Vec<u8>, piece: usize) -> Self
        requires { 1 ≤ piece }
        ensures { result ≡ record { left = bytes.items; piece = piece } }
    {
        SureSource {
            bytes,
            given: 0,
            piece,
        }
    }
}

impl Source for SureSource {
    ghost left = { λ source. Some source.left };

    ghost faults = { λ _. 0 };

    /// Puts the next bytes into the front of `into`, as many as the piece, `into` and what is left
    /// allow, and tells how many.
    fn read(&mut self, into: &mut [u8]) -> Result<usize, Failed>
        requires { 0 < length into.old }
        ensures bound { IfOk result (λ n. n ≤ length into.new) }
        ensures bytes { IfOk result (λ n.
            Consumes (Some self.old.left) (Some self.new.left) (take n into.new)) }
        ensures end { IfOk result (λ n. n ≡ 0 → IsAtEnd (Some self.new.left)) }
        ensures err { OnErr result (Keeps (Some self.old.left) (Some self.new.left)) }
        ensures cause { HasCause 0 0 result }

        // It always gives all that it can, and leaves the rest of `into` and the piece.
        ensures sure { IsOk result }
        ensures gives { IfOk result (λ n. n
            ≡ min self.old.piece (min (length into.old) (length self.old.left))) }
        ensures behind { IfOk result (λ n. drop n into.new ≡ drop n into.old) }
        ensures piece { self.new.piece ≡ self.old.piece }
    {
        let rest = &self.bytes[self.given..];
        let count = self.piece.min(into.len()).min(rest.len());
        into[..count].copy_from_slice(&rest[..count]);
        self.given += count;
        Ok(count)
    }
}
