ghost use Rattle.std.specs.Prelude.{◌≡◌};

use std::alloc::{AllocError, AllocFailed};

/// The place at which a datagram is refused: an index of its 32-bit words, from 0.
#[derive(Clone, Copy, Debug, PartialEq, Eq)]
pub struct Place {
    pub word: u32,
}

/// There was no memory for what a call asked. It is the one answer that comes for no other cause.
#[derive(Clone, Copy, Debug, PartialEq, Eq)]
pub struct NoMemory;
