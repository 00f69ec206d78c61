ghost use Rattle.std.specs.Prelude.{◌≡◌, ◌↔◌, Bool, bytes_eq, IsTrue};
ghost use Rattle.reorder_window.specs.SameContext.{IsSameContext};

use difi_context::ContextRec;
use vrt_words::PacketBuf;

/// What a window can hold: packets that it can tell from a repeat.
pub trait HeldItem {
    ghost is_same: { Self → Self → Bool };

    /// Whether the two are the same packet.
    fn same(&self, other: &Self) -> bool
        ensures { result ≡ is_same self.now other.now };
}

/// Two packets are the same where their bytes are.
impl HeldItem for PacketBuf {
    ghost is_same = { λ a b. bytes_eq a.bytes b.bytes };

    fn same(&self, other: &Self) -> bool
        ensures test { result ≡ bytes_eq self.now.bytes other.now.bytes }
        ensures equal { IsTrue result ↔ (self.now.bytes ≡ other.now.bytes) }
    {
        self.bytes() == other.bytes()
    }
}

/// Two contexts are the same where their prologue, change indicator and fields are.
impl HeldItem for ContextRec {
    ghost is_same = { ⟦<ContextRec as PartialEq>⟧.eq };

    fn same(&self, other: &Self) -> bool
        ensures test { result ≡ ⟦<ContextRec as PartialEq>⟧.eq self.now other.now }
        ensures equal { IsTrue result ↔ IsSameContext self.now other.now }
    {
        self == other
    }
}
