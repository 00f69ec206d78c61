ghost use Rattle.std.specs.Prelude.{◌≡◌, ◌↔◌, ℕ, IsTrue};
ghost use Rattle.std.specs.Ordering.{nat_cmp};
ghost use Rattle.vrt_time.specs.Time.{TimeStamp, IsStamp, moment_of};

use crate::moment::Moment;
use crate::stamp::Stamp;

/// A law that a proof can cite: stamps compare as their moments do, `==` says whether their moments
/// are equal, and stamps of one moment are the same.
#[inline]
pub fn stamps_compare_as_moments()
    ensures order { (a b : TimeStamp) → IsStamp a → IsStamp b
        → ⟦<Stamp as Ord>⟧.cmp a b ≡ nat_cmp (moment_of a) (moment_of b) }
    ensures equal { (a b : TimeStamp) → IsStamp a → IsStamp b
        → IsTrue (⟦<Stamp as PartialEq>⟧.eq a b) ↔ (moment_of a ≡ moment_of b) }
    ensures same { (a b : TimeStamp) → IsStamp a → IsStamp b → moment_of a ≡ moment_of b → a ≡ b }
{}

/// A law that a proof can cite: moments compare as their numbers of picoseconds do, and `==` says
/// whether these are equal.
#[inline]
pub fn moments_compare_as_numbers()
    ensures order { (a b : ℕ) → ⟦<Moment as Ord>⟧.cmp a b ≡ nat_cmp a b }
    ensures equal { (a b : ℕ) → IsTrue (⟦<Moment as PartialEq>⟧.eq a b) ↔ (a ≡ b) }
{}
