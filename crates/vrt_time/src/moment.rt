ghost use Rattle.std.specs.Prelude.{◌≡◌, ◌<◌, ◌^◌};

use std::marker::Model;

/// A point of time: the number of picoseconds since the epoch of the time scale in use.
#[derive(Clone, Copy, Debug, PartialEq, Eq, PartialOrd, Ord, Hash)]
pub struct Moment {
    picos: u128,
}

impl Model for Moment {
    ghost use Rattle.std.specs.Prelude.{ℕ, ◌<◌, ◌^◌};

    ghost Value = { ℕ };

    ghost view = { λ moment. moment.picos };

    ghost invariant = { λ moment. moment.picos < 2 ^ 128 };

    ghost inverse = { λ picos. record { picos = picos } };
}

impl Moment {
    /// The moment of this number of picoseconds.
    #[inline]
    pub fn of(picos: u128) -> Moment
        ensures { result ≡ picos }
    {
        Moment { picos }
    }

    /// Picoseconds since the epoch.
    #[inline]
    pub fn picos(&self) -> u128
        ensures number { result ≡ self.now }
        ensures fits { self.now < 2 ^ 128 }
    {
        self.picos
    }
}
