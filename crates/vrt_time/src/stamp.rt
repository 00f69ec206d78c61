ghost use Rattle.std.specs.Prelude.{◌≡◌, ◌<◌, ◌^◌, ◌↔◌, slice_index, IsSome, IfSome};
ghost use Rattle.vrt_time.specs.Time.{stamp_of, fraction_of, parts_of, moment_of, IsStamp};

use crate::moment::Moment;
use std::marker::Model;

/// The number of picoseconds in a second. The fraction of a stamp is below it.
const PICOS_PER_SECOND: u64 = 1_000_000_000_000;

/// A time stamp of ANSI/VITA 49.2: whole seconds since the epoch, and a real-time fraction in
/// picoseconds, which is below one second.
///
/// Stamps are in the order of their moments.
#[derive(Clone, Copy, Debug, PartialEq, Eq, PartialOrd, Ord, Hash)]
pub struct Stamp {
    seconds: u32,
    picos: u64,
}

impl Model for Stamp {
    ghost use Rattle.vrt_time.specs.Time.{TimeStamp, IsStamp};

    ghost Value = { TimeStamp };

    ghost view = { λ stamp. record { seconds = stamp.seconds; picos = stamp.picos } };

    ghost invariant = { λ stamp. IsStamp (record { seconds = stamp.seconds; picos = stamp.picos }) };

    ghost inverse = { λ stamp. record { seconds = stamp.seconds; picos = stamp.picos } };
}

impl Stamp {
    /// The stamp with these seconds and the fraction that stands in two words of a packet, the high
    /// one first. `None` exactly where the fraction is a whole second or more.
    #[inline]
    pub fn of_parts(seconds: u32, high: u32, low: u32) -> Option<Stamp>
        ensures fraction { IsSome result ↔ (fraction_of high low < 10 ^ 12) }
        ensures stamp { IfSome result (λ stamp. stamp ≡ stamp_of seconds (fraction_of high low)) }
    {
        Stamp::of_picos(seconds, (u64::from(high) << 32) | u64::from(low))
    }

    /// The stamp with these seconds and picoseconds. `None` exactly where the picoseconds are a
    /// whole second or more.
    #[inline]
    pub fn of_picos(seconds: u32, picos: u64) -> Option<Stamp>
        ensures fraction { IsSome result ↔ (picos < 10 ^ 12) }
        ensures stamp { IfSome result (λ stamp. stamp ≡ stamp_of seconds picos) }
    {
        if picos < PICOS_PER_SECOND {
            Some(Stamp { seconds, picos })
        } else {
            None
        }
    }

    /// The three words in which packets carry it: the seconds, and the high and the low word of the
    /// fraction. `of_parts` makes the stamp of them again.
    #[inline]
    pub fn parts(&self) -> [u32; 3]
        ensures words { result ≡ parts_of self.now }
        ensures again { stamp_of (slice_index result 0)
            (fraction_of (slice_index result 1) (slice_index result 2))
            ≡ self.now }
        ensures within { IsStamp self.now }
    {
        [
            self.seconds,
            (self.picos >> 32) as u32,
            (self.picos % (1 << 32)) as u32,
        ]
    }

    /// Whole seconds since the epoch.
    #[inline]
    pub fn seconds(&self) -> u32
        ensures number { result ≡ self.now.seconds }
        ensures within { IsStamp self.now }
    {
        self.seconds
    }

    /// Picoseconds after the whole second.
    #[inline]
    pub fn picos(&self) -> u64
        ensures number { result ≡ self.now.picos }
        ensures within { IsStamp self.now }
    {
        self.picos
    }

    /// The moment of the stamp.
    #[inline]
    pub fn moment(&self) -> Moment
        ensures number { result ≡ moment_of self.now }
        ensures within { IsStamp self.now }
    {
        Moment::of(u128::from(self.seconds) * u128::from(PICOS_PER_SECOND) + u128::from(self.picos))
    }
}
