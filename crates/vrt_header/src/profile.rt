ghost use Rattle.std.specs.Prelude.{◌≡◌, ◌<◌, ◌≤◌, ◌^◌, ◌↔◌, IsSome, IfSome};
ghost use Rattle.vrt_header.specs.Profile.{IsProfile, profile_of};

use std::marker::Model;

/// What the packets of one record have in common: the class identifier (an organizationally unique
/// identifier, 24 bits) and the code of the integer timestamp (1 UTC, 2 GPS, 3 other).
#[derive(Clone, Copy, Debug, PartialEq, Eq)]
pub struct Profile {
    cid: u32,
    tsi: u8,
}

impl Model for Profile {
    ghost use Rattle.vrt_header.specs.Profile.{PacketProfile, IsProfile, profile_of};

    ghost Value = { PacketProfile };

    ghost view = { λ profile. profile_of profile.cid profile.tsi };

    ghost invariant = { λ profile. IsProfile (profile_of profile.cid profile.tsi) };

    ghost inverse = { λ profile. record { cid = profile.cid; tsi = profile.tsi } };
}

impl Profile {
    /// The profile of these two numbers. `None` exactly where the class identifier has more than 24
    /// bits or the code is none of 1, 2 and 3.
    pub fn of(cid: u32, tsi: u8) -> Option<Profile>
        ensures allowed { IsSome result ↔ IsProfile (profile_of cid tsi) }
        ensures profile { IfSome result (λ profile. profile ≡ profile_of cid tsi) }
    {
        if cid < 1 << 24 && 1 <= tsi && tsi <= 3 {
            Some(Profile { cid, tsi })
        } else {
            None
        }
    }

    /// The class identifier, below 2^24.
    #[inline]
    pub fn cid(&self) -> u32
        ensures number { result ≡ self.now.cid }
        ensures within { IsProfile self.now }
    {
        self.cid
    }

    /// The code of the integer timestamp, 1, 2 or 3.
    #[inline]
    pub fn tsi(&self) -> u8
        ensures number { result ≡ self.now.tsi }
        ensures within { IsProfile self.now }
    {
        self.tsi
    }
}
