ghost use Rattle.std.specs.Prelude.{◌≡◌, ℕ, List};
ghost use Rattle.vrt_words.specs.Words.{AreBytes};
ghost use Rattle.vrt_words.specs.Begins.{IsDatagram};
ghost use Rattle.vrt_header.specs.Profile.{PacketProfile};
ghost use Rattle.difi_version.specs.declared.version.VersionRec.{VersionRec};
ghost use Rattle.difi_version.specs.Version.{IsVersion};

/// A datagram is one version packet at most, and a version packet has one datagram.
///
/// So `decode` gives back the packet that `encode` wrote, and `encode` writes again the very bytes
/// from which `decode` read it.
pub fn one_to_one()
    ensures one_packet { (profile : PacketProfile) (a b : VersionRec) (bytes : List ℕ)
        → IsDatagram (IsVersion profile) a bytes → IsDatagram (IsVersion profile) b bytes → a ≡ b }
    ensures one_datagram { (profile : PacketProfile) (rec : VersionRec) (a b : List ℕ)
        → AreBytes a → AreBytes b
        → IsDatagram (IsVersion profile) rec a → IsDatagram (IsVersion profile) rec b → a ≡ b }
{}
