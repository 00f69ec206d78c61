ghost use Rattle.std.specs.Prelude.{◌≡◌, ℕ, List};
ghost use Rattle.vrt_words.specs.Words.{AreBytes};
ghost use Rattle.vrt_words.specs.Begins.{IsDatagram};
ghost use Rattle.vrt_header.specs.Profile.{PacketProfile};
ghost use Rattle.difi_packet.specs.Packet.{PacketValue, IsPacket};

/// A datagram is one packet at most, and a packet has one datagram.
///
/// So `decode` gives back the packet that `encode` wrote, and `encode` writes again the very bytes
/// from which `decode` read it.
pub fn one_to_one()
    ensures one_packet { (profile : PacketProfile) (a b : PacketValue) (bytes : List ℕ)
        → IsDatagram (IsPacket profile) a bytes → IsDatagram (IsPacket profile) b bytes → a ≡ b }
    ensures one_datagram { (profile : PacketProfile) (value : PacketValue) (a b : List ℕ)
        → AreBytes a → AreBytes b
        → IsDatagram (IsPacket profile) value a → IsDatagram (IsPacket profile) value b → a ≡ b }
{}
