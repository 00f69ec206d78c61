ghost use Rattle.std.specs.Prelude.{◌≡◌, ℕ, List};
ghost use Rattle.vrt_words.specs.Words.{AreBytes};
ghost use Rattle.vrt_words.specs.Begins.{IsDatagram};
ghost use Rattle.vrt_header.specs.Profile.{PacketProfile};
ghost use Rattle.difi_data.specs.Data.{DataPacket, IsData};

/// A datagram is one data packet at most, and a data packet has one datagram.
///
/// So `decode` gives back the packet that `encode` wrote, and `encode` writes again the very bytes
/// from which `decode` read it.
pub fn one_to_one()
    ensures one_packet { (profile : PacketProfile) (a b : DataPacket) (bytes : List ℕ)
        → IsDatagram (IsData profile) a bytes → IsDatagram (IsData profile) b bytes → a ≡ b }
    ensures one_datagram { (profile : PacketProfile) (packet : DataPacket) (a b : List ℕ)
        → AreBytes a → AreBytes b
        → IsDatagram (IsData profile) packet a → IsDatagram (IsData profile) packet b → a ≡ b }
{}
