ghost use Rattle.std.specs.Prelude.{◌≡◌, ℕ, List};
ghost use Rattle.vrt_words.specs.Words.{AreBytes};
ghost use Rattle.vrt_words.specs.Begins.{IsDatagram};
ghost use Rattle.vrt_header.specs.Profile.{PacketProfile};
ghost use Rattle.command_codec.specs.declared.cancel.Cancel.{Cancel};
ghost use Rattle.command_codec.specs.declared.control.Control.{Control};
ghost use Rattle.command_codec.specs.Cancel.{IsCancel};
ghost use Rattle.command_codec.specs.Control.{IsControl};

/// A datagram is one command or one cancellation at most, and each of them has one datagram.
///
/// So decoding gives back the packet that encoding wrote, and encoding writes again the very bytes
/// from which decoding read it.
pub fn one_to_one()
    ensures one_control { (profile : PacketProfile) (a b : Control) (bytes : List ℕ)
        → IsDatagram (IsControl profile) a bytes → IsDatagram (IsControl profile) b bytes → a ≡ b }
    ensures one_control_datagram { (profile : PacketProfile) (packet : Control) (a b : List ℕ)
        → AreBytes a → AreBytes b
        → IsDatagram (IsControl profile) packet a → IsDatagram (IsControl profile) packet b
        → a ≡ b }
    ensures one_cancel { (profile : PacketProfile) (a b : Cancel) (bytes : List ℕ)
        → IsDatagram (IsCancel profile) a bytes → IsDatagram (IsCancel profile) b bytes → a ≡ b }
    ensures one_cancel_datagram { (profile : PacketProfile) (packet : Cancel) (a b : List ℕ)
        → AreBytes a → AreBytes b
        → IsDatagram (IsCancel profile) packet a → IsDatagram (IsCancel profile) packet b → a ≡ b }
{}
