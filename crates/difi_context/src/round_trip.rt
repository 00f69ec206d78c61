ghost use Rattle.std.specs.Prelude.{◌≡◌, ℕ, List};
ghost use Rattle.vrt_words.specs.Words.{AreBytes};
ghost use Rattle.vrt_words.specs.Begins.{IsDatagram};
ghost use Rattle.vrt_header.specs.Profile.{PacketProfile};
ghost use Rattle.difi_context.specs.declared.context.ContextRec.{ContextRec};
ghost use Rattle.difi_context.specs.Context.{IsContext};

/// A datagram is one context packet at most, and a context packet has one datagram.
///
/// So `decode` gives back the context that `encode` wrote, and `encode` writes again the very bytes
/// from which `decode` read it.
pub fn one_to_one()
    ensures one_packet { (profile : PacketProfile) (a b : ContextRec) (bytes : List ℕ)
        → IsDatagram (IsContext profile) a bytes → IsDatagram (IsContext profile) b bytes → a ≡ b }
    ensures one_datagram { (profile : PacketProfile) (rec : ContextRec) (a b : List ℕ)
        → AreBytes a → AreBytes b
        → IsDatagram (IsContext profile) rec a → IsDatagram (IsContext profile) rec b → a ≡ b }
{}
