ghost use Rattle.std.specs.Prelude.{◌≡◌, ℕ, List};
ghost use Rattle.vrt_words.specs.Words.{AreWords};
ghost use Rattle.vrt_header.specs.Profile.{PacketProfile};
ghost use Rattle.vrt_header.specs.Prologue.{IsPrologue};
ghost use Rattle.vrt_header.specs.declared.prologue.Prologue.{Prologue};

/// Words are one prologue at most, and a prologue has one list of words.
///
/// So `read_prologue` gives back the prologue that `write_prologue` wrote, and `write_prologue`
/// writes again the very words from which `read_prologue` read it.
pub fn one_to_one()
    ensures one_prologue { (profile : PacketProfile) (a b : Prologue) (words : List ℕ)
        → IsPrologue profile a words → IsPrologue profile b words → a ≡ b }
    ensures one_spelling { (profile : PacketProfile) (prologue : Prologue) (a b : List ℕ)
        → AreWords a → AreWords b
        → IsPrologue profile prologue a → IsPrologue profile prologue b → a ≡ b }
{}
