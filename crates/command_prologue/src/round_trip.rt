ghost use Rattle.std.specs.Prelude.{◌≡◌, ℕ, List};
ghost use Rattle.vrt_words.specs.Words.{AreWords};
ghost use Rattle.vrt_header.specs.Profile.{PacketProfile};
ghost use Rattle.cam_field.specs.declared.modes.Role.{Role};
ghost use Rattle.command_prologue.specs.CommandPrologue.{IsCommandPrologue};
ghost use Rattle.command_prologue.specs.declared.prologue.CommandPrologue.{CommandPrologue};

/// Words are one prologue of the role at most, and a prologue has one list of words.
pub fn one_to_one()
    ensures one_prologue { (profile : PacketProfile) (role : Role) (a b : CommandPrologue)
        (words : List ℕ)
        → IsCommandPrologue profile role a words → IsCommandPrologue profile role b words → a ≡ b }
    ensures one_spelling { (profile : PacketProfile) (role : Role) (front : CommandPrologue)
        (a b : List ℕ)
        → AreWords a → AreWords b
        → IsCommandPrologue profile role front a → IsCommandPrologue profile role front b → a ≡ b }
{}
