ghost use Rattle.std.specs.Prelude.{◌≡◌, ◌<◌, ◌^◌, ℕ};
ghost use Rattle.cam_field.specs.Cam.{IsSpelled};
ghost use Rattle.cam_field.specs.declared.cam.Cam.{Cam};

/// A word spells one CAM at most, and a CAM is spelled by one word.
///
/// So `Cam::read` gives back the CAM that `write` wrote, and `write` gives the word that was read.
pub fn one_to_one()
    ensures one_cam { (a b : Cam) (word : ℕ) → IsSpelled a word → IsSpelled b word → a ≡ b }
    ensures one_word { (cam : Cam) (a b : ℕ) → a < 2 ^ 32 → b < 2 ^ 32 → IsSpelled cam a
        → IsSpelled cam b → a ≡ b }
{}
