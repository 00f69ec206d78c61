// A block that is lent place by place, and the loans of its places, which are ghost state alone.
ghost use Rattle.std.specs.Prelude.{◌≡◌, ℕ, ◌+◌, ◌*◌, ◌^◌, ◌<◌, [], ◌∷◌};
ghost use Rattle.std.specs.Vec.{vec_len, vec_capacity, vec_ptr};
ghost use base.Fml.{ftrue, fex, fwand, flft};
ghost use denote.RawPtr.{Ptr, InBlock, ◌+ₚ◌};
ghost use denote.Sharing.{one};
ghost use Rattle.bytes.specs.Ownership.{Extent, extent_code, IsPlaced};
ghost use Rattle.buffer_block.specs.Ownership.{room_owns, borrowed, block_owns};

use std::marker::{Model, Move, Owns};

// A `Vec` without its room: whoever brings the room gets the `Vec` for it.
pub(crate) struct Sole {
    vec: Vec<u8>,
}

impl Owns for Sole {
    ghost Value = { Extent };

    ghost coded = { extent_code };

    ghost shr_at = { λ _ _ _. ftrue };
}

impl Move for Sole {
    ghost own_val = { λ e vs. fex Inside (λ v. fwand (room_owns e.ptr e.len) (Fields.own_val v vs)) };
}

// Such a `Vec`, whose room is lent in `number` places of `room` bytes for the lifetime `life`. It
// holds the right to end `life`, so `life` lasts while a `&` to it is there.
pub(crate) struct Block {
    sole: Sole,
    ghost life: { ℕ },
    ghost room: { ℕ },
    ghost number: { ℕ },
    ghost whole: { sole.len ≡ number * room },
    ghost small: { sole.len < 2 ^ 63 },
    ghost placed: { IsPlaced sole.ptr },
}

impl Model for Block {
    ghost also_owns = { λ b. block_owns b.life b.room b.number b.sole.ptr };

    ghost also_shares = { λ b _. one (λ q. flft (b.life ∷ []) q) };
}

// The loans of `left` places from `ptr` on, each of `room` bytes.
#[derive(Drop)]
pub(crate) struct Places {
    ghost life: { ℕ },
    ghost room: { ℕ },
    ghost left: { ℕ },
    ghost ptr: { Ptr },
}

impl Model for Places {
    ghost also_owns = { λ p. borrowed p.life p.room p.left p.ptr };
}

// Through a `&` nothing of it is reached.
unsafe impl Send for Sole {}

unsafe impl Sync for Sole {}

// A `&` to it tells that `life` lasts, and no more.
unsafe impl Send for Block {}

unsafe impl Sync for Block {}

impl Block {
    // Lends the room of an empty `Vec`.
    pub(crate) fn lend(vec: Vec<u8>, _room: usize, _number: usize) -> (Block, Places)
        requires { (vec_len vec ≡ 0) × (vec_capacity vec ≡ _number * _room) }
        ensures { (result.1.life ≡ result.0.life) × (result.1.room ≡ _room)
            × (result.1.left ≡ _number) × (result.1.ptr ≡ vec_ptr vec) × InBlock (vec_ptr vec) }
    {
        (Block { sole: Sole { vec } }, Places {})
    }

    // Ends the loan of all places, which no one holds any more, and puts the room back.
    fn regain(self) -> Vec<u8> {
        let Block { sole } = self;
        let Sole { vec } = sole;
        vec
    }
}

impl Drop for Block {
    fn drop(self) {
        drop(self.regain());
    }
}

impl Places {
    // The first place, and those after it.
    pub(crate) fn cut(self) -> (Places, Places)
        requires { 0 < self.left }
        ensures { (result.0.life ≡ self.life) × (result.0.room ≡ self.room)
            × (result.0.left ≡ 1) × (result.0.ptr ≡ self.ptr) × (result.1.life ≡ self.life)
            × (result.1.room ≡ self.room) × (result.1.left + 1 ≡ self.left)
            × (result.1.ptr ≡ self.ptr +ₚ self.room) }
    {
        let Places {} = self;
        (Places {}, Places {})
    }
}
