// An owner of a block who has a place out, and the `Vec` that lies in the place.
ghost use Rattle.std.specs.Prelude.{◌≡◌, ℕ, ◌≤◌, take};
ghost use Rattle.std.specs.Vec.{vec_capacity, vec_ptr};
ghost use Rattle.std.specs.Mem.Slots.{slots_ptr, slots_len, slots_items, slots_filled};
ghost use Rattle.std.specs.Mem.Slots.Ownership.{Filled};
ghost use base.Fml.{ftrue};
ghost use denote.RawPtr.{Ptr};
ghost use Rattle.bytes.specs.Ownership.{Extent, extent_code};
ghost use Rattle.buffer_block.specs.Ownership.{room_owns, tether_owns};

use crate::block::{Block, Places};
use core::slots::Slots;
use std::marker::{Model, Move, Owns};
use std::sync::Arc;
use std_alloc::vec::{Lodged, lodge};

// Room for `len` bytes at `ptr`, for its holder alone.
#[derive(Drop)]
pub(crate) struct Room {
    ghost ptr: { Ptr },
    ghost len: { ℕ },
}

impl Model for Room {
    ghost also_owns = { λ r. room_owns r.ptr r.len };
}

// An owner of a block while its place, `len` bytes at `ptr`, is out as a `Room`. It is an owner
// again once the `Room` is back, so the block stays until then.
pub(crate) struct Tether {
    block: Arc<Block>,
}

impl Owns for Tether {
    ghost Value = { Extent };

    ghost coded = { extent_code };

    ghost shr_at = { λ _ _ _. ftrue };
}

impl Move for Tether {
    ghost own_val = { λ t vs. tether_owns t Inside (λ i. i.block.value.life) (λ i. Fields.own_val i vs) };
}

// Through a `&` nothing of it is reached.
unsafe impl Send for Tether {}

unsafe impl Sync for Tether {}

impl Tether {
    // Takes the place out, and with it a share of the right to the block.
    pub(crate) fn open(block: Arc<Block>, place: Places) -> (Room, Tether)
        requires { (place.life ≡ block.value.life) × (place.left ≡ 1) }
        ensures { (result.0.ptr ≡ place.ptr) × (result.0.len ≡ place.room)
            × (result.1.ptr ≡ place.ptr) × (result.1.len ≡ place.room) }
    {
        let Places {} = place;
        (Room {}, Tether { block })
    }

    // Puts the place back, whatever lies there.
    pub(crate) fn close(self, room: Room) -> Arc<Block>
        requires { (room.ptr ≡ self.ptr) × (room.len ≡ self.len) }
    {
        let Room {} = room;
        let Tether { block } = self;
        block
    }
}

// The room as places, each empty.
pub(crate) fn row(ptr: *mut u8, len: usize, room: Room) -> Slots<u8>
    requires { (room.ptr ≡ ptr) × (room.len ≡ len) }
    ensures { (slots_ptr result ≡ ptr) × (slots_len result ≡ len) }
{
    let Room {} = room;
    unsafe { Slots::from_raw_parts(ptr, len) }
}

// A `Vec` of the first `len` places, which neither grows nor frees them.
pub(crate) fn house(row: Slots<u8>, len: usize) -> Vec<u8, Lodged>
    requires { (len ≤ slots_len row) × Filled (slots_filled row) 0 len }
    ensures { (result.items ≡ take len (slots_items row)) × (vec_capacity result ≡ slots_len row)
        × (vec_ptr result ≡ slots_ptr row) }
{
    let (ptr, cap) = unsafe { row.into_raw_parts() };
    unsafe { lodge(ptr, len, cap) }
}

// Lets the bytes go.
pub(crate) fn vacate(vec: Vec<u8, Lodged>) -> Room
    ensures { (result.ptr ≡ vec_ptr vec) × (result.len ≡ vec_capacity vec) }
{
    let _len = vec.dislodge();
    Room {}
}
