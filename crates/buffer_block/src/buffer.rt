ghost use Rattle.std.specs.Prelude.{◌≡◌, ◌≤◌, length, replicate, IfOk};
ghost use Rattle.buffer_block.specs.Buffers.{fresh};

use crate::block::{Block, Places};
use crate::tether::{Tether, house, row, vacate};
use std::alloc::{AllocError, Global};
use std::marker::Model;
use std::sync::Arc;
use std::{fmt, mem};
use std_alloc::vec::Lodged;

/// A buffer of bytes with a fixed room, which lies in a block that it shares with others.
pub struct BlockBuf {
    bytes: Vec<u8, Lodged>,
    owner: Tether,
}

impl Model for BlockBuf {
    ghost use Rattle.std.specs.Prelude.{◌≡◌};
    ghost use Rattle.std.specs.Vec.{vec_capacity, vec_ptr};
    ghost use Rattle.buffer_block.specs.Buffers.{Buffer};

    ghost Value = { Buffer };

    ghost view = { λ b. record { room = vec_capacity b.bytes; bytes = b.bytes.items } };

    ghost invariant = { λ b. (b.owner.ptr ≡ vec_ptr b.bytes) × (b.owner.len ≡ vec_capacity b.bytes) };
}

impl BlockBuf {
    /// As many buffers as `number`, each with room for `room` bytes and none there yet.
    ///
    /// They lie in one block, which goes with the last of them.
    ///
    /// # Errors
    ///
    /// Where there is no memory for them. Then none is left open.
    pub fn open_many(alloc: Global, room: usize, number: usize) -> Result<Vec<BlockBuf>, AllocError>
        ensures { IfOk result (λ bufs. bufs.items ≡ replicate number (fresh room)) }
    {
        let Some(size) = room.checked_mul(number) else {
            return Err(AllocError);
        };
        let mut bufs = Vec::with_capacity(alloc, number)?;
        let mut memory: Vec<u8> = Vec::with_capacity(alloc, size)?;
        let mut ptr = memory.as_mut_ptr();
        let (block, mut places) = Block::lend(memory, room, number);
        let Ok(block) = Arc::new(alloc, block) else {
            return Err(AllocError);
        };
        let mut i = 0;
        while i < number {
            let owner = Arc::try_clone(&block)?;
            let (place, rest) = places.cut();
            bufs.push_reserved(BlockBuf::over(owner, place, ptr, room));
            ptr = unsafe { ptr.byte_add(room) };
            places = rest;
            i += 1;
        }
        Ok(bufs)
    }

    // An empty buffer over the place at `ptr`.
    fn over(owner: Arc<Block>, place: Places, ptr: *mut u8, room: usize) -> BlockBuf
        requires { (place.life ≡ owner.value.life) × (place.left ≡ 1) × (place.ptr ≡ ptr)
            × (place.room ≡ room) }
        ensures { result ≡ fresh room }
    {
        let (free, owner) = Tether::open(owner, place);
        let bytes = house(row(ptr, room, free), 0);
        BlockBuf { bytes, owner }
    }

    /// The most bytes that it can hold.
    #[inline]
    pub fn room(&self) -> usize
        ensures { result ≡ self.now.room }
    {
        self.bytes.capacity()
    }

    /// Puts these bytes in the place of those there. It keeps its room.
    pub fn fill(&mut self, bytes: &[u8])
        requires { length bytes.now ≤ self.old.room }
        ensures { self.new ≡ record self.old { bytes = bytes.now } }
    {
        let room = self.room();
        let ptr = self.bytes.as_mut_ptr();
        let held = mem::replace(&mut self.bytes, Vec::new(Lodged));
        let mut places = row(ptr, room, vacate(held));
        places.copy_in(0, bytes);
        self.bytes = house(places, bytes.len());
    }

    /// The bytes there.
    #[inline]
    pub fn bytes(&self) -> &[u8]
        ensures bytes { result.now ≡ self.now.bytes }
        ensures within { length result.now ≤ self.now.room }
    {
        self.bytes.as_slice()
    }
}

impl fmt::Debug for BlockBuf {
    fn fmt<W: fmt::Write>(&self, f: &mut fmt::Formatter<W>) -> fmt::Result {
        f.debug_struct("BlockBuf")
            .field("room", &self.room())
            .field("bytes", &self.bytes())
            .finish()
    }
}

impl Drop for BlockBuf {
    fn drop(self) {
        let BlockBuf { bytes, owner } = self;
        drop(owner.close(vacate(bytes)));
    }
}
