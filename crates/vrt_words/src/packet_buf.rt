ghost use Rattle.std.specs.Prelude.{◌≡◌, ◌*◌, ◌≤◌, length, replicate, vec_capacity, IfOk};
ghost use Rattle.vrt_words.specs.Buffer.{fresh};

use crate::place::NoMemory;
use buffer_block::BlockBuf;
use std::alloc::Global;
use std::fmt;
use std::marker::Model;

/// A buffer for the bytes of one packet. It takes its memory once, at opening.
#[derive(Drop)]
pub struct PacketBuf {
    buf: BlockBuf,
}

impl Model for PacketBuf {
    ghost use Rattle.vrt_words.specs.Buffer.{Buffer};

    ghost Value = { Buffer };

    ghost view = { λ b. b.buf };
}

impl PacketBuf {
    /// An empty buffer with room for a packet of `max_words` words of 32 bits.
    ///
    /// # Errors
    ///
    /// Where there is no memory for it.
    pub fn open(alloc: Global, max_words: u32) -> Result<PacketBuf, NoMemory>
        requires { max_words ≤ 16376 }
        ensures { IfOk result (λ buf. buf ≡ fresh (4 * max_words)) }
    {
        let mut opened = PacketBuf::open_many(alloc, max_words, 1)?;
        match opened.pop() {
            Some(buf) => Ok(buf),
            None => unreachable!(),
        }
    }

    /// As many empty buffers as `number`, each with room for a packet of `max_words` words of
    /// 32 bits. They are apart from one another, and their memory is taken at once.
    ///
    /// # Errors
    ///
    /// Where there is no memory for them all. Then none is left open.
    pub fn open_many(
        alloc: Global,
        max_words: u32,
        number: usize,
    ) -> Result<Vec<PacketBuf>, NoMemory>
        requires { max_words ≤ 16376 }
        ensures buffers { IfOk result (λ bufs. bufs.items
            ≡ replicate number (fresh (4 * max_words))) }
        ensures room { IfOk result (λ bufs. number ≤ vec_capacity bufs) }
    {
        let Ok(mut opened) = BlockBuf::open_many(alloc, 4 * max_words as usize, number) else {
            return Err(NoMemory);
        };
        let Ok(mut bufs) = Vec::with_capacity(alloc, number) else {
            return Err(NoMemory);
        };
        for _ in 0..number {
            match opened.pop() {
                Some(buf) => bufs.push_reserved(PacketBuf { buf }),
                None => unreachable!(),
            }
        }
        Ok(bufs)
    }

    /// The most bytes that it can hold.
    #[inline]
    pub fn room(&self) -> usize
        ensures { result ≡ self.now.room }
    {
        self.buf.room()
    }

    /// Puts these bytes in the place of those there. It keeps its room.
    pub fn fill(&mut self, bytes: &[u8])
        requires { length bytes.now ≤ self.old.room }
        ensures { self.new ≡ record self.old { bytes = bytes.now } }
    {
        self.buf.fill(bytes);
    }

    /// The bytes there.
    #[inline]
    pub fn bytes(&self) -> &[u8]
        ensures bytes { result.now ≡ self.now.bytes }
        ensures within { length result.now ≤ self.now.room }
    {
        self.buf.bytes()
    }
}

impl fmt::Debug for PacketBuf {
    fn fmt<W: fmt::Write>(&self, f: &mut fmt::Formatter<W>) -> fmt::Result {
        f.debug_struct("PacketBuf")
            .field("room", &self.room())
            .field("bytes", &self.bytes())
            .finish()
    }
}
