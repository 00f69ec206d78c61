ghost use Rattle.std.specs.Prelude.{◌≡◌, ◌≤◌, ◌<◌, ◌+◌, ◌++◌, [], length, codes, true, false, IfOk};
ghost use Rattle.std.specs.Fmt.{decimal};
ghost use Rattle.record_run.specs.Trial.{Trial, owed_line, trial_tells};

use crate::{Intake, Teller};
use std::alloc::Global;
use text_buffer::TextBuffer;
use vrt_words::NoMemory;

/// Tells the number of each frame, and at the end how many there were.
///
/// A frame has a second line, which is owed when the first one was put. So is the last line when
/// the end came.
#[derive(Debug, Drop)]
pub(crate) struct TrialTeller {
    /// How many frames were told of.
    pub told: u64,
    /// Whether a line is owed.
    pub owes: bool,
    /// Whether the end came.
    pub ended: bool,
    /// Whether memory is taken at the header, and how many bytes.
    pub wants: bool,
    pub room: usize,
    /// The memory that was taken.
    pub store: Vec<u8>,
}

impl TrialTeller {
    /// Nothing was told so far, and no memory is wanted.
    pub fn new(alloc: Global) -> Self
        ensures told { result.told ≡ 0 }
        ensures owes { result.owes ≡ false }
        ensures ended { result.ended ≡ false }
    {
        TrialTeller {
            told: 0,
            owes: false,
            ended: false,
            wants: false,
            room: 0,
            store: Vec::new(alloc),
        }
    }

    /// Nothing was told so far, and so many bytes are taken at the header.
    pub fn with_room(alloc: Global, room: usize) -> Self
        ensures told { result.told ≡ 0 }
        ensures owes { result.owes ≡ false }
        ensures ended { result.ended ≡ false }
    {
        TrialTeller {
            wants: true,
            room,
            ..TrialTeller::new(alloc)
        }
    }

    // Puts the line that is owed, and tells whether there was one.
    fn put_owed(&mut self, out: &mut TextBuffer) -> bool
        requires room { length out.old < 65536 }
        ensures result { result ≡ self.old.owes }
        ensures after { self.new ≡ record self.old { owes = false } }
        ensures text { out.new ≡ out.old ++ owed_line self.old.owes self.old.ended self.old.told }
        ensures length { length out.new ≤ length out.old + 28 }
        ensures none { self.old.owes ≡ false → out.new ≡ out.old }
    {
        if !self.owes {
            return false;
        }
        self.owes = false;
        if self.ended {
            put_number(out, b"frames ", self.told);
        } else {
            out.push(b"  was told\n");
        }
        true
    }
}

// Puts a line of a word and a number.
fn put_number(out: &mut TextBuffer, word: &[u8], number: u64)
    requires room { length out.old < 65600 }
    requires short { length word.now ≤ 7 }
    ensures text { out.new ≡ out.old ++ (word.now ++ decimal number ++ codes "\n") }
    ensures length { length out.new ≤ length out.old + 28 }
{
    out.push(word);
    out.push_decimal(number);
    out.push(b"\n");
}

impl<I: Intake> Teller<I> for TrialTeller {
    ghost tells = { λ teller. trial_tells (record {
      told = teller.told;
      owes = teller.owes;
      ended = teller.ended;
      wants = teller.wants;
    }) };

    fn wants_memory(&self) -> bool {
        self.wants
    }

    fn begin(&mut self, alloc: Global, _intake: &I) -> Result<(), NoMemory> {
        if self.wants {
            match Vec::with_capacity(alloc, self.room) {
                Ok(store) => self.store = store,
                Err(_) => return Err(NoMemory),
            }
        }
        Ok(())
    }

    fn frame(&mut self, _intake: &I, _bytes: &[u8], out: &mut TextBuffer) {
        self.told += 1;
        put_number(out, b"frame ", self.told);
        self.owes = true;
    }

    fn end(&mut self, _out: &mut TextBuffer) {
        self.ended = true;
        self.owes = true;
    }

    fn next(&mut self, out: &mut TextBuffer) -> bool {
        self.put_owed(out)
    }
}
