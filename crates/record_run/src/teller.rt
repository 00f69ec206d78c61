ghost use Rattle.std.specs.Prelude.{◌≡◌, ◌+◌, ◌<◌, ◌≤◌, ◌^◌, [], ◌∷◌, Some, true, false, length, IsTrue, IsErr, OnOk};
ghost use Rattle.record_run.specs.Tells.{Tells, GoesOn, KeepsCount, CountsFrame, Puts, PutsEnd, IsSettled};

use crate::intake::Intake;
use std::alloc::Global;
use text_buffer::TextBuffer;
use vrt_words::NoMemory;

/// What tells of the frames of an intake, and of their end, in a text.
///
/// Its meaning is what it tells from now on. What a call makes more than fits at once is owed, and
/// given piece by piece by `next`.
pub trait Teller<I: Intake> {
    ghost tells: { Self → Tells I.Head I.Frame };

    /// Whether it takes memory once the header is known.
    fn wants_memory(&self) -> bool
        ensures { result ≡ (tells self.now).wants };

    /// Begins, with the header that the intake has read. What is told of it is owed. `NoMemory`
    /// comes only where it takes memory.
    fn begin(&mut self, alloc: Global, intake: &I) -> Result<(), NoMemory>
        requires known { (head : I.Head) × ((I.reads intake.now).head ≡ Some head) }
        ensures memory { IsErr result → (tells self.old).wants ≡ true }
        ensures keeps { OnOk result (KeepsCount (tells self.old) (tells self.new)) }
        ensures goes { OnOk result ((head : I.Head) → (I.reads intake.now).head ≡ Some head
            → GoesOn head [] [] (tells self.old) (tells self.new)) }
        ensures starts { OnOk result ((tells self.new).started ≡ true) };

    /// Tells of the frame that the intake made whole, with the bytes that it took last.
    fn frame(&mut self, intake: &I, bytes: &[u8], out: &mut TextBuffer)
        requires room { length out.old < 65536 }
        requires count { (frame : I.Frame) → (I.reads intake.now).frame bytes.now frame
            → (tells self.old).count + 1 + I.grammar.size frame < 2 ^ 63 }
        requires open { (tells self.old).ended ≡ false }
        requires settled { IsSettled (tells self.old) }
        requires whole { (head : I.Head) × (frame : I.Frame)
            × ((I.reads intake.now).head ≡ Some head)
            × ((I.reads intake.now).frame bytes.now frame) }
        ensures counts { (frame : I.Frame) → (I.reads intake.now).frame bytes.now frame
            → CountsFrame (I.grammar.size frame) (tells self.old) (tells self.new) }
        ensures started { (tells self.new).started ≡ true }
        ensures told { (head : I.Head) (frame : I.Frame) → (I.reads intake.now).head ≡ Some head
            → (I.reads intake.now).frame bytes.now frame
            → Puts head (frame ∷ []) out.old out.new (tells self.old) (tells self.new) };

    /// Tells that no more frames are to come.
    fn end(&mut self, out: &mut TextBuffer)
        requires room { length out.old < 65536 }
        requires open { (tells self.old).ended ≡ false }
        requires settled { IsSettled (tells self.old) }
        ensures started { (tells self.new).started ≡ true }
        ensures told { (head : I.Head)
            → PutsEnd head out.old out.new (tells self.old) (tells self.new) };

    /// Puts something that is owed, and tells whether there was something.
    fn next(&mut self, out: &mut TextBuffer) -> bool
        requires room { length out.old < 65536 }
        requires started { (tells self.old).started ≡ true }
        ensures started { (tells self.new).started ≡ true }
        ensures keeps { KeepsCount (tells self.old) (tells self.new) }
        ensures told { (head : I.Head)
            → Puts head [] out.old out.new (tells self.old) (tells self.new) }
        ensures less { IsTrue result → (tells self.new).owed < (tells self.old).owed }
        ensures room { result ≡ false → length out.new ≤ length out.old }
        ensures none { result ≡ false → IsSettled (tells self.new) };
}
