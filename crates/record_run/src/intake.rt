ghost use Rattle.std.specs.Prelude.{◌↔◌, IsTrue, IsSome, ◌≡◌, ◌+◌, ◌<◌, ◌^◌, ℕ, List, Some, length, IfOk, IfErr, OnOk};
ghost use Rattle.replay_form.specs.Grammar.{Grammar, Reads, IsStanding, IsIntake, TakesFront, IsWrong, IsLawful, AreReads};

use replay_form::{Event, RecordFault};

/// What reads bytes in any pieces: a header, and then frames.
///
/// Its meanings are the grammar of what it reads, and what it knows of the bytes that it was given.
pub trait Intake {
    /// What a header says.
    type Head;

    /// What a frame is.
    type Frame;

    ghost grammar: { Grammar Self.Head Self.Frame };

    ghost reads: { Self → Reads Self.Head Self.Frame };

    /// Whether the header is whole.
    fn has_head(&self) -> bool
        ensures { IsTrue result ↔ IsSome (reads self.now).head };

    /// Takes bytes of the piece up to the next whole header or frame, and answers how many.
    ///
    /// `More` says that all were taken. `Err` comes at the first field that is wrong.
    fn feed(&mut self, piece: &[u8]) -> Result<(usize, Event), RecordFault>
        requires standing { IsStanding (reads self.old) }
        requires small { (reads self.old).given + length piece.now < 2 ^ 63 }
        ensures progress { IfOk result (λ step. 0 < length piece.now → 0 < step.0) }
        ensures front { IfOk result
            (λ step. TakesFront piece.now step.0 (reads self.old) (reads self.new)) }
        ensures step { IfOk result
            (λ step. IsIntake grammar step.1 piece.now step.0 (reads self.old) (reads self.new)) }
        ensures wrong { IfErr result
            (λ fault. IsWrong grammar piece.now fault.offset (reads self.old)) };

    /// Whether the bytes given are a header and whole frames. `Err` tells their number, where they
    /// end inside the header or a frame.
    fn finish(&self) -> Result<(), RecordFault>
        ensures whole { OnOk result ((taken : List ℕ) (frames : List Self.Frame)
            → (reads self.now).stands taken frames
            → (head : Self.Head) × ((reads self.now).head ≡ Some head)
            × grammar.whole head frames taken) }
        ensures inside { IfErr result (λ fault. (taken : List ℕ) (frames : List Self.Frame)
            → (reads self.now).stands taken frames
            → grammar.inside taken × (fault.offset ≡ length taken)) };

    ghost lawful: { IsLawful grammar };

    ghost so_far: { (it : Self) → AreReads grammar (reads it) };
}
