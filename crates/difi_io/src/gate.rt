/// A gate that a stage passes at each of its turns. A test may hold it there for some turns.
pub trait Gate {
    /// Passes the gate: stage 0 receives, 1 binds, 2 sends. It returns after bounded turns, and
    /// tells nothing.
    fn at(&self, stage: u8);
}

/// A gate that is always open.
#[derive(Clone, Copy, Debug, PartialEq, Eq)]
pub struct NoGate;

impl NoGate {
    /// An open gate.
    pub fn new() -> Self {
        NoGate
    }
}

impl Gate for NoGate {
    fn at(&self, _stage: u8) {}
}
