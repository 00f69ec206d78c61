/// What a binder gave.
#[derive(Clone, Copy, Debug, PartialEq, Eq)]
pub(crate) enum Drawn {
    /// A packet, whose runs come next.
    Packet,
    /// A run, which is told now.
    Run,
    /// Nothing is owed.
    Nothing,
}
