/// One complex sample, with the two items of the payload as signed numbers.
#[derive(Clone, Copy, Debug, PartialEq, Eq)]
pub struct Sample {
    /// The in-phase part, which stands first in a payload.
    pub i: i16,
    /// The quadrature part, which stands behind it.
    pub q: i16,
}
