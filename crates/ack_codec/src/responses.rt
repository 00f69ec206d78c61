/// Which fields of a command met a warning or an error, and what it was.
#[derive(Clone, Copy, Debug, PartialEq, Eq)]
pub struct Responses {
    /// The bits of the fields, as in CIF0.
    pub cif0: u32,
    /// A word for each of the twelve fields, in their order from the highest bit of CIF0 down; 0 for
    /// a field that is not listed.
    pub words: [u32; 12],
}
