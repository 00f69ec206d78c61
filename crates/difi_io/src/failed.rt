/// A read or a write failed. The bytes that its object tells are as before, and the object counted
/// the fault.
#[derive(Clone, Copy, Debug, PartialEq, Eq)]
pub struct Failed;
