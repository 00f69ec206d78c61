use vrt_time::Stamp;

/// A packet as a window takes it.
#[derive(Drop)]
pub(crate) struct Entry<T> {
    pub(crate) stamp: Stamp,
    /// The packet count, modulo 16.
    pub(crate) count: u8,
    pub(crate) item: T,
}

/// What a window knows of the packet released last.
#[derive(Drop)]
pub(crate) struct Last {
    pub(crate) stamp: Stamp,
    /// The packet count, modulo 16.
    pub(crate) count: u8,
}
