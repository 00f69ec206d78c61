use vrt_time::Stamp;

/// How a window takes a packet that arrives.
#[derive(Debug, PartialEq, Eq, Drop)]
pub enum Arrival<T> {
    /// It is accepted, and nothing is released.
    Kept,
    /// It is accepted, and the window releases the packet of the least stamp, which may be this one.
    Released {
        stamp: Stamp,
        /// The number of packets lost before it, modulo 16, by the packet counts.
        lost: u8,
        item: T,
    },
    /// Its stamp is not above that of a packet that was released already.
    Late {
        /// The stamp of the packet released last.
        boundary: Stamp,
        item: T,
    },
    /// A packet with its stamp and its content is held.
    Repeat {
        item: T,
    },
    /// A packet with its stamp and another content is held.
    Conflict {
        /// The packet count of the one that is held.
        held: u8,
        item: T,
    },
}
