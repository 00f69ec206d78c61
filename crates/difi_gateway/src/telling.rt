use release_form::Refusal;
use vrt_time::Stamp;

/// What is told now, once for each port of its stream, and a refusal once.
#[derive(Clone, Copy, Debug, PartialEq, Eq)]
pub enum Telling {
    /// Nothing.
    Nothing,
    /// A frame is refused.
    Refused {
        /// The number of the frame in the record, from 1.
        frame: u64,
        /// The port of the frame.
        port: u16,
        /// Why.
        refusal: Refusal,
        /// What shows why.
        detail: u32,
        /// The last released stamp, where the packet is late.
        stamp: Option<Stamp>,
    },
    /// Samples of a data packet, or a whole one, of the stream of this route: the run that was drawn
    /// last.
    Run {
        /// The index of the route.
        index: usize,
        /// The number of data packets lost before it.
        lost: u8,
    },
    /// A version packet of the stream of this route.
    Version {
        /// The index of the route.
        index: usize,
    },
}
