ghost use Rattle.std.specs.Prelude.{◌≡◌};
ghost use Rattle.vrt_time.specs.Time.{stamp_of};

use crate::reason::Reason;
use vrt_time::{Moment, Stamp};
use vrt_words::PacketBuf;

/// Samples of one data packet, one after another, of which the same is known.
#[derive(Clone, Copy, Debug, PartialEq, Eq)]
pub enum Run {
    /// Samples that one context is in force for.
    Bound {
        /// The stamp of the packet.
        stamp: Stamp,
        /// The index of the first sample in the packet.
        first: u32,
        /// How many samples, at least 1.
        number: u32,
        /// When the first sample was captured.
        at: Moment,
        /// The words of the context's fields.
        fields: [u32; 19],
        /// The item size of the payload, in bits: 4 to 16.
        bits: u8,
    },
    /// Samples with a capture time and without a context.
    Uncertain {
        /// Why no context is given.
        reason: Reason,
        /// The stamp of the packet.
        stamp: Stamp,
        /// The index of the first sample in the packet.
        first: u32,
        /// How many samples, at least 1.
        number: u32,
        /// When the first sample was captured.
        at: Moment,
        /// The item size of the payload, in bits: 4 to 16.
        bits: u8,
    },
    /// A whole packet whose payload is not known to divide into samples.
    Raw {
        /// Why its first sample has no context, or that the payload does not divide.
        reason: Reason,
        /// The stamp of the packet.
        stamp: Stamp,
        /// How many bits at the end of the payload are unused: 0 to 31.
        pad: u8,
    },
}

impl Run {
    /// A run of no packet, for a place in which runs are written.
    pub fn blank() -> Run
        ensures { result ≡ Run.Raw Reason.Ended (stamp_of 0 0) 0 }
    {
        let Some(stamp) = Stamp::of_picos(0, 0) else {
            unreachable!()
        };
        Run::Raw {
            reason: Reason::Ended,
            stamp,
            pad: 0,
        }
    }
}

/// What a binder gives: each packet that is due, and then its runs.
#[derive(Debug, Drop)]
pub enum Out {
    /// A data packet that leaves.
    Packet {
        /// The buffer that was given to the binder.
        buf: PacketBuf,
        /// The number of data packets lost before it, modulo 16.
        lost: u8,
    },
    /// Samples of the packet that was given last.
    Run(Run),
}

/// What a binder gives where it writes runs in place.
#[derive(Debug, Drop)]
pub enum Given {
    /// A data packet that leaves.
    Packet {
        /// The buffer that was given to the binder.
        buf: PacketBuf,
        /// The number of data packets lost before it, modulo 16.
        lost: u8,
    },
    /// Samples of the packet that was given last: the run that was written.
    Run,
}
