use sample_binder::Run;
use vrt_time::Stamp;

/// What one release record says. A packet or a payload that it carries stands beside it, as bytes.
#[derive(Clone, Copy, Debug, PartialEq, Eq)]
pub enum Shown {
    /// Samples of a data packet, or a whole one, with the payload.
    Run {
        /// The stream of the packet.
        stream: u32,
        /// The port of the stream's route.
        port: u16,
        /// How many data packets were lost before this one, 0 to 15: told in the packet's first
        /// run, and 0 in its others.
        lost: u8,
        /// The samples, and what is known of them.
        run: Run,
    },
    /// An acknowledgement, with the packet.
    Ack {
        /// The port of the command, or of its repeat.
        port: u16,
    },
    /// A refused frame.
    Refused {
        /// The number of the frame in the record, from 1.
        frame: u64,
        /// The port of the frame.
        port: u16,
        /// Why it is refused: the number of a `Refusal`, 1 to 10.
        reason: u8,
        /// What shows the reason.
        detail: u32,
        /// The last released stamp, exactly where the reason is 4, late.
        stamp: Option<Stamp>,
    },
    /// A version, with the packet.
    Version {
        /// The port of the stream's route.
        port: u16,
    },
    /// The end of all records.
    End {
        /// Frames, bound samples, uncertain samples, raw packets, refused frames, acknowledgements,
        /// versions.
        counts: [u64; 7],
    },
}
