use crate::route_list::RouteList;
use cam_field::Ident;
use vrt_fields::{Limit, Limits};
use vrt_header::Profile;

/// The header of a record.
#[derive(Debug, Drop)]
pub struct RecordHead {
    /// The form of the record, 1 or 2.
    pub form: u8,
    /// What all its packets have in common.
    pub profile: Profile,
    /// The most words of a packet: 43 to 16,376.
    pub max_words: u32,
    /// How much is kept of each stream.
    pub limits: Limits,
    /// The controllee's identity.
    pub identity: Ident,
    /// The words of the controllee's fields at the start.
    pub initial: [u32; 19],
    /// What commands may set: bandwidth, IF reference, RF reference, IF offset, reference level,
    /// gain and sample rate.
    pub bounds: [Limit; 7],
    /// Where the samples of each stream go, by rising stream IDs.
    pub routes: RouteList,
}
