/// Where a gateway stands on its way through a record.
#[derive(Clone, Copy, Debug, PartialEq, Eq)]
pub enum Stage {
    /// It waits for a frame, or the end.
    Waiting,
    /// The binder of this route gives what a frame made due.
    Drawing {
        /// The index of the route.
        index: usize,
    },
    /// The end was told, and the binder of this route gives what is left; or all have given it.
    Ending {
        /// The index of the route, or the number of routes.
        index: usize,
    },
    /// All was told.
    Over,
}
