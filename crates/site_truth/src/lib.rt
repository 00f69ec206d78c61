//! What a site sends on a stream, how it is delivered, and that what a binder gives of it is true.
#![tactic(auto)]

mod laws;

pub use crate::laws::{
    all_samples_are_bound, bound_contexts_are_known, each_sample_leaves_once,
    first_arrivals_are_taken, outputs_are_true,
};
