//! The routes of a record: to which ports the packets of a stream go, found by the stream.
#![tactic(auto)]

mod laws;
mod routes;
#[cfg(test)]
mod tests;

pub use crate::laws::{
    a_stream_has_one_route, ports_are_those_of_the_route, routes_of_form_1_are_of_form_2,
    without_a_route_no_ports,
};
pub use crate::routes::Routes;
