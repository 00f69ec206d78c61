ghost use Rattle.std.specs.Prelude.{◌≡◌};

use std::marker::Model;
use vrt_fields::Route;

/// The routes of a record, in the order of its header.
#[derive(Debug, Drop)]
pub struct RouteList {
    routes: Vec<Route>,
}

impl Model for RouteList {
    ghost use Rattle.std.specs.Prelude.{List};
    ghost use Rattle.vrt_fields.specs.declared.route.Route.{Route};

    ghost Value = { List Route };

    ghost view = { λ list. list.routes.items };
}

impl RouteList {
    /// The list of these routes.
    pub fn new(list: Vec<Route>) -> RouteList
        ensures { result ≡ list.items }
    {
        RouteList { routes: list }
    }

    /// The routes.
    pub fn as_slice(&self) -> &[Route]
        ensures { result.now ≡ self.now }
    {
        self.routes.as_slice()
    }
}
