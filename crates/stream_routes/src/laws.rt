ghost use Rattle.std.specs.Prelude.{◌≡◌, ℕ, ◌≤◌, List, [], Some, true, false, length, slice_get};
ghost use Rattle.vrt_fields.specs.Route.{AreRoutes};
ghost use Rattle.vrt_fields.specs.declared.route.Route.{Route};
ghost use Rattle.stream_routes.specs.Ports.{IsRouteAt, is_listed, ports_at, ports_in, ports_of};

/// A law that a proof can cite. The routes of a record of form 1 are routes of form 2 too.
#[inline]
pub fn routes_of_form_1_are_of_form_2()
    ensures { (routes : List Route) → AreRoutes false routes → AreRoutes true routes }
{}

/// A law that a proof can cite. Where a stream has a route, it is listed, and its ports are those of
/// the route, one to four.
#[inline]
pub fn ports_are_those_of_the_route()
    ensures listed { (routes : List Route) (stream index : ℕ) → IsRouteAt routes stream index
        → is_listed routes stream ≡ true }
    ensures route { (routes : List Route) (index : ℕ) (route : Route) → AreRoutes true routes
        → slice_get routes index ≡ Some route → ports_of routes route.stream ≡ ports_in route }
    ensures at { (routes : List Route) (stream index : ℕ) → AreRoutes true routes
        → IsRouteAt routes stream index → ports_of routes stream ≡ ports_at routes index }
    ensures number { (routes : List Route) (index : ℕ) (route : Route) → AreRoutes true routes
        → slice_get routes index ≡ Some route
        → length (ports_of routes route.stream) ≡ route.number }
    ensures some { (routes : List Route) (stream index : ℕ) → AreRoutes true routes
        → IsRouteAt routes stream index → 1 ≤ length (ports_of routes stream) }
    ensures few { (routes : List Route) (stream index : ℕ) → AreRoutes true routes
        → IsRouteAt routes stream index → length (ports_of routes stream) ≤ 4 }
{}

/// A law that a proof can cite. Where a stream has no route, it is not listed, and has no ports; and
/// where it is not listed, it has no route.
#[inline]
pub fn without_a_route_no_ports()
    ensures ports { (routes : List Route) (stream : ℕ)
        → ((index : ℕ) → ¬ IsRouteAt routes stream index)
        → ports_of routes stream ≡ [] }
    ensures listed { (routes : List Route) (stream : ℕ)
        → ((index : ℕ) → ¬ IsRouteAt routes stream index)
        → is_listed routes stream ≡ false }
    ensures absent { (routes : List Route) (stream index : ℕ) → is_listed routes stream ≡ false
        → ¬ IsRouteAt routes stream index }
{}

/// A law that a proof can cite. A stream that is listed has a route, and no other.
#[inline]
pub fn a_stream_has_one_route()
    ensures there { (routes : List Route) (stream : ℕ) → is_listed routes stream ≡ true
        → (index : ℕ) × IsRouteAt routes stream index }
    ensures one { (routes : List Route) (stream index other : ℕ) → AreRoutes true routes
        → IsRouteAt routes stream index → IsRouteAt routes stream other → index ≡ other }
{}
