ghost use Rattle.std.specs.Prelude.{◌≡◌, ◌≢◌, ℕ, ◌-◌, ◌<◌, ◌≤◌, ◌+◌, true, length, slice_index_or, IsTrue, IfOk, OnOk};
ghost use Rattle.vrt_fields.specs.Route.{IsRoute, AreRoutes};
ghost use Rattle.vrt_fields.specs.declared.route.Route.{Route};

use super::*;
use std::alloc::Global;
use std::test::Fail;
use vrt_fields::Route;

// A route to one port.
fn to_one(stream: u32, port: u16) -> Route
    ensures { IsRoute true result }
{
    Route {
        stream,
        ports: [port, 0, 0, 0],
        number: 1,
    }
}

// A route to two ports.
fn to_two(stream: u32, first: u16, second: u16) -> Route
    requires { first ≢ second }
    ensures { IsRoute true result }
{
    Route {
        stream,
        ports: [first, second, 0, 0],
        number: 2,
    }
}

// A route to four ports.
fn to_four(stream: u32, ports: [u16; 4]) -> Route
    requires { (place earlier : ℕ) → place < 4 → earlier < place
        → slice_index_or ports earlier 0 ≢ slice_index_or ports place 0 }
    ensures { IsRoute true result }
{
    Route {
        stream,
        ports,
        number: 4,
    }
}

// Whether a stream ID is above that of the last route.
fn is_above(list: &[Route], stream: u32) -> bool
    ensures { IsTrue result → (other : Route) → 0 < length list.now
        → (slice_index_or list.now (length list.now - 1) other).stream < stream }
{
    match list.last() {
        Some(last) => last.stream < stream,
        None => true,
    }
}

// One more route, whose stream ID is above those of the others.
fn add(list: &mut Vec<Route>, route: Route) -> Result<(), Fail>
    requires route { IsRoute true route }
    requires valid { AreRoutes true list.old.items }
    ensures valid { OnOk result (AreRoutes true list.new.items) }
    ensures more { OnOk result (length list.new.items ≡ length list.old.items + 1) }
{
    if !is_above(list.as_slice(), route.stream) {
        return Err(Fail::from("the stream ID is not above"));
    }
    list.push(route)?;
    Ok(())
}

// Routes of the streams 2, 4, 6 and so on, to the ports 0, 1, 2 and so on.
fn even_streams(alloc: Global, number: u16) -> Result<Vec<Route>, Fail>
    requires { number ≤ 256 }
    ensures valid { IfOk result (λ list. AreRoutes true list.items) }
    ensures number { IfOk result (λ list. length list.items ≡ number) }
{
    let mut list = Vec::new(alloc);
    for port in 0..number {
        add(&mut list, to_one(2 * u32::from(port) + 2, port))?;
    }
    Ok(list)
}

// How many ports a stream has, and the ports in order, with 0 behind them.
fn ports_to(routes: &Routes, stream: u32) -> Option<(usize, [u16; 4])> {
    let index = routes.find(stream)?;
    let number = routes.ports(index);
    let mut ports = [0; 4];
    for place in 0..number {
        ports[place] = routes.port(index, place);
    }
    Some((number, ports))
}

#[test]
fn no_route_at_all(rt: HostRuntime) -> Result<(), Fail> {
    let routes = Routes::of(rt.alloc(), &[])?;
    assert_eq!(rt; routes.len(), 0);
    assert_eq!(rt; routes.find(0), None);
    assert_eq!(rt; routes.find(0xFFFF_FFFF), None);
    Ok(())
}

#[test]
fn one_route_of_form_1(rt: HostRuntime) -> Result<(), Fail> {
    let mut list = Vec::new(rt.alloc());
    add(&mut list, to_one(1, 9))?;
    let routes = Routes::of(rt.alloc(), list.as_slice())?;
    assert_eq!(rt; routes.len(), 1);
    assert_eq!(rt; routes.find(1), Some(0));
    assert_eq!(rt; ports_to(&routes, 1), Some((1, [9, 0, 0, 0])));
    assert_eq!(rt; routes.find(0), None);
    assert_eq!(rt; routes.find(2), None);
    Ok(())
}

#[test]
fn least_and_greatest_stream(rt: HostRuntime) -> Result<(), Fail> {
    let mut list = Vec::new(rt.alloc());
    add(&mut list, to_one(0, 65_535))?;
    add(&mut list, to_one(0xFFFF_FFFF, 0))?;
    let routes = Routes::of(rt.alloc(), list.as_slice())?;
    assert_eq!(rt; ports_to(&routes, 0), Some((1, [65_535, 0, 0, 0])));
    assert_eq!(rt; ports_to(&routes, 0xFFFF_FFFF), Some((1, [0, 0, 0, 0])));
    assert_eq!(rt; routes.find(0xFFFF_FFFF), Some(1));
    assert_eq!(rt; routes.find(1), None);
    assert_eq!(rt; routes.find(0xFFFF_FFFE), None);
    Ok(())
}

#[test]
fn ports_in_the_order_of_the_route(rt: HostRuntime) -> Result<(), Fail> {
    let mut list = Vec::new(rt.alloc());
    add(&mut list, to_two(3, 9, 7))?;
    add(&mut list, to_four(4, [9, 7, 12, 3]))?;
    add(&mut list, to_one(5, 9))?;
    let routes = Routes::of(rt.alloc(), list.as_slice())?;
    assert_eq!(rt; ports_to(&routes, 3), Some((2, [9, 7, 0, 0])));
    assert_eq!(rt; ports_to(&routes, 4), Some((4, [9, 7, 12, 3])));
    assert_eq!(rt; ports_to(&routes, 5), Some((1, [9, 0, 0, 0])));
    assert_eq!(rt; ports_to(&routes, 6), None);
    Ok(())
}

#[test]
fn as_many_routes_as_may_be(rt: HostRuntime) -> Result<(), Fail> {
    let list = even_streams(rt.alloc(), 256)?;
    let routes = Routes::of(rt.alloc(), list.as_slice())?;
    assert_eq!(rt; routes.len(), 256);
    for index in 0..routes.len() {
        let stream = routes.stream(index);
        assert_eq!(rt; stream as usize, 2 * index + 2);
        assert_eq!(rt; routes.find(stream), Some(index));
        assert_eq!(rt; routes.find(stream - 1), None);
        assert_eq!(rt;
            ports_to(&routes, stream),
            Some((1, [index as u16, 0, 0, 0]))
        );
    }
    assert_eq!(rt; routes.find(1), None);
    assert_eq!(rt; routes.find(513), None);
    Ok(())
}
