ghost use Rattle.std.specs.Prelude.{◌≡◌, ◌+◌, ◌*◌, ◌<◌, ◌≤◌, ◌^◌, [], length, vec_capacity};
ghost use Rattle.vrt_header.specs.Profile.{profile_of};
ghost use Rattle.replay_form.specs.Head.{IsHead, IsSpelledHead, IsIdentity, limits_in, limit_in, bounds_in, route_in, routes_in};
ghost use Rattle.replay_form.specs.HeadFields.{IsWholeHead, is_second, route_at};
ghost use Rattle.replay_form.specs.HeadRanges.{HeadRanges};
ghost use Rattle.replay_form.specs.Numbers.{number_at};

use crate::head_field::{
    CID, CONTEXT_WINDOW, DATA_WINDOW, GREATEST, IDENTITY, IDENTITY_FORM, INITIAL, KEPT, LEAST,
    MAX_WORDS, NUMBER, PENDING, ROUTES, STEP, TSI, start_of_bound, start_of_port, start_of_route,
};
use crate::judge_head::is_second_form;
use crate::numbers::{i64_at, read_words, u16_at, u32_at, u64_at};
use crate::record_head::RecordHead;
use crate::route_list::RouteList;
use cam_field::Ident;
use vrt_fields::{Limit, Limits, Route};
use vrt_header::Profile;

/// What a whole header says. Its routes are put into the list that is given, which is empty and has
/// room for all that there can be.
pub(crate) fn read_head(bytes: &[u8], routes: Vec<Route>) -> RecordHead
    requires whole { IsWholeHead bytes.now }
    requires empty { routes.items ≡ [] }
    requires room { 256 ≤ vec_capacity routes }
    ensures says { IsHead result bytes.now }
    ensures spelled { IsSpelledHead result }
{
    let second = is_second_form(bytes);
    let profile = profile_in(bytes);
    let identity = identity_in(bytes);
    let mut initial = [0; 19];
    read_words(bytes, INITIAL, &mut initial);
    let bounds = bounds_of(bytes);
    let routes = read_routes(bytes, second, routes);
    RecordHead {
        form: if second { 2 } else { 1 },
        profile,
        max_words: u32_at(bytes, MAX_WORDS),
        limits: limits_of(bytes),
        identity,
        initial,
        bounds,
        routes: RouteList::new(routes),
    }
}

fn profile_in(bytes: &[u8]) -> Profile
    requires there { 16 ≤ length bytes.now }
    requires right { HeadRanges bytes.now }
    ensures { result ≡ profile_of (number_at 8 4 bytes.now) (number_at 12 4 bytes.now) }
{
    match Profile::of(u32_at(bytes, CID), u32_at(bytes, TSI) as u8) {
        Some(profile) => profile,
        None => unreachable!(),
    }
}

fn limits_of(bytes: &[u8]) -> Limits
    requires { 36 ≤ length bytes.now }
    ensures { result ≡ limits_in bytes.now }
{
    Limits {
        data_window: u32_at(bytes, DATA_WINDOW),
        context_window: u32_at(bytes, CONTEXT_WINDOW),
        kept: u32_at(bytes, KEPT),
        pending: u32_at(bytes, PENDING),
    }
}

fn identity_in(bytes: &[u8]) -> Ident
    requires there { 60 ≤ length bytes.now }
    requires right { HeadRanges bytes.now }
    ensures { IsIdentity result bytes.now }
{
    match u32_at(bytes, IDENTITY_FORM) {
        0 => Ident::None,
        1 => Ident::Word(u32_at(bytes, IDENTITY)),
        _ => {
            let mut words = [0; 4];
            read_words(bytes, IDENTITY, &mut words);
            Ident::Uuid(words)
        }
    }
}

fn bounds_of(bytes: &[u8]) -> [Limit; 7]
    requires { 332 ≤ length bytes.now }
    ensures { result ≡ bounds_in bytes.now }
{
    [
        limit_of(bytes, 0),
        limit_of(bytes, 1),
        limit_of(bytes, 2),
        limit_of(bytes, 3),
        limit_of(bytes, 4),
        limit_of(bytes, 5),
        limit_of(bytes, 6),
    ]
}

fn limit_of(bytes: &[u8], bound: usize) -> Limit
    requires bound { bound < 7 }
    requires there { 332 ≤ length bytes.now }
    ensures { result ≡ limit_in bound bytes.now }
{
    let offset = start_of_bound(bound);
    Limit {
        settable: u32_at(bytes, offset) == 1,
        step: u64_at(bytes, offset + STEP),
        least: i64_at(bytes, offset + LEAST),
        greatest: i64_at(bytes, offset + GREATEST),
    }
}

fn read_routes(bytes: &[u8], second: bool, mut routes: Vec<Route>) -> Vec<Route>
    requires form { second ≡ is_second bytes.now }
    requires whole { IsWholeHead bytes.now }
    requires right { HeadRanges bytes.now }
    requires empty { routes.items ≡ [] }
    requires room { 256 ≤ vec_capacity routes }
    ensures { result.items ≡ routes_in second (number_at 36 4 bytes.now) bytes.now }
{
    for route in 0..u32_at(bytes, ROUTES) {
        routes.push_reserved(route_of(bytes, second, route));
    }
    routes
}

fn route_of(bytes: &[u8], second: bool, route: u32) -> Route
    requires form { second ≡ is_second bytes.now }
    requires whole { IsWholeHead bytes.now }
    requires among { route < number_at 36 4 bytes.now }
    ensures { result ≡ route_in second route bytes.now }
{
    let start = start_of_route(second, route);
    let stream = u32_at(bytes, start);
    if !second {
        return Route {
            stream,
            ports: [u16_at(bytes, start_of_port(false, route, 0)), 0, 0, 0],
            number: 1,
        };
    }
    let number = u16_at(bytes, start + NUMBER) as u8;
    let ports = [
        u16_at(bytes, start_of_port(true, route, 0)),
        u16_at(bytes, start_of_port(true, route, 1)),
        u16_at(bytes, start_of_port(true, route, 2)),
        u16_at(bytes, start_of_port(true, route, 3)),
    ];
    Route {
        stream,
        ports,
        number,
    }
}
