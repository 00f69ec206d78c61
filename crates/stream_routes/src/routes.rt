ghost use Rattle.std.specs.Prelude.{◌≡◌, ℕ, ◌<◌, ◌≤◌, Some, true, length, is_some, slice_get, IfSome, IfNone, IfOk};
ghost use Rattle.vrt_fields.specs.Route.{AreRoutes};
ghost use Rattle.stream_routes.specs.Ports.{IsRouteAt, is_listed, ports_at, ports_of};

use std::alloc::Global;
use std::marker::Model;
use vrt_fields::Route;
use vrt_words::NoMemory;

/// The routes of a record, by rising stream IDs: at most 256.
///
/// It takes all its memory at the beginning.
#[derive(Debug, Drop)]
pub struct Routes {
    list: Vec<Route>,
}

impl Model for Routes {
    ghost use Rattle.std.specs.Prelude.{List, ◌≤◌, true, length};
    ghost use Rattle.vrt_fields.specs.Route.{AreRoutes};
    ghost use Rattle.vrt_fields.specs.declared.route.Route.{Route};

    ghost Value = { List Route };

    ghost view = { λ routes. routes.list.items };

    ghost invariant = { λ routes. AreRoutes true routes.list.items × (length routes.list.items ≤ 256) };
}

impl Routes {
    /// The routes of this list.
    pub fn of(alloc: Global, list: &[Route]) -> Result<Routes, NoMemory>
        requires few { length list.now ≤ 256 }
        requires valid { AreRoutes true list.now }
        ensures { IfOk result (λ routes. routes ≡ list.now) }
    {
        match Vec::from_slice(alloc, list) {
            Ok(list) => Ok(Routes { list }),
            Err(_) => Err(NoMemory),
        }
    }

    /// The number of routes, 0 to 256.
    pub fn len(&self) -> usize
        ensures number { result ≡ length self.now }
        ensures few { result ≤ 256 }
        ensures valid { AreRoutes true self.now }
    {
        self.list.len()
    }

    /// The index of the route of a stream. `None` exactly where none is listed.
    pub fn find(&self, stream: u32) -> Option<usize>
        ensures found { IfSome result (λ index. IsRouteAt self.now stream index) }
        ensures within { IfSome result (λ index. index < length self.now) }
        ensures absent { IfNone result ((index : ℕ) → ¬ IsRouteAt self.now stream index) }
        ensures listed { is_some result ≡ is_listed self.now stream }
    {
        self.list
            .binary_search_by_key(&stream, |route| route.stream)
            .ok()
    }

    /// The stream of the route at an index, which is in range.
    pub fn stream(&self, index: usize) -> u32
        requires { index < length self.now }
        ensures { IsRouteAt self.now result index }
    {
        self.list[index].stream
    }

    /// The number of ports of the route at an index, which is in range: 1 to 4.
    pub fn ports(&self, index: usize) -> usize
        requires { index < length self.now }
        ensures number { result ≡ length (ports_at self.now index) }
        ensures some { 1 ≤ result }
        ensures few { result ≤ 4 }
        ensures of_stream { (stream : ℕ) → IsRouteAt self.now stream index
            → result ≡ length (ports_of self.now stream) }
    {
        self.list[index].number as usize
    }

    /// The port at a place of the route at an index. Both are in range.
    pub fn port(&self, index: usize, place: usize) -> u16
        requires index { index < length self.now }
        requires place { place < length (ports_at self.now index) }
        ensures port { slice_get (ports_at self.now index) place ≡ Some result }
        ensures of_stream { (stream : ℕ) → IsRouteAt self.now stream index
            → slice_get (ports_of self.now stream) place ≡ Some result }
    {
        self.list[index].ports[place]
    }
}
