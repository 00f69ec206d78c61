ghost use Rattle.std.specs.Prelude.{◌≡◌, ◌+◌, ◌*◌, ◌<◌, ◌≤◌, ◌^◌};
ghost use Rattle.replay_form.specs.HeadFields.{offset_of, width_of, field_at, route_at, port_at, route_size, route_fields, bound_field, route_field};

/// A field of the header. Those that stand there several times are numbered from 0.
#[derive(Clone, Copy, Debug, PartialEq, Eq)]
pub(crate) enum HeadField {
    Magic,
    Cid,
    Tsi,
    MaxWords,
    DataWindow,
    ContextWindow,
    Kept,
    Pending,
    Routes,
    IdentityForm,
    Identity,
    /// A word of the initial fields.
    Initial(u32),
    /// Whether the field of a bounds entry can be set.
    Flag(u32),
    Step(u32),
    Least(u32),
    Greatest(u32),
    /// The stream ID of a route.
    Stream(u32),
    /// How many ports a route of form 2 has.
    Number(u32),
    /// A port of a route.
    Port(u32, u32),
    /// The last two bytes of a route.
    Zero(u32),
}

/// The fields in front of the routes.
pub(crate) const FIXED_FIELDS: usize = 58;

// Where the fields begin, in the order of layout: each where the one before it ends. A header has
// eight bytes that name its form, nine numbers of four bytes, 16 bytes of an identity, the 19 words
// of the initial fields, seven bounds of four fields each, and the routes.

pub(crate) const MAGIC: usize = 0;

pub(crate) const CID: usize = MAGIC + 8;

pub(crate) const TSI: usize = CID + 4;

pub(crate) const MAX_WORDS: usize = TSI + 4;

pub(crate) const DATA_WINDOW: usize = MAX_WORDS + 4;

pub(crate) const CONTEXT_WINDOW: usize = DATA_WINDOW + 4;

pub(crate) const KEPT: usize = CONTEXT_WINDOW + 4;

pub(crate) const PENDING: usize = KEPT + 4;

pub(crate) const ROUTES: usize = PENDING + 4;

pub(crate) const IDENTITY_FORM: usize = ROUTES + 4;

pub(crate) const IDENTITY: usize = IDENTITY_FORM + 4;

pub(crate) const INITIAL: usize = IDENTITY + 16;

const BOUNDS: usize = INITIAL + 19 * 4;

/// The bytes in front of the routes.
pub(crate) const FIXED_SIZE: usize = BOUNDS + 7 * SIZE_OF_BOUND;

// Where the fields of a bounds entry begin in it: the flag, a step, and the least and the greatest
// value.

const FLAG: usize = 0;

pub(crate) const STEP: usize = FLAG + 4;

pub(crate) const LEAST: usize = STEP + 8;

pub(crate) const GREATEST: usize = LEAST + 8;

const SIZE_OF_BOUND: usize = GREATEST + 8;

/// Where the number of ports stands in a route of form 2, behind the stream ID. In form 1 the port
/// stands there.
pub(crate) const NUMBER: usize = 4;

/// Where an entry of the bounds begins.
pub(crate) fn start_of_bound(bound: usize) -> usize
    requires { bound < 2 ^ 32 }
    ensures { result ≡ 136 + 28 * bound }
{
    BOUNDS + SIZE_OF_BOUND * bound
}

/// The bytes of a route, by the form.
pub(crate) fn size_of_route(second: bool) -> usize
    ensures { result ≡ route_size second }
{
    if second { 16 } else { 8 }
}

/// The fields of a route, by the form.
pub(crate) fn fields_of_route(second: bool) -> usize
    ensures { result ≡ route_fields second }
{
    if second { 7 } else { 3 }
}

/// Where a route begins.
pub(crate) fn start_of_route(second: bool, route: u32) -> usize
    ensures { result ≡ route_at second route }
{
    FIXED_SIZE + size_of_route(second) * route as usize
}

/// Where a port of a route stands.
pub(crate) fn start_of_port(second: bool, route: u32, place: u32) -> usize
    ensures { result ≡ port_at second route place }
{
    let first = if second { NUMBER + 2 } else { NUMBER };
    start_of_route(second, route) + first + 2 * place as usize
}

impl HeadField {
    /// The field of this number, in the order of layout.
    pub(crate) fn at(second: bool, index: usize) -> HeadField
        requires { index < 58 + route_fields second * 2 ^ 32 }
        ensures { result ≡ field_at second index }
    {
        match index {
            0 => HeadField::Magic,
            1 => HeadField::Cid,
            2 => HeadField::Tsi,
            3 => HeadField::MaxWords,
            4 => HeadField::DataWindow,
            5 => HeadField::ContextWindow,
            6 => HeadField::Kept,
            7 => HeadField::Pending,
            8 => HeadField::Routes,
            9 => HeadField::IdentityForm,
            10 => HeadField::Identity,
            11..30 => HeadField::Initial((index - 11) as u32),
            30..58 => HeadField::of_bound(((index - 30) / 4) as u32, (index - 30) % 4),
            _ => {
                let fields = fields_of_route(second);
                let route = (index - FIXED_FIELDS) / fields;
                HeadField::of_route(second, route as u32, (index - FIXED_FIELDS) % fields)
            }
        }
    }

    // The field at a place in a bounds entry.
    fn of_bound(bound: u32, place: usize) -> HeadField
        ensures { result ≡ bound_field bound place }
    {
        match place {
            0 => HeadField::Flag(bound),
            1 => HeadField::Step(bound),
            2 => HeadField::Least(bound),
            _ => HeadField::Greatest(bound),
        }
    }

    // The field at a place in a route.
    fn of_route(second: bool, route: u32, place: usize) -> HeadField
        requires { place < 7 }
        ensures { result ≡ route_field second route place }
    {
        match (second, place) {
            (_, 0) => HeadField::Stream(route),
            (false, 1) => HeadField::Port(route, 0),
            (true, 1) => HeadField::Number(route),
            (true, 2..6) => HeadField::Port(route, (place - 2) as u32),
            _ => HeadField::Zero(route),
        }
    }

    /// Where the field begins.
    pub(crate) fn offset(self, second: bool) -> usize
        ensures { result ≡ offset_of second self }
    {
        match self {
            HeadField::Magic => MAGIC,
            HeadField::Cid => CID,
            HeadField::Tsi => TSI,
            HeadField::MaxWords => MAX_WORDS,
            HeadField::DataWindow => DATA_WINDOW,
            HeadField::ContextWindow => CONTEXT_WINDOW,
            HeadField::Kept => KEPT,
            HeadField::Pending => PENDING,
            HeadField::Routes => ROUTES,
            HeadField::IdentityForm => IDENTITY_FORM,
            HeadField::Identity => IDENTITY,
            HeadField::Initial(word) => INITIAL + 4 * word as usize,
            HeadField::Flag(bound) => start_of_bound(bound as usize),
            HeadField::Step(bound) => start_of_bound(bound as usize) + STEP,
            HeadField::Least(bound) => start_of_bound(bound as usize) + LEAST,
            HeadField::Greatest(bound) => start_of_bound(bound as usize) + GREATEST,
            HeadField::Stream(route) => start_of_route(second, route),
            HeadField::Number(route) => start_of_route(second, route) + NUMBER,
            HeadField::Port(route, place) => start_of_port(second, route, place),
            HeadField::Zero(route) => start_of_route(second, route) + if second { 14 } else { 6 },
        }
    }

    /// The bytes of the field.
    pub(crate) fn width(self) -> usize
        ensures { result ≡ width_of self }
    {
        match self {
            HeadField::Identity => 16,
            HeadField::Magic | HeadField::Step(_) | HeadField::Least(_) | HeadField::Greatest(_) =>
                8,
            HeadField::Number(_) | HeadField::Port(_, _) | HeadField::Zero(_) => 2,
            _ => 4,
        }
    }
}
