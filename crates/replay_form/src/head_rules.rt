ghost use Rattle.std.specs.Prelude.{◌≡◌, ◌+◌, ◌*◌, ◌<◌, ◌≤◌, ◌^◌, ◌↔◌, ◌≤ℤ◌, pos, IsTrue, length};
ghost use Rattle.replay_form.specs.HeadFields.{IsRightIn, IsHalf, IsRouteCount, IsIdentityField, IsInitialWord, IsStep, IsLeast, IsGreatest, IsPort, end_of, first_magic, second_magic, most_pending, most_routes, route_at, port_at};
ghost use Rattle.replay_form.specs.Numbers.{number_at, signed_at};

use crate::head_field::{
    CID, CONTEXT_WINDOW, DATA_WINDOW, GREATEST, HeadField, IDENTITY, IDENTITY_FORM, INITIAL, KEPT,
    LEAST, MAGIC, MAX_WORDS, NUMBER, PENDING, ROUTES, STEP, TSI, start_of_bound, start_of_port,
    start_of_route,
};
use crate::numbers::{i64_at, u16_at, u32_at, u64_at};
use vrt_fields::{FORMAT_WORD, PayloadFormat, RATE_WORD};

/// The first eight bytes of a record of form 1, "DIFIREC1", as a number.
pub(crate) const FIRST_MAGIC: u64 = 0x4449_4649_5245_4331;

/// The first eight bytes of a record of form 2, "DIFIREC2", as a number.
pub(crate) const SECOND_MAGIC: u64 = 0x4449_4649_5245_4332;

/// The second word of the rate among the words of all fields.
const RATE_LOW_WORD: usize = RATE_WORD + 1;

/// The second word of the payload format among them.
const FORMAT_SECOND_WORD: usize = FORMAT_WORD + 1;

/// Whether a field is right, which depends on the bytes up to its end alone.
pub(crate) fn is_right(second: bool, field: HeadField, front: &[u8]) -> bool
    requires { end_of second field ≤ length front.now }
    ensures { IsTrue result ↔ IsRightIn second field front.now }
{
    match field {
        HeadField::Magic => [FIRST_MAGIC, SECOND_MAGIC].contains(&u64_at(front, MAGIC)),
        HeadField::Cid => u32_at(front, CID) < 1 << 24,
        HeadField::Tsi => (1..=3).contains(&u32_at(front, TSI)),
        HeadField::MaxWords => (43..=16_376).contains(&u32_at(front, MAX_WORDS)),
        HeadField::DataWindow => u32_at(front, DATA_WINDOW) <= 4_096,
        HeadField::ContextWindow => u32_at(front, CONTEXT_WINDOW) <= 4_096,
        HeadField::Kept => (2..=4_096).contains(&u32_at(front, KEPT)),
        HeadField::Pending => is_pending(second, u32_at(front, PENDING)),
        HeadField::Routes => is_route_count(second, front),
        HeadField::IdentityForm => u32_at(front, IDENTITY_FORM) <= 2,
        HeadField::Identity => is_identity(front),
        HeadField::Initial(word) => is_initial(word, front),
        HeadField::Flag(bound) => u32_at(front, start_of_bound(bound as usize)) <= 1,
        HeadField::Step(bound) => is_step(bound, front),
        HeadField::Least(bound) => is_least(bound, front),
        HeadField::Greatest(bound) => is_greatest(bound, front),
        HeadField::Stream(route) => is_stream(second, route, front),
        HeadField::Number(route) => is_number(second, route, front),
        HeadField::Port(route, place) => is_port(second, route, place, front),
        HeadField::Zero(route) => is_zero(second, route, front),
    }
}

// Whether so many data packets may wait.
fn is_pending(second: bool, pending: u32) -> bool
    ensures { IsTrue result ↔ (1 ≤ pending) × (pending ≤ most_pending second) }
{
    let most = if second { 1_048_576 } else { 65_536 };
    1 <= pending && pending <= most
}

// Whether there may be so many routes, whose buffers have at most 2^30 bytes.
fn is_route_count(second: bool, front: &[u8]) -> bool
    requires { 40 ≤ length front.now }
    ensures { IsTrue result
        ↔ IsRouteCount second (number_at 16 4 front.now) (number_at 20 4 front.now)
        (number_at 32 4 front.now) (number_at 36 4 front.now) }
{
    let most = if second { 256 } else { 64 };
    let max_words = u128::from(u32_at(front, MAX_WORDS));
    let data_window = u128::from(u32_at(front, DATA_WINDOW));
    let pending = u128::from(u32_at(front, PENDING));
    let routes = u128::from(u32_at(front, ROUTES));
    routes <= most && routes * (data_window + 1 + pending) * (4 * max_words) <= 1 << 30
}

// Whether the bytes behind an identity are 0.
fn is_identity(front: &[u8]) -> bool
    requires { 60 ≤ length front.now }
    ensures { IsTrue result ↔ IsIdentityField (number_at 40 4 front.now) (number_at 44 4 front.now)
        (number_at 48 4 front.now) (number_at 52 4 front.now) (number_at 56 4 front.now) }
{
    let form = u32_at(front, IDENTITY_FORM);
    let word = u32_at(front, IDENTITY);
    let behind = u32_at(front, IDENTITY + 4) == 0
        && u32_at(front, IDENTITY + 8) == 0
        && u32_at(front, IDENTITY + 12) == 0;
    (form != 0 || word == 0) && (form > 1 || behind)
}

// Whether a word of the initial fields is one that a context may have there.
fn is_initial(word: u32, front: &[u8]) -> bool
    requires { 64 + 4 * word ≤ length front.now }
    ensures { IsTrue result ↔ IsInitialWord word (number_at (56 + 4 * word) 4 front.now)
        (number_at (60 + 4 * word) 4 front.now) }
{
    let offset = INITIAL + 4 * word as usize;
    is_initial_word(word, u32_at(front, offset - 4), u32_at(front, offset))
}

// Whether a word of the initial fields, with the one in front of it, is one that a context may
// have.
fn is_initial_word(place: u32, before: u32, word: u32) -> bool
    ensures { IsTrue result ↔ IsInitialWord place before word }
{
    match place as usize {
        RATE_WORD => word < 1 << 31,
        RATE_LOW_WORD => before != 0 || word >= 1 << 20,
        FORMAT_WORD => PayloadFormat::read(word, 0).is_ok(),
        FORMAT_SECOND_WORD => word == 0,
        _ => true,
    }
}

// Whether the step of a bounds entry is right.
fn is_step(bound: u32, front: &[u8]) -> bool
    requires { 148 + 28 * bound ≤ length front.now }
    ensures { IsTrue result
        ↔ IsStep (number_at (136 + 28 * bound) 4 front.now)
        (number_at (140 + 28 * bound) 8 front.now) }
{
    let offset = start_of_bound(bound as usize);
    let step = u64_at(front, offset + STEP);
    match u32_at(front, offset) {
        0 => step == 0,
        1 => 1 <= step && step < 1 << 63,
        _ => true,
    }
}

// Whether a field's values are signed numbers of 16 bits.
fn is_half(bound: u32) -> bool
    ensures { IsTrue result ↔ IsHalf bound }
{
    bound == 4 || bound == 5
}

// Whether the least value of a bounds entry is right.
fn is_least(bound: u32, front: &[u8]) -> bool
    requires { 156 + 28 * bound ≤ length front.now }
    ensures { IsTrue result ↔ IsLeast bound (number_at (136 + 28 * bound) 4 front.now)
        (number_at (140 + 28 * bound) 8 front.now) (signed_at (148 + 28 * bound) front.now) }
{
    let offset = start_of_bound(bound as usize);
    let step = u64_at(front, offset + STEP);
    let least = i64_at(front, offset + LEAST);
    match u32_at(front, offset) {
        0 => least == 0,
        1 => {
            least.unsigned_abs().is_multiple_of(step)
                && (!is_half(bound) || -32_768 <= least && least <= 32_767)
                && (bound != 6 || least >= 1 << 20)
        }
        _ => true,
    }
}

// Whether the greatest value of a bounds entry is not too great for the field.
fn is_in_half(bound: u32, front: &[u8]) -> bool
    requires { 164 + 28 * bound ≤ length front.now }
    ensures { IsTrue result ↔ (IsHalf bound → signed_at (156 + 28 * bound) front.now ≤ℤ pos 32767) }
{
    !is_half(bound) || i64_at(front, start_of_bound(bound as usize) + GREATEST) <= 32_767
}

// Whether the greatest value of a bounds entry is not below the least one.
fn is_range(bound: u32, front: &[u8]) -> bool
    requires { 164 + 28 * bound ≤ length front.now }
    ensures { IsTrue result
        ↔ (signed_at (148 + 28 * bound) front.now ≤ℤ signed_at (156 + 28 * bound) front.now) }
{
    let offset = start_of_bound(bound as usize);
    i64_at(front, offset + LEAST) <= i64_at(front, offset + GREATEST)
}

// Whether the greatest value of a bounds entry is right.
fn is_greatest(bound: u32, front: &[u8]) -> bool
    requires { 164 + 28 * bound ≤ length front.now }
    ensures { IsTrue result ↔ IsGreatest bound (number_at (136 + 28 * bound) 4 front.now)
        (number_at (140 + 28 * bound) 8 front.now) (signed_at (148 + 28 * bound) front.now)
        (signed_at (156 + 28 * bound) front.now) }
{
    let offset = start_of_bound(bound as usize);
    let step = u64_at(front, offset + STEP);
    let greatest = i64_at(front, offset + GREATEST);
    match u32_at(front, offset) {
        0 => greatest == 0,
        1 => {
            greatest.unsigned_abs().is_multiple_of(step)
                && is_range(bound, front)
                && is_in_half(bound, front)
        }
        _ => true,
    }
}

// Whether a route's stream ID is above that of the route before.
fn is_stream(second: bool, route: u32, front: &[u8]) -> bool
    requires { route_at second route + 4 ≤ length front.now }
    ensures { IsTrue result ↔ IsRightIn second (HeadField.Stream route) front.now }
{
    if route == 0 {
        return true;
    }
    let before = u32_at(front, start_of_route(second, route - 1));
    before < u32_at(front, start_of_route(second, route))
}

// Whether a route has one to four ports.
fn is_number(second: bool, route: u32, front: &[u8]) -> bool
    requires { route_at second route + 6 ≤ length front.now }
    ensures { IsTrue result ↔ IsRightIn second (HeadField.Number route) front.now }
{
    (1..=4).contains(&u16_at(front, start_of_route(second, route) + NUMBER))
}

// Whether a port of a route is another than those in front of it, or 0 behind them.
fn is_port(second: bool, route: u32, place: u32, front: &[u8]) -> bool
    requires { port_at second route place + 2 ≤ length front.now }
    ensures { IsTrue result ↔ IsPort second route place front.now }
{
    if !second {
        return true;
    }
    let port = u16_at(front, start_of_port(true, route, place));
    if u32::from(u16_at(front, start_of_route(true, route) + NUMBER)) <= place {
        return port == 0;
    }
    for earlier in 0..place {
        if u16_at(front, start_of_port(true, route, earlier)) == port {
            return false;
        }
    }
    true
}

// Whether the last bytes of a route are 0.
fn is_zero(second: bool, route: u32, front: &[u8]) -> bool
    requires { end_of second (HeadField.Zero route) ≤ length front.now }
    ensures { IsTrue result ↔ IsRightIn second (HeadField.Zero route) front.now }
{
    u16_at(front, HeadField::Zero(route).offset(second)) == 0
}
