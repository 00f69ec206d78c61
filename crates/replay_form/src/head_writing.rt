ghost use Rattle.std.specs.Prelude.{◌≡◌, ◌+◌, ◌*◌, ◌≤◌, ◌<◌, ◌^◌, ℕ, List, length, take, drop, false, true};
ghost use Rattle.vrt_words.specs.Words.{AreBytes};
ghost use Rattle.replay_form.specs.Head.{IsHead};
ghost use Rattle.replay_form.specs.HeadFields.{route_at, route_size};
ghost use Rattle.replay_form.specs.HeadSpelling.{IsHeadStart, IsLimitSpelled, AreLimitsSpelled, IsFirstRoute, IsSecondRoute, AreRoutesSpelled, identity_form, identity_words, magic_of, size_of_head};
ghost use Rattle.replay_form.specs.HeadValues.{AreHeadValues};
ghost use Rattle.replay_form.specs.Numbers.{AreNumbers};

use crate::head_field::{
    CID, CONTEXT_WINDOW, DATA_WINDOW, FIXED_SIZE, IDENTITY, IDENTITY_FORM, INITIAL, KEPT, MAGIC,
    MAX_WORDS, PENDING, ROUTES, TSI, size_of_route, start_of_bound, start_of_route,
};
use crate::head_rules::{FIRST_MAGIC, SECOND_MAGIC};
use crate::put::{put_u16, put_u32, put_u64};
use crate::record_head::RecordHead;
use cam_field::Ident;
use vrt_fields::{Limit, Route};

// The first eight bytes of a record of this form.
fn magic(form: u8) -> u64
    ensures { result ≡ magic_of form }
{
    if form == 2 { SECOND_MAGIC } else { FIRST_MAGIC }
}

// The code of the form of an identity.
fn form_of(identity: &Ident) -> u32
    ensures { result ≡ identity_form identity.now }
{
    match identity {
        Ident::None => 0,
        Ident::Word(_) => 1,
        Ident::Uuid(_) => 2,
    }
}

// The four words of an identity, those that it does not have 0.
fn words_of(identity: &Ident) -> [u32; 4]
    ensures { result ≡ identity_words identity.now }
{
    match identity {
        Ident::None => [0; 4],
        Ident::Word(word) => [*word, 0, 0, 0],
        Ident::Uuid(words) => *words,
    }
}

// The numbers in front of the limits.
fn put_profile(head: &RecordHead, into: &mut [u8])
    requires { 332 ≤ length into.old }
    ensures agrees { (bytes : List ℕ) → IsHeadStart head.now bytes
        → take 20 into.new ≡ take 20 bytes }
    ensures stays { (n : ℕ) → 20 ≤ n → drop n into.new ≡ drop n into.old }
{
    put_u64(into, MAGIC, magic(head.form));
    put_u32(into, CID, head.profile.cid());
    put_u32(into, TSI, u32::from(head.profile.tsi()));
    put_u32(into, MAX_WORDS, head.max_words);
}

// The limits, the number of routes, and the form of the identity.
fn put_limits(head: &RecordHead, into: &mut [u8])
    requires there { 332 ≤ length into.old }
    requires few { length head.now.routes ≤ 256 }
    ensures agrees { (bytes : List ℕ) → IsHeadStart head.now bytes
        → take 20 into.old ≡ take 20 bytes → take 44 into.new ≡ take 44 bytes }
    ensures stays { (n : ℕ) → 44 ≤ n → drop n into.new ≡ drop n into.old }
{
    put_u32(into, DATA_WINDOW, head.limits.data_window);
    put_u32(into, CONTEXT_WINDOW, head.limits.context_window);
    put_u32(into, KEPT, head.limits.kept);
    put_u32(into, PENDING, head.limits.pending);
    put_u32(into, ROUTES, head.routes.as_slice().len() as u32);
    put_u32(into, IDENTITY_FORM, form_of(&head.identity));
}

// Words one after another, from an offset on.
fn put_words(into: &mut [u8], offset: usize, words: &[u32])
    requires { offset + 4 * length words.now ≤ length into.old }
    ensures agrees { (bytes : List ℕ) → AreBytes bytes
        → offset + 4 * length words.now ≤ length bytes
        → AreNumbers words.now offset (length words.now) bytes
        → take offset into.old ≡ take offset bytes
        → take (offset + 4 * length words.now) into.new
        ≡ take (offset + 4 * length words.now) bytes }
    ensures stays { (n : ℕ) → offset + 4 * length words.now ≤ n
        → drop n into.new ≡ drop n into.old }
{
    for i in 0..words.len() {
        put_u32(into, offset + 4 * i, words[i]);
    }
}

// An entry of the bounds.
fn put_limit(into: &mut [u8], bound: usize, limit: &Limit)
    requires bound { bound < 7 }
    requires there { 332 ≤ length into.old }
    ensures agrees { (bytes : List ℕ) → IsLimitSpelled limit.now bound bytes
        → take (136 + 28 * bound) into.old ≡ take (136 + 28 * bound) bytes
        → take (164 + 28 * bound) into.new ≡ take (164 + 28 * bound) bytes }
    ensures stays { (n : ℕ) → 164 + 28 * bound ≤ n → drop n into.new ≡ drop n into.old }
{
    let offset = start_of_bound(bound);
    let offset = put_u32(into, offset, u32::from(limit.settable));
    let offset = put_u64(into, offset, limit.step);
    let offset = put_u64(into, offset, limit.least.cast_unsigned());
    put_u64(into, offset, limit.greatest.cast_unsigned());
}

// A route of form 1.
fn put_first_route(into: &mut [u8], place: u32, route: &Route)
    requires { route_at false place + 8 ≤ length into.old }
    ensures agrees { (bytes : List ℕ) → IsFirstRoute route.now place bytes
        → take (route_at false place) into.old ≡ take (route_at false place) bytes
        → take (route_at false place + 8) into.new ≡ take (route_at false place + 8) bytes }
    ensures stays { (n : ℕ) → route_at false place + 8 ≤ n → drop n into.new ≡ drop n into.old }
{
    let offset = put_u32(into, start_of_route(false, place), route.stream);
    let offset = put_u16(into, offset, route.ports[0]);
    put_u16(into, offset, 0);
}

// A route of form 2.
fn put_second_route(into: &mut [u8], place: u32, route: &Route)
    requires { route_at true place + 16 ≤ length into.old }
    ensures agrees { (bytes : List ℕ) → IsSecondRoute route.now place bytes
        → take (route_at true place) into.old ≡ take (route_at true place) bytes
        → take (route_at true place + 16) into.new ≡ take (route_at true place + 16) bytes }
    ensures stays { (n : ℕ) → route_at true place + 16 ≤ n → drop n into.new ≡ drop n into.old }
{
    let offset = put_u32(into, start_of_route(true, place), route.stream);
    let offset = put_u16(into, offset, u16::from(route.number));
    let offset = put_u16(into, offset, route.ports[0]);
    let offset = put_u16(into, offset, route.ports[1]);
    let offset = put_u16(into, offset, route.ports[2]);
    let offset = put_u16(into, offset, route.ports[3]);
    put_u16(into, offset, 0);
}

// All entries of the bounds.
fn put_bounds(into: &mut [u8], bounds: &[Limit; 7])
    requires { 332 ≤ length into.old }
    ensures agrees { (bytes : List ℕ) → AreLimitsSpelled bounds.now bytes
        → take 136 into.old ≡ take 136 bytes → take 332 into.new ≡ take 332 bytes }
    ensures stays { (n : ℕ) → 332 ≤ n → drop n into.new ≡ drop n into.old }
{
    for bound in 0..7 {
        put_limit(into, bound, &bounds[bound]);
    }
}

// All routes of a record of form 1.
fn put_first_routes(into: &mut [u8], routes: &[Route])
    requires few { length routes.now ≤ 256 }
    requires there { 332 + 8 * length routes.now ≤ length into.old }
    ensures agrees { (bytes : List ℕ) → AreRoutesSpelled false routes.now bytes
        → take 332 into.old ≡ take 332 bytes
        → take (332 + 8 * length routes.now) into.new ≡ take (332 + 8 * length routes.now) bytes }
    ensures stays { (n : ℕ) → 332 + 8 * length routes.now ≤ n → drop n into.new ≡ drop n into.old }
{
    for place in 0..routes.len() {
        put_first_route(into, place as u32, &routes[place]);
    }
}

// All routes of a record of form 2.
fn put_second_routes(into: &mut [u8], routes: &[Route])
    requires few { length routes.now ≤ 256 }
    requires there { 332 + 16 * length routes.now ≤ length into.old }
    ensures agrees { (bytes : List ℕ) → AreRoutesSpelled true routes.now bytes
        → take 332 into.old ≡ take 332 bytes
        → take (332 + 16 * length routes.now) into.new ≡ take (332 + 16 * length routes.now) bytes }
    ensures stays { (n : ℕ) → 332 + 16 * length routes.now ≤ n → drop n into.new ≡ drop n into.old }
{
    for place in 0..routes.len() {
        put_second_route(into, place as u32, &routes[place]);
    }
}

// All routes.
fn put_routes(into: &mut [u8], second: bool, routes: &[Route])
    requires few { length routes.now ≤ 256 }
    requires there { 332 + route_size second * length routes.now ≤ length into.old }
    ensures agrees { (bytes : List ℕ) → AreRoutesSpelled second routes.now bytes
        → take 332 into.old ≡ take 332 bytes
        → take (332 + route_size second * length routes.now) into.new
        ≡ take (332 + route_size second * length routes.now) bytes }
    ensures stays { (n : ℕ) → 332 + route_size second * length routes.now ≤ n
        → drop n into.new ≡ drop n into.old }
{
    if second {
        put_second_routes(into, routes);
    } else {
        put_first_routes(into, routes);
    }
}

/// Writes a header at the front of `into`, in the form that it names, and answers the number of its
/// bytes: 332, and 8 or 16 for each route. All other bytes stay.
///
/// The values obey the rules of a header. Reading it again gives the same, and writing what was
/// read gives the same bytes.
pub fn encode_head(head: &RecordHead, into: &mut [u8]) -> usize
    requires valid { AreHeadValues head.now }
    requires room { size_of_head head.now ≤ length into.old }
    ensures length { result ≡ size_of_head head.now }
    ensures head { IsHead head.now (take result into.new) }
    ensures again { (bytes : List ℕ) → AreBytes bytes → IsHead head.now bytes
        → take result into.new ≡ bytes }
    ensures behind { drop result into.new ≡ drop result into.old }
{
    let second = head.form == 2;
    let routes = head.routes.as_slice();
    let words = words_of(&head.identity);
    put_profile(head, into);
    put_limits(head, into);
    put_words(into, IDENTITY, &words);
    put_words(into, INITIAL, &head.initial);
    put_bounds(into, &head.bounds);
    put_routes(into, second, routes);
    FIXED_SIZE + size_of_route(second) * routes.len()
}
