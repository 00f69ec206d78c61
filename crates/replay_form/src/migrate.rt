ghost use Rattle.std.specs.Prelude.{◌≡◌, ◌≤◌, [], length, vec_capacity, IfOk};
ghost use Rattle.replay_form.specs.HeadValues.{AreHeadValues};
ghost use Rattle.replay_form.specs.SecondForm.{in_second_form};

use crate::record_head::RecordHead;
use crate::route_list::RouteList;
use std::alloc::Global;
use vrt_fields::Route;
use vrt_words::NoMemory;

/// The same header in form 2, which can be written where the given one can.
pub fn migrate_head(alloc: Global, head: &RecordHead) -> Result<RecordHead, NoMemory>
    ensures same { IfOk result (λ migrated. migrated ≡ in_second_form head.now) }
    ensures valid { IfOk result (λ migrated. AreHeadValues head.now → AreHeadValues migrated) }
{
    let Ok(routes) = Vec::with_capacity(alloc, head.routes.as_slice().len()) else {
        return Err(NoMemory);
    };
    Ok(migrate_head_into(head, routes))
}

/// The same header in form 2, with its routes in this room. It takes no memory.
pub fn migrate_head_into(head: &RecordHead, mut room: Vec<Route>) -> RecordHead
    requires empty { room.items ≡ [] }
    requires fits { length head.now.routes ≤ vec_capacity room }
    ensures same { result ≡ in_second_form head.now }
    ensures valid { AreHeadValues head.now → AreHeadValues result }
{
    match room.extend_from_slice(head.routes.as_slice()) {
        Ok(()) => {}
        Err(_) => unreachable!(),
    }
    RecordHead {
        form: 2,
        profile: head.profile,
        max_words: head.max_words,
        limits: head.limits,
        identity: head.identity,
        initial: head.initial,
        bounds: head.bounds,
        routes: RouteList::new(room),
    }
}
