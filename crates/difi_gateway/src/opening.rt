ghost use Rattle.std.specs.Prelude.{◌≡◌, ℕ, ◌+◌, ◌*◌, ◌<◌, ◌≤◌, ◌^◌, length, vec_len, vec_capacity, IfOk};
ghost use Rattle.std.specs.List.{AllByRecursion};
ghost use Rattle.vrt_fields.specs.Limits.{AreLimits};
ghost use Rattle.replay_form.specs.HeadValues.{AreHeadValues};
ghost use Rattle.difi_gateway.specs.State.{HasRoom, number_of_buffers};
ghost use Rattle.difi_gateway.specs.Opened.{IsFresh, IsOpened};
ghost use Rattle.difi_gateway.specs.Steps.{gated};

use crate::parts::Parts;
use crate::stage::Stage;
use crate::telling::Telling;
use replay_form::RecordHead;
use sample_binder::{Binder, Run};
use std::alloc::Global;
use stream_routes::{Routes, routes_of_form_1_are_of_form_2};
use vrt_fields::Limits;
use vrt_header::Profile;
use vrt_words::{NoMemory, PacketBuf};

/// The parts of a gateway for the records of this header, to which no frame was given.
pub(crate) fn open_parts(alloc: Global, head: &RecordHead) -> Result<Parts, NoMemory>
    requires { AreHeadValues head.now }
    ensures { IfOk result (λ parts. IsOpened head.now (gated parts)) }
{
    let routes = open_routes(alloc, head)?;
    let binders = open_binders(alloc, head.profile, head.limits, routes.len())?;
    let empty = open_buffers(alloc, head.max_words, buffers_of(head))?;
    Ok(Parts {
        profile: head.profile,
        max_words: head.max_words,
        routes,
        binders,
        empty,
        counts: [0; 7],
        taken: 0,
        telling: Telling::Nothing,
        run: Run::blank(),
        place: 0,
        lost: 0,
        stage: Stage::Waiting,
    })
}

fn open_routes(alloc: Global, head: &RecordHead) -> Result<Routes, NoMemory>
    requires { AreHeadValues head.now }
    ensures { IfOk result (λ routes. routes ≡ head.now.routes) }
{
    routes_of_form_1_are_of_form_2();
    Routes::of(alloc, head.routes.as_slice())
}

// So many binders, to which nothing was given.
fn open_binders(
    alloc: Global,
    profile: Profile,
    limits: Limits,
    number: usize,
) -> Result<Vec<Binder>, NoMemory>
    requires { AreLimits limits }
    ensures number { IfOk result (λ binders. length binders.items ≡ number) }
    ensures fresh { IfOk result (λ binders. AllByRecursion (IsFresh profile limits) binders.items) }
{
    let Ok(mut binders) = Vec::with_capacity(alloc, number) else {
        return Err(NoMemory);
    };
    for _ in 0..number {
        binders.push_reserved(Binder::open(alloc, profile, limits)?);
    }
    Ok(binders)
}

// How many data packets the binders may keep together, and one more.
fn buffers_of(head: &RecordHead) -> usize
    requires { AreHeadValues head.now }
    ensures { result ≡ number_of_buffers head.now }
{
    let kept = head.limits.data_window as usize + 1 + head.limits.pending as usize;
    head.routes.as_slice().len() * kept + 1
}

// So many empty buffers, each with room for this many words.
fn open_buffers(alloc: Global, max_words: u32, number: usize) -> Result<Vec<PacketBuf>, NoMemory>
    requires { max_words ≤ 16376 }
    ensures number { IfOk result (λ buffers. length buffers.items ≡ number) }
    ensures rooms { IfOk result (λ buffers. AllByRecursion (HasRoom max_words) buffers.items) }
    ensures memory { IfOk result (λ buffers. number ≤ vec_capacity buffers) }
{
    let buffers = PacketBuf::open_many(alloc, max_words, number)?;
    Ok(buffers)
}
