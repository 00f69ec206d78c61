ghost use Rattle.std.specs.Prelude.{◌≡◌, ℕ, ◌≤◌, List, [], ◌∷◌, ◌++◌, OnErr};
ghost use Rattle.vrt_words.specs.Buffer.{Buffer};
ghost use Rattle.difi_context.specs.Context.{IsInGrammar};
ghost use Rattle.reorder_window.specs.declared.entry.Entry.{Entry};
ghost use Rattle.reorder_window.specs.State.{StandsFor, IsUndrained};
ghost use Rattle.reorder_window.specs.Window.{AreFalling, accepted, answer, releases};
ghost use Rattle.sample_binder.specs.Calls.{outcome, context_entry, data_entry, front_in};
ghost use Rattle.sample_binder.specs.Arrivals.{releases_by, Takes};

use crate::front::Front;
use difi_context::ContextRec;
use reorder_window::{Arrival, HeldItem, Window, accepted_are_arrivals};
use vrt_time::Stamp;
use vrt_words::PacketBuf;

/// Why a packet is not taken.
#[derive(Clone, Copy, Debug, PartialEq, Eq)]
pub enum Turned {
    /// Its stamp is not above this one, that of a packet of its kind that was released already.
    Late(Stamp),
    /// The packet with its stamp that is held is the same.
    Repeat,
    /// The packet with its stamp that is held is another one, with this count.
    Conflict(u8),
}

// A packet arrives at its window: what it releases, or why it is not taken.
pub(crate) fn arrive<T: HeldItem>(
    window: &mut Window<T>,
    stamp: Stamp,
    count: u8,
    item: T,
) -> Result<Option<(Stamp, u8, T)>, (Turned, T)>
    requires count { count ≤ 15 }
    requires undrained { IsUndrained window.old }
    ensures answer { (arrivals : List (Entry T)) → StandsFor window.old arrivals 0
        → result ≡ outcome (answer T.is_same window.old.size arrivals
        (record { stamp = stamp; count = count; item = item })) }
    ensures stands { (arrivals : List (Entry T)) → StandsFor window.old arrivals 0
        → StandsFor window.new
        (arrivals ++ record { stamp = stamp; count = count; item = item } ∷ []) 0 }
    ensures given { (arrivals : List (Entry T)) → StandsFor window.old arrivals 0
        → releases window.old.size
        (arrivals ++ record { stamp = stamp; count = count; item = item } ∷ []) 0
        ≡ releases window.old.size arrivals 0 ++ releases_by result }
    ensures err { (arrivals : List (Entry T)) → StandsFor window.old arrivals 0
        → OnErr result (window.new ≡ window.old) }
    ensures size { window.new.size ≡ window.old.size }
{
    match window.arrive(stamp, count, item) {
        Arrival::Kept => Ok(None),
        Arrival::Released { stamp, lost, item } => Ok(Some((stamp, lost, item))),
        Arrival::Late { boundary, item } => Err((Turned::Late(boundary), item)),
        Arrival::Repeat { item } => Err((Turned::Repeat, item)),
        Arrival::Conflict { held, item } => Err((Turned::Conflict(held), item)),
    }
}

// A context arrives at its window.
pub(crate) fn arrive_context(
    window: &mut Window<ContextRec>,
    rec: ContextRec,
) -> Result<Option<(Stamp, u8, ContextRec)>, (Turned, ContextRec)>
    requires grammar { IsInGrammar rec }
    requires count { rec.prologue.header.count ≤ 15 }
    requires undrained { IsUndrained window.old }
    ensures takes { (arrivals : List (Entry ContextRec)) → StandsFor window.old arrivals 0
        → Takes ⟦<ContextRec as HeldItem>⟧.is_same window.old window.new arrivals
        (context_entry rec) result }
    ensures size { window.new.size ≡ window.old.size }
    ensures falling { (size : ℕ) (arrivals : List (Entry ContextRec))
        → AreFalling (accepted size arrivals) }
{
    accepted_are_arrivals::<ContextRec>();
    let stamp = rec.stamp();
    let count = rec.prologue.header.count;
    arrive(window, stamp, count, rec)
}

// A data packet with this front arrives at its window.
pub(crate) fn arrive_data(
    window: &mut Window<PacketBuf>,
    front: Front,
    buf: PacketBuf,
) -> Result<Option<(Stamp, u8, PacketBuf)>, (Turned, PacketBuf)>
    requires front { front ≡ front_in buf.bytes }
    requires undrained { IsUndrained window.old }
    ensures takes { (arrivals : List (Entry Buffer)) → StandsFor window.old arrivals 0
        → Takes ⟦<PacketBuf as HeldItem>⟧.is_same window.old window.new arrivals
        (data_entry buf) result }
    ensures size { window.new.size ≡ window.old.size }
{
    arrive(window, front.stamp, front.count, buf)
}
