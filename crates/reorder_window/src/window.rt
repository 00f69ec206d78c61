ghost use Rattle.std.specs.Prelude.{◌≡◌, ℕ, ◌+◌, ◌≤◌, [], List, ◌∷◌, ◌++◌, None, IfOk, IfSome, IfNone, OnSome};
ghost use Rattle.reorder_window.specs.State.{StandsFor, IsUndrained};
ghost use Rattle.reorder_window.specs.Steps.{IsGiven};
ghost use Rattle.reorder_window.specs.Window.{answer, releases, released_by};
ghost use Rattle.reorder_window.specs.declared.entry.Entry.{Entry};

use crate::arrival::Arrival;
use crate::entry::{Entry, Last};
use crate::held_item::HeldItem;
use crate::judge::{Judged, judge};
use crate::release::{accept, take_least};
use std::alloc::Global;
use std::collections::VecDeque;
use std::marker::Model;
use vrt_time::Stamp;
use vrt_words::NoMemory;

/// A reorder window: it holds at most `size` packets, the greatest stamp first, and releases the
/// one of the least stamp when one more is accepted. It takes its memory once, at opening.
#[derive(Drop)]
pub struct Window<T> {
    size: u32,
    held: VecDeque<Entry<T>>,
    last: Option<Last>,
}

impl<T> Model for Window<T> {
    ghost use Rattle.std.specs.Prelude.{length};
    ghost use Rattle.std.specs.VecDeque.{deque_len, deque_capacity};
    ghost use Rattle.reorder_window.specs.State.{Holding, HoldingFits};

    ghost Value = { Holding T };

    ghost view = { λ w. record { size = w.size; held = w.held.items; last = w.last } };

    ghost invariant = { λ w. HoldingFits (length w.held.items) (deque_len w.held) w.size (deque_capacity w.held) };
}

impl<T> Window<T> {
    /// A window of this size to which nothing has arrived.
    pub fn open(alloc: Global, size: u32) -> Result<Window<T>, NoMemory>
        requires { size ≤ 4096 }
        ensures size { IfOk result (λ window. window.size ≡ size) }
        ensures stands { IfOk result (λ window. StandsFor window [] 0) }
        ensures undrained { IfOk result (λ window. IsUndrained window) }

        // By what the window keeps, and not by its arrivals.
        ensures empty { IfOk result (λ window. window
            ≡ record { size = size; held = []; last = None }) }
    {
        match VecDeque::with_capacity(alloc, size as usize + 1) {
            Ok(held) => Ok(Window {
                size,
                held,
                last: None,
            }),
            Err(_) => Err(NoMemory),
        }
    }

    /// The least held packet: its stamp, the number lost before it, modulo 16, and its item. `None`
    /// exactly where nothing is held.
    pub fn drain_one(&mut self) -> Option<(Stamp, u8, T)>
        // What is given is the next of the releases, and the window stands for one draining call more.
        ensures given { (arrivals : List (Entry T)) (drained : ℕ)
            → StandsFor self.old arrivals drained → IfSome result
            (λ given. releases self.old.size arrivals (drained + 1)
            ≡ releases self.old.size arrivals drained ++ given ∷ []) }
        ensures stands { (arrivals : List (Entry T)) (drained : ℕ)
            → StandsFor self.old arrivals drained
            → OnSome result (StandsFor self.new arrivals (drained + 1)) }
        ensures size { self.new.size ≡ self.old.size }

        // By what the window keeps, and not by its arrivals.
        ensures least { IfSome result
            (IsGiven self.old.held self.old.last self.new.held self.new.last) }
        ensures none { IfNone result (self.old.held ≡ []) }
        ensures same { IfNone result (self.new ≡ self.old) }
    {
        take_least(&mut self.held, &mut self.last)
    }
}

impl<T: HeldItem> Window<T> {
    /// Takes a packet of this stamp and count, modulo 16, that has arrived. Nothing was drained yet.
    pub fn arrive(&mut self, stamp: Stamp, count: u8, item: T) -> Arrival<T>
        requires count { count ≤ 15 }
        requires undrained { IsUndrained self.old }

        // The answer is the one that is defined, and the window stands for the arrivals with this one.
        ensures answer { (arrivals : List (Entry T)) → StandsFor self.old arrivals 0
            → result
            ≡ answer T.is_same self.old.size arrivals
            (record { stamp = stamp; count = count; item = item }) }
        ensures stands { (arrivals : List (Entry T)) → StandsFor self.old arrivals 0
            → StandsFor self.new (arrivals
            ++ record { stamp = stamp; count = count; item = item } ∷ []) 0 }
        ensures given { (arrivals : List (Entry T)) → StandsFor self.old arrivals 0
            → releases self.old.size (arrivals
            ++ record { stamp = stamp; count = count; item = item } ∷ []) 0
            ≡ releases self.old.size arrivals 0 ++ released_by result }
        ensures undrained { IsUndrained self.new }
        ensures size { self.new.size ≡ self.old.size }
    {
        match judge(&self.held, &self.last, stamp, &item) {
            Judged::NotAbove(boundary) => Arrival::Late { boundary, item },
            Judged::SameItem => Arrival::Repeat { item },
            Judged::OtherItem(held) => Arrival::Conflict { held, item },
            Judged::Fresh(place) => accept(
                &mut self.held,
                &mut self.last,
                self.size,
                place,
                Entry { stamp, count, item },
            ),
        }
    }
}
