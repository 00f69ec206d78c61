ghost use Rattle.std.specs.Prelude.{◌≡◌, ◌≢◌, IsTrue, false, ℕ, ◌+◌, ◌<◌, ◌≤◌, ◌^◌, length, slice_index, vec_capacity, IfSome, IfNone};
ghost use Rattle.std.specs.List.{sum_by};
ghost use Rattle.sample_binder.specs.Binder.{number_kept};
ghost use Rattle.difi_gateway.specs.State.{IsSound, IsDrawnAhead, IsWithin};
ghost use Rattle.difi_gateway.specs.Drawing.{MayGoOn};
ghost use Rattle.difi_gateway.specs.Progress.{IsMoved, IsDrawnAt, IsOnWay, IsNextGiven, IsNoneGiven, IsOwing, IsSettledAt};
ghost use Rattle.difi_gateway.specs.Steps.{gated};
ghost use Rattle.difi_gateway.specs.Writing.{Appends};
ghost use Rattle.difi_gateway.specs.Telling as telling;

use crate::drawn::Drawn;
use crate::parts::Parts;
use crate::stage::Stage;
use crate::telling::Telling;
use text_buffer::TextBuffer;

impl Parts {
    /// Whether something is told now.
    pub fn tells(&self) -> bool
        ensures told { IsTrue result → (gated self.now).telling ≢ telling.Nothing }
        ensures quiet { result ≡ false → (gated self.now).telling ≡ telling.Nothing }
    {
        !matches!(self.telling, Telling::Nothing)
    }

    /// Whether a release is owed, where no binder can be drawn from.
    pub fn owes(&self) -> bool
        ensures owing { IsTrue result → IsOwing (gated self.now) }
        ensures settled { result ≡ false → IsDrawnAhead (gated self.now)
            → IsSettledAt (gated self.now) }
    {
        if self.tells() {
            return true;
        }
        match self.stage {
            Stage::Waiting | Stage::Drawing { .. } | Stage::Over => false,
            Stage::Ending { .. } => true,
        }
    }

    /// Draws from the binders until something is told, or none of them can be drawn from.
    #[inline]
    pub fn draw_ahead(&mut self)
        requires { IsSound (gated self.old) }
        ensures way { IsOnWay (gated self.old) (gated self.new) }
        ensures sound { IsSound (gated self.new) }
        ensures ahead { IsDrawnAhead (gated self.new) }
    {
        while let Some(index) = self.route_to_draw() {
            self.move_on(index);
        }
    }

    // The index of the route whose binder can be drawn from.
    #[inline]
    fn route_to_draw(&self) -> Option<usize>
        requires { IsWithin self.now.stage (length self.now.binders.items) }
        ensures some { IfSome result (λ index. IsDrawnAt index (gated self.now)) }
        ensures none { IfNone result (IsDrawnAhead (gated self.now)) }
    {
        if self.tells() {
            return None;
        }
        match self.stage {
            Stage::Waiting | Stage::Over => None,
            Stage::Drawing { index } => Some(index),
            Stage::Ending { index } => {
                if index < self.binders.len() {
                    Some(index)
                } else {
                    None
                }
            }
        }
    }

    /// Draws the next output of the binder of this route, or goes on behind it where it owes nothing.
    #[inline]
    fn move_on(&mut self, index: usize)
        requires within { index < length self.old.binders.items }
        requires room { length self.old.empty.items + sum_by number_kept self.old.binders.items
            ≤ vec_capacity self.old.empty }
        requires bound { slice_index self.old.counts 1 < 2 ^ 63 }
        requires uncertain { slice_index self.old.counts 2 < 2 ^ 63 }
        requires raw { slice_index self.old.counts 3 < 2 ^ 63 }
        requires next { MayGoOn self.old.stage self.old.binders.items }
        ensures { IsMoved index (gated self.old) (gated self.new) }
    {
        match self.draw_next(index) {
            Drawn::Packet | Drawn::Run => (),
            Drawn::Nothing => self.go_on(),
        }
    }

    /// Puts the next release record behind the bytes of a buffer, and draws ahead. False where nothing
    /// is owed.
    pub fn put_next(&mut self, out: &mut TextBuffer) -> bool
        requires sound { IsSound (gated self.old) }
        requires ahead { IsDrawnAhead (gated self.old) }
        requires room { length out.old ≤ 65536 }
        ensures given { IsTrue result
            → Appends (λ bytes. IsNextGiven bytes (gated self.old)
            (gated self.new)) out.old out.new }
        ensures sound { IsSound (gated self.new) }
        ensures ahead { IsDrawnAhead (gated self.new) }
        ensures same { result ≡ false → out.new ≡ out.old }
        ensures none { result ≡ false → IsNoneGiven (gated self.old) (gated self.new) }
    {
        if !self.put_owed(out) {
            return false;
        }
        self.draw_ahead();
        true
    }

    // Puts what `put_next` puts, and draws nothing.
    fn put_owed(&mut self, out: &mut TextBuffer) -> bool
        requires sound { IsSound (gated self.old) }
        requires ahead { IsDrawnAhead (gated self.old) }
        requires room { length out.old ≤ 65536 }
        ensures given { IsTrue result
            → Appends (λ bytes. IsNextGiven bytes (gated self.old)
            (gated self.new)) out.old out.new }
        ensures sound { IsSound (gated self.new) }
        ensures same { result ≡ false → out.new ≡ out.old }
        ensures none { result ≡ false → IsNoneGiven (gated self.old) (gated self.new) }
    {
        if self.tells() {
            self.put_copy(out);
            true
        } else {
            self.put_counts(out)
        }
    }

    // Puts the counts, where they alone are left. Nothing is told.
    fn put_counts(&mut self, out: &mut TextBuffer) -> bool
        requires sound { IsSound (gated self.old) }
        requires ahead { IsDrawnAhead (gated self.old) }
        requires quiet { (gated self.old).telling ≡ telling.Nothing }
        requires room { length out.old ≤ 65536 }
        ensures given { IsTrue result
            → Appends (λ bytes. IsNextGiven bytes (gated self.old)
            (gated self.new)) out.old out.new }
        ensures sound { IsSound (gated self.new) }
        ensures same { result ≡ false → out.new ≡ out.old }
        ensures none { result ≡ false → IsNoneGiven (gated self.old) (gated self.new) }
    {
        match self.stage {
            Stage::Ending { .. } => {
                self.put_end(out);
                true
            }
            Stage::Over | Stage::Drawing { .. } | Stage::Waiting => false,
        }
    }
}
