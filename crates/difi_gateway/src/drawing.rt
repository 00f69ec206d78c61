ghost use Rattle.std.specs.Prelude.{◌≡◌, ◌≢◌, Some, ℕ, ◌+◌, ◌<◌, ◌≤◌, ◌^◌, length, slice_index, vec_capacity};
ghost use Rattle.std.specs.List.{sum_by};
ghost use Rattle.sample_binder.specs.Binder.{number_kept};
ghost use Rattle.sample_binder.specs.GivenOut.{out_with};
ghost use Rattle.sample_binder.specs.declared.out.Given.TheVariants as given;
ghost use Rattle.difi_gateway.specs.Drawing.{IsGivenBy, counted, IsDrawn, IsUntold, IsEnded, MayBeTold, IsEndTold, MayGoOn, IsGoneOn};
ghost use Rattle.difi_gateway.specs.Steps.{gated};
ghost use Rattle.difi_gateway.specs.Telling as telling;

use crate::drawn::Drawn;
use crate::parts::Parts;
use crate::stage::Stage;
use crate::telling::Telling;
use sample_binder::{Binder, Given, Run};

// Where each of them stands among the counts.
const BOUND: usize = 1;

const UNCERTAIN: usize = 2;

const RAW: usize = 3;

impl Parts {
    /// Draws the next output of the binder of this route, and tells it where it is a run.
    pub fn draw_next(&mut self, index: usize) -> Drawn
        requires within { index < length self.old.binders.items }
        requires room { length self.old.empty.items + sum_by number_kept self.old.binders.items
            ≤ vec_capacity self.old.empty }
        requires bound { slice_index self.old.counts 1 < 2 ^ 63 }
        requires uncertain { slice_index self.old.counts 2 < 2 ^ 63 }
        requires raw { slice_index self.old.counts 3 < 2 ^ 63 }
        ensures { IsDrawn index result (gated self.old) (gated self.new) }
    {
        match next_of(&mut self.binders[index], &mut self.run) {
            Some(Given::Packet { buf, lost }) => {
                self.empty.push_reserved(buf);
                self.lost = lost;
                Drawn::Packet
            }
            Some(Given::Run) => {
                self.tell(index);
                Drawn::Run
            }
            None => Drawn::Nothing,
        }
    }

    // Tells the run, of the packet in the last of the buffers, and counts it.
    fn tell(&mut self, index: usize)
        requires bound { slice_index self.old.counts 1 < 2 ^ 63 }
        requires uncertain { slice_index self.old.counts 2 < 2 ^ 63 }
        requires raw { slice_index self.old.counts 3 < 2 ^ 63 }
        ensures { gated self.new ≡ record (gated self.old) {
          counts = counted self.old.run self.old.counts;
          telling = telling.Run index self.old.lost self.old.run;
          place = 0;
          lost = 0;
        } }
    {
        count(&self.run, &mut self.counts);
        self.telling = Telling::Run {
            index,
            lost: self.lost,
        };
        self.place = 0;
        self.lost = 0;
    }

    /// Goes on behind a binder that owes nothing: the gateway waits again; or, at the end, the next
    /// binder is told it.
    pub fn go_on(&mut self)
        requires { MayGoOn self.old.stage self.old.binders.items }
        ensures { IsGoneOn self.old.stage (gated self.old) (gated self.new) }
    {
        match self.stage {
            Stage::Drawing { .. } => self.stage = Stage::Waiting,
            Stage::Ending { index } => self.tell_end(index + 1),
            Stage::Waiting | Stage::Over => (),
        }
    }

    /// The binder of this route is told the end, where there is such a route.
    pub fn tell_end(&mut self, index: usize)
        requires { MayBeTold index self.old.binders.items }
        ensures { IsEndTold index (gated self.old) (gated self.new) }
    {
        self.stage = Stage::Ending { index };
        if index < self.binders.len() {
            end(&mut self.binders[index]);
        }
    }
}

// The next output of a binder. Where it is a run, `run` is.
fn next_of(binder: &mut Binder, run: &mut Run) -> Option<Given>
    ensures given { IsGivenBy (out_with result run.new) binder.old binder.new }
    ensures run { result ≢ Some given.Run → run.new ≡ run.old }
{
    binder.next_into(run)
}

// A binder is told the end.
fn end(binder: &mut Binder)
    requires { IsUntold binder.old }
    ensures { IsEnded binder.old binder.new }
{
    binder.end()
}

// Counts the samples of a run, or a raw packet.
fn count(run: &Run, counts: &mut [u64; 7])
    requires bound { slice_index counts.old 1 < 2 ^ 63 }
    requires uncertain { slice_index counts.old 2 < 2 ^ 63 }
    requires raw { slice_index counts.old 3 < 2 ^ 63 }
    ensures { counts.new ≡ counted run.now counts.old }
{
    match run {
        Run::Bound { number, .. } => counts[BOUND] += u64::from(*number),
        Run::Uncertain { number, .. } => counts[UNCERTAIN] += u64::from(*number),
        Run::Raw { .. } => counts[RAW] += 1,
    }
}
