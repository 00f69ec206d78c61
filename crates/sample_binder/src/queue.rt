ghost use Rattle.std.specs.Prelude.{◌≡◌, ◌∷◌, ◌++◌, [], ◌<◌, is_some};
ghost use Rattle.std.specs.VecDeque.{deque_len, deque_capacity};
ghost use Rattle.sample_binder.specs.Outputs.{open_reason};
ghost use Rattle.sample_binder.specs.Queue.{AreSound, AreShapes, first_decided};
ghost use Rattle.sample_binder.specs.Given.{IsDataBytes};
ghost use Rattle.sample_binder.specs.Calls.{shape_in};

use crate::decide::decide;
use crate::front::shape_of;
use crate::give::Leaving;
use crate::reason::Reason;
use crate::sampling::Shape;
use context_timeline::Timeline;
use std::collections::VecDeque;
use std::marker::Model;
use vrt_time::Stamp;
use vrt_words::PacketBuf;

/// A data packet that the window has released. Its size and its unused bits are read only where
/// they count, so that its bytes stay untouched while it waits.
#[derive(Drop)]
pub(crate) struct Pending {
    buf: PacketBuf,
    // When its first sample was captured.
    stamp: Stamp,
    // The number of data packets lost before it.
    lost: u8,
}

impl Model for Pending {
    ghost use Rattle.sample_binder.specs.Calls.{shape_in};
    ghost use Rattle.sample_binder.specs.Given.{IsDataBytes};
    ghost use Rattle.sample_binder.specs.Pending.{Pending};

    ghost Value = { Pending };

    ghost view = { λ p. record {
      buf = p.buf;
      shape = shape_in p.stamp p.buf.bytes;
      lost = p.lost;
    } };

    ghost invariant = { λ p. IsDataBytes p.buf.bytes };
}

impl Pending {
    /// A packet with this stamp, before which so many were lost.
    pub(crate) fn new(stamp: Stamp, lost: u8, buf: PacketBuf) -> Pending
        requires { IsDataBytes buf.bytes }
        ensures { result ≡ record { buf = buf; shape = shape_in stamp buf.bytes; lost = lost } }
    {
        Pending { buf, stamp, lost }
    }

    /// When its first sample was captured.
    pub(crate) fn stamp(&self) -> Stamp
        ensures { result ≡ self.now.shape.stamp }
    {
        self.stamp
    }

    /// What counts of it beside its samples.
    pub(crate) fn shape(&self) -> Shape
        ensures { result ≡ self.now.shape }
    {
        shape_of(self.stamp, self.buf.bytes())
    }

    /// Its buffer, and the number lost before it.
    pub(crate) fn into_parts(self) -> (PacketBuf, u8)
        ensures { result ≡ (self.buf, self.lost) }
    {
        (self.buf, self.lost)
    }
}

// Why a sample whose mark is open is not bound.
pub(crate) fn why_open(ended: bool) -> Reason
    ensures { result ≡ open_reason ended }
{
    if ended {
        Reason::Ended
    } else {
        Reason::PendingFull
    }
}

// Writes how the first of the packets that wait leaves, where it need not wait: whether it leaves.
pub(crate) fn decide_first(
    timeline: &Timeline,
    queue: &VecDeque<Pending>,
    pending: u32,
    ended: bool,
    leaving: &mut Option<Leaving>,
) -> bool
    requires sound { AreSound timeline.now.kept }
    requires shapes { AreShapes queue.now.items }
    ensures leaving { leaving.new ≡ first_decided pending timeline.now ended queue.now.items }
    ensures leaves { result ≡ is_some leaving.new }
{
    let Some(first) = queue.front() else {
        *leaving = None;
        return false;
    };
    let must = queue.len() > pending as usize || ended;
    decide(timeline, first, must, why_open(ended), leaving)
}
