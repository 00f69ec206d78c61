ghost use Rattle.std.specs.Prelude.{◌≡◌, ◌≤◌, ◌<◌, true, false, []};
ghost use Rattle.vrt_header.specs.Profile.{profile_of};
ghost use Rattle.difi_context.specs.Context.{IsSpelled};
ghost use Rattle.sample_binder.specs.Given.{IsDataOf};
ghost use Rattle.vrt_fields.specs.Limits.{AreLimits};
ghost use Rattle.sample_binder.specs.Queue.{owed};

use crate::tests::harness::profile;
use crate::{Binder, Given, Limits, Out, Run, Turned};
use difi_context::ContextRec;
use std::alloc::Global;
use vrt_words::PacketBuf;

/// The most packets that a test gives.
const MOST: u32 = 100;

/// What is given where runs are written in place.
#[derive(Clone, Copy, Debug, PartialEq, Eq)]
pub(crate) enum Kind {
    /// A packet, with so many lost before it.
    Packet(u8),
    /// The run that was written.
    Run,
    Nothing,
}

/// A binder under test.
#[derive(Drop)]
pub(crate) struct Player {
    binder: Binder,
    given: u32,
    told: bool,
    ghost of_profile: { binder.profile ≡ profile_of 0x6A621E 1 },
    ghost counted: { binder.given ≤ given },
    ghost told_too: { binder.told ≡ told },
}

impl Player {
    pub(crate) fn open(alloc: Global, limits: Limits) -> Result<Player, &'static str>
        requires { AreLimits limits }
    {
        match Binder::open(alloc, profile()?, limits) {
            Ok(binder) => Ok(Player {
                binder,
                given: 0,
                told: false,
            }),
            Err(_) => Err("memory"),
        }
    }

    // Whether a packet can be given.
    fn is_ready(&self) -> bool
        ensures nothing { result ≡ true → owed self.now.binder.state ≡ [] }
        ensures untold { result ≡ true → self.now.told ≡ false }
        ensures few { result ≡ true → self.now.given < 100 }
    {
        !self.told && self.given < MOST && !self.binder.owes()
    }

    // The binder's answer to a context.
    pub(crate) fn context(&mut self, rec: ContextRec) -> Result<Option<Turned>, &'static str>
        requires { IsSpelled (profile_of 0x6A621E 1) rec }
    {
        if !self.is_ready() {
            return Err("not ready");
        }
        self.given += 1;
        match self.binder.context(rec) {
            Ok(()) => Ok(None),
            Err(turned) => Ok(Some(turned)),
        }
    }

    // The binder's answer to a data packet, with the buffer where it comes back.
    pub(crate) fn data(
        &mut self,
        buf: PacketBuf,
    ) -> Result<Option<(Turned, PacketBuf)>, &'static str>
        requires { IsDataOf (profile_of 0x6A621E 1) buf.bytes }
    {
        if !self.is_ready() {
            return Err("not ready");
        }
        self.given += 1;
        match self.binder.data(buf) {
            Ok(()) => Ok(None),
            Err(turned) => Ok(Some(turned)),
        }
    }

    pub(crate) fn end(&mut self) -> Result<(), &'static str> {
        if self.told || self.binder.owes() {
            return Err("not ready");
        }
        self.told = true;
        self.binder.end();
        Ok(())
    }

    // The next output.
    fn next(&mut self) -> Result<Out, &'static str> {
        if self.binder.owes() {
            self.binder.next_out().ok_or("nothing")
        } else {
            Err("nothing")
        }
    }

    // The next output, which is to be a packet: the number lost before it.
    pub(crate) fn packet(&mut self) -> Result<u8, &'static str> {
        match self.next()? {
            Out::Packet { buf, lost } => {
                drop(buf);
                Ok(lost)
            }
            Out::Run(_) => Err("a run"),
        }
    }

    // The next output, which is to be a run.
    pub(crate) fn run(&mut self) -> Result<Run, &'static str> {
        match self.next()? {
            Out::Run(run) => Ok(run),
            Out::Packet { buf, lost: _ } => {
                drop(buf);
                Err("a packet")
            }
        }
    }

    // The next output, a run of which is written.
    pub(crate) fn next_into(&mut self, run: &mut Run) -> Kind {
        match self.binder.next_into(run) {
            Some(Given::Packet { buf, lost }) => {
                drop(buf);
                Kind::Packet(lost)
            }
            Some(Given::Run) => Kind::Run,
            None => Kind::Nothing,
        }
    }

    // Nothing is due.
    pub(crate) fn nothing(&mut self) -> Result<(), &'static str> {
        if self.binder.owes() || self.binder.next_out().is_some() {
            Err("something")
        } else {
            Ok(())
        }
    }
}
