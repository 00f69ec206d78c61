ghost use Rattle.std.specs.Prelude.{◌≡◌, ◌≢◌, ℕ, ◌+◌, ◌<◌, ◌≤◌, ◌^◌, ◌↔◌, true, false, List, [], ◌∷◌, ◌++◌, length, slice_get, bytes_eq, Some, Result, IsTrue, IfOk, IfErr, OnOk, OnErr, OnSome, IfSome, IfNone};
ghost use Rattle.difi_context.specs.Context.{IsSpelled};
ghost use Rattle.reorder_window.specs.Window.{answer};
ghost use Rattle.sample_binder.specs.Calls.{Call, ContextCall, DataCall, EndCall, context_arrivals, data_arrivals, context_entry, data_entry, front_in, outputs_of, outcome};
ghost use Rattle.sample_binder.specs.GivenOut.{out_with};
ghost use Rattle.sample_binder.specs.Outputs.{packets_in};
ghost use Rattle.sample_binder.specs.Queue.{owed};
ghost use Rattle.sample_binder.specs.Given.{IsDataOf};
ghost use Rattle.vrt_fields.specs.Limits.{AreLimits};
ghost use Rattle.sample_binder.specs.Binder.{StandsFor, SameBinder, number_kept, without_packet, without_release};

use crate::arrive::{Turned, arrive_context, arrive_data};
use crate::binding::{Binding, give_context, give_data};
use crate::drain::{advance, go_on};
use crate::front::{Front, front_of};
use crate::out::{Given, Out, Run};
use difi_context::ContextRec;
use reorder_window::{HeldItem, Window};
use std::alloc::Global;
use std::marker::Model;
use vrt_fields::Limits;
use vrt_header::Profile;
use vrt_words::{NoMemory, PacketBuf};

/// The binder of one stream: it takes context and data packets as they arrive, and gives each data
/// packet, in the order of the stamps, with what is known of its samples.
///
/// It takes all its memory at opening.
#[derive(Drop)]
pub struct Binder {
    profile: Profile,
    limits: Limits,
    contexts: Window<ContextRec>,
    packets: Window<PacketBuf>,
    binding: Binding,
    given: u64,
    told: bool,
}

impl Model for Binder {
    ghost use Rattle.sample_binder.specs.Binder.{BinderState, IsBinderState};

    ghost Value = { BinderState };

    ghost view = { λ b. record {
      profile = b.profile;
      limits = b.limits;
      contexts = b.contexts;
      packets = b.packets;
      state = b.binding;
      given = b.given;
      told = b.told;
    } };

    ghost invariant = { λ b. IsBinderState (record {
      profile = b.profile;
      limits = b.limits;
      contexts = b.contexts;
      packets = b.packets;
      state = b.binding;
      given = b.given;
      told = b.told;
    }) };
}

impl Binder {
    /// A binder for packets of this profile, to which nothing was given.
    pub fn open(alloc: Global, profile: Profile, limits: Limits) -> Result<Binder, NoMemory>
        requires { AreLimits limits }
        ensures stands { IfOk result (λ binder. StandsFor binder [] 0) }
        ensures fields { IfOk result (λ binder.
            (binder.profile ≡ profile) × (binder.limits ≡ limits) × (binder.given ≡ 0)
            × (binder.told ≡ false)) }
        ensures nothing { IfOk result (λ binder. owed binder.state ≡ []) }
        ensures none_kept { IfOk result (λ binder. number_kept binder ≡ 0) }
    {
        let contexts = match Window::open(alloc, limits.context_window) {
            Ok(contexts) => contexts,
            Err(_) => return Err(NoMemory),
        };
        let packets = match Window::open(alloc, limits.data_window) {
            Ok(packets) => packets,
            Err(_) => return Err(NoMemory),
        };
        match Binding::open(alloc, limits.kept, limits.pending) {
            Ok(binding) => Ok(Binder {
                profile,
                limits,
                contexts,
                packets,
                binding,
                given: 0,
                told: false,
            }),
            Err(_) => Err(NoMemory),
        }
    }

    /// Takes a context packet that has arrived.
    ///
    /// `Err` exactly where the window for contexts turns it away, and then nothing has changed.
    pub fn context(&mut self, rec: ContextRec) -> Result<(), Turned>
        requires grammar { IsSpelled self.old.profile rec }
        requires nothing { owed self.old.state ≡ [] }
        requires untold { self.old.told ≡ false }
        requires few { self.old.given < 2 ^ 63 }
        ensures answer { (calls : List Call) (taken : ℕ) → StandsFor self.old calls taken
            → result ≡ without_packet (outcome
            (answer ⟦<ContextRec as HeldItem>⟧.is_same self.old.limits.context_window
            (context_arrivals calls) (context_entry rec))) }
        ensures stands { (calls : List Call) (taken : ℕ) → StandsFor self.old calls taken
            → StandsFor self.new (calls ++ ContextCall rec ∷ []) taken }
        ensures kept { SameBinder self.old self.new }
        ensures as_many { number_kept self.new ≡ number_kept self.old }
        ensures given { OnOk result (self.new.given ≡ self.old.given + 1) }
        ensures err { OnErr result (self.new ≡ self.old) }
    {
        match arrive_context(&mut self.contexts, rec) {
            Ok(released) => {
                give_context(&mut self.binding, released);
                self.given += 1;
                Ok(())
            }
            Err((turned, _)) => Err(turned),
        }
    }

    /// Takes the buffer of a data packet that has arrived.
    ///
    /// `Err` exactly where the window for data packets turns it away: the buffer comes back, and
    /// nothing has changed.
    pub fn data(&mut self, buf: PacketBuf) -> Result<(), (Turned, PacketBuf)>
        requires grammar { IsDataOf self.old.profile buf.bytes }
        requires nothing { owed self.old.state ≡ [] }
        requires untold { self.old.told ≡ false }
        requires few { self.old.given < 2 ^ 63 }
        ensures answer { (calls : List Call) (taken : ℕ) → StandsFor self.old calls taken
            → result ≡ without_release (outcome
            (answer ⟦<PacketBuf as HeldItem>⟧.is_same self.old.limits.data_window
            (data_arrivals calls) (data_entry buf))) }
        ensures stands { (calls : List Call) (taken : ℕ) → StandsFor self.old calls taken
            → StandsFor self.new (calls ++ DataCall buf ∷ []) taken }
        ensures kept { SameBinder self.old self.new }

        // One more is held or waits, and no more than that are held and wait.
        ensures one_more { OnOk result (number_kept self.new ≡ number_kept self.old + 1) }
        ensures few_kept { number_kept self.new
            ≤ self.new.limits.data_window + 1 + self.new.limits.pending }
        ensures few_wait { length self.new.state.queue ≤ self.new.limits.pending + 1 }
        ensures given { OnOk result (self.new.given ≡ self.old.given + 1) }
        ensures buffer { IfErr result (λ turned. turned.1 ≡ buf) }
        ensures err { OnErr result (self.new ≡ self.old) }
    {
        let front = front_of(buf.bytes());
        self.data_with(front, buf)
    }

    /// The same as `data` for a packet whose front was read before, as from a piece in which it
    /// still stands: its buffer, which may lie far away, is not looked at while the packet is
    /// held.
    ///
    /// `Err` exactly where the window for data packets turns it away: the buffer comes back, and
    /// nothing has changed.
    pub fn data_with(&mut self, front: Front, buf: PacketBuf) -> Result<(), (Turned, PacketBuf)>
        requires grammar { IsDataOf self.old.profile buf.bytes }
        requires front { front ≡ front_in buf.bytes }
        requires nothing { owed self.old.state ≡ [] }
        requires untold { self.old.told ≡ false }
        requires few { self.old.given < 2 ^ 63 }
        ensures answer { (calls : List Call) (taken : ℕ) → StandsFor self.old calls taken
            → result ≡ without_release (outcome
            (answer ⟦<PacketBuf as HeldItem>⟧.is_same self.old.limits.data_window
            (data_arrivals calls) (data_entry buf))) }
        ensures stands { (calls : List Call) (taken : ℕ) → StandsFor self.old calls taken
            → StandsFor self.new (calls ++ DataCall buf ∷ []) taken }
        ensures kept { SameBinder self.old self.new }

        // One more is held or waits, and no more than that are held and wait.
        ensures one_more { OnOk result (number_kept self.new ≡ number_kept self.old + 1) }
        ensures few_kept { number_kept self.new
            ≤ self.new.limits.data_window + 1 + self.new.limits.pending }
        ensures few_wait { length self.new.state.queue ≤ self.new.limits.pending + 1 }
        ensures given { OnOk result (self.new.given ≡ self.old.given + 1) }
        ensures buffer { IfErr result (λ turned. turned.1 ≡ buf) }
        ensures err { OnErr result (self.new ≡ self.old) }
    {
        match arrive_data(&mut self.packets, front, buf) {
            Ok(released) => {
                give_data(&mut self.binding, released);
                self.given += 1;
                Ok(())
            }
            Err(turned) => Err(turned),
        }
    }

    /// The stream has ended: the contexts that are held are released, then the data packets that
    /// are held, and then none waits any longer.
    pub fn end(&mut self)
        requires nothing { owed self.old.state ≡ [] }
        requires untold { self.old.told ≡ false }
        ensures stands { (calls : List Call) (taken : ℕ) → StandsFor self.old calls taken
            → StandsFor self.new (calls ++ EndCall ∷ []) taken }
        ensures profile { self.new.profile ≡ self.old.profile }
        ensures limits { self.new.limits ≡ self.old.limits }
        ensures given { self.new.given ≡ self.old.given }
        ensures as_many { number_kept self.new ≡ number_kept self.old }
        ensures told { self.new.told ≡ true }
    {
        self.told = true;
        advance(&mut self.contexts, &mut self.packets, &mut self.binding);
    }

    /// The next that is due: a data packet with the number lost before it, and then its runs.
    /// `None` exactly where nothing is due.
    pub fn next_out(&mut self) -> Option<Out>
        ensures given { (calls : List Call) (taken : ℕ) → StandsFor self.old calls taken
            → result ≡ slice_get (outputs_of self.old.limits calls) taken }
        ensures stands { (calls : List Call) (taken : ℕ) → StandsFor self.old calls taken
            → OnSome result (StandsFor self.new calls (taken + 1)) }
        ensures kept { SameBinder self.old self.new }
        ensures count { self.new.given ≡ self.old.given }
        ensures one_less { IfSome result (λ given.
            number_kept self.new + packets_in given ≡ number_kept self.old) }
        ensures nothing { IfNone result (owed self.old.state ≡ []) }
        ensures none { IfNone result (self.new ≡ self.old) }
    {
        let mut run = Run::blank();
        match self.next_into(&mut run) {
            Some(Given::Packet { buf, lost }) => Some(Out::Packet { buf, lost }),
            Some(Given::Run) => Some(Out::Run(run)),
            None => None,
        }
    }

    /// The same as `next_out`, but a run is written and not handed out. Where what is given is no
    /// run, nothing is written.
    pub fn next_into(&mut self, run: &mut Run) -> Option<Given>
        ensures given { (calls : List Call) (taken : ℕ) → StandsFor self.old calls taken
            → out_with result run.new ≡ slice_get (outputs_of self.old.limits calls) taken }
        ensures stands { (calls : List Call) (taken : ℕ) → StandsFor self.old calls taken
            → OnSome (out_with result run.new) (StandsFor self.new calls (taken + 1)) }
        ensures kept { SameBinder self.old self.new }
        ensures count { self.new.given ≡ self.old.given }
        ensures one_less { IfSome (out_with result run.new) (λ given.
            number_kept self.new + packets_in given ≡ number_kept self.old) }
        ensures nothing { IfNone (out_with result run.new) (owed self.old.state ≡ []) }
        ensures none { IfNone (out_with result run.new) (self.new ≡ self.old) }
        ensures run { result ≢ Some Given.Run → run.new ≡ run.old }
    {
        let given = match self.binding.next_into(run) {
            Some(given) => given,
            None => return None,
        };
        go_on(
            self.told,
            &mut self.contexts,
            &mut self.packets,
            &mut self.binding,
        );
        Some(given)
    }

    /// Whether `next_out` and `next_into` would give something.
    pub fn owes(&self) -> bool
        ensures owes { IsTrue result ↔ (owed self.now.state ≢ []) }
        ensures nothing { result ≡ false → owed self.now.state ≡ [] }
        ensures due { (calls : List Call) (taken : ℕ) → StandsFor self.now calls taken
            → IsTrue result ↔ (taken < length (outputs_of self.now.limits calls)) }

        // No more data packets are held and wait than that.
        ensures few { length self.now.packets.held + length self.now.state.queue
            ≤ self.now.limits.data_window + 1 + self.now.limits.pending }
    {
        self.binding.owes()
    }
}
