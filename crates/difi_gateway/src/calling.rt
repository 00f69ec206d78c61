ghost use Rattle.std.specs.Prelude.{◌≡◌, IfErr, Some, None};
ghost use Rattle.difi_context.specs.Context.{IsSpelled};
ghost use Rattle.sample_binder.specs.Calls.{ContextCall, DataCall, front_in};
ghost use Rattle.sample_binder.specs.Given.{IsDataOf};
ghost use Rattle.difi_gateway.specs.Steps.{IsReadyBinder, IsCalled, turned_in, turned_with};

use difi_context::ContextRec;
use sample_binder::{Binder, Front, Turned};
use vrt_words::PacketBuf;

/// Gives a context to a binder.
pub(crate) fn call_context(binder: &mut Binder, rec: ContextRec) -> Result<(), Turned>
    requires ready { IsReadyBinder binder.old }
    requires grammar { IsSpelled binder.old.profile rec }
    ensures { IsCalled (ContextCall rec) (turned_in result) binder.old binder.new }
{
    binder.context(rec)
}

/// Gives a data packet with this front to a binder.
pub(crate) fn call_data(
    binder: &mut Binder,
    front: Front,
    buf: PacketBuf,
) -> Result<(), (Turned, PacketBuf)>
    requires ready { IsReadyBinder binder.old }
    requires front { front ≡ front_in buf.bytes }
    requires grammar { IsDataOf binder.old.profile buf.bytes }
    ensures called { IsCalled (DataCall buf) (turned_with result) binder.old binder.new }
    ensures back { IfErr result (λ turned. turned.1 ≡ buf) }
{
    binder.data_with(front, buf)
}
