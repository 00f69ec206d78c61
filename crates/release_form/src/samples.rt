ghost use Rattle.std.specs.Prelude.{◌≡◌, ◌+◌, ◌*◌, ◌≤◌, ◌^◌, length, take, drop};
ghost use Rattle.sample_binder.specs.RunRules.{AreIndices};
ghost use Rattle.sample_binder.specs.RunRules.{HoldsRun};
ghost use Rattle.release_form.specs.Release.{AreSamples};

use sample_unpack::widen_into;

/// Writes samples first, first + 1 and so on of a payload, whose items have `bits` bits, as items
/// of 16 bits each, I before Q.
pub(crate) fn put_samples(payload: &[u8], bits: u8, first: u32, number: u32, into: &mut [u8])
    requires run { HoldsRun bits first number (length payload.now) }
    requires indices { AreIndices first number }
    requires room { length into.old ≡ 4 * number }
    ensures { AreSamples bits first number payload.now into.new }
{
    if bits == 16 {
        copy_samples(payload, first, into);
    } else {
        widen_into(payload, bits, first, into);
    }
}

// Items of 16 bits stand as they are.
fn copy_samples(payload: &[u8], first: u32, into: &mut [u8])
    requires { 4 * first + length into.old ≤ length payload.now }
    ensures { into.new ≡ take (length into.old) (drop (4 * first) payload.now) }
{
    let start = 4 * first as usize;
    into.copy_from_slice(&payload[start..start + into.len()]);
}
