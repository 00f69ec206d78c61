ghost use Rattle.std.specs.Prelude.{◌≡◌, [], ◌≤◌, ℕ, length, take, OnOk, OnErr};
ghost use Rattle.std.specs.Io.KnownBytes.{Appends};
ghost use Rattle.difi_io.specs.Faults.{HasCause};

use difi_io::{Failed, Sink};

/// Writes all bytes, or as many of the first ones as the sink takes until it fails.
pub(crate) fn write_all<K: Sink>(sink: &mut K, bytes: &[u8]) -> Result<(), Failed>
    ensures all { OnOk result (Appends (K.held sink.old) (K.held sink.new) bytes.now) }
    ensures front { OnErr result ((n : ℕ) × (n ≤ length bytes.now)
        × Appends (K.held sink.old) (K.held sink.new) (take n bytes.now)) }
    ensures none { bytes.now ≡ [] → sink.new ≡ sink.old }
    ensures cause { HasCause (K.faults sink.old) (K.faults sink.new) result }
{
    let mut done = 0;
    while done < bytes.len() {
        done += sink.write(&bytes[done..])?;
    }
    Ok(())
}
