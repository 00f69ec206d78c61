ghost use Rattle.sample_unpack.specs.Count.{HoldsSamples};
ghost use Rattle.std.specs.Prelude.{ℕ, ◌≤◌, IfSome, IfNone};

/// How many samples a payload of `words` 32-bit words has, whose last `pad` bits are unused and
/// whose items have `bits` bits each, two items a sample.
///
/// `None` exactly where the payload does not divide: its bits less the unused ones are no positive
/// multiple of a sample's.
#[inline]
pub fn count_of(words: u32, pad: u8, bits: u8) -> Option<u32>
    requires words { words ≤ 16369 }
    requires pad { pad ≤ 31 }
    requires some_bits { 4 ≤ bits }
    requires most_bits { bits ≤ 16 }
    ensures count { IfSome result (HoldsSamples words pad bits) }
    ensures none { IfNone result ((count : ℕ) → ¬ HoldsSamples words pad bits count) }
{
    let used = (32 * words).checked_sub(u32::from(pad))?;
    let sample = 2 * u32::from(bits);
    if used == 0 || used % sample != 0 {
        return None;
    }
    Some(used / sample)
}
