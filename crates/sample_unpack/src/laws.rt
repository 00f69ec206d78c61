ghost use Rattle.sample_unpack.specs.Bits.{bits_of_bytes};
ghost use Rattle.sample_unpack.specs.Samples.{LieWithin, SampleFits, bits_from, bits_of_samples, samples_from};
ghost use Rattle.sample_unpack.specs.declared.sample.Sample.{Sample};
ghost use Rattle.std.specs.Prelude.{◌≡◌, ℕ, ◌≤◌, List, ◌++◌, All, length};

/// A law: unpacking what was packed gives the samples, whatever stands behind their bits.
#[inline]
pub fn unpacking_packed()
    ensures { (bits : ℕ) (samples : List Sample) (behind : List ℕ) → 1 ≤ bits
        → All (SampleFits bits) samples
        → samples_from bits (bits_of_samples bits samples ++ behind) 0 (length samples) ≡ samples }
{}

/// A law: packing what was unpacked gives the bits that were read.
#[inline]
pub fn packing_unpacked()
    ensures { (bits : ℕ) (payload : List ℕ) (first count : ℕ)
        → LieWithin bits first count (length payload)
        → bits_of_samples bits (samples_from bits (bits_of_bytes payload) first count)
        ≡ bits_from bits (bits_of_bytes payload) first count }
{}
