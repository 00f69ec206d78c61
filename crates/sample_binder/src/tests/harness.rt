ghost use Rattle.std.specs.Prelude.{◌≡◌, IsTrue, IfOk};
ghost use Rattle.vrt_header.specs.Profile.{profile_of};
ghost use Rattle.difi_context.specs.Context.{IsSpelled};
ghost use Rattle.sample_binder.specs.Given.{IsDataOf};

use difi_context::ContextRec;
use std::alloc::Global;
use test_records::BASE;
use vrt_fields::{FORMAT_WORD, Field, RATE_WORD};
use vrt_header::Profile;
use vrt_time::{Moment, Stamp};
use vrt_words::{PacketBuf, put_word, put_words};

/// A time on the test's clock: so many halves of a second and so many picoseconds after
/// 1,699,999,999 s.
#[derive(Clone, Copy)]
pub(crate) struct Time(pub(crate) u8, pub(crate) u8);

/// A second before 1,700,000,000 s, that time, and so many seconds after it.
pub(crate) const BEFORE: Time = Time(0, 0);

pub(crate) const START: Time = Time(2, 0);

pub(crate) const HALF_PAST: Time = Time(3, 0);

pub(crate) const ONE_SECOND: Time = Time(4, 0);

pub(crate) const ONE_AND_A_HALF: Time = Time(5, 0);

pub(crate) const TWO_SECONDS: Time = Time(6, 0);

pub(crate) const THREE_SECONDS: Time = Time(8, 0);

/// CIF0 with the twelve fields, with the change bit and without it.
pub(crate) const CHANGED: u32 = 0xFBB9_8000;

pub(crate) const UNCHANGED: u32 = 0x7BB9_8000;

/// The fields of a context, so far as they differ from one test to the next.
#[derive(Clone, Copy)]
pub(crate) struct Tuning {
    pub(crate) gain: u32,
    /// Units of 2^-20 Hz, in two words.
    pub(crate) rate: (u32, u32),
    /// The first word of the payload format.
    pub(crate) format: u32,
}

/// The words of the twelve fields.
pub(crate) fn fields(tuning: Tuning) -> [u32; 19] {
    let mut fields = [0; 19];
    fields.copy_from_slice(&BASE[8..]);
    fields[Field::Gain.place()] = tuning.gain;
    fields[RATE_WORD] = tuning.rate.0;
    fields[RATE_WORD + 1] = tuning.rate.1;
    fields[FORMAT_WORD] = tuning.format;
    fields
}

// The words of the stamp of a packet. A half of a second is 0x74_6A52_8800 picoseconds.
fn words_of_time(time: Time) -> [u32; 3] {
    let seconds = 1_699_999_999 + u32::from(time.0 / 2);
    let picos = u32::from(time.1);
    if time.0 % 2 == 0 {
        [seconds, 0, picos]
    } else {
        [seconds, 0x74, 0x6A52_8800 + picos]
    }
}

pub(crate) fn stamp(time: Time) -> Result<Stamp, &'static str> {
    let [seconds, high, low] = words_of_time(time);
    Stamp::of_parts(seconds, high, low).ok_or("no stamp")
}

pub(crate) fn moment(time: Time) -> Moment {
    let halves = u128::from(time.0) * 500_000_000_000;
    Moment::of(1_699_999_999_000_000_000_000 + halves + u128::from(time.1))
}

// The profile of the packets.
pub(crate) fn profile() -> Result<Profile, &'static str>
    ensures { IfOk result (λ profile. profile ≡ profile_of 0x6A621E 1) }
{
    Profile::of(0x6A_621E, 1).ok_or("no profile")
}

// The bytes of a context packet.
fn spelled(time: Time, count: u8, cif0: u32, tuning: Tuning) -> [u8; 108] {
    let mut words = BASE;
    words[0] |= u32::from(count % 16) << 16;
    words[4..7].copy_from_slice(&words_of_time(time));
    words[7] = cif0;
    words[8..].copy_from_slice(&fields(tuning));
    let mut bytes = [0; 108];
    put_words(&mut bytes, 0, &words);
    bytes
}

pub(crate) fn context(
    time: Time,
    count: u8,
    cif0: u32,
    tuning: Tuning,
) -> Result<ContextRec, &'static str>
    ensures { IfOk result (λ rec. IsSpelled (profile_of 0x6A621E 1) rec) }
{
    match difi_context::decode(profile()?, &spelled(time, count, cif0, tuning)) {
        Ok(rec) => Ok(rec),
        Err(_) => Err("no context"),
    }
}

/// The samples of a data packet.
#[derive(Clone, Copy)]
pub(crate) struct Payload {
    /// Its words, of which the first four are these, and the rest 0.
    pub(crate) words: u16,
    pub(crate) front: [u32; 4],
    /// The unused bits at its end.
    pub(crate) pad: u8,
}

// A buffer with a data packet.
pub(crate) fn packet(
    alloc: Global,
    time: Time,
    count: u8,
    payload: &Payload,
) -> Result<PacketBuf, &'static str>
    ensures { IfOk result (λ buf. IsDataOf (profile_of 0x6A621E 1) buf.bytes) }
{
    if payload.words > 16_369 {
        return Err("too long");
    }
    let words = 7 + u32::from(payload.words);
    let Ok(mut bytes) = vec![in alloc; 0; 4 * words as usize] else {
        return Err("memory");
    };
    let first = 0x1860_0000 + (u32::from(count % 16) << 16) + words;
    let class = 0x006A_621E + (u32::from(payload.pad % 32) << 27);
    put_words(&mut bytes, 0, &[first, 1, class, 0]);
    put_words(&mut bytes, 4, &words_of_time(time));
    put_front(&mut bytes[28..], &payload.front);
    let Ok(mut buf) = PacketBuf::open(alloc, words) else {
        return Err("memory");
    };
    buf.fill(&bytes);
    checked(buf)
}

// Writes the first words of a payload, so many as it has.
fn put_front(bytes: &mut [u8], front: &[u32; 4]) {
    for (i, word) in front.iter().enumerate() {
        if 4 * i + 4 <= bytes.len() {
            put_word(bytes, i, *word);
        }
    }
}

// The buffer, where it has a data packet.
fn checked(buf: PacketBuf) -> Result<PacketBuf, &'static str>
    ensures { IfOk result (λ buf. IsDataOf (profile_of 0x6A621E 1) buf.bytes) }
{
    if is_data(profile()?, &buf) {
        Ok(buf)
    } else {
        drop(buf);
        Err("no data packet")
    }
}

fn is_data(profile: Profile, buf: &PacketBuf) -> bool
    ensures { IsTrue result → IsDataOf profile buf.now.bytes }
{
    difi_data::decode(profile, buf.bytes()).is_ok()
}
