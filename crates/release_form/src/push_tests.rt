//! Records behind the bytes of a buffer.

ghost use Rattle.std.specs.Prelude.{◌*◌, ◌≤◌, length};
ghost use Rattle.release_form.specs.Rules.{Obeys};
ghost use Rattle.release_form.specs.Sizes.{GoesWith, size_with};

use crate::tests::{ACK, END, HEALED, LATE, RAW, TOO_LARGE, VERSION, late, refused, stamp};
use crate::{Refusal, Shown, push_record, push_run};
use sample_binder::{Reason, Run};
use std::alloc::Global;
use std::process::Abort;
use test_records::BASE;
use text_buffer::TextBuffer;
use vrt_time::Moment;
use vrt_words::{NoMemory, put_word, put_words};

// Puts the record of a value behind other bytes, and these words behind the same.
fn is_pushed(
    rt: &impl Abort,
    alloc: Global,
    shown: &Shown,
    part: &[u32],
    words: &[u32],
) -> Result<(), NoMemory>
    requires obeys { Obeys shown.now }
    requires given { GoesWith shown.now (4 * length part.now) }
    requires fits { length part.now ≤ 15 }
    requires most { size_with shown.now (4 * length part.now) ≤ 160 }
    requires record_fits { length words.now ≤ 40 }
{
    let mut bytes = [0; 60];
    put_words(&mut bytes, 0, part);
    let mut record = [0; 160];
    put_words(&mut record, 0, words);
    let mut pushed = TextBuffer::open(alloc)?;
    pushed.push(b"before");
    push_record(shown, &bytes[..4 * part.len()], &mut pushed);
    let mut expected = TextBuffer::open(alloc)?;
    expected.push(b"before");
    expected.push(&record[..4 * words.len()]);
    assert_eq!(rt; pushed.as_slice(), expected.as_slice());
    Ok(())
}

#[test]
fn records_without_samples_stand_behind_other_bytes(rt: HostRuntime) -> Result<(), NoMemory> {
    let alloc = rt.alloc();
    let late = late(stamp(0x6553_F101, 0));
    is_pushed(&rt, alloc, &late, &[], &LATE)?;
    let large = refused(Refusal::TooLarge, 1601);
    is_pushed(&rt, alloc, &large, &[], &TOO_LARGE)?;
    is_pushed(&rt, alloc, &Shown::End { counts: [0; 7] }, &[], &END)
}

#[test]
fn packets_stand_behind_other_bytes(rt: HostRuntime) -> Result<(), NoMemory> {
    let alloc = rt.alloc();
    is_pushed(
        &rt,
        alloc,
        &Shown::Version { port: 9 },
        &VERSION[3..],
        &VERSION,
    )?;
    is_pushed(&rt, alloc, &Shown::Ack { port: 5 }, &ACK[3..], &ACK)
}

#[test]
fn runs_stand_behind_other_bytes(rt: HostRuntime) -> Result<(), NoMemory> {
    let alloc = rt.alloc();
    let mut shown = Shown::Run {
        stream: 1,
        port: 9,
        lost: 0,
        run: Run::Raw {
            reason: Reason::ContextLost(1),
            stamp: stamp(0x6553_F101, 500_000_000_000),
            pad: 0,
        },
    };
    is_pushed(&rt, alloc, &shown, &[0x0001_0002], &RAW)?;
    let mut fields = [0; 19];
    fields.copy_from_slice(&BASE[8..]);
    shown = Shown::Run {
        stream: 1,
        port: 9,
        lost: 0,
        run: Run::Bound {
            stamp: stamp(0x6553_F101, 500_000_000_000),
            first: 0,
            number: 1,
            at: Moment::of(1_700_000_001_500_000_000_000),
            fields,
            bits: 16,
        },
    };
    is_pushed(&rt, alloc, &shown, &[0x0001_0002], &HEALED)
}

// 304 samples of 4 bits, each a byte: number k is k modulo 8, and k + 1 modulo 8.
fn four_bit_payload() -> [u8; 304] {
    let mut payload = [0; 304];
    let mut k: u8 = 0;
    for byte in &mut payload {
        let next = k.wrapping_add(1);
        *byte = k % 8 << 4 | next % 8;
        k = next;
    }
    payload
}

#[test]
fn more_samples_than_a_block_are_unpacked(rt: HostRuntime) -> Result<(), NoMemory> {
    let run = Run::Uncertain {
        reason: Reason::Ended,
        stamp: stamp(0x6553_F100, 0),
        first: 4,
        number: 300,
        at: Moment::of(7),
        bits: 4,
    };
    let mut pushed = TextBuffer::open(rt.alloc())?;
    pushed.push(b"before");
    push_run(1, 9, 0, &run, &four_bit_payload(), &mut pushed);
    // 16 words in front, and one for each sample: 0x4E8 bytes behind the first two.
    let front = [
        2,
        0x4E8,
        1,
        9,
        0,
        5,
        0,
        0x6553_F100,
        0,
        0,
        4,
        300,
        0,
        0,
        0,
        7,
    ];
    let mut record = [0; 64];
    put_words(&mut record, 0, &front);
    let mut expected = TextBuffer::open(rt.alloc())?;
    expected.push(b"before");
    expected.push(&record);
    let mut samples = [0; 1200];
    for k in 4..304 {
        put_word(&mut samples, k as usize - 4, k % 8 << 16 | (k + 1) % 8);
    }
    expected.push(&samples);
    assert_eq!(rt; pushed.as_slice(), expected.as_slice());
    Ok(())
}
