//! What `show` tells of packets.

use crate::records::{header, run_line, show};
use difi_cmd::Status;
use std::alloc::Global;
use std::test::Fail;
use test_records::{BASE, datagram, push_frame};

const CONTEXT: &str = "frame 1 ok context stream 00000001
  time 1700000000 s 000000000000 ps
  count 0
  changed yes
  reference point 00000064
  bandwidth 280000 Hz + 0/1048576
  IF 70000000 Hz + 0/1048576
  RF 1200000000 Hz + 0/1048576
  IF offset 0 Hz + 0/1048576
  reference level 0/128 dBm upper 0000
  gain 1280/128 dB 0/128 dB
  sample rate 350000 Hz + 0/1048576
  time adjustment 0 fs
  calibration 0 s
  state C00C0000
  payload A00003CF 00000000
frames 1 ok 1 refused 0
";

const DATA: &str = "frame 1 ok data stream 00000001
  time 1700000000 s 000000000000 ps
  count 0
  pad 0
  payload words 1
frames 1 ok 1 refused 0
";

const VERSION: &str = "frame 1 ok version stream 00000001
  time 1700000000 s 999999999999 ps
  count 0
  changed no
  spec 00000004
  year 20 day 335 revision 1 type 2 icd 3
frames 1 ok 1 refused 0
";

const NEGATIVE: &str = "frame 1 ok context stream 00000001
  time 1700000000 s 000000000000 ps
  count 0
  changed no
  reference point 00000064
  bandwidth 280000 Hz + 0/1048576
  IF 70000000 Hz + 0/1048576
  RF -1 Hz + 1048575/1048576
  IF offset -2 Hz + 524288/1048576
  reference level -128/128 dBm upper ABCD
  gain -1/128 dB -32768/128 dB
  sample rate 350000 Hz + 0/1048576
  time adjustment -5 fs
  calibration 7 s
  state C00C0000
  payload A00003CF 00000000
frames 1 ok 1 refused 0
";

// A record whose one frame is a datagram of these words.
fn record_of(alloc: Global, words: &[u32]) -> Result<Vec<u8>, Fail> {
    let mut record = header(alloc)?;
    push_frame(&mut record, datagram(alloc, words)?.as_slice())?;
    Ok(record)
}

#[test]
fn a_context_is_shown_field_by_field(rt: HostRuntime) -> Result<(), Fail> {
    let record = record_of(rt.alloc(), &BASE)?;
    let outcome = show(&rt, rt.alloc(), record.as_slice())?;
    assert!(rt; outcome.status == Status::Done);
    assert_eq!(rt; outcome.text.as_slice(), CONTEXT.as_bytes());
    Ok(())
}

#[test]
fn a_context_is_shown_however_reads_and_writes_are_cut(rt: HostRuntime) -> Result<(), Fail> {
    let record = record_of(rt.alloc(), &BASE)?;
    for piece in [1, 7] {
        let outcome = run_line(
            &rt,
            rt.alloc(),
            &["show"],
            record.as_slice(),
            piece,
            &[],
            &[],
        )?;
        assert!(rt; outcome.status == Status::Done);
        assert_eq!(rt; outcome.text.as_slice(), CONTEXT.as_bytes());
    }
    Ok(())
}

#[test]
fn a_write_of_show_that_fails_is_told(rt: HostRuntime) -> Result<(), Fail> {
    let record = record_of(rt.alloc(), &BASE)?;
    let outcome = run_line(
        &rt,
        rt.alloc(),
        &["show"],
        record.as_slice(),
        100,
        &[],
        &[3],
    )?;
    assert!(rt; outcome.status == Status::WriteFault);
    assert!(rt; outcome.text.len() == 200);
    assert!(rt; CONTEXT.as_bytes().starts_with(outcome.text.as_slice()));
    Ok(())
}

#[test]
fn a_data_packet_is_shown(rt: HostRuntime) -> Result<(), Fail> {
    let words = [0x1860_0008, 1, 0x6A_621E, 0, 0x6553_F100, 0, 0, 0x0001_0002];
    let record = record_of(rt.alloc(), &words)?;
    let outcome = show(&rt, rt.alloc(), record.as_slice())?;
    assert!(rt; outcome.status == Status::Done);
    assert_eq!(rt; outcome.text.as_slice(), DATA.as_bytes());
    Ok(())
}

#[test]
fn a_version_packet_is_shown(rt: HostRuntime) -> Result<(), Fail> {
    // The last picosecond of a second; year 20, day 335, revision 1, type 2, ICD version 3.
    let words = [
        0x5960_000B,
        1,
        0x6A_621E,
        0x0001_0004,
        0x6553_F100,
        232,
        0xD4A5_0FFF,
        2,
        0x0C,
        4,
        0x294F_0483,
    ];
    let record = record_of(rt.alloc(), &words)?;
    let outcome = show(&rt, rt.alloc(), record.as_slice())?;
    assert!(rt; outcome.status == Status::Done);
    assert_eq!(rt; outcome.text.as_slice(), VERSION.as_bytes());
    Ok(())
}

#[test]
fn numbers_below_zero_are_shown(rt: HostRuntime) -> Result<(), Fail> {
    let mut words = BASE;
    words[7] = 0x7BB9_8000;
    words[13] = 0xFFFF_FFFF;
    words[14] = 0xFFFF_FFFF;
    words[15] = 0xFFFF_FFFF;
    words[16] = 0xFFE8_0000;
    words[17] = 0xABCD_FF80;
    words[18] = 0x8000_FFFF;
    words[21] = 0xFFFF_FFFF;
    words[22] = 0xFFFF_FFFB;
    words[23] = 7;
    let record = record_of(rt.alloc(), &words)?;
    let outcome = show(&rt, rt.alloc(), record.as_slice())?;
    assert!(rt; outcome.status == Status::Done);
    assert_eq!(rt; outcome.text.as_slice(), NEGATIVE.as_bytes());
    Ok(())
}

#[test]
fn a_refused_frame_has_its_line_alone(rt: HostRuntime) -> Result<(), Fail> {
    let record = record_of(rt.alloc(), &BASE[..26])?;
    let outcome = show(&rt, rt.alloc(), record.as_slice())?;
    assert!(rt; outcome.status == Status::Done);
    let text = "frame 1 refused at word 26\nframes 1 ok 0 refused 1\n";
    assert_eq!(rt; outcome.text.as_slice(), text.as_bytes());
    Ok(())
}
