//! What `check` and `show` tell of commands, cancellations and acknowledgements.

use crate::records::{header, run, show};
use difi_cmd::Status;
use std::alloc::Global;
use std::test::Fail;
use std::thread::Threads;
use test_records::{datagram, push_frame};

// A command that sets the gain and the sample rate, at once.
const CONTROL: [u32; 10] = [
    0x6800000A, 1, 0x006A621E, 0, 0x01080000, 1, 0x00A00000, 0x600, 0, 0x00100000,
];

const CONTROL_SHOWN: &str = "frame 1 ok control stream 00000001
  time none
  count 0
  cam 01080000
  message 00000001
  controllee none
  controller none
  fields 00A00000
  gain 1536/128 dB 0/128 dB
  sample rate 1 Hz + 0/1048576
frames 1 ok 1 refused 0
";

// A query of the radio frequency.
const QUERY: [u32; 7] = [0x68000007, 1, 0x006A621E, 0, 0x00040000, 7, 0x08000000];

const QUERY_SHOWN: &str = "frame 1 ok control stream 00000001
  time none
  count 0
  cam 00040000
  message 00000007
  controllee none
  controller none
  fields 08000000
  query
frames 1 ok 1 refused 0
";

const NOTHING_SHOWN: &str = "frame 1 ok control stream 00000001
  time none
  count 0
  cam 00040000
  message 00000007
  controllee none
  controller none
  fields 00000000
frames 1 ok 1 refused 0
";

// A cancellation of the gain, with a word for the controllee and a UUID for the controller.
const CANCEL: [u32; 15] = [
    0x6963000F, 1, 0x006A621E, 0, 0x6553F114, 0, 0, 0xB0080000, 3, 7, 21, 22, 23, 24, 0x00800000,
];

const CANCEL_SHOWN: &str = "frame 1 ok cancel stream 00000001
  time 1700000020 s 000000000000 ps
  count 3
  cam B0080000
  message 00000003
  controllee 00000007
  controller 00000015 00000016 00000017 00000018
  fields 00800000
frames 1 ok 1 refused 0
";

// An acknowledgement of a validation, with a warning and two errors.
const ACK_V: [u32; 14] = [
    0x6C60000E, 1, 0x006A621E, 0, 0x6553F10A, 0, 0, 0x00130000, 1, 0x00800000, 0x08800000,
    0x08000000, 0x20000000, 0x10000000,
];

const ACK_V_SHOWN: &str = "frame 1 ok ackv stream 00000001
  time 1700000010 s 000000000000 ps
  count 0
  cam 00130000
  message 00000001
  controllee none
  controller none
  warnings 00800000
  00800000 08000000
  errors 08800000
  08000000 20000000
  00800000 10000000
frames 1 ok 1 refused 0
";

// An acknowledgement of a cancellation, which tells of no warning and no error.
const ACK_X: [u32; 9] = [
    0x6D600009, 1, 0x006A621E, 0, 0x6553F10F, 0, 0, 0x00080400, 3,
];

const ACK_X_SHOWN: &str = "frame 1 ok ackx stream 00000001
  time 1700000015 s 000000000000 ps
  count 0
  cam 00080400
  message 00000003
  controllee none
  controller none
frames 1 ok 1 refused 0
";

// An answer to the query.
const ACK_S: [u32; 12] = [
    0x6C60000C, 1, 0x006A621E, 0, 0x6553F10A, 0, 0, 0x00040000, 7, 0x08000000, 0x00047868,
    0xC0000000,
];

const ACK_S_SHOWN: &str = "frame 1 ok acks stream 00000001
  time 1700000010 s 000000000000 ps
  count 0
  cam 00040000
  message 00000007
  controllee none
  controller none
  fields 08000000
  RF 1200000000 Hz + 0/1048576
frames 1 ok 1 refused 0
";

// What `show` writes of a record whose one frame is a datagram of these words.
fn shown<R: Threads + Sync>(rt: &R, alloc: Global, words: &[u32]) -> Result<Vec<u8>, Fail> {
    let mut record = header(alloc)?;
    push_frame(&mut record, datagram(alloc, words)?.as_slice())?;
    let outcome = show(rt, alloc, record.as_slice())?;
    if outcome.status != Status::Done {
        return Err(Fail::from("not done"));
    }
    Ok(outcome.text)
}

// What `check` writes of such a record.
fn checked<R: Threads + Sync>(rt: &R, alloc: Global, words: &[u32]) -> Result<Vec<u8>, Fail> {
    let mut record = header(alloc)?;
    push_frame(&mut record, datagram(alloc, words)?.as_slice())?;
    let outcome = run(rt, alloc, record.as_slice())?;
    if outcome.status != Status::Done {
        return Err(Fail::from("not done"));
    }
    Ok(outcome.text)
}

#[test]
fn a_command_is_shown_with_its_fields(rt: HostRuntime) -> Result<(), Fail> {
    let text = shown(&rt, rt.alloc(), &CONTROL)?;
    assert_eq!(rt; text.as_slice(), CONTROL_SHOWN.as_bytes());
    Ok(())
}

#[test]
fn a_query_is_shown_and_a_command_of_no_fields_is_none(rt: HostRuntime) -> Result<(), Fail> {
    let text = shown(&rt, rt.alloc(), &QUERY)?;
    assert_eq!(rt; text.as_slice(), QUERY_SHOWN.as_bytes());
    let mut nothing = QUERY;
    nothing[6] = 0;
    let text = shown(&rt, rt.alloc(), &nothing)?;
    assert_eq!(rt; text.as_slice(), NOTHING_SHOWN.as_bytes());
    Ok(())
}

#[test]
fn a_cancellation_is_shown_with_its_identities(rt: HostRuntime) -> Result<(), Fail> {
    let text = shown(&rt, rt.alloc(), &CANCEL)?;
    assert_eq!(rt; text.as_slice(), CANCEL_SHOWN.as_bytes());
    Ok(())
}

#[test]
fn an_acknowledgement_is_shown_with_what_it_lists(rt: HostRuntime) -> Result<(), Fail> {
    let text = shown(&rt, rt.alloc(), &ACK_V)?;
    assert_eq!(rt; text.as_slice(), ACK_V_SHOWN.as_bytes());
    let text = shown(&rt, rt.alloc(), &ACK_X)?;
    assert_eq!(rt; text.as_slice(), ACK_X_SHOWN.as_bytes());
    Ok(())
}

#[test]
fn a_state_is_shown_with_its_fields(rt: HostRuntime) -> Result<(), Fail> {
    let text = shown(&rt, rt.alloc(), &ACK_S)?;
    assert_eq!(rt; text.as_slice(), ACK_S_SHOWN.as_bytes());
    Ok(())
}

#[test]
fn a_command_is_refused_where_no_packet_goes_on(rt: HostRuntime) -> Result<(), Fail> {
    // An action that is none; one word of fields where the size has three.
    let mut words = CONTROL;
    words[4] = 0x01880000;
    let text = checked(&rt, rt.alloc(), &words)?;
    let wanted = "frame 1 refused at word 4\nframes 1 ok 0 refused 1\n";
    assert_eq!(rt; text.as_slice(), wanted.as_bytes());
    let mut fields = CONTROL;
    fields[6] = 0x00800000;
    let text = checked(&rt, rt.alloc(), &fields)?;
    let wanted = "frame 1 refused at word 6\nframes 1 ok 0 refused 1\n";
    assert_eq!(rt; text.as_slice(), wanted.as_bytes());
    Ok(())
}
