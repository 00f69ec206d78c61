mod options;
mod words;

use super::*;
use difi_io::{MemSink, MemSource, NoGate};
use std::alloc::{AllocError, Global};
use std::test::Fail;
use test_records::{BASE, datagram, push_frame, routed};

/// A record with a frame of a context packet of stream 1.
fn record(alloc: Global) -> Result<Vec<u8>, AllocError> {
    let mut bytes = datagram(alloc, &routed())?;
    push_frame(&mut bytes, datagram(alloc, &BASE)?.as_slice())?;
    Ok(bytes)
}

#[test]
fn no_bytes_are_no_record(rt: HostRuntime) -> Result<(), Fail> {
    let alloc = rt.alloc();
    let words = [String::from_str(alloc, "check")?];
    let mut source = MemSource::new(Vec::new(alloc), 1, Vec::new(alloc));
    let mut sink = MemSink::new(alloc, 100, 100, Vec::new(alloc))?;
    let status = difi_run(&rt, alloc, &words, &mut source, &mut sink, &NoGate::new());
    assert_eq!(rt; status, Status::BadRecord { offset: 0 });
    assert_eq!(rt; sink.bytes(), b"".as_slice());
    Ok(())
}

#[test]
fn other_words_are_refused(rt: HostRuntime) -> Result<(), Fail> {
    let alloc = rt.alloc();
    let words = [String::from_str(alloc, "paint")?];
    let mut source = MemSource::new(Vec::new(alloc), 1, Vec::new(alloc));
    let mut sink = MemSink::new(alloc, 100, 100, Vec::new(alloc))?;
    let status = difi_run(&rt, alloc, &words, &mut source, &mut sink, &NoGate::new());
    assert_eq!(rt; status, Status::Usage);
    assert_eq!(rt; status.code(), 2);
    Ok(())
}

#[test]
fn a_context_has_its_line_and_the_record_its_last(rt: HostRuntime) -> Result<(), Fail> {
    let alloc = rt.alloc();
    let words = [String::from_str(alloc, "check")?];
    let mut source = MemSource::new(record(alloc)?, 7, Vec::new(alloc));
    let mut sink = MemSink::new(alloc, 100, 10, Vec::new(alloc))?;
    let status = difi_run(&rt, alloc, &words, &mut source, &mut sink, &NoGate::new());
    assert_eq!(rt; status, Status::Done);
    let text = b"frame 1 ok context stream 00000001\nframes 1 ok 1 refused 0\n";
    assert_eq!(rt; sink.bytes(), text.as_slice());
    Ok(())
}

#[test]
fn a_context_is_shown(rt: HostRuntime) -> Result<(), Fail> {
    let alloc = rt.alloc();
    let words = [String::from_str(alloc, "show")?];
    let mut source = MemSource::new(record(alloc)?, 7, Vec::new(alloc));
    let mut sink = MemSink::new(alloc, 1000, 10, Vec::new(alloc))?;
    let status = difi_run(&rt, alloc, &words, &mut source, &mut sink, &NoGate::new());
    assert_eq!(rt; status, Status::Done);
    let front = b"frame 1 ok context stream 00000001\n  time 1700000000 s 000000000000 ps\n";
    assert!(rt; sink.bytes().starts_with(front.as_slice()));
    Ok(())
}
