//! What stands written when the next bytes are read.

ghost use Rattle.std.specs.Prelude.{None};

use crate::records::header;
use difi_cmd::{Status, difi_run};
use difi_io::{Failed, NoGate, Sink, Source, SureSource};
use std::sync::atomic::{AtomicU64, Ordering};
use std::test::Fail;
use test_records::{BASE, datagram, push_frame};

// A sink whose number of bytes can be seen.
#[derive(Drop)]
struct SeenSink<'a> {
    written: &'a AtomicU64,
}

impl Sink for SeenSink<'_> {
    ghost held = { λ _. None };

    ghost faults = { λ _. 0 };

    fn write(&mut self, from: &[u8]) -> Result<usize, Failed> {
        self.written.fetch_add(from.len() as u64, Ordering::SeqCst);
        Ok(from.len())
    }
}

// A source that notes at each read how many bytes stand written.
#[derive(Drop)]
struct NotingSource<'a> {
    source: SureSource,
    written: &'a AtomicU64,
    reads: usize,
    noted: [u64; 12],
}

impl Source for NotingSource<'_> {
    ghost left = { λ _. None };

    ghost faults = { λ _. 0 };

    fn read(&mut self, into: &mut [u8]) -> Result<usize, Failed> {
        if let Some(note) = self.noted.get_mut(self.reads) {
            *note = self.written.load(Ordering::SeqCst);
        }
        self.reads = self.reads.wrapping_add(1);
        self.source.read(into)
    }
}

#[test]
fn the_lines_of_all_frames_read_stand_written_before_the_next_read(
    rt: HostRuntime,
) -> Result<(), Fail> {
    let alloc = rt.alloc();
    let mut record = header(alloc)?;
    for _ in 0..3 {
        push_frame(&mut record, datagram(alloc, &BASE)?.as_slice())?;
    }
    let written = AtomicU64::new(0);
    let mut source = NotingSource {
        source: SureSource::new(record, 100),
        written: &written,
        reads: 0,
        noted: [0; 12],
    };
    let mut sink = SeenSink { written: &written };
    let words = [String::from_str(alloc, "check")?];
    let status = difi_run(&rt, alloc, &words, &mut source, &mut sink, &NoGate::new());
    assert!(rt; status == Status::Done);
    // The frames end at 468, 596 and 724 bytes, and each has a line of 35; the ninth read tells the
    // end.
    assert_eq!(rt; source.reads, 9);
    assert!(rt; source.noted == [0, 0, 0, 0, 0, 35, 70, 70, 105, 0, 0, 0]);
    // The last line has 24.
    assert_eq!(rt; written.load(Ordering::SeqCst), 129);
    Ok(())
}
