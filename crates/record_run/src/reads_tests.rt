//! What is asked for at each read, and what stands written then.

ghost use Rattle.std.specs.Prelude.{◌≡◌, None, false};

use crate::Status;
use crate::tests::{MANY, record, told};
use crate::trial::TrialTeller;
use difi_io::{Failed, MemSink, MemSource, Sink, Source, SureSink, SureSource};
use std::alloc::{AllocError, Global};
use std::sync::atomic::{AtomicU64, Ordering};
use std::test::Fail;

// A source that counts the reads of one byte in front of the first larger one, and those behind
// them by what they ask for.
#[derive(Drop)]
struct AskedSource {
    source: SureSource,
    ones: usize,
    large: usize,
    others: usize,
}

impl Source for AskedSource {
    ghost left = { λ _. None };

    ghost faults = { λ _. 0 };

    fn read(&mut self, into: &mut [u8]) -> Result<usize, Failed> {
        let count = match into.len() {
            1 if self.large == 0 && self.others == 0 => &mut self.ones,
            65_536 => &mut self.large,
            _ => &mut self.others,
        };
        *count = count.wrapping_add(1);
        self.source.read(into)
    }
}

// The numbers of these reads, for a teller that has begun with nothing.
fn asked(alloc: Global, teller: TrialTeller) -> Result<(usize, usize, usize), AllocError>
    requires told { teller.told ≡ 0 }
    requires owes { teller.owes ≡ false }
    requires open { teller.ended ≡ false }
{
    let mut source = AskedSource {
        source: SureSource::new(record(alloc)?, 4_096),
        ones: 0,
        large: 0,
        others: 0,
    };
    let _ = told(alloc, MANY, teller, &mut source, &mut SureSink::new());
    Ok((source.ones, source.large, source.others))
}

#[test]
fn one_byte_is_asked_for_until_memory_was_taken(rt: HostRuntime) -> Result<(), Fail> {
    let alloc = rt.alloc();
    // The first large read takes all, and the second one tells the end.
    assert!(rt; asked(alloc, TrialTeller::new(alloc))? == (0, 2, 0));
    // The header has 340 bytes.
    assert!(rt; asked(alloc, TrialTeller::with_room(alloc, 100))? == (340, 2, 0));
    Ok(())
}

#[test]
fn a_teller_without_memory_takes_the_header_alone(rt: HostRuntime) -> Result<(), Fail> {
    let alloc = rt.alloc();
    let mut source = MemSource::new(record(alloc)?, 4_096, Vec::new(alloc));
    let mut sink = MemSink::new(alloc, 100, 100, Vec::new(alloc))?;
    let teller = TrialTeller::with_room(alloc, 1 << 62);
    let status = told(alloc, MANY, teller, &mut source, &mut sink)?;
    assert!(rt; status == Status::Memory);
    assert!(rt; sink.bytes().is_empty());
    assert_eq!(rt; source.read(&mut [0; 1000]), Ok(256));
    Ok(())
}

// A sink whose number of bytes can be seen.
#[derive(Drop)]
struct SeenSink<'a> {
    written: &'a AtomicU64,
}

impl Sink for SeenSink<'_> {
    ghost held = { λ _. None };

    ghost faults = { λ _. 0 };

    fn write(&mut self, from: &[u8]) -> Result<usize, Failed> {
        self.written.fetch_add(from.len() as u64, Ordering::SeqCst);
        Ok(from.len())
    }
}

// A source that notes at each read how many bytes stand written.
#[derive(Drop)]
struct NotingSource<'a> {
    source: SureSource,
    written: &'a AtomicU64,
    reads: usize,
    noted: [u64; 8],
}

impl Source for NotingSource<'_> {
    ghost left = { λ _. None };

    ghost faults = { λ _. 0 };

    fn read(&mut self, into: &mut [u8]) -> Result<usize, Failed> {
        if let Some(note) = self.noted.get_mut(self.reads) {
            *note = self.written.load(Ordering::SeqCst);
        }
        self.reads = self.reads.wrapping_add(1);
        self.source.read(into)
    }
}

#[test]
fn what_was_told_stands_written_before_the_next_read(rt: HostRuntime) -> Result<(), Fail> {
    let alloc = rt.alloc();
    let written = AtomicU64::new(0);
    let mut source = NotingSource {
        source: SureSource::new(record(alloc)?, 100),
        written: &written,
        reads: 0,
        noted: [0; 8],
    };
    let mut sink = SeenSink { written: &written };
    let teller = TrialTeller::new(alloc);
    let status = told(alloc, MANY, teller, &mut source, &mut sink)?;
    assert!(rt; status == Status::Done);
    // The frames end at 468 and 596 bytes, and each has two lines of 19 bytes, of which the second
    // is owed; the seventh read tells the end.
    assert_eq!(rt; source.reads, 7);
    assert!(rt; source.noted == [0, 0, 0, 0, 0, 19, 38, 0]);
    // The last line has 9.
    assert_eq!(rt; written.load(Ordering::SeqCst), 47);
    Ok(())
}
