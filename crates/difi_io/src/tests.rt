use super::*;
use std::io;
use std::io::Write;
use std::test::Fail;

#[test]
fn a_source_gives_its_bytes_in_pieces(rt: HostRuntime) -> Result<(), Fail> {
    let alloc = rt.alloc();
    let mut source = MemSource::new(Vec::from_slice(alloc, b"abc")?, 2, Vec::new(alloc));
    let mut into = [0; 4];
    assert_eq!(rt; source.read(&mut into), Ok(2));
    assert_eq!(rt; source.read(&mut into), Ok(1));
    assert_eq!(rt; into, *b"cb\0\0");
    assert_eq!(rt; source.read(&mut into), Ok(0));
    Ok(())
}

#[test]
fn a_listed_call_of_a_source_fails_and_takes_nothing(rt: HostRuntime) -> Result<(), Fail> {
    let alloc = rt.alloc();
    let fails = Vec::from_slice(alloc, &[1])?;
    let mut source = MemSource::new(Vec::from_slice(alloc, b"abc")?, 4, fails);
    let mut into = [0; 2];
    assert_eq!(rt; source.read(&mut into), Err(Failed));
    assert_eq!(rt; (&mut source).read(&mut into), Ok(2));
    assert_eq!(rt; into, *b"ab");
    Ok(())
}

#[test]
fn a_sink_takes_what_it_has_room_for(rt: HostRuntime) -> Result<(), Fail> {
    let alloc = rt.alloc();
    let mut sink = MemSink::new(alloc, 3, 2, Vec::new(alloc))?;
    assert_eq!(rt; sink.write(b"abcd"), Ok(2));
    assert_eq!(rt; (&mut sink).write(b"cd"), Ok(1));
    assert_eq!(rt; sink.write(b"d"), Err(Failed));
    assert_eq!(rt; sink.bytes(), b"abc".as_slice());
    Ok(())
}

#[test]
fn a_listed_call_of_a_sink_fails_and_takes_nothing(rt: HostRuntime) -> Result<(), Fail> {
    let alloc = rt.alloc();
    let mut sink = MemSink::new(alloc, 3, 2, Vec::from_slice(alloc, &[1])?)?;
    assert_eq!(rt; sink.write(b"ab"), Err(Failed));
    assert_eq!(rt; sink.write(b"ab"), Ok(2));
    assert_eq!(rt; sink.bytes(), b"ab".as_slice());
    Ok(())
}

#[test]
fn sure_ones_never_fail(rt: HostRuntime) -> Result<(), Fail> {
    let mut source = SureSource::new(Vec::from_slice(rt.alloc(), b"abc")?, 2);
    let mut into = [0; 1];
    assert_eq!(rt; source.read(&mut into), Ok(1));
    let mut sink = SureSink::new();
    assert_eq!(rt; sink.write(b"abc"), Ok(3));
    NoGate::new().at(0);
    Ok(())
}

#[test]
fn a_reader_and_a_writer_of_std_serve(rt: HostRuntime) -> Result<(), Fail> {
    let mut source = StdSource::new(b"abc".as_slice());
    let mut into = [0; 2];
    assert_eq!(rt; source.read(&mut into), Ok(2));
    assert_eq!(rt; into, *b"ab");
    let mut written = Vec::new(rt.alloc());
    let mut sink = StdSink::new(&mut written);
    assert_eq!(rt; sink.write(b"abc"), Ok(3));
    assert_eq!(rt; written.as_slice(), b"abc".as_slice());
    Ok(())
}

/// A writer that takes at most so many bytes at once, and whose flush may fail.
#[derive(Drop)]
struct Stubborn {
    most: usize,
    flushes: bool,
}

impl Write for Stubborn {
    fn write(&mut self, buf: &[u8]) -> io::Result<usize> {
        Ok(self.most.min(buf.len()))
    }

    fn flush(&mut self) -> io::Result<()> {
        if self.flushes {
            Ok(())
        } else {
            Err(io::Error::from(io::ErrorKind::BrokenPipe))
        }
    }
}

#[test]
fn a_write_of_nothing_and_a_failed_flush_fail(rt: HostRuntime) {
    let mut sink = StdSink::new(Stubborn {
        most: 0,
        flushes: true,
    });
    assert_eq!(rt; sink.write(b"a"), Err(Failed));
    let mut sink = StdSink::new(Stubborn {
        most: 1,
        flushes: false,
    });
    assert_eq!(rt; sink.write(b"a"), Err(Failed));
    let mut sink = StdSink::new(Stubborn {
        most: 1,
        flushes: true,
    });
    assert_eq!(rt; sink.write(b"ab"), Ok(1));
}
