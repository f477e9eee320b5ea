//! Readers and writers that tell their bytes, and such as fail.

use crate::expect::{expect_bytes, expect_eq, got};
use cards::{Bytes, DeviceFault, Sink, Source};
use std::io;
use std::io::BufWriter;
use streams::{InputFault, ReaderSource, WriterSink, read_all};

/// A writer that takes no byte, or a reader and a writer that fail.
#[derive(Drop)]
struct Broken {
    takes_none: bool,
}

impl io::Write for Broken {
    fn write(&mut self, _buf: &[u8]) -> io::Result<usize> {
        if self.takes_none {
            return Ok(0);
        }
        Err(io::Error::from(io::ErrorKind::BrokenPipe))
    }

    fn flush(&mut self) -> io::Result<()> {
        Ok(())
    }
}

impl io::Read for Broken {
    fn read(&mut self, _buf: &mut [u8]) -> io::Result<usize> {
        Err(io::Error::from(io::ErrorKind::BrokenPipe))
    }
}

/// A text in pieces, and a reader that fails.
#[test]
fn readers(rt: HostRuntime) {
    let mut buffer = [0; 4];
    let mut source = ReaderSource::new(b"abcdef".as_slice());
    expect_eq(&rt, &source.read(&mut buffer), &Ok(4));
    expect_bytes(&rt, &buffer, b"abcd");
    expect_eq(&rt, &source.read(&mut buffer), &Ok(2));
    expect_bytes(&rt, &buffer, b"efcd");
    expect_eq(&rt, &source.read(&mut buffer), &Ok(0));
    let mut broken = ReaderSource::new(Broken { takes_none: false });
    expect_eq(&rt, &broken.read(&mut buffer), &Err(DeviceFault));
    expect_bytes(&rt, &buffer, b"efcd");
}

/// Whole inputs: one of over two pieces, and one that fails in its second call.
#[test]
fn whole_inputs(rt: HostRuntime) {
    let text = [b'x'; 40000];
    let mut source = ReaderSource::new(text.as_slice());
    let read = got(&rt, read_all(rt.alloc(), &mut source));
    expect_eq(&rt, &read.len(), &text.len());
    let mut failing = Bytes::failing_after(&text, 100, 1);
    let fault = read_all(rt.alloc(), &mut failing).err();
    expect_eq(&rt, &fault, &Some(InputFault::Read));
}

/// A writer at once, and one that holds back what goes out by the flush.
#[test]
fn writers(rt: HostRuntime) {
    let mut sink = WriterSink::new(Vec::new(rt.alloc()));
    expect_eq(&rt, &sink.write(b"abc"), &Ok(3));
    expect_eq(&rt, &sink.write(b""), &Ok(0));
    let held = got(&rt, BufWriter::new(rt.alloc(), Vec::new(rt.alloc())));
    let mut held = WriterSink::new(held);
    expect_eq(&rt, &held.write(b"NS 1\n"), &Ok(5));
    expect_bytes(&rt, held.get_ref().get_ref().as_slice(), b"");
    expect_eq(&rt, &held.flush(), &Ok(()));
    expect_bytes(&rt, held.get_ref().get_ref().as_slice(), b"NS 1\n");
}

/// The same with writers that fail.
#[test]
fn broken_writers(rt: HostRuntime) {
    for takes_none in [false, true] {
        let mut broken = WriterSink::new(Broken { takes_none });
        expect_eq(&rt, &broken.write(b"abc"), &Err(DeviceFault));
        let held = got(&rt, BufWriter::new(rt.alloc(), Broken { takes_none }));
        let mut held = WriterSink::new(held);
        expect_eq(&rt, &held.write(b"NS 1\n"), &Ok(5));
        expect_eq(&rt, &held.flush(), &Err(DeviceFault));
    }
}
