// A source and a sink over a reader and a writer, with calls that fail in mid-stream.
use branch_io::{ReadSource, Sink, SinkFailed, Source, SourceFailed, WriteSink};
use std::io;
use std::io::{Cursor, ErrorKind, Read, Write};
use std::test::Fail;

fn next<S: Source>(source: &mut S) -> Result<(usize, [u8; 4]), SourceFailed> {
    let mut piece = [0; 4];
    let count = source.take(&mut piece)?;
    Ok((count, piece))
}

fn put<K: Sink>(sink: &mut K, bytes: &[u8]) -> Result<usize, SinkFailed> {
    let count = sink.give(bytes)?;
    sink.finish()?;
    Ok(count)
}

#[test]
fn readers_and_writers_serve(rt: HostRuntime) -> Result<(), Fail> {
    let mut source = ReadSource::new(b"look a".as_slice());
    assert_eq!(rt; next(&mut source), Ok((4, *b"look")));
    assert_eq!(rt; next(&mut source), Ok((2, *b" a\0\0")));
    assert_eq!(rt; next(&mut source), Ok((0, [0; 4])));
    let mut sink = WriteSink::new(Cursor::new([0u8; 4]));
    assert_eq!(rt; put(&mut sink, b"same"), Ok(4));
    Ok(())
}

// A reader and writer that stops working after its first call.
#[derive(Drop)]
struct Breaking {
    is_broken: bool,
}

impl Breaking {
    fn call(&mut self) -> io::Result<()> {
        if self.is_broken {
            return Err(io::Error::from(ErrorKind::BrokenPipe));
        }
        self.is_broken = true;
        Ok(())
    }
}

impl Read for Breaking {
    fn read(&mut self, buf: &mut [u8]) -> io::Result<usize> {
        self.call()?;
        Ok(buf.len().min(1))
    }
}

impl Write for Breaking {
    fn write(&mut self, buf: &[u8]) -> io::Result<usize> {
        self.call()?;
        Ok(buf.len())
    }

    fn flush(&mut self) -> io::Result<()> {
        self.call()
    }
}

#[test]
fn errors_of_readers_and_writers_are_faults(rt: HostRuntime) {
    let mut source = ReadSource::new(Breaking { is_broken: false });
    assert_eq!(rt; next(&mut source), Ok((1, [0; 4])));
    assert_eq!(rt; next(&mut source), Err(SourceFailed));
    let mut sink = WriteSink::new(Breaking { is_broken: false });
    assert_eq!(rt; sink.give(b"same"), Ok(4));
    assert_eq!(rt; sink.finish(), Err(SinkFailed));
    assert_eq!(rt; sink.give(b"same"), Err(SinkFailed));
    let mut full = WriteSink::new(Cursor::new([0u8; 2]));
    assert_eq!(rt; full.give(b"same"), Ok(2));
    assert_eq!(rt; full.give(b"me"), Err(SinkFailed));
}
