//! What no clause says: that the calls succeed with ample memory, in how many reads and writes, and
//! what real streams do.

ghost use Rattle.std.specs.Prelude.{◌<◌};

use crate::{
    Failed, FirmSink, FirmSource, MemSink, MemSource, ReadAll, Sink, Source, StdSink, StdSource,
    WriteFault, read_all, write_all,
};
use std::alloc::{AllocError, Global};
use std::fs::File;
use std::io::{self, Cursor, Read, Write};
use std::test::Fail;

const SENTENCE: &[u8] = b"Each phase prints its replies in turn";

/// A source of these bytes that gives such pieces and fails at these calls.
fn source_of(
    alloc: Global,
    bytes: &[u8],
    piece: usize,
    failing: &[u64],
) -> Result<MemSource, AllocError>
    requires { 0 < piece }
{
    let bytes = bytes.to_vec(alloc)?;
    Ok(MemSource::new(bytes, piece, failing.to_vec(alloc)?))
}

/// How many bytes are read of these with this limit.
fn count_read(alloc: Global, bytes: &[u8], limit: usize) -> Result<usize, ReadAll> {
    let mut source = FirmSource::new(bytes.to_vec(alloc)?);
    let read = read_all(alloc, &mut source, limit)?;
    Ok(read.len())
}

#[test]
fn firm_source_is_read_to_its_end(rt: HostRuntime) -> Result<(), Fail> {
    let mut source = FirmSource::new(SENTENCE.to_vec(rt.alloc())?);
    let bytes = read_all(rt.alloc(), &mut source, 1000)?;
    assert_eq!(rt; bytes.as_slice(), SENTENCE);
    Ok(())
}

#[test]
fn firm_sink_holds_what_was_written(rt: HostRuntime) -> Result<(), Fail> {
    let mut sink = FirmSink::new(rt.alloc());
    sink.reserve(6)?;
    write_all(&mut sink, b"one")?;
    write_all(&mut sink, b"two")?;
    assert_eq!(rt; sink.held(), b"onetwo".as_slice());
    Ok(())
}

#[test]
fn pieces_come_in_order(rt: HostRuntime) -> Result<(), Fail> {
    let mut source = source_of(rt.alloc(), SENTENCE, 16, &[])?;
    let bytes = read_all(rt.alloc(), &mut source, 37)?;
    assert_eq!(rt; bytes.as_slice(), SENTENCE);
    Ok(())
}

#[test]
fn a_read_that_fails_in_mid_stream_is_a_fault_and_the_rest_can_still_be_read(
    rt: HostRuntime,
) -> Result<(), Fail> {
    let mut source = source_of(rt.alloc(), SENTENCE, 16, &[3])?;
    let fault = read_all(rt.alloc(), &mut source, 37).err();
    assert_eq!(rt; fault, Some(ReadAll::ReadFault));
    let rest = read_all(rt.alloc(), &mut source, 37)?;
    assert_eq!(rt; rest.as_slice(), b" turn".as_slice());
    Ok(())
}

#[test]
fn the_limit_may_be_reached_and_not_passed(rt: HostRuntime) {
    assert_eq!(rt; count_read(rt.alloc(), SENTENCE, 37), Ok(37));
    assert_eq!(rt; count_read(rt.alloc(), SENTENCE, 36), Err(ReadAll::TooLong));
    assert_eq!(rt; count_read(rt.alloc(), b"", 0), Ok(0));
    assert_eq!(rt; count_read(rt.alloc(), b"a", 0), Err(ReadAll::TooLong));
}

// 4096, 4096, 1808 and none: a fifth read never comes.
#[test]
fn at_least_4096_bytes_are_asked_for(rt: HostRuntime) -> Result<(), Fail> {
    let bytes = vec![in rt.alloc(); 7u8; 10_000]?;
    let mut source = source_of(rt.alloc(), &bytes, 10_000, &[5])?;
    let read = read_all(rt.alloc(), &mut source, 20_000)?;
    assert_eq!(rt; read.len(), 10_000);
    Ok(())
}

#[test]
fn a_write_that_fails_leaves_a_front_and_the_rest_can_still_be_written(
    rt: HostRuntime,
) -> Result<(), Fail> {
    let failing = [3u64].to_vec(rt.alloc())?;
    let mut sink = MemSink::new(rt.alloc(), 100, 10, failing)?;
    let outcome = write_all(&mut sink, SENTENCE);
    assert_eq!(rt; outcome, Err(WriteFault));
    assert_eq!(rt; sink.held(), b"Each phase prints it".as_slice());
    write_all(&mut sink, &SENTENCE[20..])?;
    assert_eq!(rt; sink.held(), SENTENCE);
    Ok(())
}

#[test]
fn a_reader_in_memory_is_read_to_its_end(rt: HostRuntime) -> Result<(), Fail> {
    let mut source = StdSource::new(Cursor::new(SENTENCE));
    let bytes = read_all(rt.alloc(), &mut source, 37)?;
    assert_eq!(rt; bytes.as_slice(), SENTENCE);
    Ok(())
}

#[test]
fn a_directory_is_no_file_to_read(rt: HostRuntime) -> Result<(), Fail> {
    let mut source = StdSource::new(File::open(&rt, "/")?);
    let mut buf = [0u8; 8];
    let outcome = source.read(&mut buf);
    assert_eq!(rt; outcome, Err(Failed));
    let fault = read_all(rt.alloc(), &mut source, 37).err();
    assert_eq!(rt; fault, Some(ReadAll::ReadFault));
    Ok(())
}

#[test]
fn a_full_device_takes_nothing(rt: HostRuntime) -> Result<(), Fail> {
    let mut sink = StdSink::new(File::create(&rt, "/dev/full")?);
    let outcome = sink.write(b"lost");
    assert_eq!(rt; outcome, Err(Failed));
    let outcome = write_all(&mut sink, SENTENCE);
    assert_eq!(rt; outcome, Err(WriteFault));
    Ok(())
}

#[test]
fn a_writer_that_takes_none_of_some_bytes_has_failed(rt: HostRuntime) {
    let mut room = [0u8; 4];
    let mut sink = StdSink::new(Cursor::new(room.as_mut_slice()));
    let outcome = write_all(&mut sink, b"abcd");
    assert_eq!(rt; outcome, Ok(()));
    let outcome = sink.write(b"ef");
    assert_eq!(rt; outcome, Err(Failed));
}

/// Moves two bytes a call at most, and fails at its second call.
#[derive(Drop)]
struct Halting<T> {
    inner: T,
    calls: u8,
}

impl<T> Halting<T> {
    /// How many of so many bytes this call moves.
    fn turn(&mut self, len: usize) -> io::Result<usize> {
        self.calls = self.calls.saturating_add(1);
        if self.calls == 2 {
            return Err(io::Error::from(io::ErrorKind::Other));
        }
        Ok(len.min(2))
    }
}

impl<T: Read> Read for Halting<T> {
    fn read(&mut self, buf: &mut [u8]) -> io::Result<usize> {
        let count = self.turn(buf.len())?.min(buf.len());
        self.inner.read(&mut buf[..count])
    }
}

impl<T: Write> Write for Halting<T> {
    fn write(&mut self, buf: &[u8]) -> io::Result<usize> {
        let count = self.turn(buf.len())?.min(buf.len());
        self.inner.write(&buf[..count])
    }

    fn flush(&mut self) -> io::Result<()> {
        Ok(())
    }
}

/// Three reads, the third into where the second failed: their answers, and the faults that are counted.
fn reads_of_halting(buf: &mut [u8; 4]) -> ([Result<usize, Failed>; 3], u64) {
    let (inner, calls) = (b"abcdef".as_slice(), 0);
    let mut source = StdSource::new(Halting { inner, calls });
    let first = source.read(&mut buf[..2]);
    let second = source.read(&mut buf[2..]);
    let third = source.read(&mut buf[2..]);
    ([first, second, third], source.faults)
}

/// Three writes, the third of what the second failed at, and one of no bytes.
fn writes_of_halting(room: &mut [u8]) -> ([Result<usize, Failed>; 4], u64) {
    let (inner, calls) = (Cursor::new(room), 0);
    let mut sink = StdSink::new(Halting { inner, calls });
    let first = sink.write(b"abcd");
    let second = sink.write(b"cd");
    let third = sink.write(b"cd");
    let empty = sink.write(b"");
    ([first, second, third, empty], sink.faults)
}

#[test]
fn a_call_that_fails_is_one_fault_and_the_next_goes_on(rt: HostRuntime) {
    let mut buf = [0u8; 4];
    let (answers, faults) = reads_of_halting(&mut buf);
    assert_eq!(rt; answers, [Ok(2), Err(Failed), Ok(2)]);
    assert_eq!(rt; (buf, faults), (*b"abcd", 1));
    let mut room = [0u8; 4];
    let (answers, faults) = writes_of_halting(&mut room);
    assert_eq!(rt; answers, [Ok(2), Err(Failed), Ok(2), Ok(0)]);
    assert_eq!(rt; (room, faults), (*b"abcd", 1));
}
