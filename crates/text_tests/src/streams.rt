//! Lines, and streams that are slow, interrupted or failing.

use qm_io::{
    MemSink, MemSource, Memory, ReadFail, StdSink, StdSource, WriteFail, read_lines, write_all,
};
use std::io::{self, Error, ErrorKind, Read, Write};
use std::test::Fail;

fn bytes_of(alloc: std::alloc::Global, text: &[u8]) -> Result<Vec<u8>, Memory> {
    Vec::from_slice(alloc, text)
}

#[test]
fn lines_end_as_the_format_says(rt: HostRuntime) -> Result<(), Fail> {
    let text = bytes_of(rt.alloc(), b"v 1\r\n\n#\r\r\nlast\r")?;
    let mut source = MemSource::new(text, 3, Vec::new(rt.alloc()));
    let lines = read_lines(rt.alloc(), &mut source, 100)?;
    assert_eq!(rt; lines.count(), 4);
    assert_eq!(rt; lines.line(0), b"v 1".as_slice());
    assert_eq!(rt; lines.line(1), b"".as_slice());
    assert_eq!(rt; lines.line(2), b"#\r".as_slice());
    assert_eq!(rt; lines.line(3), b"last".as_slice());
    assert_eq!(rt; lines.tail(2), b"#\r\r\nlast\r".as_slice());
    Ok(())
}

#[test]
fn a_limit_is_what_may_be_read(rt: HostRuntime) -> Result<(), Fail> {
    for (text, calls, limit, want) in [
        (b"abcd".as_slice(), 0, 4, None),
        (b"abcde".as_slice(), 0, 4, Some(ReadFail::TooLong)),
        (b"abcd".as_slice(), 2, 4, Some(ReadFail::Fault)),
        (b"".as_slice(), 0, 0, None),
    ] {
        let fail_at = Vec::from_slice(rt.alloc(), &[calls])?;
        let mut source = MemSource::new(bytes_of(rt.alloc(), text)?, 2, fail_at);
        assert_eq!(rt; read_lines(rt.alloc(), &mut source, limit).err(), want);
    }
    Ok(())
}

#[test]
fn a_sink_takes_all_or_a_prefix(rt: HostRuntime) -> Result<(), Fail> {
    let mut sink = MemSink::new(rt.alloc(), 3, Vec::new(rt.alloc()));
    write_all(&mut sink, b"seven b")?;
    assert_eq!(rt; sink.taken(), b"seven b".as_slice());
    let mut failing = MemSink::new(rt.alloc(), 3, Vec::from_slice(rt.alloc(), &[2])?);
    assert_eq!(rt; write_all(&mut failing, b"seven b"), Err(WriteFail::Fault));
    assert_eq!(rt; failing.taken(), b"sev".as_slice());
    Ok(())
}

/// A stream of std that moves one byte a call: every second call is interrupted, and call `fails` fails, from 1.
#[derive(Drop)]
struct Halting {
    bytes: Vec<u8>,
    calls: u64,
    fails: u64,
}

impl Halting {
    /// Whether the next call does its work.
    fn begins(&mut self) -> io::Result<()> {
        self.calls = self.calls.saturating_add(1);
        if self.calls == self.fails {
            return Err(Error::from(ErrorKind::BrokenPipe));
        }
        if self.calls % 2 == 0 {
            return Err(Error::from(ErrorKind::Interrupted));
        }
        Ok(())
    }
}

impl Read for Halting {
    fn read(&mut self, buf: &mut [u8]) -> io::Result<usize> {
        self.begins()?;
        match (buf.first_mut(), self.bytes.pop()) {
            (Some(slot), Some(byte)) => {
                *slot = byte;
                Ok(1)
            }
            _ => Ok(0),
        }
    }
}

impl Write for Halting {
    fn write(&mut self, buf: &[u8]) -> io::Result<usize> {
        self.begins()?;
        match buf.first() {
            Some(byte) => {
                self.bytes.push(*byte)?;
                Ok(1)
            }
            None => Ok(0),
        }
    }

    fn flush(&mut self) -> io::Result<()> {
        Ok(())
    }
}

#[test]
fn a_stream_of_std_may_halt_but_loses_no_byte(rt: HostRuntime) -> Result<(), Fail> {
    for (fails, want) in [
        (0, None),
        (1, Some(ReadFail::Fault)),
        (5, Some(ReadFail::Fault)),
        (9, None),
    ] {
        let bytes = bytes_of(rt.alloc(), b"cba")?;
        let mut source = StdSource::new(Halting {
            bytes,
            calls: 0,
            fails,
        });
        match read_lines(rt.alloc(), &mut source, 100) {
            Ok(lines) => {
                assert_eq!(rt; want, None);
                assert_eq!(rt; lines.bytes.as_slice(), b"abc".as_slice());
            }
            Err(fail) => assert_eq!(rt; Some(fail), want),
        }
    }
    for (fails, want) in [(0, b"abc".as_slice()), (1, b""), (3, b"a"), (5, b"ab")] {
        let mut stream = Halting {
            bytes: Vec::new(rt.alloc()),
            calls: 0,
            fails,
        };
        let written = write_all(&mut StdSink::new(&mut stream), b"abc");
        assert_eq!(rt; written.is_ok(), fails == 0);
        assert_eq!(rt; stream.bytes.as_slice(), want);
    }
    Ok(())
}

#[test]
fn streams_of_std_serve(rt: HostRuntime) -> Result<(), Fail> {
    let mut source = StdSource::new(b"v 1 2 3\n".as_slice());
    let lines = read_lines(rt.alloc(), &mut source, 100)?;
    assert_eq!(rt; lines.count(), 1);
    assert_eq!(rt; lines.line(0), b"v 1 2 3".as_slice());
    let mut sink = StdSink::new(rt.stdout());
    write_all(&mut sink, b"")?;
    Ok(())
}
