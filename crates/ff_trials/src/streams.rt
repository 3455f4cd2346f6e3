//! The adapters of std's readers and writers.
use ff_outside::{Sink, SinkFailed, Source, SourceFailed, StdSink, StdSource};
use std::io::{self, ErrorKind, Read, Write};
use std::test::Fail;

// It can't be read, and takes nothing of what is written, without a word.
#[derive(Drop)]
struct Broken;

impl Read for Broken {
    fn read(&mut self, _buf: &mut [u8]) -> io::Result<usize> {
        Err(io::Error::from(ErrorKind::Other))
    }
}

impl Write for Broken {
    fn write(&mut self, _buf: &[u8]) -> io::Result<usize> {
        Ok(0)
    }

    fn flush(&mut self) -> io::Result<()> {
        Ok(())
    }
}

// It takes one byte a call, and keeps it.
#[derive(Drop)]
struct Slow {
    taken: Vec<u8>,
}

impl Write for Slow {
    fn write(&mut self, buf: &[u8]) -> io::Result<usize> {
        match buf {
            [] => Ok(0),
            [first, ..] => {
                self.taken
                    .push(*first)
                    .map_err(|_| io::Error::from(ErrorKind::OutOfMemory))?;
                Ok(1)
            }
        }
    }

    fn flush(&mut self) -> io::Result<()> {
        Ok(())
    }
}

#[test]
fn adapters_hand_on_bytes_and_faults(rt: HostRuntime) -> Result<(), Fail> {
    let text = b"abc";
    let mut source = StdSource::new(&text[..]);
    let mut buf = [0u8; 2];
    assert_eq!(rt; source.take(&mut buf)?, 2);
    assert_eq!(rt; buf, *b"ab");
    assert_eq!(rt; source.take(&mut buf)?, 1);
    assert_eq!(rt; buf[0], b'c');
    assert_eq!(rt; source.take(&mut buf)?, 0);
    assert_eq!(rt; StdSource::new(Broken).take(&mut buf), Err(SourceFailed));

    let mut slow = Slow {
        taken: Vec::new(rt.alloc()),
    };
    let mut at = 0;
    for _ in 0..3 {
        assert!(rt; at < text.len());
        at += StdSink::new(&mut slow).put(&text[at..])?;
    }
    assert_eq!(rt; slow.taken.as_slice(), text.as_slice());
    assert_eq!(rt; StdSink::new(Broken).put(text), Err(SinkFailed));
    Ok(())
}
