//! Tests of sources and sinks: interrupted calls, failing calls, and bytes in pieces.

use byte_streams::{Failed, FromBytes, FromRead, Sink, Source, ToBytes, ToWrite, WriteFailure};
use std::io::{self, Error, ErrorKind, Read, Write};
use std::process::Abort;

/// A stream whose first calls have these faults. The calls after them carry one byte each.
#[derive(Drop)]
struct Faulty {
    faults: [Option<ErrorKind>; 2],
    calls: usize,
}

impl Faulty {
    fn new(faults: [Option<ErrorKind>; 2]) -> Faulty {
        Faulty { faults, calls: 0 }
    }

    fn call(&mut self) -> io::Result<()> {
        let fault = self.faults.get(self.calls).copied().flatten();
        self.calls = self.calls.saturating_add(1);
        match fault {
            Some(kind) => Err(Error::from(kind)),
            None => Ok(()),
        }
    }
}

impl Read for Faulty {
    fn read(&mut self, buf: &mut [u8]) -> io::Result<usize> {
        self.call()?;
        for byte in buf.iter_mut().take(1) {
            *byte = b'a';
        }
        Ok(buf.len().min(1))
    }
}

impl Write for Faulty {
    fn write(&mut self, buf: &[u8]) -> io::Result<usize> {
        self.call()?;
        Ok(buf.len().min(1))
    }

    fn flush(&mut self) -> io::Result<()> {
        Ok(())
    }
}

/// The faults of the first calls, what the first call of the stream over them answers, and how many calls it makes.
const FAULTS: [([Option<ErrorKind>; 2], Result<usize, Failed>, usize); 6] = [
    ([None, None], Ok(1), 1),
    ([Some(ErrorKind::Interrupted), None], Ok(1), 2),
    (
        [Some(ErrorKind::Interrupted), Some(ErrorKind::Interrupted)],
        Ok(1),
        3,
    ),
    ([Some(ErrorKind::Other), None], Err(Failed), 1),
    ([Some(ErrorKind::WouldBlock), None], Err(Failed), 1),
    (
        [Some(ErrorKind::Interrupted), Some(ErrorKind::BrokenPipe)],
        Err(Failed),
        2,
    ),
];

/// Whether a stream over one with these faults answers so at first, after `calls` calls.
fn is_read(faults: [Option<ErrorKind>; 2], answer: Result<usize, Failed>, calls: usize) -> bool {
    let mut source = FromRead::new(Faulty::new(faults));
    let fresh = !source.has_failed();
    let found = source.read(&mut [0; 4]);
    fresh
        && found == answer
        && source.reader.calls == calls
        && source.has_failed() == answer.is_err()
}

#[test]
fn only_an_interrupted_read_is_tried_again(rt: HostRuntime) {
    for (faults, answer, calls) in FAULTS {
        assert!(rt; is_read(faults, answer, calls));
    }
}

/// Whether a stream over one with these faults answers so at first, after `calls` calls.
fn is_written(faults: [Option<ErrorKind>; 2], answer: Result<usize, Failed>, calls: usize) -> bool {
    let mut sink = ToWrite::new(Faulty::new(faults));
    let fresh = !sink.has_failed();
    let found = sink.write(b"text");
    fresh && found == answer && sink.writer.calls == calls && sink.has_failed() == answer.is_err()
}

#[test]
fn only_an_interrupted_write_is_tried_again(rt: HostRuntime) {
    for (faults, answer, calls) in FAULTS {
        assert!(rt; is_written(faults, answer, calls));
    }
}

/// What reads into the room answer, one after another.
fn assert_reads(
    rt: &impl Abort,
    source: &mut FromBytes,
    room: &mut [u8],
    answers: &[Result<usize, Failed>],
) {
    for answer in answers {
        assert!(rt; source.read(room) == *answer);
    }
}

#[test]
fn lent_bytes_are_read_in_pieces(rt: HostRuntime) {
    let mut source = FromBytes::failing_after(b"abcdefg", 3, 1);
    let mut buf = [0; 5];
    assert_reads(&rt, &mut source, &mut buf, &[Ok(3), Err(Failed)]);
    assert_reads(&rt, &mut source, &mut buf[3..], &[Ok(2)]);
    assert!(rt; buf == *b"abcde");
    assert_reads(&rt, &mut source, &mut buf, &[Ok(2), Ok(0)]);
}

/// What a write answers.
fn assert_write(rt: &impl Abort, sink: &mut ToBytes, bytes: &[u8], answer: Result<usize, Failed>) {
    assert!(rt; sink.write(bytes) == answer);
}

/// What writes into room for six bytes answer, the second of which is refused.
fn assert_refused(rt: &impl Abort, refusal: WriteFailure, answer: Result<usize, Failed>) {
    let mut room = [0; 6];
    let mut sink = ToBytes::refusing_after(&mut room, 3, 1, refusal);
    assert_write(rt, &mut sink, b"abcde", Ok(3));
    assert_write(rt, &mut sink, b"de", answer);
    assert_write(rt, &mut sink, b"de", Ok(2));
    assert_write(rt, &mut sink, b"fg", Ok(1));
    assert_write(rt, &mut sink, b"g", Ok(0));
    assert!(rt; sink.taken() == b"abcdef".as_slice());
}

#[test]
fn lent_bytes_are_written_in_pieces(rt: HostRuntime) {
    assert_refused(&rt, WriteFailure::Fails, Err(Failed));
    assert_refused(&rt, WriteFailure::TakesNothing, Ok(0));
}
