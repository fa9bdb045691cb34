//! A source over std's readers and a sink over std's writers, which try again what was interrupted.

ghost use Rattle.std.specs.Prelude.{◌≡◌, false};
ghost use Rattle.std.specs.Io.KnownBytes.{Appends, Consumes, IsAtEnd};

use super::sink::Sink;
use super::source::{Failed, Source};
use std::io::{ErrorKind, Read, Write};
use std::marker::Model;

/// A source over std's reader. A read that was interrupted is tried again.
#[derive(Drop)]
pub struct FromRead<R> {
    pub reader: R,
    has_failed: bool,
}

impl<R> Model for FromRead<R> {
    ghost use Rattle.byte_streams.specs.Streams.{Stream};

    ghost Value = { Stream R };

    ghost view = { λ s. record { inner = s.reader; failed = s.has_failed } };
}

impl<R> FromRead<R> {
    /// The source of what the reader gives.
    pub fn new(reader: R) -> FromRead<R>
        ensures { result ≡ record { inner = reader; failed = false } }
    {
        FromRead {
            reader,
            has_failed: false,
        }
    }

    /// Whether a call has failed.
    pub fn has_failed(&self) -> bool
        ensures { result ≡ self.now.failed }
    {
        self.has_failed
    }
}

impl<R: Read> Source for FromRead<R> {
    ghost gives = { λ s bytes t. Consumes (R.remaining s.inner) (R.remaining t.inner) bytes };

    ghost ended = { λ s. IsAtEnd (R.remaining s.inner) };

    ghost failed = { λ s. s.failed };

    fn read(&mut self, buf: &mut [u8]) -> Result<usize, Failed> {
        for _turn in 0..u64::MAX {
            match self.reader.read(buf) {
                Ok(count) => return Ok(count),
                Err(error) if error.kind() == ErrorKind::Interrupted => {}
                Err(_) => break,
            }
        }
        self.has_failed = true;
        Err(Failed)
    }
}

/// A sink over std's writer. A write that was interrupted is tried again.
#[derive(Drop)]
pub struct ToWrite<W> {
    pub writer: W,
    has_failed: bool,
}

impl<W> Model for ToWrite<W> {
    ghost use Rattle.byte_streams.specs.Streams.{Stream};

    ghost Value = { Stream W };

    ghost view = { λ s. record { inner = s.writer; failed = s.has_failed } };
}

impl<W> ToWrite<W> {
    /// The sink that the writer takes from.
    pub fn new(writer: W) -> ToWrite<W>
        ensures { result ≡ record { inner = writer; failed = false } }
    {
        ToWrite {
            writer,
            has_failed: false,
        }
    }

    /// Whether a call has failed.
    pub fn has_failed(&self) -> bool
        ensures { result ≡ self.now.failed }
    {
        self.has_failed
    }
}

impl<W: Write> Sink for ToWrite<W> {
    ghost takes = { λ s bytes t. Appends (W.contents s.inner) (W.contents t.inner) bytes };

    ghost failed = { λ s. s.failed };

    fn write(&mut self, buf: &[u8]) -> Result<usize, Failed> {
        for _turn in 0..u64::MAX {
            match self.writer.write(buf) {
                Ok(count) => {
                    if count == 0 && !buf.is_empty() {
                        self.has_failed = true;
                    }
                    return Ok(count);
                }
                Err(error) if error.kind() == ErrorKind::Interrupted => {}
                Err(_) => break,
            }
        }
        self.has_failed = true;
        Err(Failed)
    }
}
