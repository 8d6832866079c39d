//! std's readers and writers as devices. Their contents are modelled where those of the reader or
//! writer are.
ghost use Rattle.std.specs.Prelude.{◌≡◌};
ghost use Rattle.std.proofs.Props.{props};
ghost use Rattle.educe_cli.specs.Adapters.{IsSteady};

use educe_core::{Failed, Sink, Source, Stopped};
use std::io::{Read, Write};

/// A reader as a source.
#[derive(Drop)]
pub struct Reading<R: Read + Drop> {
    inner: R,
    faults: u64,
    ghost steady: { IsSteady R.remaining inner } by { Prim.hlevel props },
}

impl<R: Read + Drop> Reading<R> {
    /// The reader, which has not failed yet.
    pub fn new(inner: R) -> Self
        requires { IsSteady R.remaining inner }
        ensures inner { result.inner ≡ inner }
        ensures faults { result.faults ≡ 0 }
    {
        Reading { inner, faults: 0 }
    }
}

impl<R: Read + Drop> Source for Reading<R> {
    ghost use Rattle.std.specs.Prelude.{true};

    ghost left = { λ reading. R.remaining reading.inner };

    ghost faults = { λ reading. reading.faults };

    ghost may_fail = { λ _. true };

    fn read(&mut self, room: &mut [u8]) -> Result<usize, Failed> {
        match self.inner.read(room) {
            Ok(count) => Ok(count),
            Err(_) => {
                self.faults = self.faults.saturating_add(1);
                Err(Failed)
            }
        }
    }
}

/// A writer as a sink. Each write is flushed. Where a flush fails, the bytes that were written do not
/// count as held, and each later call fails.
#[derive(Drop)]
pub struct Writing<W: Write + Drop> {
    inner: W,
    faults: u64,
    /// How many bytes the writer took before a flush failed.
    unflushed: usize,
    ghost steady: { IsSteady W.contents inner } by { Prim.hlevel props },
}

impl<W: Write + Drop> Writing<W> {
    /// The writer, which has not failed yet.
    pub fn new(inner: W) -> Self
        requires { IsSteady W.contents inner }
        ensures inner { result.inner ≡ inner }
        ensures faults { result.faults ≡ 0 }
        ensures unflushed { result.unflushed ≡ 0 }
    {
        Writing {
            inner,
            faults: 0,
            unflushed: 0,
        }
    }
}

impl<W: Write + Drop> Sink for Writing<W> {
    ghost use Rattle.std.specs.Prelude.{true};
    ghost use Rattle.educe_cli.specs.Adapters.{all_but};

    ghost held = { λ writing. all_but writing.unflushed (W.contents writing.inner) };

    ghost faults = { λ writing. writing.faults };

    ghost may_fail = { λ _. true };

    fn write(&mut self, piece: &[u8]) -> Result<usize, Stopped> {
        if self.unflushed == 0 {
            if let Ok(count) = self.inner.write(piece) {
                if self.inner.flush().is_err() {
                    self.unflushed = count;
                } else if count > 0 || piece.is_empty() {
                    return Ok(count);
                }
            }
        }
        self.faults = self.faults.saturating_add(1);
        Err(Stopped::Failed)
    }
}

#[cfg(test)]
pub mod failing;

#[cfg(test)]
mod tests {
    use super::failing::{FailingReader, FailingWriter};
    use super::*;
    use std::io;
    use std::test::Fail;

    /// A writer that takes nothing.
    #[derive(Drop)]
    struct Full;

    impl Write for Full {
        fn write(&mut self, _piece: &[u8]) -> io::Result<usize> {
            Ok(0)
        }

        fn flush(&mut self) -> io::Result<()> {
            Ok(())
        }
    }

    /// A writer that counts its calls. Its second flush fails.
    #[derive(Drop)]
    struct Counting {
        writes: u64,
        flushes: u64,
    }

    impl Write for Counting {
        fn write(&mut self, piece: &[u8]) -> io::Result<usize> {
            self.writes = self.writes.saturating_add(1);
            Ok(piece.len())
        }

        fn flush(&mut self) -> io::Result<()> {
            self.flushes = self.flushes.saturating_add(1);
            if self.flushes == 2 {
                return Err(io::Error::from(io::ErrorKind::Other));
            }
            Ok(())
        }
    }

    #[test]
    fn a_write_that_takes_nothing_is_a_fault(rt: HostRuntime) -> Result<(), Fail> {
        let mut sink = Writing::new(Full);
        assert!(rt; matches!(sink.write(b"a"), Err(Stopped::Failed)));
        assert_eq!(rt; sink.faults, 1);
        assert!(rt; matches!(sink.write(b""), Ok(0)));
        Ok(())
    }

    #[test]
    fn each_write_is_flushed_until_a_flush_fails(rt: HostRuntime) -> Result<(), Fail> {
        let mut sink = Writing::new(Counting {
            writes: 0,
            flushes: 0,
        });
        assert!(rt; matches!(sink.write(b"ab"), Ok(2)));
        assert_eq!(rt; sink.inner.flushes, 1);
        assert!(rt; matches!(sink.write(b"c"), Err(Stopped::Failed)));
        assert!(rt; matches!(sink.write(b"d"), Err(Stopped::Failed)));
        assert_eq!(rt; sink.faults, 2);
        assert_eq!(rt; sink.inner.writes, 2);
        Ok(())
    }

    #[test]
    fn bytes_pass(rt: HostRuntime) -> Result<(), Fail> {
        let mut sink = Writing::new(Vec::new(rt.alloc()));
        assert!(rt; matches!(sink.write(b"ab"), Ok(2)));
        assert_eq!(rt; sink.inner.as_slice(), b"ab".as_slice());
        let mut source = Reading::new(b"ab".as_slice());
        let mut room = [0; 4];
        assert!(rt; matches!(source.read(&mut room), Ok(2)));
        assert_eq!(rt; room, [97, 98, 0, 0]);
        Ok(())
    }

    #[test]
    fn a_failed_read_stays_a_fault_where_the_reader_goes_on(rt: HostRuntime) -> Result<(), Fail> {
        let mut source = Reading::new(FailingReader::new(b"abcd", 1));
        let mut room = [0; 2];
        assert!(rt; matches!(source.read(&mut room), Ok(2)));
        assert!(rt; source.read(&mut room).is_err());
        assert_eq!(rt; source.faults, 1);
        assert!(rt; matches!(source.read(&mut room), Ok(2)));
        assert_eq!(rt; room, [99, 100]);
        assert!(rt; matches!(source.read(&mut room), Ok(0)));
        assert_eq!(rt; source.faults, 1);
        Ok(())
    }

    #[test]
    fn a_failed_write_stays_a_fault_where_the_writer_goes_on(rt: HostRuntime) -> Result<(), Fail> {
        let mut sink = Writing::new(FailingWriter::new(Vec::new(rt.alloc()), 1));
        assert!(rt; matches!(sink.write(b"ab"), Ok(2)));
        assert!(rt; matches!(sink.write(b"cd"), Err(Stopped::Failed)));
        assert_eq!(rt; sink.faults, 1);
        assert!(rt; matches!(sink.write(b"cd"), Ok(2)));
        assert_eq!(rt; sink.faults, 1);
        assert_eq!(rt; sink.inner.bytes(), b"abcd".as_slice());
        Ok(())
    }
}
