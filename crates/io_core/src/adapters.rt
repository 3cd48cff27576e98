//! The system's files and output.

ghost use Rattle.std.specs.Prelude.{◌≡◌, ◌≤◌, ◌<◌, ℕ, [], None, length, IfOk, IfSome, IsTrue};

use crate::asked::add_name;
use crate::faults::{ReadError, WriteError};
use crate::traits::{Files, Sink};
use std::alloc::Global;
use std::io;
use std::io::{ErrorKind, Read, Write};
use std::marker::Model;
use std::rt::Files as Disk;
use term_core::{Name, Seq};

/// The files of the system, which a runtime of std gives. What they hold isn't told.
#[derive(Drop)]
pub struct StdFiles<R> {
    rt: R,
    asked: Seq<Name>,
    faults: u64,
}

/// A writer of std. What it took isn't told. What it buffers is flushed by its owner.
#[derive(Drop)]
pub struct StdSink<W> {
    inner: W,
    faults: u64,
}

impl<R> Model for StdFiles<R> {
    ghost use Rattle.io_core.specs.Asked.{UntoldFiles};

    ghost Value = { UntoldFiles };

    ghost view = { λ s. record { asked = s.asked; faults = s.faults } };
}

impl<W> Model for StdSink<W> {
    ghost use Rattle.std.specs.Prelude.{ℕ};

    ghost Value = { ℕ };

    ghost view = { λ s. s.faults };
}

impl<R: Disk + AllocGlobal + Drop> StdFiles<R> {
    pub fn new(rt: R) -> StdFiles<R>
        ensures faults { ⟦<StdFiles<R> as Files>⟧.faults result ≡ 0 }
        ensures asked { ⟦<StdFiles<R> as Files>⟧.asked result ≡ [] }
    {
        let asked = Seq::new(rt.alloc());
        StdFiles {
            rt,
            asked,
            faults: 0,
        }
    }
}

impl<W: Write + Drop> StdSink<W> {
    pub fn new(inner: W) -> StdSink<W>
        ensures { ⟦<StdSink<W> as Sink>⟧.faults result ≡ 0 }
    {
        StdSink { inner, faults: 0 }
    }
}

impl<R: Disk + Drop> Files for StdFiles<R> {
    ghost held = { λ _ _. None };

    ghost faults = { λ s. s.faults };

    ghost asked = { λ s. s.asked };

    fn read(&mut self, alloc: Global, name: &str, limit: usize) -> Result<Vec<u8>, ReadError> {
        let _faults = self.faults;
        add_name(alloc, &mut self.asked, name)?;
        let answer = read_file(alloc, &self.rt, name, limit);
        if let Err(ReadError::Failed) = &answer {
            self.faults = self.faults.saturating_add(1);
        }
        answer
    }
}

impl<W: Write + Drop> Sink for StdSink<W> {
    ghost written = { λ _. None };

    ghost faults = { λ s. s };

    fn write(&mut self, _alloc: Global, piece: &[u8]) -> Result<usize, WriteError> {
        let _faults = self.faults;
        if piece.is_empty() {
            return Ok(0);
        }
        match write_some(&mut self.inner, piece) {
            Some(n) => Ok(n),
            None => {
                self.faults = self.faults.saturating_add(1);
                Err(WriteError::Failed)
            }
        }
    }
}

/// How many interruptions within one call are forgiven. The next one is an error.
const FORGIVEN: u8 = 100;

/// How many interruptions are still forgiven.
#[derive(Drop)]
struct Patience {
    left: u8,
}

impl Patience {
    fn new() -> Patience {
        Patience { left: FORGIVEN }
    }

    /// Whether the error is an interruption after which std is called again.
    fn forgives(&mut self, error: &io::Error) -> bool
        ensures { IsTrue result → self.new.left < self.old.left }
    {
        if self.left == 0 || error.kind() != ErrorKind::Interrupted {
            return false;
        }
        self.left -= 1;
        true
    }
}

/// The bytes of the file of the name.
fn read_file<R: Disk>(alloc: Global, rt: &R, name: &str, limit: usize) -> Result<Vec<u8>, ReadError>
    ensures { IfOk result (λ v. length v.items ≤ limit) }
{
    let mut patience = Patience::new();
    let Some(mut file) = open_file(rt, name, &mut patience) else {
        return Err(ReadError::Failed);
    };
    read_up_to(alloc, &mut file, limit, &mut patience)
}

fn open_file<R: Disk>(rt: &R, name: &str, patience: &mut Patience) -> Option<R::File> {
    loop {
        match std::fs::open(rt, name) {
            Ok(file) => return Some(file),
            Err(error) => {
                if !patience.forgives(&error) {
                    return None;
                }
            }
        }
    }
}

/// All that the reader has left.
fn read_up_to<F: Read>(
    alloc: Global,
    file: &mut F,
    limit: usize,
    patience: &mut Patience,
) -> Result<Vec<u8>, ReadError>
    ensures { IfOk result (λ v. length v.items ≤ limit) }
{
    let mut bytes = Vec::new(alloc);
    let mut buf = [0u8; 4096];
    loop {
        match file.read(&mut buf) {
            Ok(0) => return Ok(bytes),
            Ok(n) => {
                if n > limit - bytes.len() {
                    return Err(ReadError::TooLong);
                }
                bytes.extend_from_slice(&buf[..n])?;
            }
            Err(error) => {
                if !patience.forgives(&error) {
                    return Err(ReadError::Failed);
                }
            }
        }
    }
}

/// How many bytes the writer took from the front of the piece, if it took some.
fn write_some<W: Write>(inner: &mut W, piece: &[u8]) -> Option<usize>
    ensures some { IfSome result (λ n. 0 < n) }
    ensures within { IfSome result (λ n. n ≤ length piece.now) }
{
    let mut patience = Patience::new();
    loop {
        match inner.write(piece) {
            Ok(0) => return None,
            Ok(n) => return Some(n),
            Err(error) => {
                if !patience.forgives(&error) {
                    return None;
                }
            }
        }
    }
}

#[cfg(test)]
mod tests {
    use super::*;
    use crate::traits::write_all;
    use std::fs;
    use std::test::Fail;

    /// What a store and a sink did at a file.
    #[derive(Drop)]
    struct Seen {
        read: Result<Vec<u8>, ReadError>,
        longer: Result<Vec<u8>, ReadError>,
        missing: Result<Vec<u8>, ReadError>,
        asked: usize,
        read_faults: u64,
        wrote: Result<(), WriteError>,
        write_faults: u64,
        written: Vec<u8>,
    }

    /// Reads a file of seven bytes with room for seven and for six, and one that isn't there, and
    /// writes to the first.
    fn go_through_a_file(rt: HostRuntime) -> Result<Seen, Fail> {
        let alloc = rt.alloc();
        let path = "io_core_test_file";
        fs::write(&rt, path, "seven b")?;
        let mut store = StdFiles::new(rt);
        let read = store.read(alloc, path, 7);
        let longer = store.read(alloc, path, 6);
        let missing = store.read(alloc, "io_core_no_file", 7);
        let mut sink = StdSink::new(fs::create(&rt, path)?);
        let wrote = write_all(&mut sink, alloc, b"three");
        let written = fs::read(&rt, path)?;
        fs::remove_file(&rt, path)?;
        Ok(Seen {
            read,
            longer,
            missing,
            asked: store.asked.len(),
            read_faults: store.faults,
            wrote,
            write_faults: sink.faults,
            written,
        })
    }

    #[test]
    fn reads_and_writes_a_file(rt: HostRuntime) -> Result<(), Fail> {
        let seen = go_through_a_file(rt)?;
        assert_eq!(rt; seen.longer, Err(ReadError::TooLong));
        assert_eq!(rt; seen.missing, Err(ReadError::Failed));
        assert_eq!(rt; (seen.asked, seen.read_faults), (3, 1));
        assert_eq!(rt; (seen.wrote, seen.write_faults), (Ok(()), 0));
        assert_eq!(rt; seen.written.as_slice(), b"three".as_slice());
        assert_eq!(rt; seen.read?.as_slice(), b"seven b".as_slice());
        Ok(())
    }

    /// Is interrupted a number of times, and then moves at most this many bytes.
    #[derive(Drop)]
    struct Interrupted {
        left: u8,
        moves: usize,
    }

    impl Interrupted {
        fn next(&mut self, asked: usize) -> io::Result<usize>
            ensures { IfOk result (λ n. n ≤ asked) }
        {
            if self.left == 0 {
                return Ok(asked.min(self.moves));
            }
            self.left -= 1;
            Err(io::Error::from(ErrorKind::Interrupted))
        }
    }

    impl Write for Interrupted {
        fn write(&mut self, buf: &[u8]) -> io::Result<usize> {
            self.next(buf.len())
        }

        fn flush(&mut self) -> io::Result<()> {
            Ok(())
        }
    }

    impl Read for Interrupted {
        fn read(&mut self, _buf: &mut [u8]) -> io::Result<usize> {
            self.next(0)
        }
    }

    #[test]
    fn forgives_a_hundred_interruptions(rt: HostRuntime) -> Result<(), Fail> {
        let alloc = rt.alloc();
        let failed = Err(WriteError::Failed);
        for (left, moves, wrote, faults) in [
            (0, 2, Ok(2), 0),
            (100, 2, Ok(2), 0),
            (101, 2, failed, 1),
            (0, 0, failed, 1),
        ] {
            let mut sink = StdSink::new(Interrupted { left, moves });
            let answer = sink.write(alloc, b"abc");
            assert_eq!(rt; (answer, sink.faults), (wrote, faults), "{left} {moves}");
        }
        for (left, gave) in [(100, true), (101, false)] {
            let mut reader = Interrupted { left, moves: 0 };
            let read = read_up_to(alloc, &mut reader, 7, &mut Patience::new());
            assert_eq!(rt; read.is_ok(), gave, "{left}");
        }
        Ok(())
    }
}
