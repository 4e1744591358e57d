ghost use Rattle.std.specs.Prelude.{◌≡◌, ◌≤◌, ◌+◌, true, length, IfOk, IsErr, OnErr, vec_len, IfSome};

use std::alloc::Global;
use std::fs::File;
use std::io;
use std::os::unix::fs::FileExt;

/// How many bytes are read at a time where few are asked for.
const AHEAD: usize = 262_144;

/// A file, with bytes of it that were read ahead: the first so many of the buffer are those from an offset on.
#[derive(Drop)]
pub(crate) struct HostFile {
    file: File,
    buffer: Vec<u8>,
    at: u64,
    filled: usize,
    // whether a sync has failed
    lost: bool,
    ghost within: { filled ≤ vec_len buffer },
}

/// Reads until so many bytes are there, and perhaps more.
fn read_at_least(file: &File, at: u64, least: usize, into: &mut [u8]) -> io::Result<usize>
    requires { least ≤ length into.old }
    ensures { IfOk result (λ count. (least ≤ count) × (count ≤ length into.new)) }
{
    let mut count = 0;
    for _ in 0..u64::MAX {
        if count >= least {
            return Ok(count);
        }
        match file.read_at(&mut into[count..], at.wrapping_add(count as u64)) {
            Ok(0) => return Err(io::ErrorKind::UnexpectedEof.into()),
            Ok(more) => count += more,
            Err(error) if error.kind() == io::ErrorKind::Interrupted => {}
            Err(error) => return Err(error),
        }
    }
    Err(io::ErrorKind::TimedOut.into())
}

impl HostFile {
    /// Where there is no memory for a buffer, nothing is read ahead.
    pub(crate) fn new(alloc: Global, file: File) -> HostFile {
        let buffer = match vec![in alloc; 0; AHEAD] {
            Ok(buffer) => buffer,
            Err(_) => Vec::new(alloc),
        };
        HostFile {
            file,
            buffer,
            at: 0,
            filled: 0,
            lost: false,
        }
    }

    pub(crate) fn length(&self) -> io::Result<u64> {
        Ok(self.file.metadata()?.len())
    }

    /// Where in the buffer so many bytes from that offset on begin.
    fn place_of(&self, at: u64, count: usize) -> Option<usize>
        ensures { IfSome result (λ place. place + count ≤ self.now.filled) }
    {
        let before = at.checked_sub(self.at)?;
        if before > self.filled as u64 || self.filled - (before as usize) < count {
            return None;
        }
        Some(before as usize)
    }

    fn fill(&mut self, at: u64, least: usize) -> io::Result<()>
        requires { least ≤ vec_len self.old.buffer }
        ensures { self.new.lost ≡ self.old.lost }
    {
        self.filled = 0;
        self.filled = read_at_least(&self.file, at, least, &mut self.buffer)?;
        self.at = at;
        Ok(())
    }

    pub(crate) fn read_at(&mut self, at: u64, into: &mut [u8]) -> io::Result<()>
        ensures { self.new.lost ≡ self.old.lost }
    {
        if into.len() >= self.buffer.len() {
            return self.file.read_exact_at(into, at);
        }
        if self.place_of(at, into.len()).is_none() {
            self.fill(at, into.len())?;
        }
        match self.place_of(at, into.len()) {
            Some(place) => into.copy_from_slice(&self.buffer[place..place + into.len()]),
            None => return Err(io::ErrorKind::UnexpectedEof.into()),
        }
        Ok(())
    }

    pub(crate) fn write_at(&mut self, at: u64, piece: &[u8]) -> io::Result<()>
        ensures { self.new.lost ≡ self.old.lost }
    {
        self.filled = 0;
        self.file.write_all_at(piece, at)
    }

    /// Makes it no longer than that.
    pub(crate) fn cut(&mut self, to: u64) -> io::Result<()>
        ensures { self.new.lost ≡ self.old.lost }
    {
        self.filled = 0;
        if to < self.length()? {
            self.file.set_len(to)?;
        }
        Ok(())
    }

    /// Waits until all that was written, and the length, is on the medium. Where that failed once it fails for good: the
    /// system may have given up what it could not write, and would not say so again.
    pub(crate) fn sync(&mut self) -> io::Result<()>
        ensures fails_on { self.old.lost ≡ true → IsErr result }
        ensures lost { OnErr result (self.new.lost ≡ true) }
    {
        if self.lost {
            return Err(io::ErrorKind::Other.into());
        }
        match self.file.sync_all() {
            Ok(()) => Ok(()),
            Err(error) => {
                self.lost = true;
                Err(error)
            }
        }
    }
}
