ghost use Rattle.std.specs.Prelude.{◌≡◌, ◌≤◌, ◌+◌, length, take, drop, vec_capacity, is_ok, IsOk, OnOk, OnErr, IfOk};
ghost use Rattle.sv_outside.specs.Disk.{Holds};

use crate::host_file::HostFile;
use std::io;

/// Where the bytes of a disk stand: a file of the system, or a vector where it has no name.
#[derive(Drop)]
pub(crate) enum Medium {
    File(HostFile),
    Memory(Vec<u8>),
}

/// Fills the buffer from that offset on, where there are so many bytes.
fn read_memory(bytes: &[u8], at: u64, into: &mut [u8]) -> io::Result<()>
    ensures read { OnOk result (into.new ≡ take (length into.old) (drop at bytes.now)) }
    ensures inside { OnOk result (at + length into.old ≤ length bytes.now) }
    ensures refused { at + length into.old ≤ length bytes.now → IsOk result }
{
    if at > bytes.len() as u64 {
        return Err(io::ErrorKind::UnexpectedEof.into());
    }
    let rest = &bytes[at as usize..];
    if rest.len() < into.len() {
        return Err(io::ErrorKind::UnexpectedEof.into());
    }
    into.copy_from_slice(&rest[..into.len()]);
    Ok(())
}

/// Writes over what is there, and past the end, but not from behind it.
fn write_memory(bytes: &mut Vec<u8>, at: u64, piece: &[u8]) -> io::Result<()>
    ensures written { OnOk result (Holds bytes.old.items at piece.now bytes.new.items) }
    ensures place { OnOk result (at ≤ length bytes.old.items) }
    ensures same { OnErr result (bytes.new.items ≡ bytes.old.items) }
    ensures succeeds { at ≤ length bytes.old.items → at + length piece.now ≤ vec_capacity bytes.old → IsOk result }
{
    if at > bytes.len() as u64 {
        return Err(io::ErrorKind::InvalidInput.into());
    }
    let at = at as usize;
    let over = piece.len().min(bytes.len() - at);
    let (front, back) = (&piece[..over], &piece[over..]);
    if bytes.reserve(back.len()).is_err() {
        return Err(io::ErrorKind::OutOfMemory.into());
    }
    bytes[at..at + over].copy_from_slice(front);
    match bytes.extend_from_slice(back) {
        Ok(()) => Ok(()),
        Err(_) => unreachable!(),
    }
}

impl Medium {
    pub(crate) fn length(&self) -> io::Result<u64> {
        match self {
            Medium::File(file) => file.length(),
            Medium::Memory(bytes) => Ok(bytes.len() as u64),
        }
    }

    /// Makes room in memory for a length; a file needs none.
    pub(crate) fn reserve(&mut self, length: u64) -> Result<(), sv_base::NoMemory> {
        if let Medium::Memory(bytes) = self {
            let more = (length as usize).saturating_sub(bytes.len());
            bytes.reserve(more)?;
        }
        Ok(())
    }

    pub(crate) fn read_at(&mut self, at: u64, into: &mut [u8]) -> io::Result<()> {
        match self {
            Medium::File(file) => file.read_at(at, into),
            Medium::Memory(bytes) => read_memory(bytes, at, into),
        }
    }

    pub(crate) fn write_at(&mut self, at: u64, piece: &[u8]) -> io::Result<()> {
        match self {
            Medium::File(file) => file.write_at(at, piece),
            Medium::Memory(bytes) => write_memory(bytes, at, piece),
        }
    }

    pub(crate) fn cut(&mut self, to: u64) -> io::Result<()> {
        match self {
            Medium::File(file) => file.cut(to),
            Medium::Memory(bytes) => {
                bytes.truncate(to as usize);
                Ok(())
            }
        }
    }

    pub(crate) fn sync(&mut self) -> io::Result<()> {
        match self {
            Medium::File(file) => file.sync(),
            Medium::Memory(_) => Ok(()),
        }
    }
}
