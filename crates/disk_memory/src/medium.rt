ghost use Rattle.std.specs.Prelude.{◌≡◌, ◌≤◌, ◌+◌, ◌++◌, ◌∷◌, [], Bool, true, length, take, drop, vec_len, vec_capacity, if◌then◌else◌};
ghost use Rattle.sv_outside.specs.Disk.{Holds};
ghost use Rattle.disk_memory.specs.Calls.{ops_of, bytes_of, all_past_end, reads};

use std::alloc::Global;
use sv_base::NoMemory;

/// A call that changes a disk or makes it last, and whether it was done. The bytes of the writes stand in one store.
#[derive(Clone, Copy)]
pub(crate) enum Call {
    Write { at: u64, len: u64, done: bool },
    Cut { to: u64, done: bool },
    Sync { done: bool },
}

/// What a disk held at first, what it reads, and its calls with the bytes that they wrote.
#[derive(Drop)]
pub(crate) struct Medium {
    pub(crate) first: Vec<u8>,
    pub(crate) bytes: Vec<u8>,
    pub(crate) calls: Vec<Call>,
    pub(crate) store: Vec<u8>,
    ghost stored: { bytes_of calls.items ≡ length store.items },
    ghost placed: { all_past_end first.items (ops_of calls.items store.items) ≡ 0 },
    ghost replays: { bytes.items ≡ reads first.items (ops_of calls.items store.items) },
}

// Writes over what is there, and past the end, where there is room.
fn put(bytes: &mut Vec<u8>, at: usize, piece: &[u8])
    requires place { at ≤ vec_len bytes.old }
    requires room { at + length piece.now ≤ vec_capacity bytes.old }
    ensures holds { Holds bytes.old.items at piece.now bytes.new.items }
    ensures room { vec_capacity bytes.old ≤ vec_capacity bytes.new }
{
    let over = piece.len().min(bytes.len() - at);
    bytes[at..at + over].copy_from_slice(&piece[..over]);
    match bytes.extend_from_slice(&piece[over..]) {
        Ok(()) => (),
        Err(_) => unreachable!(),
    }
}

pub(crate) fn put_if(done: bool, bytes: &mut Vec<u8>, at: usize, piece: &[u8])
    requires place { at ≤ vec_len bytes.old }
    requires room { at + length piece.now ≤ vec_capacity bytes.old }
    ensures written { bytes.new.items ≡ (if done then take at bytes.old.items ++ piece.now ++ drop (at + length piece.now) bytes.old.items else bytes.old.items) }
    ensures room { vec_capacity bytes.old ≤ vec_capacity bytes.new }
{
    if done {
        put(bytes, at, piece);
    }
}

pub(crate) fn cut_if(done: bool, bytes: &mut Vec<u8>, to: usize)
    ensures cut { bytes.new.items ≡ (if done then take to bytes.old.items else bytes.old.items) }
    ensures room { vec_capacity bytes.old ≤ vec_capacity bytes.new }
{
    if done {
        bytes.truncate(to);
    }
}

impl Medium {
    ghost use Rattle.std.specs.Prelude.{◌≡◌, ◌≤◌, ◌+◌, ◌++◌, ◌∷◌, [], true, List, ℕ, length, take, drop, OnOk, IfOk};
    ghost use Rattle.sv_outside.specs.Disk.{Only, Follows, Torn, Cut, Holds, Elapses, IsStill, HasRoom, TakesRoom};
    ghost use Rattle.disk_memory.specs.Calls.Op.{wrote, cut, synced};
    ghost use Rattle.disk_memory.specs.Media.{medium_first, medium_seen, medium_record, medium_images, medium_moment, medium_since, medium_room};

    /// A disk that holds this, all of it on the disk.
    pub(crate) fn new(alloc: Global, image: Vec<u8>) -> Result<Medium, NoMemory>
        ensures seen { IfOk result (λ m. medium_seen m ≡ image.items) }
        ensures only { IfOk result (λ m. Only image.items (medium_images m)) }
        ensures moment { IfOk result (λ m. medium_moment m ≡ 0) }
        ensures first { IfOk result (λ m. medium_first m ≡ image.items) }
        ensures record { IfOk result (λ m. medium_record m ≡ []) }
    {
        let bytes = Vec::from_slice(alloc, &image)?;
        Ok(Medium {
            first: image,
            bytes,
            calls: Vec::new(alloc),
            store: Vec::new(alloc),
        })
    }

    /// A disk that holds nothing.
    pub(crate) fn empty(alloc: Global) -> Medium
        ensures seen { medium_seen result ≡ [] }
        ensures images { (c : List ℕ) → (medium_images result c → c ≡ []) × (c ≡ [] → medium_images result c) }
        ensures moment { medium_moment result ≡ 0 }
        ensures first { medium_first result ≡ [] }
        ensures record { medium_record result ≡ [] }
    {
        Medium {
            first: Vec::new(alloc),
            bytes: Vec::new(alloc),
            calls: Vec::new(alloc),
            store: Vec::new(alloc),
        }
    }

    /// Makes room.
    pub(crate) fn reserve(&mut self, length: u64, calls: u32, bytes: u64) -> Result<(), NoMemory>
        ensures reserved { OnOk result (HasRoom (medium_room self.new) length calls bytes) }
        ensures more { TakesRoom 0 0 (medium_room self.old) (medium_room self.new) }
        ensures seen { medium_seen self.new ≡ medium_seen self.old }
        ensures still { IsStill (medium_moment self.old) (medium_moment self.new) (medium_since self.old) (medium_since self.new) (medium_images self.old) (medium_images self.new) }
        ensures first { medium_first self.new ≡ medium_first self.old }
        ensures record { medium_record self.new ≡ medium_record self.old }
    {
        let more = (length as usize).saturating_sub(self.bytes.len());
        self.bytes.reserve(more)?;
        self.calls.reserve(calls as usize)?;
        self.store.reserve(bytes as usize)?;
        Ok(())
    }

    /// Notes a write, and does it if so.
    pub(crate) fn write(&mut self, done: bool, at: u64, bytes: &[u8])
        requires place { at ≤ length (medium_seen self.old) }
        requires room { HasRoom (medium_room self.old) (at + length bytes.now) 1 (length bytes.now) }
        ensures written { done ≡ true → Holds (medium_seen self.old) at bytes.now (medium_seen self.new) }
        ensures torn { Torn at (length bytes.now) (medium_seen self.old) (medium_seen self.new) }
        ensures crash { Follows (Torn at (length bytes.now)) (medium_images self.old) (medium_images self.new) }
        ensures time { Elapses (medium_moment self.old) (medium_moment self.new) (medium_since self.old) (medium_since self.new) (medium_images self.new) }
        ensures room { TakesRoom 1 (length bytes.now) (medium_room self.old) (medium_room self.new) }
        ensures first { medium_first self.new ≡ medium_first self.old }
        ensures noted { medium_record self.new ≡ medium_record self.old ++ wrote at bytes.now done ∷ [] }
    {
        put_if(done, &mut self.bytes, at as usize, bytes);
        match self.store.extend_from_slice(bytes) {
            Ok(()) => (),
            Err(_) => unreachable!(),
        }
        self.calls.push_reserved(Call::Write {
            at,
            len: bytes.len() as u64,
            done,
        });
    }

    /// Notes a cut, and does it if so.
    pub(crate) fn cut(&mut self, done: bool, to: u64)
        requires place { to ≤ length (medium_seen self.old) }
        requires room { HasRoom (medium_room self.old) 0 1 0 }
        ensures cut { done ≡ true → medium_seen self.new ≡ take to (medium_seen self.old) }
        ensures torn { Cut to (medium_seen self.old) (medium_seen self.new) }
        ensures crash { Follows (Cut to) (medium_images self.old) (medium_images self.new) }
        ensures time { Elapses (medium_moment self.old) (medium_moment self.new) (medium_since self.old) (medium_since self.new) (medium_images self.new) }
        ensures room { TakesRoom 1 0 (medium_room self.old) (medium_room self.new) }
        ensures first { medium_first self.new ≡ medium_first self.old }
        ensures noted { medium_record self.new ≡ medium_record self.old ++ cut to done ∷ [] }
    {
        cut_if(done, &mut self.bytes, to as usize);
        self.calls.push_reserved(Call::Cut { to, done });
    }

    /// Notes a sync, done or not.
    pub(crate) fn sync(&mut self, done: bool)
        requires { HasRoom (medium_room self.old) 0 1 0 }
        ensures durable { done ≡ true → Only (medium_seen self.old) (medium_images self.new) }
        ensures seen { medium_seen self.new ≡ medium_seen self.old }
        ensures crash { (c : List ℕ) → medium_images self.new c → medium_images self.old c }
        ensures time { Elapses (medium_moment self.old) (medium_moment self.new) (medium_since self.old) (medium_since self.new) (medium_images self.new) }
        ensures room { TakesRoom 1 0 (medium_room self.old) (medium_room self.new) }
        ensures first { medium_first self.new ≡ medium_first self.old }
        ensures noted { medium_record self.new ≡ medium_record self.old ++ synced done ∷ [] }
    {
        self.calls.push_reserved(Call::Sync { done });
    }
}
