ghost use Rattle.std.specs.Prelude.{◌≡◌, ◌≢◌, Some, length, take};
ghost use Rattle.std.specs.Option.{option_copied};
ghost use Rattle.sv_outside.specs.Memory.{file_named, items_found};
ghost use Rattle.sv_outside.specs.Outside.{LoadsFrom, gained};

use crate::Loaded;

/// The bytes of the first file of that name.
pub(crate) fn find<'a>(files: &'a [(String, Vec<u8>)], name: &str) -> Option<&'a Vec<u8>>
    ensures { items_found (option_copied result) ≡ file_named files.now name.now }
{
    for file in files {
        if file.0.as_str() == name {
            return Some(&file.1);
        }
    }
    None
}

/// Appends the bytes if there are at most `limit`, and else the first `limit` of them.
pub(crate) fn append_up_to(bytes: &[u8], limit: u64, into: &mut Vec<u8>) -> Loaded
    ensures kept { take (length into.old.items) into.new.items ≡ into.old.items }
    ensures told { LoadsFrom result limit (Some bytes.now) (gained into.old.items into.new.items) }
    ensures not_failed { result ≢ Loaded.Failed }
{
    let (front, answer) = if bytes.len() as u64 <= limit {
        (bytes, Loaded::Ok)
    } else {
        (&bytes[..limit as usize], Loaded::TooLarge)
    };
    match into.extend_from_slice(front) {
        Ok(()) => answer,
        Err(_) => Loaded::NoMemory,
    }
}
