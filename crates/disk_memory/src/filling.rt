ghost use Rattle.std.specs.Prelude.{◌≡◌, ◌≤◌, ◌<◌, ◌^◌, ◌+◌, length, drop, IfOk};
ghost use Rattle.disk_memory.specs.Listed.{filled};

use std::alloc::Global;
use sv_base::NoMemory;

/// What stands from that place on.
fn rest_from(bytes: &[u8], at: usize) -> &[u8]
    ensures { result.now ≡ drop at bytes.now }
{
    if at < bytes.len() {
        return &bytes[at..];
    }
    &[]
}

/// The same with ones in a range of so many bytes.
pub(crate) fn filled(
    alloc: Global,
    read: &[u8],
    at: usize,
    count: usize,
) -> Result<Vec<u8>, NoMemory>
    requires place { at ≤ length read.now }
    requires count { count < 2 ^ 63 }
    ensures { IfOk result (λ image. image.items ≡ filled read.now at count) }
{
    let mut image = Vec::from_slice(alloc, &read[..at])?;
    let end = at + count;
    image.resize(end, 1)?;
    image.extend_from_slice(rest_from(read, end))?;
    Ok(image)
}
