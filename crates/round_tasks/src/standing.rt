// Bytes that stand for themselves.

ghost use Rattle.std.specs.Prelude.{◌≡◌, IfOk, [], ◌∷◌, false, true};
ghost use Rattle.artifact_writing.specs.Marks.{IsNoMark};

use std::alloc::Global;
use sv_base::NoMemory;

/// Whether the bytes are the single byte that stands for the artifact of the round before.
pub fn is_mark(bytes: &[u8]) -> bool
    ensures mark { result ≡ true → bytes.now ≡ 6 ∷ [] }
    ensures no_mark { result ≡ false → IsNoMark bytes.now }
{
    matches!(bytes, [6])
}

/// A copy of an artifact, which is not that byte.
pub(crate) fn again(alloc: Global, bytes: &[u8]) -> Result<Vec<u8>, NoMemory>
    ensures copy { IfOk result (λ copy. copy.items ≡ bytes.now) }
    ensures no_mark { IfOk result (λ copy. IsNoMark copy.items) }
{
    if is_mark(bytes) {
        return Err(NoMemory);
    }
    Ok(Vec::from_slice(alloc, bytes)?)
}
