//! The body that stands for the artifact of the same task in the round before.
ghost use Rattle.std.specs.Prelude.{◌≡◌, ◌↔◌, true, ◌∷◌, []};

/// The bytes of that body.
pub(crate) const MARK: [u8; 1] = [6];

pub(crate) fn is_mark(body: &[u8]) -> bool
    ensures { result ≡ true ↔ (body.now ≡ 6 ∷ []) }
{
    body == MARK.as_slice()
}
