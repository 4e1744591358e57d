ghost use Rattle.std.specs.Prelude.{◌≡◌};
ghost use Rattle.c_tree.specs.declared.initialiser.Initialiser.TheVariants as initial;

use c_tree::{
    Declaration, HeldDeclaration, HeldEntries, HeldExpr, HeldInitDeclarators, HeldInitialiser,
    HeldSpecifiers, Initialiser,
};
use sv_base::Place;

/// One value as an initialiser (ISO/IEC 9899:1999, 6.7.8).
pub fn one_value(value: HeldExpr) -> HeldInitialiser
    ensures { result ≡ initial.One value }
{
    HeldInitialiser::new(Initialiser::One(value.into_inner()))
}

/// A list in braces (6.7.8), at its `{`.
pub fn braced(entries: HeldEntries, place: Place, start: u32) -> HeldInitialiser
    ensures { result ≡ initial.List entries place start }
{
    HeldInitialiser::new(Initialiser::List {
        entries: entries.into_inner(),
        place,
        start,
    })
}

/// A declaration (6.7).
pub fn declaration(head: HeldSpecifiers, parts: HeldInitDeclarators) -> HeldDeclaration
    ensures { result ≡ record { head = head; parts = parts } }
{
    HeldDeclaration::new(Declaration {
        head: head.into_inner(),
        parts: parts.into_inner(),
    })
}
