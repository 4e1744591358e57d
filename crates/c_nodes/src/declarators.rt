ghost use Rattle.std.specs.Prelude.{◌≡◌, IfOk};
ghost use Rattle.c_nodes.specs.Nodes.{declarator, type_name};
ghost use Rattle.c_tree.specs.declared.declarator.DeclCore.TheVariants as core;

use c_tree::{
    DeclCore, Declarator, HeldCore, HeldDeclarator, HeldParts, HeldSpecifiers, HeldTypeName,
    TypeName,
};
use sqlite_items::Items;
use std::alloc::{AllocError, Global};
use sv_base::Place;

/// A declared name (ISO/IEC 9899:1999, 6.7.5), by its number in the list of names.
pub fn named(name: u32) -> HeldCore
    ensures { result ≡ core.Name name }
{
    HeldCore::new(DeclCore::Name(name))
}

/// No name (6.7.6).
pub fn absent() -> HeldCore
    ensures { result ≡ core.Absent }
{
    HeldCore::new(DeclCore::Absent)
}

/// A declarator in parentheses (6.7.5).
pub fn nested(alloc: Global, inside: HeldDeclarator) -> Result<HeldCore, AllocError>
    ensures { IfOk result (λ node. node ≡ core.Nested inside) }
{
    let inside = inside.boxed(alloc)?;
    Ok(HeldCore::new(DeclCore::Nested(inside.into_inner())))
}

/// A declarator, at the name in it or at its first token (6.7.5, 6.7.6).
pub fn declarator(
    pointers: Items<Items<u8>>,
    core: HeldCore,
    parts: HeldParts,
    place: Place,
    start: u32,
) -> HeldDeclarator
    ensures { result ≡ declarator pointers core parts place start }
{
    HeldDeclarator::new(Declarator {
        pointers,
        core: core.into_inner(),
        parts: parts.into_inner(),
        place,
        start,
    })
}

/// A type name (6.7.6).
pub fn type_name(head: HeldSpecifiers, declarator: Option<HeldDeclarator>) -> HeldTypeName
    ensures { result ≡ type_name head declarator }
{
    let declarator = HeldDeclarator::inside(declarator);
    HeldTypeName::new(TypeName {
        head: head.into_inner(),
        declarator,
    })
}
