//! Function definitions (ISO/IEC 9899:1999, 6.9.1).

use c_check::{Body, block, declarator, linked_words, specifiers};
use c_declarators::{
    Direct, Least, Params, PartValue, Specifiers, Storage, declarator_spot, direct_part, head_spot,
    name_in,
};
use c_faults::{Spot, Stop, refuse};
use c_names::{Checker, KeptScope, Slot};
use c_tree::{DeclPart, Declarator, SpecWord, Statement};
use c_typed::{HeldStatement, TypeId, TypeKind, TypedObject};
use std::mem::replace;
use sv_base::{faults, limits};

/// A function definition that was checked.
#[derive(Drop)]
pub struct Definition {
    pub name: Vec<u8>,
    /// The name's number in the pool.
    pub name_number: u32,
    pub internal: bool,
    pub of: TypeId,
    pub at: Spot,
    /// How many of the objects are parameters.
    pub params: u32,
    pub objects: Vec<TypedObject>,
    pub code: HeldStatement,
    /// The dereferences, in token order.
    pub slots: Vec<Slot>,
}

// The head of a definition.
#[derive(Drop)]
struct Head {
    of: TypeId,
    params: Params,
}

/// Checks a definition, which gets the number in the program.
pub fn define(
    head: &[SpecWord],
    d: &Declarator,
    body: &Statement,
    number: u32,
    checker: &mut Checker,
) -> Result<Definition, Stop> {
    let said = specifiers(head, false, checker)?;
    let at = declarator_spot(d);
    let name = name_in(d).unwrap_or(0);
    let Head { of, params } = read_head(&said, head, d, number, checker)?;
    let declaration = checker.declare_linked(name, of, linked_words(&said, true), at)?;
    checker.define_function(declaration, number, at);
    let outside = replace(&mut checker.objects, Vec::new(checker.alloc));
    let outside_slots = replace(&mut checker.slots, Vec::new(checker.alloc));
    let Ok(count) = u32::try_from(params.names.len()) else {
        return Err(Stop::NoMemory);
    };
    add_parameters(&params, checker)?;
    let code = read_body(of, &params.scope, body, checker)?;
    let objects = replace(&mut checker.objects, outside);
    let slots = replace(&mut checker.slots, outside_slots);
    Ok(Definition {
        name: checker.text_of(name)?,
        name_number: checker.pool_number(name),
        internal: is_internal(checker, declaration),
        of,
        at,
        params: count,
        objects,
        code,
        slots,
    })
}

fn is_internal(checker: &Checker, declaration: u32) -> bool {
    match checker.linkage.declared(declaration) {
        Some(entity) => entity.internal,
        None => false,
    }
}

// The type of a function and its parameters. Where there are several faults the first by its token shows.
fn read_head(
    said: &Specifiers,
    head: &[SpecWord],
    d: &Declarator,
    number: u32,
    checker: &mut Checker,
) -> Result<Head, Stop> {
    let mut least = Least::new();
    let declared = declarator(said.base, d, head_spot(head), &mut least, checker)?;
    test_form(said, d, &declared.first, &mut least);
    if let Some(at) = said.inline {
        if least.is_empty() && !is_function(checker, declared.of) {
            least.add(faults::SPECIFIERS, at);
        }
    }
    if number >= limits::FUNCTIONS {
        least.add(faults::TOO_MANY_FUNCTIONS, declarator_spot(d));
    }
    least.finish()?;
    match (declared.of, declared.first) {
        (Some(of), PartValue::Params(params)) => Ok(Head { of, params }),
        _ => refuse(faults::SPECIFIERS, declarator_spot(d)),
    }
}

fn is_function(checker: &Checker, of: Option<TypeId>) -> bool {
    match of {
        Some(of) => match checker.types.table.kind(of) {
            TypeKind::Function(_) => true,
            _ => false,
        },
        None => false,
    }
}

// A definition forms a function itself, names its parameters, and has no further ones.
fn test_form(said: &Specifiers, d: &Declarator, first: &PartValue, least: &mut Least) {
    let at = declarator_spot(d);
    let Direct::Part(DeclPart::Params { dots, .. }) = direct_part(d) else {
        least.add(faults::SPECIFIERS, at);
        return;
    };
    if said.has(Storage::Typedef) {
        least.add(faults::SPECIFIERS, at);
        return;
    }
    if let PartValue::Params(params) = first {
        if params.lacks_name() {
            least.add(faults::SPECIFIERS, at);
        }
    }
    if let Some(dots) = dots {
        least.add(
            faults::VARIABLE_ARGUMENTS,
            Spot {
                place: dots.place,
                start: dots.start,
            },
        );
    }
}

fn add_parameters(params: &Params, checker: &mut Checker) -> Result<(), Stop> {
    for param in &params.names {
        checker.add_declared(param.name.unwrap_or(0), param.of, false, param.at)?;
    }
    Ok(())
}

// The body, in the scope of the parameters.
fn read_body(
    of: TypeId,
    scope: &KeptScope,
    code: &Statement,
    checker: &mut Checker,
) -> Result<HeldStatement, Stop> {
    let gives = match checker.types.table.kind(of) {
        TypeKind::Function(gives) => gives,
        _ => of,
    };
    let mut body = Body::new(checker.alloc, gives);
    let opened = checker.open_kept(scope)?;
    checker.set_body(true);
    let made = block(code, false, &mut body, checker)?;
    checker.set_body(false);
    checker.close_scope(opened);
    Ok(made)
}
