//! Declarations (ISO/IEC 9899:1999, 6.7) of files and blocks.

use crate::initialisers::initialise;
use crate::knot::{declarator, specifiers};
use c_declarators::{
    Least, Specifiers, Storage, declarator_spot, head_spot, initialiser_spot, name_in,
};
use c_faults::{Spot, Stop, refuse};
use c_names::{Checker, LinkedWords, Meaning};
use c_tree::{Declaration, InitDeclarator, Initialiser, SpecWord};
use c_typed::{TypeId, TypeKind, TypedObject};
use sv_base::faults;

/// Where a declaration stands.
#[derive(Clone, Copy, Debug, PartialEq, Eq)]
pub enum Level {
    File,
    Block,
}

/// What a declarator declared.
#[derive(Clone, Copy, Debug, PartialEq, Eq)]
pub enum Made {
    /// Nothing that a block begins with.
    Nothing,
    /// An automatic object, by its number, and whether it has an initialiser.
    Automatic { object: u32, starts: bool },
}

// What is declared: a name with its type, where it stands, its initialiser and its level.
#[derive(Drop)]
struct Declarand<'a> {
    name: u32,
    of: TypeId,
    at: Spot,
    initial: &'a Option<Initialiser>,
    level: Level,
}

/// What the specifiers of a declaration say.
pub fn begin_declaration(d: &Declaration, checker: &mut Checker) -> Result<Specifiers, Stop> {
    let alone = d.parts.is_empty();
    let found = specifiers(d.head.as_slice(), alone, checker)?;
    match found.inline {
        Some(at) if alone => refuse(faults::SPECIFIERS, at),
        _ => Ok(found),
    }
}

/// Declares a name of a declaration.
pub fn declare(
    said: &Specifiers,
    head: &[SpecWord],
    part: &InitDeclarator,
    level: Level,
    checker: &mut Checker,
) -> Result<Made, Stop> {
    let d = &part.declarator;
    let mut least = Least::new();
    let declared = declarator(said.base, d, head_spot(head), &mut least, checker)?;
    let Some(of) = declared.of else {
        least.finish()?;
        return Ok(Made::Nothing);
    };
    let declarand = Declarand {
        name: name_in(d).unwrap_or(0),
        of,
        at: declarator_spot(d),
        initial: &part.initial,
        level,
    };
    let is_function = is_function(checker, of);
    if let Some(at) = said.inline {
        if !is_function || said.has(Storage::Typedef) {
            least.add(faults::SPECIFIERS, at);
        }
    }
    if said.has(Storage::Typedef) {
        return declare_typedef(&declarand, least, checker);
    }
    if is_function {
        return declare_function(said, &declarand, least, checker);
    }
    least.finish()?;
    if level == Level::File || said.has(Storage::Extern) {
        return declare_linked(said, &declarand, checker);
    }
    declare_object(said, &declarand, checker)
}

fn is_function(checker: &Checker, of: TypeId) -> bool {
    match checker.types.table.kind(of) {
        TypeKind::Function(_) => true,
        _ => false,
    }
}

fn declare_typedef(d: &Declarand<'_>, before: Least, checker: &mut Checker) -> Result<Made, Stop> {
    let mut least = before;
    let here = checker.look_up_here(d.name);
    let fits = match here {
        None => true,
        Some(Meaning::Typedef(of)) => checker.types.table.alike(of, d.of),
        Some(_) => false,
    };
    if !fits {
        least.add(faults::DECLARED_OTHERWISE, d.at);
    }
    if let Some(initial) = d.initial {
        least.add(faults::INITIALISER, initialiser_spot(initial));
    }
    least.finish()?;
    if here.is_none() {
        checker.declare(d.name, Meaning::Typedef(d.of))?;
    }
    Ok(Made::Nothing)
}

/// How specifiers declare a name with linkage.
pub fn linked_words(said: &Specifiers, is_function: bool) -> LinkedWords {
    LinkedWords {
        is_function,
        is_static: said.has(Storage::Static),
        is_extern: said.has(Storage::Extern),
        is_inline: said.inline.is_some(),
    }
}

fn declare_function(
    said: &Specifiers,
    d: &Declarand<'_>,
    before: Least,
    checker: &mut Checker,
) -> Result<Made, Stop> {
    let mut least = before;
    if let Some((Storage::Static, at)) = said.storage {
        if d.level == Level::Block {
            least.add(faults::SPECIFIERS, at);
        }
    }
    if let Some(initial) = d.initial {
        least.add(faults::INITIALISER, initialiser_spot(initial));
    }
    least.finish()?;
    checker.declare_linked(d.name, d.of, linked_words(said, true), d.at)?;
    Ok(Made::Nothing)
}

// An object with linkage.
fn declare_linked(
    said: &Specifiers,
    d: &Declarand<'_>,
    checker: &mut Checker,
) -> Result<Made, Stop> {
    if let Some(initial) = d.initial {
        if d.level == Level::Block {
            return refuse(faults::INITIALISER, initialiser_spot(initial));
        }
    }
    let words = linked_words(said, false);
    let number = checker.declare_linked(d.name, d.of, words, d.at)?;
    match d.initial {
        Some(initial) => define(d, number, initial, checker)?,
        None if d.level == Level::File && !words.is_extern => {
            define_tentatively(d, number, checker)?;
        }
        None => {}
    }
    Ok(Made::Nothing)
}

fn lacks_size_alone(checker: &Checker, of: TypeId) -> bool {
    match checker.types.table.kind(of) {
        TypeKind::Array(_, None) => true,
        _ => false,
    }
}

// The definition of an object with linkage by its initialiser (6.9.2).
fn define(
    d: &Declarand<'_>,
    declaration: u32,
    initial: &Initialiser,
    checker: &mut Checker,
) -> Result<(), Stop> {
    if !checker.types.table.is_complete(d.of) && !lacks_size_alone(checker, d.of) {
        return refuse(faults::UNKNOWN_SIZE, d.at);
    }
    let initialised = initialise(d.of, initial, true, d.at, checker)?;
    let of = initialised.of;
    let text = checker.text_of(d.name)?;
    let object = checker.add_object(TypedObject {
        name: Some(text),
        of,
        place: d.at.place,
        start: d.at.start,
        stays: true,
        initial: Some(initialised.parts),
    })?;
    let whole = checker.define_object(declaration, object, of, d.at);
    checker.show_linked(d.name, declaration, whole)
}

// A definition without an initialiser, which needs a size where it stands.
fn define_tentatively(
    d: &Declarand<'_>,
    declaration: u32,
    checker: &mut Checker,
) -> Result<(), Stop> {
    let of = match checker.look_up_here(d.name) {
        Some(Meaning::Linked { of, .. }) => of,
        _ => d.of,
    };
    if !checker.types.table.is_complete(of) {
        return refuse(faults::UNKNOWN_SIZE, d.at);
    }
    checker.define_tentatively(declaration, d.at);
    Ok(())
}

// An object without linkage.
fn declare_object(
    said: &Specifiers,
    d: &Declarand<'_>,
    checker: &mut Checker,
) -> Result<Made, Stop> {
    if checker.look_up_here(d.name).is_some() {
        return refuse(faults::DECLARED_OTHERWISE, d.at);
    }
    let gets_size = lacks_size_alone(checker, d.of) && d.initial.is_some();
    if !checker.types.table.is_complete(d.of) && !gets_size {
        return refuse(faults::UNKNOWN_SIZE, d.at);
    }
    let stays = said.has(Storage::Static);
    let number = checker.add_declared(d.name, d.of, stays, d.at)?;
    checker.declare(d.name, Meaning::Object { number, of: d.of })?;
    if let Some(initial) = d.initial {
        let initialised = initialise(d.of, initial, stays, d.at, checker)?;
        let of = initialised.of;
        checker.set_initial(number, of, initialised.parts);
        checker.declare(d.name, Meaning::Object { number, of })?;
    }
    if stays {
        return Ok(Made::Nothing);
    }
    Ok(Made::Automatic {
        object: number,
        starts: d.initial.is_some(),
    })
}
