use crate::bodies::body;
use crate::externals::{names_of, new_externals, new_numbers, still_named, uses_of};
use crate::known::{Known, known_calls};
use crate::maker::Maker;
use crate::renumber::{Renumbering, functions, statics};
use c_typed::{SitePlace, TypeTable, Typed, TypedFunction};
use std::alloc::Global;
use std::mem;
use sv_base::{FuncId, NoMemory};

fn number_of(length: usize) -> Result<u32, NoMemory> {
    match u32::try_from(length) {
        Ok(number) => Ok(number),
        Err(_) => Err(NoMemory),
    }
}

fn empty_types(alloc: Global) -> TypeTable {
    TypeTable {
        rows: Vec::new(alloc),
        records: Vec::new(alloc),
    }
}

// The name of the external function that a call names.
fn name_of(alloc: Global, call: Known) -> Result<Vec<u8>, NoMemory> {
    Ok(Vec::from_slice(alloc, call.memory.name())?)
}

// The expressions name the functions by their new numbers, and the redirected calls those that are to be added.
fn renumber(alloc: Global, typed: &mut Typed, calls: &[Known]) -> Result<(), NoMemory> {
    let defined = number_of(typed.functions.len())?;
    let redirected = new_numbers(alloc, calls, defined)?;
    let uses = uses_of(alloc, typed, &redirected)?;
    let named = still_named(alloc, &uses)?;
    let externals = new_externals(alloc, typed.externals.len(), &named)?;
    let x = Renumbering {
        functions: defined,
        first: defined
            .checked_add(number_of(calls.len())?)
            .ok_or(NoMemory)?,
        externals: &externals,
        redirected: &redirected,
        inside: None,
    };
    typed.externals = names_of(alloc, &typed.externals, &named)?;
    functions(&mut typed.functions, x);
    statics(&mut typed.statics, x);
    Ok(())
}

// The function of a call, with its sites.
fn add_function(typed: &mut Typed, m: &mut Maker, call: Known) -> Result<(), NoMemory> {
    let number = number_of(typed.functions.len())?;
    let first = m.sites();
    let code = body(m, call)?;
    for _ in first..m.sites() {
        typed.sites.push(SitePlace {
            place: call.place,
            function: FuncId(number),
        })?;
    }
    typed.functions.push(TypedFunction {
        name: name_of(m.alloc, call)?,
        of: call.of,
        place: call.place,
        params: 3,
        objects: m.end(),
        code: code.into_statement(),
    })?;
    Ok(())
}

/// Each direct call of `memset`, `memcpy` or `memmove`, declared with its type but defined in no file, calls a function of its own,
/// in file and token order behind all others. Its sites come behind all others, at the called name. The external functions are those
/// that an expression still names.
pub fn redirect(alloc: Global, typed: Typed) -> Result<Typed, NoMemory> {
    let calls = known_calls(alloc, &typed)?;
    if calls.is_empty() {
        return Ok(typed);
    }
    let mut typed = typed;
    renumber(alloc, &mut typed, &calls)?;
    let types = mem::replace(&mut typed.types, empty_types(alloc));
    let mut m = Maker::new(alloc, types, number_of(typed.sites.len())?);
    for call in &calls {
        add_function(&mut typed, &mut m, *call)?;
    }
    typed.types = m.into_types();
    Ok(typed)
}
