//! Linking (ISO/IEC 9899:1999, 6.9).

use crate::assembly::{Assembly, NameTargets};
use crate::entries::entries;
use crate::externals::externals;
use crate::files::{CheckedFile, check_file};
use crate::names::ProgramNames;
use crate::statics::Numbering;
use c_check::{Addresses, Bases};
use c_faults::{Fault, Spot, Stop};
use c_names::Checker;
use c_tree::Tree;
use c_typed::{LinkedName, Target, TypeId, TypeTable, Typed, TypedObject};
use std::alloc::Global;
use sv_base::{FileId, FrontFault, FuncId, Place, faults};

/// The typed program of files, whose entries are the functions that the names in `entry` mean, separated by commas. Files are
/// checked in order, each up to its first fault by token, and then linked.
pub fn link(alloc: Global, trees: &[Tree], entry: &[u8]) -> Result<Typed, FrontFault> {
    match linked(alloc, trees, entry) {
        Ok(typed) => Ok(typed),
        Err(stop) => Err(FrontFault::from(stop)),
    }
}

fn linked(alloc: Global, trees: &[Tree], entry: &[u8]) -> Result<Typed, Stop> {
    let mut checker = Checker::new(alloc)?;
    let mut files = Vec::new(alloc);
    let mut functions = 0usize;
    for tree in trees {
        let file = check_file(tree, functions, &mut checker)?;
        functions = functions.saturating_add(file.definitions.len());
        files.push(file)?;
    }
    let Some(entries) = entries(alloc, entry, files.as_slice(), &checker)? else {
        return Err(Stop::Fault(no_entry(trees)));
    };
    link_files(alloc, files, functions, entries, checker)
}

// An entry is not defined, which shows at the first file as a whole.
fn no_entry(trees: &[Tree]) -> Fault {
    let file = match trees.first() {
        Some(tree) => tree.file,
        None => FileId(0),
    };
    Fault {
        kind: faults::NO_ENTRY,
        at: Spot {
            place: Place::of_file(file),
            start: 0,
        },
    }
}

// What the names, objects and functions of the files become.
#[derive(Drop)]
struct Plan {
    names: ProgramNames,
    /// By file and number there, the number of a name in the program.
    numbers: Vec<Vec<u32>>,
    /// The external functions, by the numbers of their names.
    outside: Vec<usize>,
    numbering: Numbering,
    targets: NameTargets,
}

fn link_files(
    alloc: Global,
    files: Vec<CheckedFile>,
    functions: usize,
    entries: Vec<FuncId>,
    checker: Checker,
) -> Result<Typed, Stop> {
    let plan = make_plan(alloc, files.as_slice(), functions, &checker)?;
    let externals = external_names(alloc, &plan, &checker)?;
    let assembly = assemble(alloc, files, plan, &checker)?;
    finish(alloc, assembly, externals, entries, table_of(checker))
}

fn table_of(checker: Checker) -> TypeTable {
    let Checker { types, .. } = checker;
    types.into_table()
}

fn make_plan(
    alloc: Global,
    files: &[CheckedFile],
    functions: usize,
    checker: &Checker,
) -> Result<Plan, Stop> {
    let mut names = ProgramNames::new(alloc);
    let numbers = add_files(alloc, files, &mut names, &checker.types.table)?;
    if let Some(fault) = names.fault() {
        return Err(Stop::Fault(fault));
    }
    let outside = externals(alloc, &names)?;
    let numbering = Numbering::new(alloc, files, &names)?;
    let targets = name_targets(alloc, &names, &numbering, outside.as_slice(), functions)?;
    Ok(Plan {
        names,
        numbers,
        outside,
        numbering,
        targets,
    })
}

fn add_files(
    alloc: Global,
    files: &[CheckedFile],
    names: &mut ProgramNames,
    table: &TypeTable,
) -> Result<Vec<Vec<u32>>, Stop> {
    let mut numbers = Vec::new(alloc);
    for (file, checked) in files.iter().enumerate() {
        let Ok(file) = u32::try_from(file) else {
            return Err(Stop::NoMemory);
        };
        numbers.push(names.add_file(alloc, file, &checked.linkage, table)?)?;
    }
    Ok(numbers)
}

fn assemble(
    alloc: Global,
    files: Vec<CheckedFile>,
    plan: Plan,
    checker: &Checker,
) -> Result<Assembly, Stop> {
    let mut plan = plan;
    let mut assembly = Assembly::new(alloc, plan.numbering.statics)?;
    let mut section = 0usize;
    for (number, file) in files.into_iter().enumerate() {
        let numbers = match plan.numbers.get(number) {
            Some(numbers) => numbers.as_slice(),
            None => &[],
        };
        let sections = plan.numbering.sections.as_mut_slice();
        section = assembly.add_file(alloc, file, numbers, &plan.targets, sections, section)?;
    }
    assembly.complete(&plan.names, plan.numbering.names.as_slice(), checker)?;
    Ok(assembly)
}

// What each name becomes. The external functions come after the defined ones.
fn name_targets(
    alloc: Global,
    names: &ProgramNames,
    numbering: &Numbering,
    outside: &[usize],
    functions: usize,
) -> Result<NameTargets, Stop> {
    let mut list = Vec::new(alloc);
    for (name, number) in names.list.iter().zip(numbering.names.iter()) {
        let target = match (name.function, number) {
            (Some(function), _) => Some(Target::Function(function)),
            (None, Some(number)) => Some(Target::Static(*number)),
            (None, None) => None,
        };
        list.push(target)?;
    }
    for (place, name) in outside.iter().enumerate() {
        let Ok(number) = u32::try_from(functions.saturating_add(place)) else {
            return Err(Stop::NoMemory);
        };
        if *name < list.len() {
            list[*name] = Some(Target::Function(number));
        }
    }
    Ok(NameTargets { list })
}

fn external_names(alloc: Global, plan: &Plan, checker: &Checker) -> Result<Vec<LinkedName>, Stop> {
    let mut list = Vec::new(alloc);
    for number in &plan.outside {
        if let Some(name) = plan.names.list.get(*number) {
            let text = checker.spelling(name.name)?;
            list.push(LinkedName {
                name: text,
                of: name.first_of,
                place: name.first.at.place,
            })?;
        }
    }
    Ok(list)
}

fn finish(
    alloc: Global,
    assembly: Assembly,
    externals: Vec<LinkedName>,
    entries: Vec<FuncId>,
    types: TypeTable,
) -> Result<Typed, Stop> {
    let Assembly {
        functions,
        statics,
        sites,
    } = assembly;
    let typed = Typed {
        types,
        functions,
        statics: placed(alloc, statics)?,
        externals,
        sites,
        entries,
    };
    test_addresses(alloc, &typed.types, typed.statics.as_slice())?;
    Ok(typed)
}

// The objects of static duration, each of which is there.
fn placed(alloc: Global, list: Vec<Option<TypedObject>>) -> Result<Vec<TypedObject>, Stop> {
    let mut statics = Vec::new(alloc);
    for object in list {
        if let Some(object) = object {
            statics.push(object)?;
        }
    }
    Ok(statics)
}

// Tests the address constants anew, now that the sizes of all objects are known. The objects are in file and token order.
fn test_addresses(alloc: Global, table: &TypeTable, statics: &[TypedObject]) -> Result<(), Stop> {
    let mut types = Vec::new(alloc);
    for object in statics {
        types.push(object.of)?;
    }
    test_objects(alloc, table, types.as_slice(), statics)
}

fn test_objects<'a>(
    alloc: Global,
    table: &'a TypeTable,
    types: &'a [TypeId],
    statics: &[TypedObject],
) -> Result<(), Stop> {
    let bases = Bases::Linked(types);
    let addresses = Addresses {
        alloc,
        table,
        bases,
    };
    for object in statics {
        test_object(&addresses, object)?;
    }
    Ok(())
}

fn test_object(addresses: &Addresses<'_>, object: &TypedObject) -> Result<(), Stop> {
    if let Some(parts) = &object.initial {
        for part in parts {
            let at = Spot {
                place: part.value.place,
                start: part.value.start,
            };
            addresses.test(&part.value, at)?;
        }
    }
    Ok(())
}
