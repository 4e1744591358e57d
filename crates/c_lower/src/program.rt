use crate::code::Code;
use crate::context::{Context, is_int, is_pointer};
use crate::functions::lower_body;
use crate::plan::Plan;
use crate::uses::{Uses, uses_of};
use c_classes::{Numbers, Objects, region_classes, rival_classes, shapes_of};
use c_statics::{Starts, starts_of};
use c_typed::{Typed, TypedFunction, TypedObject};
use core_ir::{ClassTable, CoreProgram, CoreSite, ExternalName, Function, FunctionNodes};
use std::alloc::Global;
use sv_base::{FrontFault, NoMemory, SourceFault, faults, limits};

// The functions of a program that is being lowered.
#[derive(Drop)]
struct Lowered {
    functions: Vec<Function>,
    objects: Objects,
    numbers: Numbers,
}

fn is_in_register(typed: &Typed, uses: &Uses, number: u32, object: &TypedObject) -> bool {
    let types = &typed.types;
    let scalar = is_int(types, object.of) || is_pointer(types, object.of);
    scalar && !types.is_volatile(object.of) && !uses.addressed.is_marked(number)
}

fn add_object(
    alloc: Global,
    typed: &Typed,
    objects: &mut Objects,
    numbers: &mut Numbers,
    object: &TypedObject,
) -> Result<u32, FrontFault> {
    let number = match u32::try_from(objects.roots.len()) {
        Ok(number) => number,
        Err(_) => return Err(FrontFault::NoMemory),
    };
    objects.add(alloc, &typed.types, &mut numbers.layouts, object)?;
    Ok(objects.whole_region(number))
}

// Where the objects of a function live.
fn plan_of(
    alloc: Global,
    typed: &Typed,
    objects: &mut Objects,
    numbers: &mut Numbers,
    function: &TypedFunction,
) -> Result<Plan, FrontFault> {
    let mut plan = Plan::new(alloc, function.params, uses_of(alloc, function)?);
    let mut number = 0u32;
    for object in &function.objects {
        if is_in_register(typed, &plan.uses, number, object) {
            plan.add_named(number)?;
        } else {
            let class = add_object(alloc, typed, objects, numbers, object)?;
            plan.add_object(class)?;
        }
        number = number.checked_add(1).ok_or(NoMemory)?;
    }
    Ok(plan)
}

// The limit of sites, with the function that has the first site past it.
#[derive(Clone, Copy)]
struct SiteLimit {
    function: u32,
    fault: SourceFault,
}

fn site_limit(typed: &Typed) -> Option<SiteLimit> {
    let site = typed.sites.get(limits::SITES as usize)?;
    Some(SiteLimit {
        function: site.function.0,
        fault: SourceFault {
            kind: faults::TOO_MANY_SITES,
            place: site.place,
        },
    })
}

// Of the limit of sites and a fault of a function, the one that comes first. Functions ascend in the text.
fn first_fault(sites: Option<SiteLimit>, function: u32, fault: FrontFault) -> FrontFault {
    match (sites, fault) {
        (Some(limit), FrontFault::Fault(fault)) => {
            if limit.function < function {
                FrontFault::Fault(limit.fault)
            } else {
                FrontFault::Fault(fault)
            }
        }
        (_, fault) => fault,
    }
}

fn add_statics(
    alloc: Global,
    typed: &Typed,
    objects: &mut Objects,
    numbers: &mut Numbers,
) -> Result<(), FrontFault> {
    for object in &typed.statics {
        add_object(alloc, typed, objects, numbers, object)?;
    }
    Ok(())
}

fn plans_of(
    alloc: Global,
    typed: &Typed,
    objects: &mut Objects,
    numbers: &mut Numbers,
    sites: Option<SiteLimit>,
) -> Result<Vec<Plan>, FrontFault> {
    let mut plans = Vec::new(alloc);
    let mut number = 0u32;
    for function in &typed.functions {
        match plan_of(alloc, typed, objects, numbers, function) {
            Ok(plan) => plans.push(plan)?,
            Err(fault) => return Err(first_fault(sites, number, fault)),
        }
        number = number.checked_add(1).ok_or(NoMemory)?;
    }
    Ok(plans)
}

// A function of the core, and the numbers for the next one.
fn lower_function(
    alloc: Global,
    typed: &Typed,
    objects: &Objects,
    plan: &Plan,
    function: &TypedFunction,
    numbers: Numbers,
) -> Result<(Function, Numbers), FrontFault> {
    let x = Context {
        alloc,
        typed,
        function,
        plan,
        objects,
    };
    let mut code = Code::new(alloc, function.place, numbers);
    let (kind, result) = lower_body(x, &mut code)?;
    let name = Vec::from_slice(alloc, function.name.as_slice())?;
    let (registers, body, numbers) = code.into_parts();
    Ok((
        Function {
            name,
            kind,
            parameters: function.params,
            registers,
            result,
            body: body.into_body(),
        },
        numbers,
    ))
}

fn lower_functions(
    alloc: Global,
    typed: &Typed,
    objects: Objects,
    plans: &[Plan],
    numbers: Numbers,
    sites: Option<SiteLimit>,
) -> Result<Lowered, FrontFault> {
    let mut functions = Vec::new(alloc);
    let mut numbers = numbers;
    let mut number = 0u32;
    for function in &typed.functions {
        let Some(plan) = plans.get(number as usize) else {
            break;
        };
        match lower_function(alloc, typed, &objects, plan, function, numbers) {
            Ok((lowered, next)) => {
                functions.push(lowered)?;
                numbers = next;
            }
            Err(fault) => return Err(first_fault(sites, number, fault)),
        }
        number = number.checked_add(1).ok_or(NoMemory)?;
    }
    Ok(Lowered {
        functions,
        objects,
        numbers,
    })
}

fn externals_of(
    alloc: Global,
    typed: &Typed,
    numbers: &mut Numbers,
) -> Result<Vec<ExternalName>, NoMemory> {
    let mut externals = Vec::new(alloc);
    for external in &typed.externals {
        let name = Vec::from_slice(alloc, external.name.as_slice())?;
        let kind = numbers.kinds.number(typed.types.class(external.of))?;
        externals.push(ExternalName { name, kind })?;
    }
    Ok(externals)
}

fn sites_of(alloc: Global, typed: &Typed) -> Result<Vec<CoreSite>, NoMemory> {
    let mut sites = Vec::new(alloc);
    for site in &typed.sites {
        sites.push(CoreSite {
            place: site.place,
            function: site.function,
        })?;
    }
    Ok(sites)
}

// The nodes of a function whose registers come after so many others.
fn nodes_of(alloc: Global, before: u32, function: &Function) -> Result<FunctionNodes, NoMemory> {
    let mut entries = Vec::new(alloc);
    for register in 0..function.parameters {
        entries.push(before.checked_add(register).ok_or(NoMemory)?)?;
    }
    let result = match function.result {
        None => None,
        Some(register) => Some(before.checked_add(register).ok_or(NoMemory)?),
    };
    Ok(FunctionNodes { entries, result })
}

fn register_count(function: &Function) -> Result<u32, NoMemory> {
    match u32::try_from(function.registers.len()) {
        Ok(count) => Ok(count),
        Err(_) => Err(NoMemory),
    }
}

fn class_table(alloc: Global, typed: &Typed, lowered: &Lowered) -> Result<ClassTable, NoMemory> {
    let mut nodes = Vec::new(alloc);
    let mut registers = 0u32;
    for function in &lowered.functions {
        nodes.push(nodes_of(alloc, registers, function)?)?;
        registers = registers
            .checked_add(register_count(function)?)
            .ok_or(NoMemory)?;
    }
    let parts = lowered.numbers.part_list(alloc)?;
    let copied = &lowered.numbers.copied;
    Ok(ClassTable {
        registers,
        regions: region_classes(alloc, &typed.types, &lowered.objects, &parts, copied)?,
        leaves: Vec::from_slice(alloc, lowered.objects.leaves.as_slice())?,
        rivals: rival_classes(alloc, &lowered.objects)?,
        nodes,
    })
}

fn program_of(alloc: Global, typed: &Typed, lowered: Lowered) -> Result<CoreProgram, NoMemory> {
    let mut lowered = lowered;
    let externals = externals_of(alloc, typed, &mut lowered.numbers)?;
    let classes = class_table(alloc, typed, &lowered)?;
    let shapes = shapes_of(alloc, &lowered.objects)?;
    let parts = lowered.numbers.part_list(alloc)?;
    let entries = Vec::from_slice(alloc, typed.entries.as_slice())?;
    let sites = sites_of(alloc, typed)?;
    let starts = starts_of(alloc, typed, &lowered.objects)?;
    let Starts {
        statics,
        unions,
        leaves,
        pointers,
    } = starts;
    let Lowered { functions, .. } = lowered;
    Ok(CoreProgram {
        functions,
        entries,
        objects: shapes.into_objects(),
        parts,
        classes,
        statics,
        unions,
        leaf_starts: leaves,
        pointer_starts: pointers,
        sites,
        externals,
    })
}

/// The core program of a typed program. It is refused where there are too many sites, region and leaf classes, or registers of a
/// function, with the fault that stands first in the text.
pub fn lower(alloc: Global, typed: &Typed) -> Result<CoreProgram, FrontFault> {
    let sites = site_limit(typed);
    let mut objects = Objects::new(alloc);
    let mut numbers = Numbers::new(alloc);
    add_statics(alloc, typed, &mut objects, &mut numbers)?;
    let plans = plans_of(alloc, typed, &mut objects, &mut numbers, sites)?;
    let lowered = lower_functions(alloc, typed, objects, &plans, numbers, sites)?;
    if let Some(limit) = sites {
        return Err(FrontFault::Fault(limit.fault));
    }
    Ok(program_of(alloc, typed, lowered)?)
}
