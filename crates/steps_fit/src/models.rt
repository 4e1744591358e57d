ghost use Rattle.std.specs.Prelude.{◌≡◌, IsTrue};
ghost use Rattle.core_ir.specs.Programs.{function_of};
ghost use Rattle.core_ir.specs.Ranges.{type_range};
ghost use Rattle.core_ir.specs.StepsFit.{result_leaf};
ghost use Rattle.steps_fit.specs.Places.{IsSamePlace};

use crate::operands::leaf_at;
use c_values::{IntType, greatest, least};
use core_ir::{Function, Leaf};
use std::alloc::Global;
use sv_base::NoMemory;

// Types are numbered by their first use, and a use takes a token.
const KINDS: u32 = 8_388_608;

/// What the result of a function is, if it has one.
pub(crate) fn result_leaf(f: &Function) -> Option<Leaf>
    ensures { result ≡ result_leaf (function_of f.now) }
{
    match f.result {
        Some(r) => leaf_at(f, r),
        None => None,
    }
}

// Whether two types have the same values.
fn same_range(a: IntType, b: IntType) -> bool
    ensures { IsTrue result → type_range a ≡ type_range b }
{
    least(a) == least(b) && greatest(a) == greatest(b)
}

// Whether what may stand in one place may stand in the other.
fn same_place(a: Option<Leaf>, b: Option<Leaf>) -> bool
    ensures { IsTrue result → IsSamePlace a b }
{
    match a {
        Some(Leaf::Int(t)) => match b {
            Some(Leaf::Int(other)) => same_range(t, other),
            _ => false,
        },
        Some(Leaf::Pointer) => matches!(b, Some(Leaf::Pointer)),
        None => b.is_none(),
    }
}

fn entries_alike(g: &Function, h: &Function, count: u32) -> bool {
    for i in 0..count {
        if !same_place(leaf_at(g, i), leaf_at(h, i)) {
            return false;
        }
    }
    true
}

fn is_alike(g: &Function, h: &Function) -> bool {
    g.parameters == h.parameters
        && entries_alike(g, h, h.parameters)
        && same_place(result_leaf(g), result_leaf(h))
}

/// The function that stands for those of a type, if there is one.
pub(crate) fn model_at<'a>(
    models: &[Option<u32>],
    functions: &'a [Function],
    kind: u32,
) -> Option<&'a Function> {
    match models.get(kind as usize) {
        Some(Some(model)) => functions.get(*model as usize),
        _ => None,
    }
}

/// Whether each function is like the one that stands for its type.
pub(crate) fn are_models(models: &[Option<u32>], functions: &[Function]) -> bool {
    for g in functions {
        match model_at(models, functions, g.kind) {
            None => return false,
            Some(h) => {
                if !is_alike(g, h) {
                    return false;
                }
            }
        }
    }
    true
}

// Notes the first function of its type.
fn note(models: &mut Vec<Option<u32>>, kind: u32, number: u32) -> Result<(), NoMemory> {
    for _ in models.len() as u64..u64::from(kind).saturating_add(1) {
        models.push(None)?;
    }
    if let Some(model) = models.get_mut(kind as usize) {
        if model.is_none() {
            *model = Some(number);
        }
    }
    Ok(())
}

/// By type, the first function of it.
pub(crate) fn models_of(
    alloc: Global,
    functions: &[Function],
) -> Result<Vec<Option<u32>>, NoMemory> {
    let mut models = Vec::new(alloc);
    let mut number = 0u32;
    for f in functions {
        if f.kind < KINDS {
            note(&mut models, f.kind, number)?;
        }
        number = number.checked_add(1).ok_or(NoMemory)?;
    }
    Ok(models)
}
