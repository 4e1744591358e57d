//! Walks over expressions and statements, by lists of what is left.

use c_classes::Marks;
use c_typed::{TypedExpr, TypedFunction, TypedKind, TypedStatement};
use c_walks::{push_inner, push_parts};
use std::alloc::Global;
use sv_base::NoMemory;

/// What is known of the uses of a function's objects.
#[derive(Drop)]
pub(crate) struct Uses {
    /// Those whose address is taken.
    pub(crate) addressed: Marks,
    /// Those that are assigned, incremented or decremented inside an expression.
    pub(crate) assigned: Marks,
    /// Whether there are such ones.
    pub(crate) any_assigned: bool,
}

fn local_of(e: &TypedExpr) -> Option<u32> {
    match e.kind {
        TypedKind::Local(object) => Some(object),
        _ => None,
    }
}

/// The object of the function that an expression assigns, increments or decrements itself.
pub(crate) fn assigned_object(e: &TypedExpr) -> Option<u32> {
    match &e.kind {
        TypedKind::Assign(target, _) => local_of(target),
        TypedKind::Update { target, .. } => local_of(target),
        _ => None,
    }
}

fn addressed_object(e: &TypedExpr) -> Option<u32> {
    match &e.kind {
        TypedKind::AddressOf(target) => local_of(target),
        _ => None,
    }
}

/// Whether an expression names the object.
pub(crate) fn names(alloc: Global, e: &TypedExpr, object: u32) -> Result<bool, NoMemory> {
    let mut left = Vec::new(alloc);
    left.push(e)?;
    for _ in 0..u64::MAX {
        let Some(e) = left.pop() else {
            break;
        };
        if local_of(e) == Some(object) {
            return Ok(true);
        }
        push_parts(&mut left, e)?;
    }
    Ok(false)
}

/// Whether the object is assigned, incremented or decremented in an expression.
pub(crate) fn assigns(alloc: Global, e: &TypedExpr, object: u32) -> Result<bool, NoMemory> {
    let mut left = Vec::new(alloc);
    left.push(e)?;
    for _ in 0..u64::MAX {
        let Some(e) = left.pop() else {
            break;
        };
        if assigned_object(e) == Some(object) {
            return Ok(true);
        }
        push_parts(&mut left, e)?;
    }
    Ok(false)
}

impl Uses {
    fn note(&mut self, e: &TypedExpr) -> Result<(), NoMemory> {
        if let Some(object) = addressed_object(e) {
            self.addressed.mark(object)?;
        }
        if let Some(object) = assigned_object(e) {
            self.assigned.mark(object)?;
            self.any_assigned = true;
        }
        Ok(())
    }

    fn note_all(&mut self, alloc: Global, e: &TypedExpr) -> Result<(), NoMemory> {
        let mut left = Vec::new(alloc);
        left.push(e)?;
        for _ in 0..u64::MAX {
            let Some(e) = left.pop() else {
                break;
            };
            self.note(e)?;
            push_parts(&mut left, e)?;
        }
        Ok(())
    }

    // The expression of a statement, of which an assignment itself stands inside no expression.
    fn note_whole(&mut self, alloc: Global, e: &TypedExpr) -> Result<(), NoMemory> {
        match &e.kind {
            TypedKind::Assign(target, value) => {
                self.note_inside(alloc, target)?;
                self.note_all(alloc, value)
            }
            TypedKind::Update { target, by, .. } => {
                self.note_inside(alloc, target)?;
                self.note_all(alloc, by)
            }
            _ => self.note_all(alloc, e),
        }
    }

    fn note_inside(&mut self, alloc: Global, target: &TypedExpr) -> Result<(), NoMemory> {
        if local_of(target).is_some() {
            return Ok(());
        }
        self.note_all(alloc, target)
    }

    fn note_some(&mut self, alloc: Global, e: &Option<TypedExpr>) -> Result<(), NoMemory> {
        match e {
            None => Ok(()),
            Some(e) => self.note_all(alloc, e),
        }
    }

    fn note_statement(&mut self, alloc: Global, s: &TypedStatement) -> Result<(), NoMemory> {
        match s {
            TypedStatement::Plain(e) => self.note_whole(alloc, e),
            TypedStatement::If(e, _, _) | TypedStatement::Switch(e, _) => self.note_all(alloc, e),
            TypedStatement::While(e, _) | TypedStatement::Do(_, e) => self.note_all(alloc, e),
            TypedStatement::For { test, last, .. } => {
                self.note_some(alloc, test)?;
                self.note_some(alloc, last)
            }
            TypedStatement::Return(e) => self.note_some(alloc, e),
            TypedStatement::Block { .. } | TypedStatement::Start(_) => Ok(()),
            TypedStatement::Nothing | TypedStatement::Case(_) | TypedStatement::Default => Ok(()),
            TypedStatement::Break | TypedStatement::Continue => Ok(()),
        }
    }
}

fn note_initial(uses: &mut Uses, alloc: Global, function: &TypedFunction) -> Result<(), NoMemory> {
    for object in &function.objects {
        if let Some(parts) = &object.initial {
            for part in parts {
                uses.note_all(alloc, &part.value)?;
            }
        }
    }
    Ok(())
}

/// The uses of a function's objects.
pub(crate) fn uses_of(alloc: Global, function: &TypedFunction) -> Result<Uses, NoMemory> {
    let mut uses = Uses {
        addressed: Marks::new(alloc),
        assigned: Marks::new(alloc),
        any_assigned: false,
    };
    note_initial(&mut uses, alloc, function)?;
    let mut left = Vec::new(alloc);
    left.push(&function.code)?;
    for _ in 0..u64::MAX {
        let Some(s) = left.pop() else {
            break;
        };
        uses.note_statement(alloc, s)?;
        push_inner(&mut left, s)?;
    }
    Ok(uses)
}
