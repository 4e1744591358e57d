use c_statics::integer;
use c_typed::{TypeId, TypeKind, TypeTable, Typed, TypedExpr, TypedFunction, TypedKind};
use c_values::IntType;
use c_walks::{push_expressions, push_inner, push_parts};
use std::alloc::Global;
use sv_base::{NoMemory, Place};

/// What a known function does.
#[derive(Clone, Copy, PartialEq, Eq)]
pub(crate) enum Memory {
    Set,
    Copy,
    Move,
}

impl Memory {
    /// The name of the function (7.21).
    pub(crate) fn name(self) -> &'static [u8] {
        match self {
            Memory::Set => b"memset",
            Memory::Copy => b"memcpy",
            Memory::Move => b"memmove",
        }
    }
}

/// A call that is redirected. `start` is the offset of the called name, `inside` the function that has the call.
#[derive(Clone, Copy)]
pub(crate) struct Known {
    pub(crate) inside: u32,
    pub(crate) start: u32,
    pub(crate) place: Place,
    pub(crate) memory: Memory,
    /// The type of the called function.
    pub(crate) of: TypeId,
    /// The type of an object that is copied as a whole.
    pub(crate) whole: Option<TypeId>,
}

fn memory_of(name: &[u8]) -> Option<Memory> {
    match name {
        b"memset" => Some(Memory::Set),
        b"memcpy" => Some(Memory::Copy),
        b"memmove" => Some(Memory::Move),
        _ => None,
    }
}

/// What a pointer type points to.
pub(crate) fn target_of(types: &TypeTable, of: TypeId) -> TypeId {
    match types.kind(of) {
        TypeKind::Pointer(target) => target,
        _ => of,
    }
}

fn is_void_pointer(types: &TypeTable, of: TypeId) -> bool {
    match types.kind(of) {
        TypeKind::Pointer(target) => types.kind(target) == TypeKind::Void,
        _ => false,
    }
}

fn is_size(types: &TypeTable, of: TypeId) -> bool {
    match types.kind(of) {
        TypeKind::Int(kind) => kind == IntType::UInt || kind == IntType::ULong,
        _ => false,
    }
}

fn is_second(types: &TypeTable, memory: Memory, of: TypeId) -> bool {
    match memory {
        Memory::Set => types.kind(of) == TypeKind::Int(IntType::Int),
        _ => is_void_pointer(types, of),
    }
}

// Whether a function type is that of the known function.
fn has_type(types: &TypeTable, memory: Memory, of: TypeId) -> bool {
    let TypeKind::Function(result) = types.kind(of) else {
        return false;
    };
    if types.has_dots(of) || !is_void_pointer(types, result) {
        return false;
    }
    match types.params(of) {
        [first, second, third] => {
            is_void_pointer(types, *first)
                && is_second(types, memory, *second)
                && is_size(types, *third)
        }
        _ => false,
    }
}

// The expression under the conversion of a pointer to another.
fn before_conversion<'a>(types: &TypeTable, e: &'a TypedExpr) -> &'a TypedExpr {
    match &e.kind {
        TypedKind::Convert(a) => {
            if is_pointer(types, e.of) && is_pointer(types, a.of) {
                return a;
            }
            e
        }
        _ => e,
    }
}

fn is_pointer(types: &TypeTable, of: TypeId) -> bool {
    matches!(types.kind(of), TypeKind::Pointer(_))
}

// Whether objects of the type are copied as a whole: they are no arrays and no characters.
fn is_whole(types: &TypeTable, of: TypeId) -> bool {
    match types.kind(of) {
        TypeKind::Array(_, _) => false,
        TypeKind::Int(kind) => !matches!(kind, IntType::Char | IntType::SChar | IntType::UChar),
        _ => types.is_complete(of),
    }
}

// The type of the object that is copied as a whole: both pointers point to like types, and the number is their size.
fn whole_of(types: &TypeTable, args: &[TypedExpr]) -> Option<TypeId> {
    let [to, from, count] = args else {
        return None;
    };
    let of = target_of(types, before_conversion(types, to).of);
    let other = target_of(types, before_conversion(types, from).of);
    if !is_whole(types, of) || !types.is_complete(other) || !types.alike(of, other) {
        return None;
    }
    if integer(count, types)? == i128::from(types.extent(of).size) {
        return Some(of);
    }
    None
}

// The offset of the name of a called function.
fn name_start(f: &TypedExpr) -> u32 {
    match &f.kind {
        TypedKind::Decay(name) => name.start,
        _ => f.start,
    }
}

// What a call calls where it is redirected: its name is that of an external function of the right type.
fn called(typed: &Typed, f: &TypedExpr) -> Option<Memory> {
    let TypedKind::Decay(name) = &f.kind else {
        return None;
    };
    let TypedKind::Function(number) = name.kind else {
        return None;
    };
    let external = (number as usize).checked_sub(typed.functions.len())?;
    let memory = memory_of(&typed.externals.get(external)?.name)?;
    if has_type(&typed.types, memory, target_of(&typed.types, f.of)) {
        return Some(memory);
    }
    None
}

// The expression, where it is a call that is redirected.
fn known_call(typed: &Typed, inside: u32, e: &TypedExpr) -> Option<Known> {
    let TypedKind::Call(f, args) = &e.kind else {
        return None;
    };
    let memory = called(typed, f)?;
    let whole = match memory {
        Memory::Set => None,
        _ => whole_of(&typed.types, args),
    };
    Some(Known {
        inside,
        start: name_start(f),
        place: f.place,
        memory,
        of: target_of(&typed.types, f.of),
        whole,
    })
}

// The expressions of a function that stand in no other one.
pub(crate) fn expressions_of(
    alloc: Global,
    function: &TypedFunction,
) -> Result<Vec<&TypedExpr>, NoMemory> {
    let mut all = Vec::new(alloc);
    for object in &function.objects {
        if let Some(parts) = &object.initial {
            for part in parts {
                all.push(&part.value)?;
            }
        }
    }
    let mut left = Vec::new(alloc);
    left.push(&function.code)?;
    for _ in 0..u64::MAX {
        let Some(s) = left.pop() else {
            break;
        };
        push_expressions(&mut all, s)?;
        push_inner(&mut left, s)?;
    }
    Ok(all)
}

fn push_known(
    alloc: Global,
    typed: &Typed,
    inside: u32,
    function: &TypedFunction,
    list: &mut Vec<Known>,
) -> Result<(), NoMemory> {
    let mut left = expressions_of(alloc, function)?;
    for _ in 0..u64::MAX {
        let Some(e) = left.pop() else {
            break;
        };
        if let Some(known) = known_call(typed, inside, e) {
            list.push(known)?;
        }
        push_parts(&mut left, e)?;
    }
    Ok(())
}

/// The calls that are redirected, by function and then by the place of the called name.
pub(crate) fn known_calls(alloc: Global, typed: &Typed) -> Result<Vec<Known>, NoMemory> {
    let mut list = Vec::new(alloc);
    let mut inside = 0u32;
    for function in &typed.functions {
        push_known(alloc, typed, inside, function, &mut list)?;
        inside = inside.checked_add(1).ok_or(NoMemory)?;
    }
    list.sort_by_key(|known| (known.inside, known.start))?;
    Ok(list)
}
