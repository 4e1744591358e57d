use crate::plan::{Home, Plan};
use c_classes::Objects;
use c_typed::{
    MemberType, TypeId, TypeKind, TypeTable, Typed, TypedExpr, TypedFunction, TypedKind,
    TypedObject,
};
use c_values::IntType;
use core_ir::{Leaf, Operand};
use std::alloc::Global;

/// What the lowering of a function looks up.
#[derive(Clone, Copy)]
pub(crate) struct Context<'a> {
    pub(crate) alloc: Global,
    pub(crate) typed: &'a Typed,
    pub(crate) function: &'a TypedFunction,
    pub(crate) plan: &'a Plan,
    pub(crate) objects: &'a Objects,
}

/// The operand of what has no value.
pub(crate) const NOTHING: Operand = Operand::Const(0);

/// The register of a pointer, which is never a constant.
pub(crate) fn register_of(a: Operand) -> u32 {
    match a {
        Operand::Reg(r) => r,
        Operand::Const(_) => 0,
    }
}

/// What a scalar of the type holds.
pub(crate) fn leaf_of(types: &TypeTable, of: TypeId) -> Leaf {
    match types.kind(of) {
        TypeKind::Int(kind) => Leaf::Int(kind),
        _ => Leaf::Pointer,
    }
}

/// The integer type; of another type `int`.
pub(crate) fn int_kind(types: &TypeTable, of: TypeId) -> IntType {
    match types.kind(of) {
        TypeKind::Int(kind) => kind,
        _ => IntType::Int,
    }
}

pub(crate) fn is_int(types: &TypeTable, of: TypeId) -> bool {
    matches!(types.kind(of), TypeKind::Int(_))
}

pub(crate) fn is_pointer(types: &TypeTable, of: TypeId) -> bool {
    matches!(types.kind(of), TypeKind::Pointer(_))
}

pub(crate) fn is_void(types: &TypeTable, of: TypeId) -> bool {
    matches!(types.kind(of), TypeKind::Void)
}

pub(crate) fn is_record(types: &TypeTable, of: TypeId) -> bool {
    matches!(types.kind(of), TypeKind::Record(_))
}

pub(crate) fn is_function(types: &TypeTable, of: TypeId) -> bool {
    matches!(types.kind(of), TypeKind::Function(_))
}

/// What a pointer type points to.
pub(crate) fn target_of(types: &TypeTable, of: TypeId) -> TypeId {
    match types.kind(of) {
        TypeKind::Pointer(target) => target,
        _ => of,
    }
}

/// The bytes of an object of the type.
pub(crate) fn size_of(types: &TypeTable, of: TypeId) -> u64 {
    types.extent(of).size
}

/// The bytes of what a pointer type points to, negative where an index is subtracted.
pub(crate) fn element_size(types: &TypeTable, of: TypeId, minus: bool) -> i64 {
    let size = i64::from(u32::try_from(size_of(types, target_of(types, of))).unwrap_or(0));
    if minus { -size } else { size }
}

pub(crate) fn members_of(types: &TypeTable, record: u32) -> &[MemberType] {
    match types.record(record) {
        None => &[],
        Some(record) => match &record.members {
            None => &[],
            Some(members) => members.as_slice(),
        },
    }
}

impl<'a> Context<'a> {
    pub(crate) fn types(self) -> &'a TypeTable {
        &self.typed.types
    }

    pub(crate) fn object(self, number: u32) -> Option<&'a TypedObject> {
        self.function.objects.get(number as usize)
    }

    /// The register of an object that is a named one.
    pub(crate) fn register(self, object: u32) -> Option<u32> {
        match self.plan.home(object) {
            Home::Register(r) => Some(r),
            Home::Object(_) => None,
        }
    }

    /// The class of the whole region of an object that is none.
    pub(crate) fn region(self, object: u32) -> u32 {
        match self.plan.home(object) {
            Home::Register(_) => 0,
            Home::Object(class) => class,
        }
    }

    /// The register that an lvalue names.
    pub(crate) fn named(self, e: &TypedExpr) -> Option<u32> {
        match e.kind {
            TypedKind::Local(object) => self.register(object),
            _ => None,
        }
    }
}
