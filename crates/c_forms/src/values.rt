use crate::nodes::{node, spot_of};
use c_faults::Stop;
use c_typed::{HeldExpr, TypeId, TypeKind, TypeTable, TypedExpr, TypedKind, Types};

/// Whether the expression designates an object (ISO/IEC 9899:1999, 6.3.2.1).
pub fn is_lvalue(table: &TypeTable, expr: &TypedExpr) -> bool {
    match &expr.kind {
        TypedKind::Local(_) | TypedKind::Static(_) => true,
        TypedKind::Linked(_) => is_object(table, expr.of),
        TypedKind::Deref(_, _) => is_object(table, expr.of),
        TypedKind::Member(whole, _) => is_lvalue(table, whole),
        _ => false,
    }
}

fn is_object(table: &TypeTable, of: TypeId) -> bool {
    match table.kind(of) {
        TypeKind::Function(_) => false,
        _ => true,
    }
}

/// The expression as a value (6.3.2.1): an array or a function becomes a pointer, and a scalar lvalue is read. A structure
/// stays an lvalue.
pub fn value(types: &mut Types, expr: HeldExpr) -> Result<HeldExpr, Stop> {
    match types.table.kind(expr.of()) {
        TypeKind::Array(element, _) => decay(types, expr, element),
        TypeKind::Function(_) => {
            let of = expr.of();
            decay(types, expr, of)
        }
        TypeKind::Int(_) | TypeKind::Pointer(_) => read(types, expr),
        TypeKind::Void | TypeKind::Record(_) => Ok(expr),
    }
}

fn decay(types: &mut Types, expr: HeldExpr, to: TypeId) -> Result<HeldExpr, Stop> {
    let of = types.pointer_to(to)?;
    let at = spot_of(&expr);
    node(types, TypedKind::Decay(expr.into_box()), of, at)
}

fn read(types: &Types, expr: HeldExpr) -> Result<HeldExpr, Stop> {
    if !is_lvalue(&types.table, &expr.node) {
        return Ok(expr);
    }
    let of = types.unqualified(expr.of());
    let at = spot_of(&expr);
    node(types, TypedKind::Read(expr.into_box()), of, at)
}
