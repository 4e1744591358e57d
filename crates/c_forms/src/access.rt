use crate::nodes::node;
use crate::pointers::added;
use crate::values::is_lvalue;
use c_faults::{Spot, Stop, refuse};
use c_typed::{HeldExpr, TypeId, TypeKind, TypedKind, Types};
use sv_base::{SiteId, faults};

/// The pointer of a subscript: the sum of its two values, of which one is a pointer (ISO/IEC 9899:1999, 6.5.2.1).
pub fn subscript(types: &Types, a: HeldExpr, b: HeldExpr, at: Spot) -> Result<HeldExpr, Stop> {
    added(types, a, b, at)
}

/// What a pointer leads to (6.5.3.2). A function is no site. `sized` says that the size of an object has to be known.
pub fn deref(
    types: &Types,
    pointer: HeldExpr,
    site: Option<SiteId>,
    sized: bool,
    at: Spot,
) -> Result<HeldExpr, Stop> {
    let to = match types.table.kind(pointer.of()) {
        TypeKind::Pointer(to) => to,
        _ => return refuse(faults::OPERANDS, at),
    };
    match types.table.kind(to) {
        TypeKind::Void => refuse(faults::OPERANDS, at),
        TypeKind::Function(_) => led(types, pointer, None, to, at),
        _ => {
            if sized && !types.table.is_complete(to) {
                return refuse(faults::UNKNOWN_SIZE, at);
            }
            led(types, pointer, site, to, at)
        }
    }
}

fn led(
    types: &Types,
    pointer: HeldExpr,
    site: Option<SiteId>,
    to: TypeId,
    at: Spot,
) -> Result<HeldExpr, Stop> {
    node(types, TypedKind::Deref(pointer.into_box(), site), to, at)
}

/// The number of the structure or union of which a member is selected (6.5.2.3). It has to be complete.
pub fn record_of(types: &Types, whole: &HeldExpr, at: Spot) -> Result<u32, Stop> {
    match types.table.kind(whole.of()) {
        TypeKind::Record(record) => {
            if !is_lvalue(&types.table, &whole.node) {
                return refuse(faults::OPERANDS, at);
            }
            if types.table.is_complete(whole.of()) {
                return Ok(record);
            }
            refuse(faults::UNKNOWN_MEMBER, at)
        }
        _ => refuse(faults::UNKNOWN_MEMBER, at),
    }
}

/// The member at a position of a structure or union (6.5.2.3). One of what is volatile is volatile.
pub fn member(
    types: &mut Types,
    whole: HeldExpr,
    record: u32,
    position: u32,
    at: Spot,
) -> Result<HeldExpr, Stop> {
    let member = match member_type(types, record, position) {
        Some(of) => of,
        None => return refuse(faults::UNKNOWN_MEMBER, at),
    };
    let is_volatile = types.table.is_volatile(whole.of());
    let of = if is_volatile {
        types.qualified(member)?
    } else {
        member
    };
    let kind = TypedKind::Member(whole.into_box(), position);
    node(types, kind, of, at)
}

fn member_type(types: &Types, record: u32, position: u32) -> Option<TypeId> {
    let members = types.table.record(record)?.members.as_ref()?;
    let member = members.get(position as usize)?;
    Some(member.of)
}

/// `&E` (6.5.3.2) of an lvalue or a function.
pub fn address_of(types: &mut Types, of: HeldExpr, at: Spot) -> Result<HeldExpr, Stop> {
    if !has_address(types, &of) {
        return refuse(faults::NO_LVALUE, at);
    }
    let pointer = types.pointer_to(of.of())?;
    node(types, TypedKind::AddressOf(of.into_box()), pointer, at)
}

fn has_address(types: &Types, of: &HeldExpr) -> bool {
    match types.table.kind(of.of()) {
        TypeKind::Function(_) => true,
        _ => is_lvalue(&types.table, &of.node),
    }
}
