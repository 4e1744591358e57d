use c_faults::{Spot, Stop};
use c_typed::{HeldExpr, TypeId, TypedKind, Types};

/// A typed expression at a token.
pub fn node(types: &Types, kind: TypedKind, of: TypeId, at: Spot) -> Result<HeldExpr, Stop> {
    let made = HeldExpr::new(types.alloc(), kind, of, at.place, at.start)?;
    Ok(made)
}

/// The token at which a typed expression stands.
pub fn spot_of(expr: &HeldExpr) -> Spot {
    Spot {
        place: expr.node.place,
        start: expr.node.start,
    }
}
