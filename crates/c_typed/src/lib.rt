//! The typed program: the types of a source by number, and its functions with each expression's type and each conversion
//! written out.
#![tactic(auto)]

mod classes;
mod copies;
mod expression;
mod holders;
mod layout;
mod program;
mod reads;
mod renumbering;
mod scope;
mod statement;
mod table;
mod types;

pub use expression::{TypedExpr, TypedKind};
pub use holders::{HeldExpr, HeldExprs, HeldParts, HeldStatement, HeldStatements};
pub use layout::{POINTER_SIZE, RecordLayout, int_size};
pub use program::{
    InitialPart, LinkedName, SitePlace, Typed, TypedBody, TypedFunction, TypedObject,
};
pub use reads::TypeKind;
pub use renumbering::{Renumbering, Target};
pub use scope::{ParamEntry, Scope, ScopeEntry, ScopeTag, Seen};
pub use statement::TypedStatement;
pub use table::{Extent, MemberType, RecordType, TypeForm, TypeId, TypeRow, TypeTable};
pub use types::Types;
