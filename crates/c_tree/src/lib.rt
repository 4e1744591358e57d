//! The syntax trees of a C source, and the tokens that they are read from.
#![tactic(auto)]

mod declaration;
mod declarator;
mod expression;
mod held;
mod initialiser;
mod lexeme;
mod specifier;
mod statement;
mod tree;

pub use declaration::{Declaration, InitDeclarator};
pub use declarator::{DeclCore, DeclPart, Declarator, Dots, Param, TypeName};
pub use expression::{Expr, ExprKind};
pub use held::{
    HeldArguments, HeldBlock, HeldBody, HeldCore, HeldDeclaration, HeldDeclarator, HeldDeclarators,
    HeldDesignators, HeldEntries, HeldEnumerators, HeldExpr, HeldFirst, HeldInitDeclarators,
    HeldInitialiser, HeldInside, HeldItems, HeldMembers, HeldOperand, HeldParams, HeldParts,
    HeldSpecifiers, HeldStatement, HeldTypeName,
};
pub use initialiser::{Designator, InitEntry, Initialiser};
pub use lexeme::{Lexeme, LexemeKind};
pub use specifier::{EnumItem, MemberDecl, RecordKind, SpecKind, SpecWord};
pub use statement::{BlockItem, ForFirst, Statement, StatementKind};
pub use tree::{Item, Tree};
