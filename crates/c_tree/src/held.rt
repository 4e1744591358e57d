//! Trees that are held while others are read. A crate above holds and drops these alone, so that the dropping of the trees,
//! whose types are one cycle, is proved here once. Contracts see each as the tree that it holds.

mod declarations;
mod declarators;
mod expressions;
mod files;
mod initialisers;
mod specifiers;
mod statements;

pub use declarations::{HeldDeclaration, HeldInitDeclarators};
pub use declarators::{HeldCore, HeldDeclarator, HeldInside, HeldParams, HeldParts};
pub use expressions::{HeldArguments, HeldExpr, HeldOperand, HeldTypeName};
pub use files::HeldItems;
pub use initialisers::{HeldDesignators, HeldEntries, HeldInitialiser};
pub use specifiers::{HeldDeclarators, HeldEnumerators, HeldMembers, HeldSpecifiers};
pub use statements::{HeldBlock, HeldBody, HeldFirst, HeldStatement};
