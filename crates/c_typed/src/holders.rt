//! What holds a typed expression or statement while others are made. A holder's drop is written by hand, so that the
//! dropping of the trees is proved in this crate alone.

use crate::expression::{TypedExpr, TypedKind};
use crate::program::InitialPart;
use crate::statement::TypedStatement;
use crate::table::TypeId;
use std::alloc::Global;
use sv_base::{NoMemory, Place};

/// A typed expression.
pub struct HeldExpr {
    pub node: Box<TypedExpr>,
}

impl Drop for HeldExpr {
    fn drop(self) {
        let HeldExpr { node } = self;
        let _ = node;
    }
}

impl HeldExpr {
    pub fn new(
        alloc: Global,
        kind: TypedKind,
        of: TypeId,
        place: Place,
        start: u32,
    ) -> Result<HeldExpr, NoMemory> {
        let expr = TypedExpr {
            kind,
            of,
            place,
            start,
        };
        Ok(HeldExpr {
            node: Box::new(alloc, expr)?,
        })
    }

    pub fn of(&self) -> TypeId {
        self.node.of
    }

    pub fn into_box(self) -> Box<TypedExpr> {
        let HeldExpr { node } = self;
        node
    }

    pub fn into_expr(self) -> TypedExpr {
        Box::into_inner(self.into_box())
    }
}

/// A list of typed expressions.
pub struct HeldExprs {
    pub list: Vec<TypedExpr>,
}

impl Drop for HeldExprs {
    fn drop(self) {
        let HeldExprs { list } = self;
        let _ = list;
    }
}

impl HeldExprs {
    pub fn new(alloc: Global) -> HeldExprs {
        HeldExprs {
            list: Vec::new(alloc),
        }
    }

    pub fn push(&mut self, item: HeldExpr) -> Result<(), NoMemory> {
        self.list.push(item.into_expr())?;
        Ok(())
    }

    pub fn into_list(self) -> Vec<TypedExpr> {
        let HeldExprs { list } = self;
        list
    }
}

/// The parts of an initialiser.
#[derive(Drop)]
pub struct HeldParts {
    pub list: Vec<InitialPart>,
}

impl HeldParts {
    pub fn new(alloc: Global) -> HeldParts {
        HeldParts {
            list: Vec::new(alloc),
        }
    }

    pub fn push(&mut self, path: Vec<u32>, value: HeldExpr) -> Result<(), NoMemory> {
        self.list.push(InitialPart {
            path,
            value: value.into_expr(),
        })?;
        Ok(())
    }
}

/// A typed statement.
pub struct HeldStatement {
    pub node: Box<TypedStatement>,
}

impl Drop for HeldStatement {
    fn drop(self) {
        let HeldStatement { node } = self;
        let _ = node;
    }
}

impl HeldStatement {
    pub fn new(alloc: Global, statement: TypedStatement) -> Result<HeldStatement, NoMemory> {
        Ok(HeldStatement {
            node: Box::new(alloc, statement)?,
        })
    }

    pub fn into_box(self) -> Box<TypedStatement> {
        let HeldStatement { node } = self;
        node
    }

    pub fn into_statement(self) -> TypedStatement {
        Box::into_inner(self.into_box())
    }
}

/// A list of typed statements.
pub struct HeldStatements {
    pub list: Vec<TypedStatement>,
}

impl Drop for HeldStatements {
    fn drop(self) {
        let HeldStatements { list } = self;
        let _ = list;
    }
}

impl HeldStatements {
    pub fn new(alloc: Global) -> HeldStatements {
        HeldStatements {
            list: Vec::new(alloc),
        }
    }

    pub fn push(&mut self, item: HeldStatement) -> Result<(), NoMemory> {
        self.list.push(item.into_statement())?;
        Ok(())
    }

    pub fn into_list(self) -> Vec<TypedStatement> {
        let HeldStatements { list } = self;
        list
    }
}
