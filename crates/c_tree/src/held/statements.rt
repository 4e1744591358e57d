ghost use Rattle.std.specs.Prelude.{◌≡◌, [], ◌∷◌, ◌++◌, IfOk, OnOk};
ghost use Rattle.c_tree.specs.declared.statement.BlockItem.TheVariants as item;

use crate::held::declarations::HeldDeclaration;
use crate::statement::{BlockItem, ForFirst, Statement};
use sqlite_items::{Boxed, Items};
use std::alloc::{AllocError, Global};
use std::marker::Model;

/// A statement (ISO/IEC 9899:1999, 6.8).
pub struct HeldStatement {
    statement: Statement,
}

impl Model for HeldStatement {
    ghost use Rattle.std.specs.Coded.{codes};
    ghost use Rattle.c_tree.specs.contracts.statement.Statement as tree;
    ghost use Rattle.c_tree.specs.declared.statement.Statement.{Statement};

    ghost Value = { Statement };

    ghost coded = { Prim.hlevel (codes, tree.the_row.coded) };

    ghost view = { λ h. h.statement };
}

impl Drop for HeldStatement {
    fn drop(self) {
        let HeldStatement { statement } = self;
        let _ = statement;
    }
}

impl HeldStatement {
    pub fn new(statement: Statement) -> HeldStatement
        ensures { result ≡ statement }
    {
        HeldStatement { statement }
    }

    /// The statement in memory of its own.
    pub fn boxed(self, alloc: Global) -> Result<HeldBody, AllocError>
        ensures { IfOk result (λ body. body ≡ self) }
    {
        let body = Boxed::new(alloc, self.into_inner())?;
        Ok(HeldBody { body })
    }

    pub fn into_inner(self) -> Statement
        ensures { result ≡ self }
    {
        let HeldStatement { statement } = self;
        statement
    }
}

/// A statement inside another, in memory of its own.
pub struct HeldBody {
    body: Boxed<Statement>,
}

impl Model for HeldBody {
    ghost use Rattle.std.specs.Coded.{codes};
    ghost use Rattle.c_tree.specs.contracts.statement.Statement as tree;
    ghost use Rattle.c_tree.specs.declared.statement.Statement.{Statement};

    ghost Value = { Statement };

    ghost coded = { Prim.hlevel (codes, tree.the_row.coded) };

    ghost view = { λ h. h.body };
}

impl Drop for HeldBody {
    fn drop(self) {
        let HeldBody { body } = self;
        let _ = body;
    }
}

impl HeldBody {
    pub fn into_inner(self) -> Boxed<Statement>
        ensures { result ≡ self }
    {
        let HeldBody { body } = self;
        body
    }
}

/// What stands in a block (6.8.2).
pub struct HeldBlock {
    list: Items<BlockItem>,
}

impl Model for HeldBlock {
    ghost use Rattle.std.specs.Prelude.{List};
    ghost use Rattle.std.specs.Coded.{codes};
    ghost use Rattle.c_tree.specs.contracts.statement.BlockItem as tree;
    ghost use Rattle.c_tree.specs.declared.statement.BlockItem.{BlockItem};

    ghost Value = { List BlockItem };

    ghost coded = { Prim.hlevel (codes, tree.the_row.coded) };

    ghost view = { λ h. h.list };
}

impl Drop for HeldBlock {
    fn drop(self) {
        let HeldBlock { list } = self;
        let _ = list;
    }
}

impl HeldBlock {
    /// None.
    pub fn new(alloc: Global) -> HeldBlock
        ensures { result ≡ [] }
    {
        HeldBlock {
            list: Items::new(alloc),
        }
    }

    pub fn push_declaration(&mut self, declaration: HeldDeclaration) -> Result<(), AllocError>
        ensures ok { OnOk result (self.new ≡ self.old ++ item.Declaration declaration ∷ []) }
    {
        self.list
            .push(BlockItem::Declaration(declaration.into_inner()))
    }

    pub fn push_statement(&mut self, statement: HeldStatement) -> Result<(), AllocError>
        ensures ok { OnOk result (self.new ≡ self.old ++ item.Statement statement ∷ []) }
    {
        self.list.push(BlockItem::Statement(statement.into_inner()))
    }

    pub fn into_inner(self) -> Items<BlockItem>
        ensures { result ≡ self }
    {
        let HeldBlock { list } = self;
        list
    }
}

/// What stands first in the head of a `for` (6.8.5.3).
pub struct HeldFirst {
    first: ForFirst,
}

impl Model for HeldFirst {
    ghost use Rattle.std.specs.Coded.{codes};
    ghost use Rattle.c_tree.specs.contracts.statement.ForFirst as tree;
    ghost use Rattle.c_tree.specs.declared.statement.ForFirst.{ForFirst};

    ghost Value = { ForFirst };

    ghost coded = { Prim.hlevel (codes, tree.the_row.coded) };

    ghost view = { λ h. h.first };
}

impl Drop for HeldFirst {
    fn drop(self) {
        let HeldFirst { first } = self;
        let _ = first;
    }
}

impl HeldFirst {
    pub fn new(first: ForFirst) -> HeldFirst
        ensures { result ≡ first }
    {
        HeldFirst { first }
    }

    pub fn into_inner(self) -> ForFirst
        ensures { result ≡ self }
    {
        let HeldFirst { first } = self;
        first
    }
}
