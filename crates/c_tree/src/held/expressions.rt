ghost use Rattle.std.specs.Prelude.{◌≡◌, [], ◌∷◌, ◌++◌, IfOk, OnOk};

use crate::declarator::TypeName;
use crate::expression::Expr;
use sqlite_items::{Boxed, Items};
use std::alloc::{AllocError, Global};
use std::marker::Model;

/// An expression (ISO/IEC 9899:1999, 6.5).
pub struct HeldExpr {
    expr: Expr,
}

impl Model for HeldExpr {
    ghost use Rattle.std.specs.Coded.{codes};
    ghost use Rattle.c_tree.specs.contracts.expression.Expr as tree;
    ghost use Rattle.c_tree.specs.declared.expression.Expr.{Expr};

    ghost Value = { Expr };

    ghost coded = { Prim.hlevel (codes, tree.the_row.coded) };

    ghost view = { λ h. h.expr };
}

impl Drop for HeldExpr {
    fn drop(self) {
        let HeldExpr { expr } = self;
        let _ = expr;
    }
}

impl HeldExpr {
    pub fn new(expr: Expr) -> HeldExpr
        ensures { result ≡ expr }
    {
        HeldExpr { expr }
    }

    pub fn get(&self) -> &Expr
        ensures { result.now ≡ self.now }
    {
        &self.expr
    }

    /// The expression in memory of its own.
    pub fn boxed(self, alloc: Global) -> Result<HeldOperand, AllocError>
        ensures { IfOk result (λ operand. operand ≡ self) }
    {
        let operand = Boxed::new(alloc, self.into_inner())?;
        Ok(HeldOperand { operand })
    }

    /// What is held, where something is.
    pub fn inside(held: Option<HeldExpr>) -> Option<Expr>
        ensures { result ≡ held }
    {
        match held {
            Some(expr) => Some(expr.into_inner()),
            None => None,
        }
    }

    pub fn into_inner(self) -> Expr
        ensures { result ≡ self }
    {
        let HeldExpr { expr } = self;
        expr
    }
}

/// An operand, in memory of its own.
pub struct HeldOperand {
    operand: Boxed<Expr>,
}

impl Model for HeldOperand {
    ghost use Rattle.std.specs.Coded.{codes};
    ghost use Rattle.c_tree.specs.contracts.expression.Expr as tree;
    ghost use Rattle.c_tree.specs.declared.expression.Expr.{Expr};

    ghost Value = { Expr };

    ghost coded = { Prim.hlevel (codes, tree.the_row.coded) };

    ghost view = { λ h. h.operand };
}

impl Drop for HeldOperand {
    fn drop(self) {
        let HeldOperand { operand } = self;
        let _ = operand;
    }
}

impl HeldOperand {
    pub fn into_inner(self) -> Boxed<Expr>
        ensures { result ≡ self }
    {
        let HeldOperand { operand } = self;
        operand
    }
}

/// The arguments of a call (6.5.2.2).
pub struct HeldArguments {
    list: Items<Expr>,
}

impl Model for HeldArguments {
    ghost use Rattle.std.specs.Prelude.{List};
    ghost use Rattle.std.specs.Coded.{codes};
    ghost use Rattle.c_tree.specs.contracts.expression.Expr as tree;
    ghost use Rattle.c_tree.specs.declared.expression.Expr.{Expr};

    ghost Value = { List Expr };

    ghost coded = { Prim.hlevel (codes, tree.the_row.coded) };

    ghost view = { λ h. h.list };
}

impl Drop for HeldArguments {
    fn drop(self) {
        let HeldArguments { list } = self;
        let _ = list;
    }
}

impl HeldArguments {
    /// None.
    pub fn new(alloc: Global) -> HeldArguments
        ensures { result ≡ [] }
    {
        HeldArguments {
            list: Items::new(alloc),
        }
    }

    pub fn push(&mut self, argument: HeldExpr) -> Result<(), AllocError>
        ensures ok { OnOk result (self.new ≡ self.old ++ argument ∷ []) }
    {
        self.list.push(argument.into_inner())
    }

    pub fn into_inner(self) -> Items<Expr>
        ensures { result ≡ self }
    {
        let HeldArguments { list } = self;
        list
    }
}

/// A type name (6.7.6).
pub struct HeldTypeName {
    name: TypeName,
}

impl Model for HeldTypeName {
    ghost use Rattle.std.specs.Coded.{codes};
    ghost use Rattle.c_tree.specs.contracts.declarator.TypeName as tree;
    ghost use Rattle.c_tree.specs.declared.declarator.TypeName.{TypeName};

    ghost Value = { TypeName };

    ghost coded = { Prim.hlevel (codes, tree.the_row.coded) };

    ghost view = { λ h. h.name };
}

impl Drop for HeldTypeName {
    fn drop(self) {
        let HeldTypeName { name } = self;
        let _ = name;
    }
}

impl HeldTypeName {
    pub fn new(name: TypeName) -> HeldTypeName
        ensures { result ≡ name }
    {
        HeldTypeName { name }
    }

    pub fn into_inner(self) -> TypeName
        ensures { result ≡ self }
    {
        let HeldTypeName { name } = self;
        name
    }
}
