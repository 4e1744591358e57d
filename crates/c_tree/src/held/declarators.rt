ghost use Rattle.std.specs.Prelude.{◌≡◌, [], ◌∷◌, ◌++◌, IfOk, OnOk};
ghost use Rattle.c_tree.specs.Parts.{parameter};
ghost use Rattle.c_tree.specs.declared.declarator.DeclPart.TheVariants as part;

use crate::declarator::{DeclCore, DeclPart, Declarator, Dots, Param};
use crate::held::expressions::HeldExpr;
use crate::held::specifiers::HeldSpecifiers;
use sqlite_items::{Boxed, Items};
use std::alloc::{AllocError, Global};
use std::marker::Model;
use sv_base::Place;

/// A declarator (ISO/IEC 9899:1999, 6.7.5, 6.7.6).
pub struct HeldDeclarator {
    declarator: Declarator,
}

impl Model for HeldDeclarator {
    ghost use Rattle.std.specs.Coded.{codes};
    ghost use Rattle.c_tree.specs.contracts.declarator.Declarator as tree;
    ghost use Rattle.c_tree.specs.declared.declarator.Declarator.{Declarator};

    ghost Value = { Declarator };

    ghost coded = { Prim.hlevel (codes, tree.the_row.coded) };

    ghost view = { λ h. h.declarator };
}

impl Drop for HeldDeclarator {
    fn drop(self) {
        let HeldDeclarator { declarator } = self;
        let _ = declarator;
    }
}

impl HeldDeclarator {
    pub fn new(declarator: Declarator) -> HeldDeclarator
        ensures { result ≡ declarator }
    {
        HeldDeclarator { declarator }
    }

    /// The declarator in memory of its own.
    pub fn boxed(self, alloc: Global) -> Result<HeldInside, AllocError>
        ensures { IfOk result (λ inside. inside ≡ self) }
    {
        let inside = Boxed::new(alloc, self.into_inner())?;
        Ok(HeldInside { inside })
    }

    /// What is held, where something is.
    pub fn inside(held: Option<HeldDeclarator>) -> Option<Declarator>
        ensures { result ≡ held }
    {
        match held {
            Some(declarator) => Some(declarator.into_inner()),
            None => None,
        }
    }

    pub fn into_inner(self) -> Declarator
        ensures { result ≡ self }
    {
        let HeldDeclarator { declarator } = self;
        declarator
    }
}

/// A declarator in parentheses (6.7.5), in memory of its own.
pub struct HeldInside {
    inside: Boxed<Declarator>,
}

impl Model for HeldInside {
    ghost use Rattle.std.specs.Coded.{codes};
    ghost use Rattle.c_tree.specs.contracts.declarator.Declarator as tree;
    ghost use Rattle.c_tree.specs.declared.declarator.Declarator.{Declarator};

    ghost Value = { Declarator };

    ghost coded = { Prim.hlevel (codes, tree.the_row.coded) };

    ghost view = { λ h. h.inside };
}

impl Drop for HeldInside {
    fn drop(self) {
        let HeldInside { inside } = self;
        let _ = inside;
    }
}

impl HeldInside {
    pub fn into_inner(self) -> Boxed<Declarator>
        ensures { result ≡ self }
    {
        let HeldInside { inside } = self;
        inside
    }
}

/// What stands between the pointers and the parts of a declarator.
pub struct HeldCore {
    core: DeclCore,
}

impl Model for HeldCore {
    ghost use Rattle.std.specs.Coded.{codes};
    ghost use Rattle.c_tree.specs.contracts.declarator.DeclCore as tree;
    ghost use Rattle.c_tree.specs.declared.declarator.DeclCore.{DeclCore};

    ghost Value = { DeclCore };

    ghost coded = { Prim.hlevel (codes, tree.the_row.coded) };

    ghost view = { λ h. h.core };
}

impl Drop for HeldCore {
    fn drop(self) {
        let HeldCore { core } = self;
        let _ = core;
    }
}

impl HeldCore {
    pub fn new(core: DeclCore) -> HeldCore
        ensures { result ≡ core }
    {
        HeldCore { core }
    }

    pub fn into_inner(self) -> DeclCore
        ensures { result ≡ self }
    {
        let HeldCore { core } = self;
        core
    }
}

/// The parts of a declarator: brackets of arrays, and parameter lists.
pub struct HeldParts {
    list: Items<DeclPart>,
}

impl Model for HeldParts {
    ghost use Rattle.std.specs.Prelude.{List};
    ghost use Rattle.std.specs.Coded.{codes};
    ghost use Rattle.c_tree.specs.contracts.declarator.DeclPart as tree;
    ghost use Rattle.c_tree.specs.declared.declarator.DeclPart.{DeclPart};

    ghost Value = { List DeclPart };

    ghost coded = { Prim.hlevel (codes, tree.the_row.coded) };

    ghost view = { λ h. h.list };
}

impl Drop for HeldParts {
    fn drop(self) {
        let HeldParts { list } = self;
        let _ = list;
    }
}

impl HeldParts {
    /// None.
    pub fn new(alloc: Global) -> HeldParts
        ensures { result ≡ [] }
    {
        HeldParts {
            list: Items::new(alloc),
        }
    }

    /// Brackets (6.7.5.2), at the `[`.
    pub fn push_array(
        &mut self,
        size: Option<HeldExpr>,
        place: Place,
        start: u32,
    ) -> Result<(), AllocError>
        ensures ok { OnOk result (self.new ≡ self.old ++ part.Array size place start ∷ []) }
    {
        let size = HeldExpr::inside(size);
        self.list.push(DeclPart::Array { size, place, start })
    }

    /// A parameter list (6.7.5.3), at the `(`.
    pub fn push_parameters(
        &mut self,
        list: HeldParams,
        dots: Option<Dots>,
        place: Place,
        start: u32,
    ) -> Result<(), AllocError>
        ensures ok { OnOk result (self.new ≡ self.old ++ part.Params list dots place start ∷ []) }
    {
        self.list.push(DeclPart::Params {
            list: list.into_inner(),
            dots,
            place,
            start,
        })
    }

    pub fn into_inner(self) -> Items<DeclPart>
        ensures { result ≡ self }
    {
        let HeldParts { list } = self;
        list
    }
}

/// Parameters (6.7.5.3).
pub struct HeldParams {
    list: Items<Param>,
}

impl Model for HeldParams {
    ghost use Rattle.std.specs.Prelude.{List};
    ghost use Rattle.std.specs.Coded.{codes};
    ghost use Rattle.c_tree.specs.contracts.declarator.Param as tree;
    ghost use Rattle.c_tree.specs.declared.declarator.Param.{Param};

    ghost Value = { List Param };

    ghost coded = { Prim.hlevel (codes, tree.the_row.coded) };

    ghost view = { λ h. h.list };
}

impl Drop for HeldParams {
    fn drop(self) {
        let HeldParams { list } = self;
        let _ = list;
    }
}

impl HeldParams {
    /// None.
    pub fn new(alloc: Global) -> HeldParams
        ensures { result ≡ [] }
    {
        HeldParams {
            list: Items::new(alloc),
        }
    }

    pub fn push(
        &mut self,
        head: HeldSpecifiers,
        declarator: Option<HeldDeclarator>,
    ) -> Result<(), AllocError>
        ensures ok { OnOk result (self.new ≡ self.old ++ parameter head declarator ∷ []) }
    {
        let declarator = HeldDeclarator::inside(declarator);
        self.list.push(Param {
            head: head.into_inner(),
            declarator,
        })
    }

    pub fn into_inner(self) -> Items<Param>
        ensures { result ≡ self }
    {
        let HeldParams { list } = self;
        list
    }
}
