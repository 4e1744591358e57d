ghost use Rattle.std.specs.Prelude.{◌≡◌, [], ◌∷◌, ◌++◌, OnOk};

use crate::declaration::{Declaration, InitDeclarator};
use crate::held::declarators::HeldDeclarator;
use crate::held::initialisers::HeldInitialiser;
use sqlite_items::Items;
use std::alloc::{AllocError, Global};
use std::marker::Model;

/// A declaration (ISO/IEC 9899:1999, 6.7).
pub struct HeldDeclaration {
    declaration: Declaration,
}

impl Model for HeldDeclaration {
    ghost use Rattle.std.specs.Coded.{codes};
    ghost use Rattle.c_tree.specs.contracts.declaration.Declaration as tree;
    ghost use Rattle.c_tree.specs.declared.declaration.Declaration.{Declaration};

    ghost Value = { Declaration };

    ghost coded = { Prim.hlevel (codes, tree.the_row.coded) };

    ghost view = { λ h. h.declaration };
}

impl Drop for HeldDeclaration {
    fn drop(self) {
        let HeldDeclaration { declaration } = self;
        let _ = declaration;
    }
}

impl HeldDeclaration {
    pub fn new(declaration: Declaration) -> HeldDeclaration
        ensures { result ≡ declaration }
    {
        HeldDeclaration { declaration }
    }

    pub fn into_inner(self) -> Declaration
        ensures { result ≡ self }
    {
        let HeldDeclaration { declaration } = self;
        declaration
    }
}

/// The declarators of a declaration, each with its initialiser (6.7).
pub struct HeldInitDeclarators {
    list: Items<InitDeclarator>,
}

impl Model for HeldInitDeclarators {
    ghost use Rattle.std.specs.Prelude.{List};
    ghost use Rattle.std.specs.Coded.{codes};
    ghost use Rattle.c_tree.specs.contracts.declaration.InitDeclarator as tree;
    ghost use Rattle.c_tree.specs.declared.declaration.InitDeclarator.{InitDeclarator};

    ghost Value = { List InitDeclarator };

    ghost coded = { Prim.hlevel (codes, tree.the_row.coded) };

    ghost view = { λ h. h.list };
}

impl Drop for HeldInitDeclarators {
    fn drop(self) {
        let HeldInitDeclarators { list } = self;
        let _ = list;
    }
}

impl HeldInitDeclarators {
    /// None.
    pub fn new(alloc: Global) -> HeldInitDeclarators
        ensures { result ≡ [] }
    {
        HeldInitDeclarators {
            list: Items::new(alloc),
        }
    }

    pub fn push(
        &mut self,
        declarator: HeldDeclarator,
        initial: Option<HeldInitialiser>,
    ) -> Result<(), AllocError>
        ensures ok { OnOk result (self.new ≡ self.old ++ record { declarator = declarator; initial = initial } ∷ []) }
    {
        let initial = HeldInitialiser::inside(initial);
        self.list.push(InitDeclarator {
            declarator: declarator.into_inner(),
            initial,
        })
    }

    pub fn into_inner(self) -> Items<InitDeclarator>
        ensures { result ≡ self }
    {
        let HeldInitDeclarators { list } = self;
        list
    }
}
