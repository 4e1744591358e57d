ghost use Rattle.std.specs.Prelude.{◌≡◌, [], ◌∷◌, ◌++◌, OnOk};
ghost use Rattle.c_tree.specs.declared.tree.Item.TheVariants as external;

use crate::held::declarations::HeldDeclaration;
use crate::held::declarators::HeldDeclarator;
use crate::held::specifiers::HeldSpecifiers;
use crate::held::statements::HeldStatement;
use crate::tree::Item;
use sqlite_items::Items;
use std::alloc::{AllocError, Global};
use std::marker::Model;

/// External declarations (ISO/IEC 9899:1999, 6.9).
pub struct HeldItems {
    list: Items<Item>,
}

impl Model for HeldItems {
    ghost use Rattle.std.specs.Prelude.{List};
    ghost use Rattle.std.specs.Coded.{codes};
    ghost use Rattle.c_tree.specs.contracts.tree.Item as tree;
    ghost use Rattle.c_tree.specs.declared.tree.Item.{Item};

    ghost Value = { List Item };

    ghost coded = { Prim.hlevel (codes, tree.the_row.coded) };

    ghost view = { λ h. h.list };
}

impl Drop for HeldItems {
    fn drop(self) {
        let HeldItems { list } = self;
        let _ = list;
    }
}

impl HeldItems {
    /// None.
    pub fn new(alloc: Global) -> HeldItems
        ensures { result ≡ [] }
    {
        HeldItems {
            list: Items::new(alloc),
        }
    }

    pub fn push_declaration(&mut self, declaration: HeldDeclaration) -> Result<(), AllocError>
        ensures ok { OnOk result (self.new ≡ self.old ++ external.Declaration declaration ∷ []) }
    {
        self.list.push(Item::Declaration(declaration.into_inner()))
    }

    /// A function definition (6.9.1).
    pub fn push_function(
        &mut self,
        head: HeldSpecifiers,
        declarator: HeldDeclarator,
        body: HeldStatement,
    ) -> Result<(), AllocError>
        ensures ok { OnOk result (self.new ≡ self.old ++ external.Function head declarator body ∷ []) }
    {
        self.list.push(Item::Function {
            head: head.into_inner(),
            declarator: declarator.into_inner(),
            body: body.into_inner(),
        })
    }

    pub fn into_inner(self) -> Items<Item>
        ensures { result ≡ self }
    {
        let HeldItems { list } = self;
        list
    }
}
