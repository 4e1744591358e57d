ghost use Rattle.std.specs.Prelude.{◌≡◌, [], ◌∷◌, ◌++◌, OnOk};
ghost use Rattle.c_tree.specs.Parts.{entry};
ghost use Rattle.c_tree.specs.declared.initialiser.Designator.TheVariants as designator;

use crate::held::expressions::HeldExpr;
use crate::initialiser::{Designator, InitEntry, Initialiser};
use sqlite_items::Items;
use std::alloc::{AllocError, Global};
use std::marker::Model;
use sv_base::Place;

/// An initialiser (ISO/IEC 9899:1999, 6.7.8).
pub struct HeldInitialiser {
    value: Initialiser,
}

impl Model for HeldInitialiser {
    ghost use Rattle.std.specs.Coded.{codes};
    ghost use Rattle.c_tree.specs.contracts.initialiser.Initialiser as tree;
    ghost use Rattle.c_tree.specs.declared.initialiser.Initialiser.{Initialiser};

    ghost Value = { Initialiser };

    ghost coded = { Prim.hlevel (codes, tree.the_row.coded) };

    ghost view = { λ h. h.value };
}

impl Drop for HeldInitialiser {
    fn drop(self) {
        let HeldInitialiser { value } = self;
        let _ = value;
    }
}

impl HeldInitialiser {
    pub fn new(value: Initialiser) -> HeldInitialiser
        ensures { result ≡ value }
    {
        HeldInitialiser { value }
    }

    /// What is held, where something is.
    pub fn inside(held: Option<HeldInitialiser>) -> Option<Initialiser>
        ensures { result ≡ held }
    {
        match held {
            Some(value) => Some(value.into_inner()),
            None => None,
        }
    }

    pub fn into_inner(self) -> Initialiser
        ensures { result ≡ self }
    {
        let HeldInitialiser { value } = self;
        value
    }
}

/// The entries of a list in braces (6.7.8).
pub struct HeldEntries {
    list: Items<InitEntry>,
}

impl Model for HeldEntries {
    ghost use Rattle.std.specs.Prelude.{List};
    ghost use Rattle.std.specs.Coded.{codes};
    ghost use Rattle.c_tree.specs.contracts.initialiser.InitEntry as tree;
    ghost use Rattle.c_tree.specs.declared.initialiser.InitEntry.{InitEntry};

    ghost Value = { List InitEntry };

    ghost coded = { Prim.hlevel (codes, tree.the_row.coded) };

    ghost view = { λ h. h.list };
}

impl Drop for HeldEntries {
    fn drop(self) {
        let HeldEntries { list } = self;
        let _ = list;
    }
}

impl HeldEntries {
    /// None.
    pub fn new(alloc: Global) -> HeldEntries
        ensures { result ≡ [] }
    {
        HeldEntries {
            list: Items::new(alloc),
        }
    }

    pub fn push(&mut self, path: HeldDesignators, value: HeldInitialiser) -> Result<(), AllocError>
        ensures ok { OnOk result (self.new ≡ self.old ++ entry path value ∷ []) }
    {
        self.list.push(InitEntry {
            path: path.into_inner(),
            value: value.into_inner(),
        })
    }

    pub fn into_inner(self) -> Items<InitEntry>
        ensures { result ≡ self }
    {
        let HeldEntries { list } = self;
        list
    }
}

/// The designators of an entry (6.7.8).
pub struct HeldDesignators {
    list: Items<Designator>,
}

impl Model for HeldDesignators {
    ghost use Rattle.std.specs.Prelude.{List};
    ghost use Rattle.std.specs.Coded.{codes};
    ghost use Rattle.c_tree.specs.contracts.initialiser.Designator as tree;
    ghost use Rattle.c_tree.specs.declared.initialiser.Designator.{Designator};

    ghost Value = { List Designator };

    ghost coded = { Prim.hlevel (codes, tree.the_row.coded) };

    ghost view = { λ h. h.list };
}

impl Drop for HeldDesignators {
    fn drop(self) {
        let HeldDesignators { list } = self;
        let _ = list;
    }
}

impl HeldDesignators {
    /// None.
    pub fn new(alloc: Global) -> HeldDesignators
        ensures { result ≡ [] }
    {
        HeldDesignators {
            list: Items::new(alloc),
        }
    }

    /// An element of an array.
    pub fn push_element(&mut self, index: HeldExpr) -> Result<(), AllocError>
        ensures ok { OnOk result (self.new ≡ self.old ++ designator.Index index ∷ []) }
    {
        self.list.push(Designator::Index(index.into_inner()))
    }

    /// A member, at its name.
    pub fn push_member(&mut self, name: u32, place: Place, start: u32) -> Result<(), AllocError>
        ensures ok { OnOk result (self.new ≡ self.old ++ designator.Member name place start ∷ []) }
    {
        self.list.push(Designator::Member { name, place, start })
    }

    pub fn into_inner(self) -> Items<Designator>
        ensures { result ≡ self }
    {
        let HeldDesignators { list } = self;
        list
    }
}
