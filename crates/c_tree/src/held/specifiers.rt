ghost use Rattle.std.specs.Prelude.{◌≡◌, [], ◌∷◌, ◌++◌, OnOk};
ghost use Rattle.c_tree.specs.Parts.{spec_word, member_declaration, enumerator};
ghost use Rattle.c_tree.specs.declared.specifier.SpecKind.TheVariants as specifier;

use crate::declarator::Declarator;
use crate::held::declarators::HeldDeclarator;
use crate::held::expressions::HeldExpr;
use crate::specifier::{EnumItem, MemberDecl, RecordKind, SpecKind, SpecWord};
use sqlite_items::Items;
use std::alloc::{AllocError, Global};
use std::marker::Model;
use sv_base::Place;

/// Declaration specifiers (ISO/IEC 9899:1999, 6.7).
pub struct HeldSpecifiers {
    list: Items<SpecWord>,
}

impl Model for HeldSpecifiers {
    ghost use Rattle.std.specs.Prelude.{List};
    ghost use Rattle.std.specs.Coded.{codes};
    ghost use Rattle.c_tree.specs.contracts.specifier.SpecWord as tree;
    ghost use Rattle.c_tree.specs.declared.specifier.SpecWord.{SpecWord};

    ghost Value = { List SpecWord };

    ghost coded = { Prim.hlevel (codes, tree.the_row.coded) };

    ghost view = { λ h. h.list };
}

impl Drop for HeldSpecifiers {
    fn drop(self) {
        let HeldSpecifiers { list } = self;
        let _ = list;
    }
}

impl HeldSpecifiers {
    /// None.
    pub fn new(alloc: Global) -> HeldSpecifiers
        ensures { result ≡ [] }
    {
        HeldSpecifiers {
            list: Items::new(alloc),
        }
    }

    fn push(&mut self, kind: SpecKind, place: Place, start: u32) -> Result<(), AllocError>
        ensures ok { OnOk result (self.new ≡ self.old ++ spec_word place start kind ∷ []) }
    {
        self.list.push(SpecWord { kind, place, start })
    }

    /// A keyword, by its number.
    pub fn push_plain(&mut self, word: u8, place: Place, start: u32) -> Result<(), AllocError>
        ensures ok { OnOk result (self.new ≡ self.old ++ spec_word place start (specifier.Plain word) ∷ []) }
    {
        self.push(SpecKind::Plain(word), place, start)
    }

    /// A typedef name (6.7.7).
    pub fn push_typedef(&mut self, name: u32, place: Place, start: u32) -> Result<(), AllocError>
        ensures ok { OnOk result (self.new ≡ self.old ++ spec_word place start (specifier.Typedef name) ∷ []) }
    {
        self.push(SpecKind::Typedef(name), place, start)
    }

    /// A structure or union (6.7.2.1), with its content or by its tag alone.
    pub fn push_record(
        &mut self,
        kind: RecordKind,
        tag: Option<u32>,
        members: Option<HeldMembers>,
        place: Place,
        start: u32,
    ) -> Result<(), AllocError>
        ensures ok { OnOk result (self.new ≡ self.old ++ spec_word place start (specifier.Record kind tag members) ∷ []) }
    {
        let members = members_in(members);
        self.push(SpecKind::Record { kind, tag, members }, place, start)
    }

    /// An enumeration (6.7.2.2), with its content or by its tag alone.
    pub fn push_enumeration(
        &mut self,
        tag: Option<u32>,
        items: Option<HeldEnumerators>,
        place: Place,
        start: u32,
    ) -> Result<(), AllocError>
        ensures ok { OnOk result (self.new ≡ self.old ++ spec_word place start (specifier.Enum tag items) ∷ []) }
    {
        let items = items_in(items);
        self.push(SpecKind::Enum { tag, items }, place, start)
    }

    pub fn into_inner(self) -> Items<SpecWord>
        ensures { result ≡ self }
    {
        let HeldSpecifiers { list } = self;
        list
    }
}

fn members_in(members: Option<HeldMembers>) -> Option<Items<MemberDecl>>
    ensures { result ≡ members }
{
    match members {
        Some(members) => Some(members.into_inner()),
        None => None,
    }
}

fn items_in(items: Option<HeldEnumerators>) -> Option<Items<EnumItem>>
    ensures { result ≡ items }
{
    match items {
        Some(items) => Some(items.into_inner()),
        None => None,
    }
}

/// The members of a structure or union (6.7.2.1).
pub struct HeldMembers {
    list: Items<MemberDecl>,
}

impl Model for HeldMembers {
    ghost use Rattle.std.specs.Prelude.{List};
    ghost use Rattle.std.specs.Coded.{codes};
    ghost use Rattle.c_tree.specs.contracts.specifier.MemberDecl as tree;
    ghost use Rattle.c_tree.specs.declared.specifier.MemberDecl.{MemberDecl};

    ghost Value = { List MemberDecl };

    ghost coded = { Prim.hlevel (codes, tree.the_row.coded) };

    ghost view = { λ h. h.list };
}

impl Drop for HeldMembers {
    fn drop(self) {
        let HeldMembers { list } = self;
        let _ = list;
    }
}

impl HeldMembers {
    /// None.
    pub fn new(alloc: Global) -> HeldMembers
        ensures { result ≡ [] }
    {
        HeldMembers {
            list: Items::new(alloc),
        }
    }

    /// Members that are declared together.
    pub fn push(&mut self, head: HeldSpecifiers, parts: HeldDeclarators) -> Result<(), AllocError>
        ensures ok { OnOk result (self.new ≡ self.old ++ member_declaration head parts ∷ []) }
    {
        self.list.push(MemberDecl {
            head: head.into_inner(),
            parts: parts.into_inner(),
        })
    }

    pub fn into_inner(self) -> Items<MemberDecl>
        ensures { result ≡ self }
    {
        let HeldMembers { list } = self;
        list
    }
}

/// The declarators of members that are declared together (6.7.2.1).
pub struct HeldDeclarators {
    list: Items<Declarator>,
}

impl Model for HeldDeclarators {
    ghost use Rattle.std.specs.Prelude.{List};
    ghost use Rattle.std.specs.Coded.{codes};
    ghost use Rattle.c_tree.specs.contracts.declarator.Declarator as tree;
    ghost use Rattle.c_tree.specs.declared.declarator.Declarator.{Declarator};

    ghost Value = { List Declarator };

    ghost coded = { Prim.hlevel (codes, tree.the_row.coded) };

    ghost view = { λ h. h.list };
}

impl Drop for HeldDeclarators {
    fn drop(self) {
        let HeldDeclarators { list } = self;
        let _ = list;
    }
}

impl HeldDeclarators {
    /// None.
    pub fn new(alloc: Global) -> HeldDeclarators
        ensures { result ≡ [] }
    {
        HeldDeclarators {
            list: Items::new(alloc),
        }
    }

    pub fn push(&mut self, declarator: HeldDeclarator) -> Result<(), AllocError>
        ensures ok { OnOk result (self.new ≡ self.old ++ declarator ∷ []) }
    {
        self.list.push(declarator.into_inner())
    }

    pub fn into_inner(self) -> Items<Declarator>
        ensures { result ≡ self }
    {
        let HeldDeclarators { list } = self;
        list
    }
}

/// The enumerators of an enumeration (6.7.2.2).
pub struct HeldEnumerators {
    list: Items<EnumItem>,
}

impl Model for HeldEnumerators {
    ghost use Rattle.std.specs.Prelude.{List};
    ghost use Rattle.std.specs.Coded.{codes};
    ghost use Rattle.c_tree.specs.contracts.specifier.EnumItem as tree;
    ghost use Rattle.c_tree.specs.declared.specifier.EnumItem.{EnumItem};

    ghost Value = { List EnumItem };

    ghost coded = { Prim.hlevel (codes, tree.the_row.coded) };

    ghost view = { λ h. h.list };
}

impl Drop for HeldEnumerators {
    fn drop(self) {
        let HeldEnumerators { list } = self;
        let _ = list;
    }
}

impl HeldEnumerators {
    /// None.
    pub fn new(alloc: Global) -> HeldEnumerators
        ensures { result ≡ [] }
    {
        HeldEnumerators {
            list: Items::new(alloc),
        }
    }

    /// An enumerator at its name, with its value.
    pub fn push(
        &mut self,
        name: u32,
        value: Option<HeldExpr>,
        place: Place,
        start: u32,
    ) -> Result<(), AllocError>
        ensures ok { OnOk result (self.new ≡ self.old ++ enumerator name value place start ∷ []) }
    {
        let value = HeldExpr::inside(value);
        self.list.push(EnumItem {
            name,
            place,
            start,
            value,
        })
    }

    pub fn into_inner(self) -> Items<EnumItem>
        ensures { result ≡ self }
    {
        let HeldEnumerators { list } = self;
        list
    }
}
