//! The content of structures and unions (ISO/IEC 9899:1999, 6.7.2.1).
ghost use Rattle.c_names.specs.Knot.{IsCallable};

use crate::inside::Declarators;
use crate::least::Least;
use crate::spots::{
    Direct, declarator_spot, direct_part, head_spot, name_in, part_spot, word_spot,
};
use crate::tags::begun_record;
use c_faults::{Spot, Stop, refuse};
use c_names::Checker;
use c_tree::{DeclPart, Declarator, Expr, MemberDecl, RecordKind, SpecKind, SpecWord};
use c_typed::{HeldExpr, MemberType, RecordLayout, TypeId, TypeKind};
use sv_base::{faults, limits};

// The members that were declared so far.
#[derive(Drop)]
struct Members {
    record: u32,
    list: Vec<MemberType>,
    layout: RecordLayout,
}

impl<
    V: Fn(&Expr, usize, &mut Checker) -> Result<HeldExpr, Stop>,
    R: Fn(&SpecWord, usize, &mut Checker) -> Result<TypeId, Stop>,
> Declarators<V, R> {
    /// The type of a structure or union with its content.
    pub fn whole_record(&self, word: &SpecWord, checker: &mut Checker) -> Result<TypeId, Stop>
        requires value { IsCallable self.now.depth (V.pre self.now.value) }
        requires record { IsCallable self.now.depth (R.pre self.now.record) }
    {
        let at = word_spot(word);
        match &word.kind {
            SpecKind::Record {
                kind,
                tag,
                members: Some(members),
            } => {
                let of = begun_record(checker, *kind, *tag, at)?;
                self.content(members.as_slice(), *kind, of, at, checker)?;
                Ok(of)
            }
            _ => refuse(faults::SPECIFIERS, at),
        }
    }

    fn content(
        &self,
        declarations: &[MemberDecl],
        kind: RecordKind,
        of: TypeId,
        at: Spot,
        checker: &mut Checker,
    ) -> Result<(), Stop>
        requires value { IsCallable self.now.depth (V.pre self.now.value) }
        requires record { IsCallable self.now.depth (R.pre self.now.record) }
    {
        let mut members = Members {
            record: record_number(checker, of),
            list: Vec::new(checker.alloc),
            layout: RecordLayout::new(kind),
        };
        for declaration in declarations {
            self.member_declaration(declaration, &mut members, checker)?;
        }
        let Members { list, layout, .. } = members;
        if layout.size() > limits::OBJECT_BYTES {
            return refuse(faults::OBJECT_TOO_LARGE, at);
        }
        checker.types.complete_record(of, list, layout)?;
        Ok(())
    }

    fn member_declaration(
        &self,
        declaration: &MemberDecl,
        members: &mut Members,
        checker: &mut Checker,
    ) -> Result<(), Stop>
        requires value { IsCallable self.now.depth (V.pre self.now.value) }
        requires record { IsCallable self.now.depth (R.pre self.now.record) }
    {
        let head = declaration.head.as_slice();
        let base = self.specifiers(head, false, false, checker)?.base;
        for d in declaration.parts.as_slice() {
            self.member(base, d, head_spot(head), members, checker)?;
        }
        Ok(())
    }

    fn member(
        &self,
        base: TypeId,
        d: &Declarator,
        head: Spot,
        members: &mut Members,
        checker: &mut Checker,
    ) -> Result<(), Stop>
        requires value { IsCallable self.now.depth (V.pre self.now.value) }
        requires record { IsCallable self.now.depth (R.pre self.now.record) }
    {
        let mut least = Least::new();
        let of = self.declarator(base, d, head, &mut least, checker)?.of;
        if let Some(of) = of {
            test_size(checker, of, d, &mut least);
        }
        let name = name_in(d).unwrap_or(0);
        if checker.member(members.record, name).is_some() {
            least.add(faults::DECLARED_OTHERWISE, declarator_spot(d));
        }
        least.finish()?;
        members.add(checker, name, of.unwrap_or(base), declarator_spot(d))
    }
}

impl Members {
    fn add(&mut self, checker: &mut Checker, name: u32, of: TypeId, at: Spot) -> Result<(), Stop> {
        let size = match checker.types.table.size(of) {
            Some(size) => size,
            None => return refuse(faults::UNKNOWN_SIZE, at),
        };
        let offset = self.layout.place(size, checker.types.table.align(of));
        let Ok(position) = u32::try_from(self.list.len()) else {
            return Err(Stop::NoMemory);
        };
        checker.add_member(self.record, name, position)?;
        let text = checker.text_of(name)?;
        self.list.push(MemberType {
            name: text,
            of,
            offset,
        })?;
        Ok(())
    }
}

// A member has a size.
fn test_size(checker: &Checker, of: TypeId, d: &Declarator, least: &mut Least) {
    if checker.types.table.is_complete(of) {
        return;
    }
    if let TypeKind::Array(_, None) = checker.types.table.kind(of) {
        if let Direct::Part(part) = direct_part(d) {
            if let DeclPart::Array { .. } = part {
                least.add(faults::FLEXIBLE_MEMBER, part_spot(part));
                return;
            }
        }
    }
    least.add(faults::UNKNOWN_SIZE, declarator_spot(d));
}

fn record_number(checker: &Checker, of: TypeId) -> u32 {
    match checker.types.table.kind(of) {
        TypeKind::Record(number) => number,
        _ => 0,
    }
}
