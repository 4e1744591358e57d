use crate::known::target_of;
use c_typed::{
    Extent, HeldExpr, HeldParts, HeldStatement, HeldStatements, InitialPart, TypeForm, TypeId,
    TypeKind, TypeRow, TypeTable, TypedKind, TypedObject, TypedStatement, Types,
};
use c_values::{Cmp, IntType, Op};
use std::alloc::Global;
use std::mem;
use sv_base::{FileId, NoMemory, Place, SiteId};

/// Makes the body of a function. Everything in it stands at the called name.
#[derive(Drop)]
pub(crate) struct Maker {
    pub(crate) alloc: Global,
    pub(crate) types: TypeTable,
    place: Place,
    start: u32,
    // The number of sites of the program so far.
    sites: u32,
    pub(crate) objects: Vec<TypedObject>,
}

const INT: IntType = IntType::Int;

const BYTE: IntType = IntType::UChar;

/// The type of the bytes that are copied.
pub(crate) fn byte() -> TypeId {
    Types::int(BYTE)
}

fn row_number(types: &TypeTable) -> Result<TypeId, NoMemory> {
    match u32::try_from(types.rows.len()) {
        Ok(number) => Ok(TypeId(number)),
        Err(_) => Err(NoMemory),
    }
}

impl Maker {
    pub(crate) fn new(alloc: Global, types: TypeTable, sites: u32) -> Maker {
        Maker {
            alloc,
            types,
            place: Place {
                file: FileId(0),
                line: 0,
                col: 0,
            },
            start: 0,
            sites,
            objects: Vec::new(alloc),
        }
    }

    /// The next body stands at this name.
    pub(crate) fn begin(&mut self, place: Place, start: u32) {
        self.place = place;
        self.start = start;
    }

    /// The number of sites of the program with those that were made.
    pub(crate) fn sites(&self) -> u32 {
        self.sites
    }

    /// The types of the program with those that were made.
    pub(crate) fn into_types(self) -> TypeTable {
        let Maker { types, .. } = self;
        types
    }

    /// The objects of the body, for the function.
    pub(crate) fn end(&mut self) -> Vec<TypedObject> {
        mem::replace(&mut self.objects, Vec::new(self.alloc))
    }

    fn add_row(
        &mut self,
        form: TypeForm,
        volatile: bool,
        extent: Extent,
    ) -> Result<TypeId, NoMemory> {
        let number = row_number(&self.types)?;
        self.types.rows.push(TypeRow {
            form,
            volatile,
            extent,
        })?;
        Ok(number)
    }

    /// A pointer to a type. All pointers have one extent, that of the given one.
    pub(crate) fn pointer_to(&mut self, of: TypeId, like: TypeId) -> Result<TypeId, NoMemory> {
        let extent = self.types.extent(like);
        self.add_row(TypeForm::Pointer(of), false, extent)
    }

    /// The bytes with `volatile`, which any value may have.
    pub(crate) fn any_byte(&mut self) -> Result<TypeId, NoMemory> {
        let extent = self.types.extent(byte());
        self.add_row(TypeForm::Int(BYTE), true, extent)
    }

    /// A scalar or record type without its qualifiers.
    pub(crate) fn unqualified(&mut self, of: TypeId) -> Result<TypeId, NoMemory> {
        if !self.types.is_volatile(of) {
            return Ok(of);
        }
        let form = match self.types.kind(of) {
            TypeKind::Int(kind) => TypeForm::Int(kind),
            TypeKind::Pointer(to) => TypeForm::Pointer(to),
            TypeKind::Record(number) => TypeForm::Aggregate(number),
            _ => return Ok(of),
        };
        let extent = self.types.extent(of);
        self.add_row(form, false, extent)
    }

    /// The next object of the function, without a name of the source.
    pub(crate) fn object(
        &mut self,
        of: TypeId,
        initial: Option<HeldExpr>,
    ) -> Result<u32, NoMemory> {
        let number = match u32::try_from(self.objects.len()) {
            Ok(number) => number,
            Err(_) => return Err(NoMemory),
        };
        let initial = match initial {
            None => None,
            Some(value) => Some(one_part(self.alloc, value)?),
        };
        self.objects.push(TypedObject {
            name: None,
            of,
            place: self.place,
            start: self.start,
            stays: false,
            initial,
        })?;
        Ok(number)
    }

    pub(crate) fn expr(&self, kind: TypedKind, of: TypeId) -> Result<HeldExpr, NoMemory> {
        HeldExpr::new(self.alloc, kind, of, self.place, self.start)
    }

    fn type_of(&self, object: u32) -> TypeId {
        match self.objects.get(object as usize) {
            None => Types::void(),
            Some(object) => object.of,
        }
    }

    pub(crate) fn local(&self, object: u32) -> Result<HeldExpr, NoMemory> {
        self.expr(TypedKind::Local(object), self.type_of(object))
    }

    /// The value of an object, in the type without qualifiers.
    pub(crate) fn read_as(&self, object: u32, of: TypeId) -> Result<HeldExpr, NoMemory> {
        let place = self.local(object)?;
        self.expr(TypedKind::Read(place.into_box()), of)
    }

    pub(crate) fn read(&self, object: u32) -> Result<HeldExpr, NoMemory> {
        self.read_as(object, self.type_of(object))
    }

    /// A number as a value of an integer type.
    pub(crate) fn number(&self, number: i128, of: TypeId) -> Result<HeldExpr, NoMemory> {
        let constant = self.expr(TypedKind::Constant(number), Types::int(INT))?;
        self.converted(constant, of)
    }

    pub(crate) fn converted(&self, e: HeldExpr, of: TypeId) -> Result<HeldExpr, NoMemory> {
        self.expr(TypedKind::Convert(e.into_box()), of)
    }

    /// What a pointer leads to, at a site of its own.
    pub(crate) fn deref(&mut self, pointer: HeldExpr) -> Result<HeldExpr, NoMemory> {
        let of = target_of(&self.types, pointer.of());
        let site = self.sites;
        self.sites = site.checked_add(1).ok_or(NoMemory)?;
        self.expr(TypedKind::Deref(pointer.into_box(), Some(SiteId(site))), of)
    }

    /// `p[i]`
    pub(crate) fn element(&mut self, pointer: u32, index: u32) -> Result<HeldExpr, NoMemory> {
        let base = self.read(pointer)?;
        let of = base.of();
        let count = self.read(index)?;
        let sum = self.expr(
            TypedKind::Sum {
                pointer: base.into_box(),
                index: count.into_box(),
                minus: false,
                swapped: false,
            },
            of,
        )?;
        self.deref(sum)
    }

    pub(crate) fn value_of(&self, place: HeldExpr, of: TypeId) -> Result<HeldExpr, NoMemory> {
        self.expr(TypedKind::Read(place.into_box()), of)
    }

    pub(crate) fn assigned(
        &self,
        place: HeldExpr,
        value: HeldExpr,
        of: TypeId,
    ) -> Result<HeldStatement, NoMemory> {
        let assignment = self.expr(TypedKind::Assign(place.into_box(), value.into_box()), of)?;
        self.plain(assignment)
    }

    pub(crate) fn plain(&self, e: HeldExpr) -> Result<HeldStatement, NoMemory> {
        HeldStatement::new(self.alloc, TypedStatement::Plain(e.into_expr()))
    }

    /// `i = i + 1`
    pub(crate) fn next(&self, index: u32) -> Result<HeldStatement, NoMemory> {
        let of = self.type_of(index);
        let before = self.read(index)?;
        let one = self.number(1, of)?;
        let sum = self.expr(
            TypedKind::Binary(Op::Add, before.into_box(), one.into_box()),
            of,
        )?;
        let place = self.local(index)?;
        self.assigned(place, sum, of)
    }

    /// `while (i < n) { .. }`
    pub(crate) fn while_below(
        &self,
        index: u32,
        count: u32,
        items: HeldStatements,
    ) -> Result<HeldStatement, NoMemory> {
        let left = self.read(index)?;
        let right = self.read(count)?;
        let test = self.expr(
            TypedKind::Compare(Cmp::Lt, left.into_box(), right.into_box()),
            Types::int(INT),
        )?;
        let body = self.block(Vec::new(self.alloc), items)?;
        HeldStatement::new(
            self.alloc,
            TypedStatement::While(test.into_expr(), body.into_box()),
        )
    }

    pub(crate) fn block(
        &self,
        objects: Vec<u32>,
        items: HeldStatements,
    ) -> Result<HeldStatement, NoMemory> {
        HeldStatement::new(
            self.alloc,
            TypedStatement::Block {
                objects,
                items: items.into_list(),
            },
        )
    }

    /// `return d;`
    pub(crate) fn give_back(&self, object: u32) -> Result<HeldStatement, NoMemory> {
        let value = self.read(object)?;
        HeldStatement::new(self.alloc, TypedStatement::Return(Some(value.into_expr())))
    }

    pub(crate) fn start(&self, object: u32) -> Result<HeldStatement, NoMemory> {
        HeldStatement::new(self.alloc, TypedStatement::Start(object))
    }
}

fn one_part(alloc: Global, value: HeldExpr) -> Result<Vec<InitialPart>, NoMemory> {
    let mut parts = HeldParts::new(alloc);
    parts.push(Vec::new(alloc), value)?;
    let HeldParts { list } = parts;
    Ok(list)
}
