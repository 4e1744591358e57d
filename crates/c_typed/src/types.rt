ghost use Rattle.std.specs.Prelude.{◌<◌, IfSome};

use crate::classes::{Classes, POINTER_CLASS, VOID_CLASS, int_class};
use crate::layout::{POINTER_SIZE, RecordLayout, int_size};
use crate::reads::{TypeKind, UNSIZED};
use crate::table::{Extent, MemberType, RecordType, TypeForm, TypeId, TypeRow, TypeTable};
use c_tree::RecordKind;
use c_values::IntType;
use std::alloc::Global;
use sv_base::NoMemory;

const INT_TYPES: [IntType; 12] = [
    IntType::Bool,
    IntType::Char,
    IntType::SChar,
    IntType::UChar,
    IntType::Short,
    IntType::UShort,
    IntType::Int,
    IntType::UInt,
    IntType::Long,
    IntType::ULong,
    IntType::LongLong,
    IntType::ULongLong,
];

// What was made of a type before, so that it is made once.
#[derive(Clone, Copy)]
struct Made {
    pointer: Option<TypeId>,
    // The same type with `volatile`, or of one with it the one without.
    other: Option<TypeId>,
}

/// A table of types that grows. A row never changes, so a number keeps its meaning; a record's content is added to it.
#[derive(Drop)]
pub struct Types {
    pub table: TypeTable,
    alloc: Global,
    made: Vec<Made>,
    classes: Classes,
}

impl Types {
    /// The integer types and `void`, whose numbers are always the same.
    pub fn new(alloc: Global) -> Result<Types, NoMemory> {
        let mut types = Types {
            table: TypeTable {
                rows: Vec::new(alloc),
                records: Vec::new(alloc),
            },
            alloc,
            made: Vec::new(alloc),
            classes: Classes::new(alloc),
        };
        types.add(TypeForm::Void, false, void_extent())?;
        for kind in INT_TYPES {
            types.add(TypeForm::Int(kind), false, int_extent(kind))?;
        }
        Ok(types)
    }

    /// The table with these rows, of which nothing is noted.
    pub(crate) fn over(alloc: Global, table: TypeTable) -> Result<Types, NoMemory> {
        let mut made = Vec::new(alloc);
        for _ in 0..table.rows.len() {
            made.push(Made {
                pointer: None,
                other: None,
            })?;
        }
        Ok(Types {
            table,
            alloc,
            made,
            classes: Classes::new(alloc),
        })
    }

    pub fn alloc(&self) -> Global {
        self.alloc
    }

    pub fn void() -> TypeId {
        TypeId(0)
    }

    /// An integer type without qualifiers.
    pub fn int(kind: IntType) -> TypeId {
        TypeId(1 + kind as u32)
    }

    pub fn into_table(self) -> TypeTable {
        let Types { table, .. } = self;
        table
    }

    fn add(&mut self, form: TypeForm, volatile: bool, extent: Extent) -> Result<TypeId, NoMemory> {
        let id = next_number(self.table.rows.len())?;
        self.table.rows.push(TypeRow {
            form,
            volatile,
            extent,
        })?;
        self.made.push(Made {
            pointer: None,
            other: None,
        })?;
        Ok(TypeId(id))
    }

    fn made(&self, of: TypeId) -> Made {
        match self.made.get(of.0 as usize) {
            Some(made) => *made,
            None => Made {
                pointer: None,
                other: None,
            },
        }
    }

    fn note(&mut self, of: TypeId, made: Made) {
        if let Some(place) = self.made.get_mut(of.0 as usize) {
            *place = made;
        }
    }

    pub(crate) fn known_pointer(&self, of: TypeId) -> Option<TypeId> {
        self.made(of).pointer
    }

    pub(crate) fn note_pointer(&mut self, of: TypeId, pointer: TypeId) {
        let other = self.made(of).other;
        self.note(
            of,
            Made {
                pointer: Some(pointer),
                other,
            },
        );
    }

    pub fn pointer_to(&mut self, of: TypeId) -> Result<TypeId, NoMemory> {
        if let Some(pointer) = self.known_pointer(of) {
            return Ok(pointer);
        }
        let pointer = self.add(TypeForm::Pointer(of), false, pointer_extent())?;
        self.note_pointer(of, pointer);
        Ok(pointer)
    }

    /// An array of a complete object type (ISO/IEC 9899:1999, 6.7.5.2). Where its size passes the greatest number, it has the
    /// greatest number, which is above any limit of a size.
    pub fn array_of(&mut self, of: TypeId, count: Option<u64>) -> Result<TypeId, NoMemory> {
        let element = self.table.extent(of);
        let class = self.classes.of_array(element.class, count)?;
        let extent = Extent {
            size: element.size.saturating_mul(count.unwrap_or(0)),
            align: element.align,
            class,
        };
        self.add(TypeForm::Array(of, count), false, extent)
    }

    pub fn function(
        &mut self,
        gives: TypeId,
        params: Vec<TypeId>,
        dots: bool,
    ) -> Result<TypeId, NoMemory> {
        let class = self
            .classes
            .of_function(&self.table, gives, params.as_slice(), dots)?;
        let extent = Extent { class, ..UNSIZED };
        self.add(
            TypeForm::Function {
                result: gives,
                params,
                dots,
            },
            false,
            extent,
        )
    }

    /// The type without its qualifiers (6.2.5).
    pub fn unqualified(&self, of: TypeId) -> TypeId {
        if self.table.is_volatile(of) {
            return self.made(of).other.unwrap_or(of);
        }
        of
    }

    /// The type with `volatile`, which of an array qualifies the elements, and of a function nothing (6.7.3).
    pub fn qualified(&mut self, of: TypeId) -> Result<TypeId, NoMemory> {
        let mut arrays = Vec::new(self.alloc);
        let mut inner = of;
        'down: while let Some(element) = self.element_before(inner) {
            arrays.push(inner)?;
            inner = element;
        }
        let mut whole = self.with_volatile(inner)?;
        'up: while let Some(array) = arrays.pop() {
            whole = self.array_like(array, whole)?;
        }
        Ok(whole)
    }

    // The element type of an array that is not made with `volatile` yet. It stands before the array.
    fn element_before(&self, of: TypeId) -> Option<TypeId>
        ensures { IfSome result (λ element. element.0 < of.0) }
    {
        match self.table.kind(of) {
            TypeKind::Array(element, _) => {
                if element.0 < of.0 && self.made(of).other.is_none() {
                    Some(element)
                } else {
                    None
                }
            }
            _ => None,
        }
    }

    // An array as the given one of other elements.
    fn array_like(&mut self, array: TypeId, element: TypeId) -> Result<TypeId, NoMemory> {
        let count = match self.table.kind(array) {
            TypeKind::Array(_, count) => count,
            _ => None,
        };
        let other = self.array_of(element, count)?;
        self.pair(array, other);
        Ok(other)
    }

    fn with_volatile(&mut self, of: TypeId) -> Result<TypeId, NoMemory> {
        if self.table.is_volatile(of) {
            return Ok(of);
        }
        if let Some(other) = self.made(of).other {
            return Ok(other);
        }
        let form = match self.table.kind(of) {
            TypeKind::Void => TypeForm::Void,
            TypeKind::Int(kind) => TypeForm::Int(kind),
            TypeKind::Pointer(to) => TypeForm::Pointer(to),
            TypeKind::Record(number) => TypeForm::Aggregate(number),
            TypeKind::Array(_, _) | TypeKind::Function(_) => return Ok(of),
        };
        let extent = self.table.extent(of);
        let other = self.add(form, true, extent)?;
        self.pair(of, other);
        Ok(other)
    }

    pub(crate) fn pair(&mut self, one: TypeId, other: TypeId) {
        let made = self.made(one);
        self.note(
            one,
            Made {
                pointer: made.pointer,
                other: Some(other),
            },
        );
        self.note(
            other,
            Made {
                pointer: None,
                other: Some(one),
            },
        );
    }

    /// A structure or union without its content (6.7.2.3).
    pub fn new_record(
        &mut self,
        kind: RecordKind,
        tag: Option<Vec<u8>>,
    ) -> Result<TypeId, NoMemory> {
        let number = next_number(self.table.records.len())?;
        self.table.records.push(RecordType {
            kind,
            tag,
            members: None,
            extent: UNSIZED,
        })?;
        self.add(TypeForm::Aggregate(number), false, UNSIZED)
    }

    /// Adds the content of a structure or union, whose members stand where the layout has put them.
    pub fn complete_record(
        &mut self,
        of: TypeId,
        members: Vec<MemberType>,
        layout: RecordLayout,
    ) -> Result<(), NoMemory> {
        let number = match self.table.kind(of) {
            TypeKind::Record(number) => number,
            _ => return Ok(()),
        };
        let class = self
            .classes
            .of_record(self.alloc, &self.table, number, members.as_slice())?;
        let extent = Extent {
            size: layout.size(),
            align: layout.align(),
            class,
        };
        if let Some(record) = self.table.records.get_mut(number as usize) {
            record.members = Some(members);
            record.extent = extent;
        }
        Ok(())
    }

    /// The class of an array or a function by those of its parts.
    pub(crate) fn class_of_row(&mut self, of: TypeId) -> Result<u32, NoMemory> {
        match self.table.kind(of) {
            TypeKind::Array(element, count) => {
                let element = self.table.class(element);
                self.classes.of_array(element, count)
            }
            TypeKind::Function(gives) => {
                let params = self.table.params(of);
                let dots = self.table.has_dots(of);
                self.classes.of_function(&self.table, gives, params, dots)
            }
            _ => Ok(VOID_CLASS),
        }
    }

    /// The class of a complete record by those of its members.
    pub(crate) fn class_of_record(&mut self, number: u32) -> Result<u32, NoMemory> {
        let members = members_of(&self.table, number);
        self.classes
            .of_record(self.alloc, &self.table, number, members)
    }
}

fn members_of(table: &TypeTable, number: u32) -> &[MemberType] {
    match table.record(number) {
        Some(record) => match &record.members {
            Some(members) => members.as_slice(),
            None => &[],
        },
        None => &[],
    }
}

fn next_number(count: usize) -> Result<u32, NoMemory> {
    match u32::try_from(count) {
        Ok(number) => Ok(number),
        Err(_) => Err(NoMemory),
    }
}

fn void_extent() -> Extent {
    Extent {
        size: 0,
        align: 1,
        class: VOID_CLASS,
    }
}

fn int_extent(kind: IntType) -> Extent {
    let size = int_size(kind);
    Extent {
        size,
        align: size,
        class: int_class(kind),
    }
}

fn pointer_extent() -> Extent {
    Extent {
        size: POINTER_SIZE,
        align: POINTER_SIZE,
        class: POINTER_CLASS,
    }
}
