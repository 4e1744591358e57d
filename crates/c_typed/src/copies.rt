//! A table of types that grows over the rows and records of another one.

use crate::reads::TypeKind;
use crate::table::{Extent, MemberType, RecordType, TypeForm, TypeId, TypeRow, TypeTable};
use crate::types::Types;
use std::alloc::Global;
use sv_base::NoMemory;

fn form_copied(alloc: Global, form: &TypeForm) -> Result<TypeForm, NoMemory> {
    match form {
        TypeForm::Void => Ok(TypeForm::Void),
        TypeForm::Int(kind) => Ok(TypeForm::Int(*kind)),
        TypeForm::Pointer(of) => Ok(TypeForm::Pointer(*of)),
        TypeForm::Array(of, count) => Ok(TypeForm::Array(*of, *count)),
        TypeForm::Aggregate(number) => Ok(TypeForm::Aggregate(*number)),
        TypeForm::Function {
            result: gives,
            params,
            dots,
        } => Ok(TypeForm::Function {
            result: *gives,
            params: Vec::from_slice(alloc, params.as_slice())?,
            dots: *dots,
        }),
    }
}

fn row_copied(alloc: Global, row: &TypeRow) -> Result<TypeRow, NoMemory> {
    Ok(TypeRow {
        form: form_copied(alloc, &row.form)?,
        volatile: row.volatile,
        extent: row.extent,
    })
}

fn members_copied(alloc: Global, members: &[MemberType]) -> Result<Vec<MemberType>, NoMemory> {
    let mut copied = Vec::new(alloc);
    for member in members {
        let name = Vec::from_slice(alloc, member.name.as_slice())?;
        copied.push(MemberType {
            name,
            of: member.of,
            offset: member.offset,
        })?;
    }
    Ok(copied)
}

fn record_copied(alloc: Global, record: &RecordType) -> Result<RecordType, NoMemory> {
    let tag = match &record.tag {
        Some(tag) => Some(Vec::from_slice(alloc, tag.as_slice())?),
        None => None,
    };
    let members = match &record.members {
        Some(members) => Some(members_copied(alloc, members.as_slice())?),
        None => None,
    };
    Ok(RecordType {
        kind: record.kind,
        tag,
        members,
        extent: record.extent,
    })
}

fn table_copied(alloc: Global, table: &TypeTable) -> Result<TypeTable, NoMemory> {
    let mut rows = Vec::new(alloc);
    for row in &table.rows {
        rows.push(row_copied(alloc, row)?)?;
    }
    let mut records = Vec::new(alloc);
    for record in &table.records {
        records.push(record_copied(alloc, record)?)?;
    }
    Ok(TypeTable { rows, records })
}

/// What gets its class from those of its parts.
#[derive(Clone, Copy)]
enum Whole {
    Row(u32),
    Record(u32),
}

// What gets its class from parts, with the classes of the table. A part has a lesser class than the whole.
fn wholes(alloc: Global, table: &TypeTable) -> Result<Vec<(u32, Whole)>, NoMemory> {
    let mut found = Vec::new(alloc);
    for number in 0..table.rows.len() {
        let of = TypeId(u32::try_from(number).unwrap_or(u32::MAX));
        if is_made_of_parts(table, of) {
            found.push((table.class(of), Whole::Row(of.0)))?;
        }
    }
    for (number, record) in table.records.iter().enumerate() {
        if record.members.is_some() {
            let number = u32::try_from(number).unwrap_or(u32::MAX);
            found.push((record.extent.class, Whole::Record(number)))?;
        }
    }
    found.sort_by_key(|whole| whole.0)?;
    Ok(found)
}

fn is_made_of_parts(table: &TypeTable, of: TypeId) -> bool {
    match table.kind(of) {
        TypeKind::Array(_, _) | TypeKind::Function(_) => true,
        _ => false,
    }
}

fn with_class(extent: Extent, class: u32) -> Extent {
    Extent {
        size: extent.size,
        align: extent.align,
        class,
    }
}

impl Types {
    /// A table that goes on with the rows and records of another, under the same numbers. The other has to begin as a new one
    /// does.
    pub fn of_table(alloc: Global, table: &TypeTable) -> Result<Types, NoMemory> {
        let mut types = Types::over(alloc, table_copied(alloc, table)?)?;
        types.note_rows()?;
        for (_, whole) in wholes(alloc, table)? {
            types.number(whole)?;
        }
        Ok(types)
    }

    fn number(&mut self, whole: Whole) -> Result<(), NoMemory> {
        match whole {
            Whole::Row(row) => self.number_row(row),
            Whole::Record(record) => self.number_record(record),
        }
    }

    fn number_row(&mut self, row: u32) -> Result<(), NoMemory> {
        let class = self.class_of_row(TypeId(row))?;
        if let Some(row) = self.table.rows.get_mut(row as usize) {
            row.extent = with_class(row.extent, class);
        }
        Ok(())
    }

    fn number_record(&mut self, number: u32) -> Result<(), NoMemory> {
        let class = self.class_of_record(number)?;
        if let Some(record) = self.table.records.get_mut(number as usize) {
            record.extent = with_class(record.extent, class);
        }
        Ok(())
    }

    // The types by number that have no qualifier, for each record.
    fn plain_records(&self) -> Result<Vec<Option<TypeId>>, NoMemory> {
        let mut plain = Vec::new(self.alloc());
        for _ in 0..self.table.records.len() {
            plain.push(None)?;
        }
        for number in 0..self.table.rows.len() {
            let of = TypeId(u32::try_from(number).unwrap_or(u32::MAX));
            if let TypeKind::Record(record) = self.table.kind(of) {
                note_plain(&mut plain, record, of, self.table.is_volatile(of));
            }
        }
        Ok(plain)
    }

    // What was made of each row.
    fn note_rows(&mut self) -> Result<(), NoMemory> {
        let plain = self.plain_records()?;
        for number in 0..self.table.rows.len() {
            let of = TypeId(u32::try_from(number).unwrap_or(u32::MAX));
            self.note_row(of, plain.as_slice());
        }
        Ok(())
    }

    fn note_row(&mut self, of: TypeId, plain: &[Option<TypeId>]) {
        if self.table.is_volatile(of) {
            if let Some(twin) = self.twin(of, plain) {
                self.pair(twin, of);
            }
            return;
        }
        if let TypeKind::Pointer(to) = self.table.kind(of) {
            self.note_pointer(to, of);
        }
    }

    // The type without `volatile` of one with it.
    fn twin(&self, of: TypeId, plain: &[Option<TypeId>]) -> Option<TypeId> {
        match self.table.kind(of) {
            TypeKind::Void => Some(Types::void()),
            TypeKind::Int(kind) => Some(Types::int(kind)),
            TypeKind::Pointer(to) => self.known_pointer(to),
            TypeKind::Record(record) => plain.get(record as usize).copied()?,
            TypeKind::Array(_, _) | TypeKind::Function(_) => None,
        }
    }
}

fn note_plain(plain: &mut [Option<TypeId>], record: u32, of: TypeId, is_volatile: bool) {
    let at = record as usize;
    if !is_volatile && at < plain.len() {
        plain[at] = Some(of);
    }
}
