use c_faults::Stop;
use c_typed::{MemberType, TypeId, TypeKind, TypeTable};
use std::alloc::{AllocError, Global};
use std::collections::HashSet;

// A type, and an offset in it where a sub-object is looked for.
#[derive(Clone, Copy, PartialEq, Eq, Hash)]
struct Seek {
    of: u32,
    offset: u64,
}

// The sub-objects that may have one that starts at the offset. Each is looked into once.
#[derive(Drop)]
struct Search {
    open: Vec<Seek>,
    seen: HashSet<Seek>,
}

impl Search {
    fn add(&mut self, of: TypeId, offset: u64) -> Result<(), AllocError> {
        let seek = Seek { of: of.0, offset };
        if !self.seen.contains(&seek) {
            self.seen.insert(seek)?;
            self.open.push(seek)?;
        }
        Ok(())
    }

    // Goes into the parts of a type in which the offset lies.
    fn open_parts(&mut self, table: &TypeTable, seek: Seek) -> Result<(), AllocError> {
        let of = TypeId(seek.of);
        match table.kind(of) {
            TypeKind::Array(element, count) => self.open_element(
                table,
                element,
                count,
                seek.offset,
            ),
            TypeKind::Record(number) => match table.record(number) {
                Some(record) => match &record.members {
                    Some(members) => self.open_members(table, members.as_slice(), seek.offset),
                    None => Ok(()),
                },
                None => Ok(()),
            },
            _ => Ok(()),
        }
    }

    fn open_element(
        &mut self,
        table: &TypeTable,
        element: TypeId,
        count: Option<u64>,
        offset: u64,
    ) -> Result<(), AllocError> {
        let size = table.size(element).unwrap_or(1).max(1);
        let index = offset / size;
        let lies_inside = match count {
            Some(count) => index < count,
            None => true,
        };
        if lies_inside {
            return self.add(element, offset % size);
        }
        Ok(())
    }

    fn open_members(
        &mut self,
        table: &TypeTable,
        members: &[MemberType],
        offset: u64,
    ) -> Result<(), AllocError> {
        for member in members {
            let size = table.size(member.of).unwrap_or(0);
            if let Some(inside) = offset.checked_sub(member.offset) {
                if inside < size {
                    self.add(member.of, inside)?;
                }
            }
        }
        Ok(())
    }
}

/// Whether a sub-object of a type starts at an offset in bytes and has a type like another one. An array without a size has no
/// end, and is no such sub-object itself.
pub fn starts_like(
    alloc: Global,
    table: &TypeTable,
    of: TypeId,
    offset: i128,
    wanted: TypeId,
) -> Result<bool, Stop> {
    let Ok(offset) = u64::try_from(offset) else {
        return Ok(false);
    };
    let mut search = Search {
        open: Vec::new(alloc),
        seen: HashSet::new(alloc),
    };
    search.add(of, offset)?;
    for _turn in 0..u64::MAX {
        let Some(seek) = search.open.pop() else {
            return Ok(false);
        };
        let of = TypeId(seek.of);
        if seek.offset == 0 && table.is_complete(of) && table.alike(of, wanted) {
            return Ok(true);
        }
        search.open_parts(table, seek)?;
    }
    Ok(false)
}
