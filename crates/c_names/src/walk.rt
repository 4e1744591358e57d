use c_tree::RecordKind;
use c_typed::{RecordType, TypeId, TypeKind, TypeTable};
use std::alloc::{AllocError, Global};

/// The sub-object of a type at an index or a member's position, None where it has none.
pub fn part_type(types: &TypeTable, of: TypeId, at: u64) -> Option<TypeId> {
    match types.kind(of) {
        TypeKind::Array(element, _) => Some(element),
        TypeKind::Record(number) => match types.record(number) {
            Some(record) => member_type(record, at),
            None => None,
        },
        _ => None,
    }
}

fn member_type(record: &RecordType, at: u64) -> Option<TypeId> {
    let at = usize::try_from(at).unwrap_or(usize::MAX);
    match &record.members {
        Some(members) => match members.get(at) {
            Some(member) => Some(member.of),
            None => None,
        },
        None => None,
    }
}

/// Whether the type is a union.
pub fn is_union(types: &TypeTable, of: TypeId) -> bool {
    match types.kind(of) {
        TypeKind::Record(number) => match types.record(number) {
            Some(record) => record.kind == RecordKind::Union,
            None => false,
        },
        _ => false,
    }
}

// How many parts a type has, None where it is an array without a size.
fn part_count(types: &TypeTable, of: TypeId) -> Option<u64> {
    match types.kind(of) {
        TypeKind::Array(_, count) => count,
        TypeKind::Record(number) => match types.record(number) {
            Some(record) => Some(member_count(record)),
            None => Some(0),
        },
        _ => Some(0),
    }
}

fn member_count(record: &RecordType) -> u64 {
    match &record.members {
        Some(members) => members.len() as u64,
        None => 0,
    }
}

fn is_unsized(types: &TypeTable, of: TypeId) -> bool {
    part_count(types, of).is_none()
}

// An object and which of its parts comes next.
#[derive(Clone, Copy)]
struct Frame {
    of: TypeId,
    next: u64,
}

/// Where a braced list of an initialiser stands in the array, structure or union that it gives values to (ISO/IEC 9899:1999,
/// 6.7.8): which sub-object its next value is for. Where braces are left out, it goes into parts and comes back by itself.
#[derive(Drop)]
pub struct Walk {
    top: Frame,
    /// The objects inside whose parts are given without braces of their own.
    inner: Vec<Frame>,
    /// How many elements were reached of an array without a size.
    extent: u64,
}

impl Walk {
    /// At the first part.
    pub fn new(alloc: Global, of: TypeId) -> Walk {
        Walk {
            top: Frame { of, next: 0 },
            inner: Vec::new(alloc),
            extent: 0,
        }
    }

    /// Goes back to the object of the list, for designators.
    pub fn restart(&mut self) {
        self.inner.clear();
    }

    /// The innermost object that was gone into.
    pub fn whole(&self) -> TypeId {
        self.last().of
    }

    /// The element with this index comes next. False where the innermost object has none.
    pub fn choose_element(&mut self, types: &TypeTable, index: i128) -> bool {
        let Ok(index) = u64::try_from(index) else {
            return false;
        };
        match types.kind(self.whole()) {
            TypeKind::Array(_, count) => {
                let fits = match count {
                    Some(count) => index < count,
                    None => true,
                };
                if fits {
                    self.set_next(index);
                }
                fits
            }
            _ => false,
        }
    }

    /// The member at this position comes next.
    pub fn choose_member(&mut self, position: u32) {
        self.set_next(u64::from(position));
    }

    /// The type of the part that comes next, None where there is none.
    pub fn current(&self, types: &TypeTable) -> Option<TypeId> {
        let frame = self.last();
        part_type(types, frame.of, frame.next)
    }

    /// Goes into the part that comes next, to its first part.
    pub fn enter(&mut self, of: TypeId) -> Result<(), AllocError> {
        self.inner.push(Frame { of, next: 0 })?;
        Ok(())
    }

    /// Comes back from objects all of whose parts were passed. False where that is the object of the list.
    pub fn settle(&mut self, types: &TypeTable) -> bool {
        for _turn in 0..=self.inner.len() {
            if !self.is_passed(types) {
                return true;
            }
            if self.inner.pop().is_none() {
                return false;
            }
            self.advance(types);
        }
        false
    }

    /// Goes past the part that comes next, in a union past all of them.
    pub fn advance(&mut self, types: &TypeTable) {
        if is_unsized(types, self.top.of) {
            self.extent = self.extent.max(self.top.next.saturating_add(1));
        }
        let frame = self.last();
        let past = if is_union(types, frame.of) {
            part_count(types, frame.of).unwrap_or(0)
        } else {
            frame.next.saturating_add(1)
        };
        self.set_next(past);
    }

    /// The elements that were reached of an array without a size.
    pub fn extent(&self) -> u64 {
        self.extent
    }

    /// The path of the part that comes next, behind the path of the object of the list. Past the greatest number an index
    /// stays there: no object has so many elements.
    pub fn path(&self, alloc: Global, before: &[u32]) -> Result<Vec<u32>, AllocError> {
        let mut path = Vec::from_slice(alloc, before)?;
        path.push(small(self.top.next))?;
        for frame in &self.inner {
            path.push(small(frame.next))?;
        }
        Ok(path)
    }

    fn is_passed(&self, types: &TypeTable) -> bool {
        let frame = self.last();
        match part_count(types, frame.of) {
            Some(count) => count <= frame.next,
            None => false,
        }
    }

    fn last(&self) -> Frame {
        match self.inner.as_slice().last() {
            Some(frame) => *frame,
            None => self.top,
        }
    }

    fn set_next(&mut self, next: u64) {
        match self.inner.last_mut() {
            Some(frame) => frame.next = next,
            None => self.top.next = next,
        }
    }
}

fn small(index: u64) -> u32 {
    u32::try_from(index).unwrap_or(u32::MAX)
}
