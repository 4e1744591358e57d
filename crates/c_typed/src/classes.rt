use crate::table::{MemberType, TypeId, TypeTable};
use c_tree::RecordKind;
use c_values::IntType;
use indexmap::IndexSet;
use std::alloc::Global;
use sv_base::NoMemory;

/// The class of all pointers.
pub const POINTER_CLASS: u32 = 12;
/// The class of `void`.
pub const VOID_CLASS: u32 = 13;

const FIRST_KEY_CLASS: u32 = 14;

/// A type by the classes of its parts. A record is a chain of its members, a function one of its parameters.
#[derive(PartialEq, Eq, Hash, Drop)]
enum ClassKey {
    Array { count: Option<u64>, of: u32 },
    Record { union: bool, tag: Option<Vec<u8>> },
    Member { before: u32, name: Vec<u8>, of: u32 },
    Function { result: u32, dots: bool },
    Param { before: u32, of: u32 },
}

/// The classes of likeness that types have so far. Pointers are all alike, so no class is asked of what is not complete.
#[derive(Drop)]
pub struct Classes {
    keys: IndexSet<ClassKey>,
}

/// The class of an integer type, which is alike to itself alone.
pub fn int_class(kind: IntType) -> u32 {
    kind as u32
}

impl Classes {
    pub fn new(alloc: Global) -> Classes {
        Classes {
            keys: IndexSet::new(alloc),
        }
    }

    // The class of a key, a new one where the key is new.
    fn number(&mut self, key: ClassKey) -> Result<u32, NoMemory> {
        let (index, _) = self.keys.insert_full(key)?;
        match u32::try_from(index) {
            Ok(number) => number.checked_add(FIRST_KEY_CLASS).ok_or(NoMemory),
            Err(_) => Err(NoMemory),
        }
    }

    pub fn of_array(&mut self, of: u32, count: Option<u64>) -> Result<u32, NoMemory> {
        self.number(ClassKey::Array { count, of })
    }

    pub fn of_function(
        &mut self,
        table: &TypeTable,
        gives: TypeId,
        params: &[TypeId],
        dots: bool,
    ) -> Result<u32, NoMemory> {
        let result = table.class(gives);
        let mut chain = self.number(ClassKey::Function { result, dots })?;
        for param in params {
            let of = table.class(*param);
            chain = self.number(ClassKey::Param { before: chain, of })?;
        }
        Ok(chain)
    }

    pub fn of_record(
        &mut self,
        alloc: Global,
        table: &TypeTable,
        number: u32,
        members: &[MemberType],
    ) -> Result<u32, NoMemory> {
        let mut chain = self.of_tag(alloc, table, number)?;
        for member in members {
            let name = Vec::from_slice(alloc, member.name.as_slice())?;
            let of = table.class(member.of);
            chain = self.number(ClassKey::Member {
                before: chain,
                name,
                of,
            })?;
        }
        Ok(chain)
    }

    fn of_tag(&mut self, alloc: Global, table: &TypeTable, number: u32) -> Result<u32, NoMemory> {
        match table.record(number) {
            Some(record) => {
                let tag = copy_of(alloc, &record.tag)?;
                let union = record.kind == RecordKind::Union;
                self.number(ClassKey::Record { union, tag })
            }
            None => Ok(VOID_CLASS),
        }
    }
}

fn copy_of(alloc: Global, tag: &Option<Vec<u8>>) -> Result<Option<Vec<u8>>, NoMemory> {
    match tag {
        Some(name) => Ok(Some(Vec::from_slice(alloc, name.as_slice())?)),
        None => Ok(None),
    }
}
