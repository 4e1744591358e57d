//! The names with linkage of a program (ISO/IEC 9899:1999, 6.2.2): what all files declare and define of each.

use c_faults::{Fault, Spot, sooner};
use c_names::{Entity, FileLinkage, LinkedDeclaration};
use c_typed::{TypeId, TypeTable};
use std::alloc::{AllocError, Global};
use sv_base::{FaultKind, faults};

/// A token of one of the files, which are counted from 0.
#[derive(Clone, Copy, Debug, PartialEq, Eq)]
pub struct FileSpot {
    pub file: u32,
    pub at: Spot,
}

// The first two of some tokens.
#[derive(Clone, Copy, Debug, PartialEq, Eq)]
struct FirstTwo {
    first: Option<FileSpot>,
    second: Option<FileSpot>,
}

impl FirstTwo {
    fn new() -> FirstTwo {
        FirstTwo {
            first: None,
            second: None,
        }
    }

    fn add(&mut self, file: u32, at: Option<Spot>) {
        if let Some(at) = at {
            let spot = FileSpot { file, at };
            if self.first.is_none() {
                self.first = Some(spot);
            } else if self.second.is_none() {
                self.second = Some(spot);
            }
        }
    }
}

/// An object of a file outside of functions, by its number there.
#[derive(Clone, Copy, Debug, PartialEq, Eq)]
pub struct FileObject {
    pub file: u32,
    pub object: u32,
}

/// A name with linkage of a program.
#[derive(Clone, Copy, Debug, PartialEq, Eq)]
pub struct ProgramName {
    /// Its number in the pool.
    pub name: u32,
    pub is_function: bool,
    /// Where it is first declared, and as what type.
    pub first: FileSpot,
    pub first_of: TypeId,
    // A declared type with a size, and one without: each further one is to be like both.
    sized: Option<TypeId>,
    other: Option<TypeId>,
    is_unlike: bool,
    bodies: FirstTwo,
    /// The number of its definition as a function.
    pub function: Option<u32>,
    initialised: FirstTwo,
    /// Its definition with an initialiser.
    pub object: Option<FileObject>,
    /// Its first tentative definition.
    pub tentative: Option<FileSpot>,
    // The composite type of the files that declare it, and the first with a size.
    of: TypeId,
    of_size: Option<TypeId>,
    /// When an expression named it first.
    pub used: Option<u32>,
}

impl ProgramName {
    /// The type of the object that it names.
    pub fn whole(&self, table: &TypeTable) -> TypeId {
        if table.is_complete(self.of) {
            return self.of;
        }
        self.of_size.unwrap_or(self.of)
    }

    /// Where the object that it names is defined.
    pub fn defined(&self) -> Option<FileSpot> {
        match self.initialised.first {
            Some(spot) => Some(spot),
            None => self.tentative,
        }
    }

    // One more declaration. False where it is the first that is unlike an earlier one.
    fn declare(&mut self, of: TypeId, table: &TypeTable) -> bool {
        let fits = is_like(self.sized, of, table) && is_like(self.other, of, table);
        if table.is_complete(of) {
            self.sized = Some(self.sized.unwrap_or(of));
        } else {
            self.other = Some(self.other.unwrap_or(of));
        }
        if fits || self.is_unlike {
            return true;
        }
        self.is_unlike = true;
        false
    }

    // What a file defines of it.
    fn define(&mut self, file: u32, entity: &Entity, table: &TypeTable) {
        self.bodies.add(file, entity.bodies.first);
        self.bodies.add(file, entity.bodies.second);
        self.initialised.add(file, entity.initialised.first);
        self.initialised.add(file, entity.initialised.second);
        if self.function.is_none() {
            self.function = entity.function;
        }
        if let (None, Some(object)) = (self.object, entity.object) {
            self.object = Some(FileObject { file, object });
        }
        if let (None, Some(at)) = (self.tentative, entity.tentative) {
            self.tentative = Some(FileSpot { file, at });
        }
        if table.alike(self.of, entity.of) {
            self.of = table.composite(self.of, entity.of);
        }
        if self.of_size.is_none() && table.is_complete(entity.of) {
            self.of_size = Some(entity.of);
        }
        if self.used.is_none() {
            self.used = entity.used;
        }
    }
}

fn is_like(before: Option<TypeId>, of: TypeId, table: &TypeTable) -> bool {
    match before {
        Some(before) => table.alike(before, of),
        None => true,
    }
}

/// The names with linkage of a program, and the first fault of linking them by file and token.
#[derive(Drop)]
pub struct ProgramNames {
    pub list: Vec<ProgramName>,
    // By the number of a name in the pool, its number among those with external linkage.
    by_name: Vec<Option<u32>>,
    fault: Option<FileFault>,
}

#[derive(Clone, Copy)]
struct FileFault {
    file: u32,
    fault: Fault,
}

impl ProgramNames {
    pub fn new(alloc: Global) -> ProgramNames {
        ProgramNames {
            list: Vec::new(alloc),
            by_name: Vec::new(alloc),
            fault: None,
        }
    }

    /// Adds what a file declares and defines, and answers for each of its names the number in the program.
    pub fn add_file(
        &mut self,
        alloc: Global,
        file: u32,
        linkage: &FileLinkage,
        table: &TypeTable,
    ) -> Result<Vec<u32>, AllocError> {
        let mut numbers = Vec::new(alloc);
        for entity in &linkage.entities {
            numbers.push(self.number_of(file, entity, &linkage.declarations)?)?;
        }
        for declaration in &linkage.declarations {
            if let Some(number) = numbers.get(declaration.entity as usize) {
                self.declare(*number, file, declaration, table);
            }
        }
        for (entity, number) in linkage.entities.iter().zip(numbers.iter()) {
            if let Some(name) = self.list.get_mut(*number as usize) {
                name.define(file, entity, table);
            }
        }
        Ok(numbers)
    }

    // The number of a name of a file, a new one where it is internal or not declared before.
    fn number_of(
        &mut self,
        file: u32,
        entity: &Entity,
        declarations: &[LinkedDeclaration],
    ) -> Result<u32, AllocError> {
        if !entity.internal {
            if let Some(number) = self.find(entity.name) {
                return Ok(number);
            }
        }
        let Ok(number) = u32::try_from(self.list.len()) else {
            return Err(AllocError);
        };
        let Some(first) = declarations.get(entity.first as usize) else {
            return Err(AllocError);
        };
        self.list.push(ProgramName {
            name: entity.name,
            is_function: entity.is_function,
            first: FileSpot { file, at: first.at },
            first_of: first.of,
            sized: None,
            other: None,
            is_unlike: false,
            bodies: FirstTwo::new(),
            function: None,
            initialised: FirstTwo::new(),
            object: None,
            tentative: None,
            of: entity.of,
            of_size: None,
            used: None,
        })?;
        if !entity.internal {
            self.show(entity.name, number)?;
        }
        Ok(number)
    }

    fn find(&self, name: u32) -> Option<u32> {
        match self.by_name.get(name as usize) {
            Some(entry) => *entry,
            None => None,
        }
    }

    fn show(&mut self, name: u32, number: u32) -> Result<(), AllocError> {
        let at = name as usize;
        if self.by_name.len() <= at {
            self.by_name.resize(at + 1, None)?;
        }
        if at < self.by_name.len() {
            self.by_name[at] = Some(number);
        }
        Ok(())
    }

    fn declare(
        &mut self,
        number: u32,
        file: u32,
        declaration: &LinkedDeclaration,
        table: &TypeTable,
    ) {
        let Some(name) = self.list.get_mut(number as usize) else {
            return;
        };
        if !name.declare(declaration.of, table) {
            self.note(
                faults::UNLIKE_TYPES,
                FileSpot {
                    file,
                    at: declaration.at,
                },
            );
        }
    }

    // One more fault.
    fn note(&mut self, kind: FaultKind, spot: FileSpot) {
        let new = FileFault {
            file: spot.file,
            fault: Fault { kind, at: spot.at },
        };
        self.fault = match self.fault {
            Some(old) => Some(earlier(old, new)),
            None => Some(new),
        };
    }

    /// The first fault of linking, when all files were added.
    pub fn fault(&mut self) -> Option<Fault> {
        for place in 0..self.list.len() {
            let name = match self.list.get(place) {
                Some(name) => *name,
                None => break,
            };
            if let Some(second) = name.bodies.second {
                self.note(faults::DEFINED_TWICE, second);
            }
            if let Some(second) = name.initialised.second {
                self.note(faults::DEFINED_TWICE, second);
            }
            if !name.is_function && name.used.is_some() && name.defined().is_none() {
                self.note(faults::UNDEFINED_OBJECT, name.first);
            }
        }
        match self.fault {
            Some(found) => Some(found.fault),
            None => None,
        }
    }
}

fn earlier(one: FileFault, other: FileFault) -> FileFault {
    if one.file != other.file {
        return if one.file < other.file { one } else { other };
    }
    FileFault {
        file: one.file,
        fault: sooner(one.fault, other.fault),
    }
}
