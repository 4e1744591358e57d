use c_faults::{Spot, Stop, refuse};
use c_typed::{TypeId, TypeTable};
use std::alloc::{AllocError, Global};
use std::mem::replace;
use sv_base::faults;

/// The first two of some places.
#[derive(Clone, Copy, Debug, PartialEq, Eq)]
pub struct FirstTwo {
    pub first: Option<Spot>,
    pub second: Option<Spot>,
}

impl FirstTwo {
    pub fn new() -> FirstTwo {
        FirstTwo {
            first: None,
            second: None,
        }
    }

    pub fn add(&mut self, at: Spot) {
        if self.first.is_none() {
            self.first = Some(at);
        } else if self.second.is_none() {
            self.second = Some(at);
        }
    }
}

/// A name with linkage in one file (ISO/IEC 9899:1999, 6.2.2).
#[derive(Clone, Copy, Debug, PartialEq, Eq)]
pub struct Entity {
    /// The name's number in the pool.
    pub name: u32,
    /// The number of its first declaration.
    pub first: u32,
    pub internal: bool,
    pub is_function: bool,
    /// The composite type of its declarations (6.2.7).
    pub of: TypeId,
    /// When an expression named it first, counted over all files.
    pub used: Option<u32>,
    /// The names in its function definitions.
    pub bodies: FirstTwo,
    /// The number of the first function defined.
    pub function: Option<u32>,
    /// The names in its definitions with an initialiser.
    pub initialised: FirstTwo,
    /// The object of the first of them, by its number among the objects outside of functions.
    pub object: Option<u32>,
    /// The name in its first tentative definition (6.9.2).
    pub tentative: Option<Spot>,
}

/// A declaration of a name with linkage.
#[derive(Clone, Copy, Debug, PartialEq, Eq)]
pub struct LinkedDeclaration {
    /// Which name, by its number among the names with linkage of the file.
    pub entity: u32,
    pub of: TypeId,
    pub at: Spot,
}

/// How a name with linkage is declared.
#[derive(Clone, Copy, Debug, PartialEq, Eq)]
pub struct LinkedWords {
    pub is_function: bool,
    pub is_static: bool,
    pub is_extern: bool,
    pub is_inline: bool,
}

/// What a file declares with linkage.
#[derive(Drop)]
pub struct FileLinkage {
    /// In token order.
    pub declarations: Vec<LinkedDeclaration>,
    /// In the order of their first declarations.
    pub entities: Vec<Entity>,
}

/// The names with linkage of the file that is checked.
#[derive(Drop)]
pub struct Linkage {
    /// In token order.
    pub declarations: Vec<LinkedDeclaration>,
    /// In the order of their first declarations.
    pub entities: Vec<Entity>,
    /// By the number of a name in the pool.
    by_name: Vec<Option<u32>>,
    uses: u32,
}

impl Linkage {
    pub fn new(alloc: Global) -> Linkage {
        Linkage {
            declarations: Vec::new(alloc),
            entities: Vec::new(alloc),
            by_name: Vec::new(alloc),
            uses: 0,
        }
    }

    /// Takes the names of a file, so that none is left for the next one. The uses go on counting.
    pub fn take(&mut self, alloc: Global) -> FileLinkage {
        for entity in &self.entities {
            let name = entity.name as usize;
            if name < self.by_name.len() {
                self.by_name[name] = None;
            }
        }
        FileLinkage {
            declarations: replace(&mut self.declarations, Vec::new(alloc)),
            entities: replace(&mut self.entities, Vec::new(alloc)),
        }
    }

    /// The number of the entity of a name.
    pub fn find(&self, name: u32) -> Option<u32> {
        match self.by_name.get(name as usize) {
            Some(entry) => *entry,
            None => None,
        }
    }

    pub fn entity(&self, number: u32) -> Option<Entity> {
        match self.entities.get(number as usize) {
            Some(entity) => Some(*entity),
            None => None,
        }
    }

    /// The number of the entity that a declaration declares.
    pub fn entity_of(&self, declaration: u32) -> Option<u32> {
        match self.declarations.get(declaration as usize) {
            Some(declared) => Some(declared.entity),
            None => None,
        }
    }

    /// The entity that a declaration declares.
    pub fn declared(&self, declaration: u32) -> Option<Entity> {
        match self.entity_of(declaration) {
            Some(number) => self.entity(number),
            None => None,
        }
    }

    /// Puts an entity in the place of one. Where there is none nothing happens.
    pub fn put(&mut self, number: u32, entity: Entity) {
        let at = number as usize;
        if at < self.entities.len() {
            self.entities[at] = entity;
        }
    }

    /// Gives a declaration another type. Where there is none nothing happens.
    pub fn set_type(&mut self, declaration: u32, of: TypeId) {
        let at = declaration as usize;
        if at < self.declarations.len() {
            self.declarations[at].of = of;
        }
    }

    /// An expression names what a declaration declares.
    pub fn name(&mut self, declaration: u32) {
        if let Some(number) = self.entity_of(declaration) {
            if let Some(mut entity) = self.entity(number) {
                if entity.used.is_none() {
                    entity.used = Some(self.uses);
                    self.uses = self.uses.saturating_add(1);
                    self.put(number, entity);
                }
            }
        }
    }

    /// One more declaration of a name that has none of the other kind in its scope. Its linkage, or its kind where it is
    /// declared in the same scope, is to be as before.
    pub fn declare(
        &mut self,
        types: &TypeTable,
        name: u32,
        of: TypeId,
        words: LinkedWords,
        is_here: bool,
        at: Spot,
    ) -> Result<u32, Stop> {
        let Some(number) = self.find(name) else {
            let internal = words.is_static || words.is_inline;
            return Ok(self.add_first(name, of, internal, words.is_function, at)?);
        };
        let Some(entity) = self.entity(number) else {
            return refuse(faults::DECLARED_OTHERWISE, at);
        };
        if entity.is_function != words.is_function {
            if is_here {
                return refuse(faults::DECLARED_OTHERWISE, at);
            }
            return Ok(self.add_declaration(number, of, at)?);
        }
        if entity.internal != is_internal(entity, words) {
            return refuse(faults::DECLARED_OTHERWISE, at);
        }
        self.compose(types, number, of);
        Ok(self.add_declaration(number, of, at)?)
    }

    /// The type of an entity gets from one more type what it lacks.
    pub fn compose(&mut self, types: &TypeTable, number: u32, of: TypeId) {
        if let Some(mut entity) = self.entity(number) {
            if types.alike(entity.of, of) {
                entity.of = types.composite(entity.of, of);
                self.put(number, entity);
            }
        }
    }

    fn add_first(
        &mut self,
        name: u32,
        of: TypeId,
        internal: bool,
        is_function: bool,
        at: Spot,
    ) -> Result<u32, AllocError> {
        let number = next(self.entities.len())?;
        let first = self.add_declaration(number, of, at)?;
        self.entities.push(Entity {
            name,
            first,
            internal,
            is_function,
            of,
            used: None,
            bodies: FirstTwo::new(),
            function: None,
            initialised: FirstTwo::new(),
            object: None,
            tentative: None,
        })?;
        self.show(name, number)?;
        Ok(first)
    }

    fn show(&mut self, name: u32, number: u32) -> Result<(), AllocError> {
        let wanted = name as usize + 1;
        if self.by_name.len() < wanted {
            self.by_name.resize(wanted, None)?;
        }
        let at = name as usize;
        if at < self.by_name.len() {
            self.by_name[at] = Some(number);
        }
        Ok(())
    }

    fn add_declaration(&mut self, entity: u32, of: TypeId, at: Spot) -> Result<u32, AllocError> {
        let number = next(self.declarations.len())?;
        self.declarations
            .push(LinkedDeclaration { entity, of, at })?;
        Ok(number)
    }
}

// The linkage that a further declaration gives a name (6.2.2).
fn is_internal(entity: Entity, words: LinkedWords) -> bool {
    if words.is_inline || words.is_static {
        return true;
    }
    if words.is_extern || words.is_function {
        return entity.internal;
    }
    false
}

fn next(count: usize) -> Result<u32, AllocError> {
    match u32::try_from(count) {
        Ok(number) => Ok(number),
        Err(_) => Err(AllocError),
    }
}
