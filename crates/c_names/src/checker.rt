//! What checking goes over in one file after the other.

use crate::linkage::{Entity, Linkage, LinkedWords};
use crate::meaning::{Meaning, Tag};
use crate::pool::Pool;
use crate::visible::{Declared, Visible};
use c_faults::{Spot, Stop, refuse};
use c_typed::{TypeId, TypedObject, Types};
use std::alloc::Global;
use std::collections::HashMap;
use sv_base::{Place, SiteId, faults};

// The names that `is_long_jump` tells.
const LONG_JUMPS: u32 = 2;

#[derive(Clone, Copy, PartialEq, Eq, Hash)]
struct MemberKey {
    record: u32,
    name: u32,
}

/// Where a scope begins among the declarations.
#[derive(Clone, Copy)]
struct Start {
    names: usize,
    tags: usize,
}

/// A scope that was opened, and the one around it.
#[derive(Clone, Copy)]
pub struct Opened {
    start: Start,
    around: Start,
}

/// The declarations of a scope, kept to open it again.
#[derive(Drop)]
pub struct KeptScope {
    names: Vec<Declared<Meaning>>,
    tags: Vec<Declared<Tag>>,
}

/// A dereference of the body that is checked, which is a site where it gives no function.
#[derive(Clone, Copy, Debug, PartialEq, Eq)]
pub struct Slot {
    pub place: Place,
    pub is_site: bool,
}

/// The state that checking goes over. Names are given by their numbers in the tree's list of names.
#[derive(Drop)]
pub struct Checker {
    pub alloc: Global,
    pub types: Types,
    pub linkage: Linkage,
    /// The objects of the function that is checked, parameters first, or outside of functions the texts and the objects with
    /// an initialiser.
    pub objects: Vec<TypedObject>,
    /// The dereferences of the function that is checked, in token order.
    pub slots: Vec<Slot>,
    pool: Pool,
    /// By the tree's number of a name its number in the pool.
    file_names: Vec<u32>,
    names: Visible<Meaning>,
    tags: Visible<Tag>,
    innermost: Start,
    members: HashMap<MemberKey, u32>,
    in_body: bool,
    in_static: bool,
    /// How many `sizeof` stand around.
    unevaluated: u32,
}

impl Checker {
    pub fn new(alloc: Global) -> Result<Checker, Stop> {
        let mut pool = Pool::new(alloc);
        pool.number_of(alloc, b"setjmp")?;
        pool.number_of(alloc, b"longjmp")?;
        Ok(Checker {
            alloc,
            types: Types::new(alloc)?,
            linkage: Linkage::new(alloc),
            objects: Vec::new(alloc),
            slots: Vec::new(alloc),
            pool,
            file_names: Vec::new(alloc),
            names: Visible::new(alloc),
            tags: Visible::new(alloc),
            innermost: Start { names: 0, tags: 0 },
            members: HashMap::new(alloc),
            in_body: false,
            in_static: false,
            unevaluated: 0,
        })
    }

    /// Begins a file: no name is declared, and the tree's list of names is empty.
    pub fn begin_file(&mut self) {
        self.file_names.clear();
        self.names.cut(0);
        self.tags.cut(0);
        self.innermost = Start { names: 0, tags: 0 };
        self.linkage.take(self.alloc);
    }

    /// The next of the tree's list of names.
    pub fn add_name(&mut self, text: &[u8]) -> Result<(), Stop> {
        let number = self.pool.number_of(self.alloc, text)?;
        self.file_names.push(number)?;
        Ok(())
    }

    /// The number in the pool of a name of the tree.
    pub fn pool_number(&self, name: u32) -> u32 {
        match self.file_names.get(name as usize) {
            Some(number) => *number,
            None => 0,
        }
    }

    /// The number in the pool of a spelling that stands in it.
    pub fn find_spelling(&self, text: &[u8]) -> Option<u32> {
        self.pool.find(text)
    }

    /// The spelling of a name by its number in the pool.
    pub fn spelling(&self, number: u32) -> Result<Vec<u8>, Stop> {
        Ok(Vec::from_slice(self.alloc, self.pool.text(number))?)
    }

    /// The spelling of a name of the tree.
    pub fn text_of(&self, name: u32) -> Result<Vec<u8>, Stop> {
        self.spelling(self.pool_number(name))
    }

    /// Whether the name is `setjmp` or `longjmp`.
    pub fn is_long_jump(&self, name: u32) -> bool {
        (name as usize) < self.file_names.len() && self.pool_number(name) < LONG_JUMPS
    }
}

/// Scopes (ISO/IEC 9899:1999, 6.2.1).
impl Checker {
    pub fn open_scope(&mut self) -> Opened {
        let around = self.innermost;
        let start = Start {
            names: self.names.len(),
            tags: self.tags.len(),
        };
        self.innermost = start;
        Opened { start, around }
    }

    /// Leaves a scope, and those inside it.
    pub fn close_scope(&mut self, scope: Opened) {
        self.names.cut(scope.start.names);
        self.tags.cut(scope.start.tags);
        self.innermost = scope.around;
    }

    /// What a scope declares.
    pub fn kept(&self, scope: Opened) -> Result<KeptScope, Stop> {
        Ok(KeptScope {
            names: Vec::from_slice(self.alloc, self.names.from(scope.start.names))?,
            tags: Vec::from_slice(self.alloc, self.tags.from(scope.start.tags))?,
        })
    }

    /// Opens a scope that declares what another one did.
    pub fn open_kept(&mut self, kept: &KeptScope) -> Result<Opened, Stop> {
        let scope = self.open_scope();
        for declared in &kept.names {
            self.names.declare(declared.name, declared.what)?;
        }
        for declared in &kept.tags {
            self.tags.declare(declared.name, declared.what)?;
        }
        Ok(scope)
    }

    /// The innermost visible declaration of a name.
    pub fn look_up(&self, name: u32) -> Option<Meaning> {
        self.names.look_up(self.pool_number(name))
    }

    // The place of the declaration of a name in the innermost scope.
    fn place_here(&self, name: u32) -> Option<usize> {
        match self.names.find(self.pool_number(name)) {
            Some(place) if place >= self.innermost.names => Some(place),
            _ => None,
        }
    }

    /// What the innermost scope declares a name as.
    pub fn look_up_here(&self, name: u32) -> Option<Meaning> {
        match self.place_here(name) {
            Some(place) => self.names.at(place),
            None => None,
        }
    }

    /// Declares a name in the innermost scope, anew where it is declared there.
    pub fn declare(&mut self, name: u32, meaning: Meaning) -> Result<(), Stop> {
        match self.place_here(name) {
            Some(place) => self.names.set(place, meaning),
            None => {
                let number = self.pool_number(name);
                self.names.declare(number, meaning)?;
            }
        }
        Ok(())
    }

    /// The innermost visible declaration of a tag.
    pub fn look_up_tag(&self, tag: u32) -> Option<Tag> {
        self.tags.look_up(self.pool_number(tag))
    }

    fn tag_place_here(&self, tag: u32) -> Option<usize> {
        match self.tags.find(self.pool_number(tag)) {
            Some(place) if place >= self.innermost.tags => Some(place),
            _ => None,
        }
    }

    /// What the innermost scope declares a tag as.
    pub fn look_up_tag_here(&self, tag: u32) -> Option<Tag> {
        match self.tag_place_here(tag) {
            Some(place) => self.tags.at(place),
            None => None,
        }
    }

    /// Declares a tag in the innermost scope, anew where it is declared there.
    pub fn declare_tag(&mut self, tag: u32, meaning: Tag) -> Result<(), Stop> {
        match self.tag_place_here(tag) {
            Some(place) => self.tags.set(place, meaning),
            None => {
                let number = self.pool_number(tag);
                self.tags.declare(number, meaning)?;
            }
        }
        Ok(())
    }
}

/// Members (6.7.2.1).
impl Checker {
    /// A member's position in a structure or union.
    pub fn member(&self, record: u32, name: u32) -> Option<u32> {
        let name = self.pool_number(name);
        match self.members.get(&MemberKey { record, name }) {
            Some(position) => Some(*position),
            None => None,
        }
    }

    /// Adds a member that has none of its name before it.
    pub fn add_member(&mut self, record: u32, name: u32, position: u32) -> Result<(), Stop> {
        let name = self.pool_number(name);
        self.members.insert(MemberKey { record, name }, position)?;
        Ok(())
    }
}

/// Names with linkage (6.2.2).
impl Checker {
    /// An expression names what a declaration declares. Under `sizeof` nothing happens.
    pub fn use_linked(&mut self, number: u32) {
        if self.unevaluated == 0 {
            self.linkage.name(number);
        }
    }

    /// Whether a name with linkage is that of a function.
    pub fn is_function(&self, number: u32) -> bool {
        match self.linkage.declared(number) {
            Some(entity) => entity.is_function,
            None => false,
        }
    }

    /// Declares a name with linkage in the innermost scope, and answers the number of the declaration. Its type in the scope
    /// is that of the first declaration in sight, with what it lacks of this one.
    pub fn declare_linked(
        &mut self,
        name: u32,
        of: TypeId,
        words: LinkedWords,
        at: Spot,
    ) -> Result<u32, Stop> {
        let here = self.look_up_here(name);
        if !self.may_follow(here, of, words.is_function) {
            return refuse(faults::DECLARED_OTHERWISE, at);
        }
        let in_scope = self.composed(self.look_up(name), of);
        let known = self.pool_number(name);
        let number = self
            .linkage
            .declare(&self.types.table, known, of, words, here.is_some(), at)?;
        self.show_linked(name, number, in_scope)?;
        Ok(number)
    }

    // Whether a name with this meaning in the scope may be declared with linkage and this type.
    fn may_follow(&self, here: Option<Meaning>, of: TypeId, is_function: bool) -> bool {
        match here {
            None => true,
            Some(
                Meaning::Linked {
                    of: before,
                    is_function: was_function,
                    ..
                },
            ) => was_function == is_function && self.types.table.alike(before, of),
            Some(_) => false,
        }
    }

    fn composed(&self, seen: Option<Meaning>, of: TypeId) -> TypeId {
        match seen {
            Some(Meaning::Linked { of: before, .. }) if self.types.table.alike(before, of) => {
                self.types.table.composite(before, of)
            }
            _ => of,
        }
    }

    /// Declares in the innermost scope the name that a declaration with linkage declares, with this type.
    pub fn show_linked(&mut self, name: u32, declaration: u32, of: TypeId) -> Result<(), Stop> {
        match self.linkage.declared(declaration) {
            Some(
                Entity {
                    first,
                    is_function,
                    ..
                },
            ) => self.declare(
                name,
                Meaning::Linked {
                    number: first,
                    of,
                    is_function,
                },
            ),
            None => Ok(()),
        }
    }
}

/// Definitions of names with linkage (6.9).
impl Checker {
    /// A declaration defines an object of this type by an initialiser. Answers the type that the name then has.
    pub fn define_object(&mut self, declaration: u32, object: u32, of: TypeId, at: Spot) -> TypeId {
        self.linkage.set_type(declaration, of);
        let Some(number) = self.linkage.entity_of(declaration) else {
            return of;
        };
        self.linkage.compose(&self.types.table, number, of);
        let Some(mut entity) = self.linkage.entity(number) else {
            return of;
        };
        entity.initialised.add(at);
        if entity.object.is_none() {
            entity.object = Some(object);
        }
        self.linkage.put(number, entity);
        entity.of
    }

    /// A declaration defines an object without an initialiser.
    pub fn define_tentatively(&mut self, declaration: u32, at: Spot) {
        if let Some(number) = self.linkage.entity_of(declaration) {
            if let Some(mut entity) = self.linkage.entity(number) {
                if entity.tentative.is_none() {
                    entity.tentative = Some(at);
                }
                self.linkage.put(number, entity);
            }
        }
    }

    /// A declaration defines a function, by its number in the program.
    pub fn define_function(&mut self, declaration: u32, function: u32, at: Spot) {
        if let Some(number) = self.linkage.entity_of(declaration) {
            if let Some(mut entity) = self.linkage.entity(number) {
                entity.bodies.add(at);
                if entity.function.is_none() {
                    entity.function = Some(function);
                }
                self.linkage.put(number, entity);
            }
        }
    }
}

/// Sites and what is not evaluated.
impl Checker {
    /// The slot of the dereference whose token is read. None where it can be no site: under `sizeof`, in the initialiser of an
    /// object that stays, and outside of bodies.
    pub fn take_slot(&mut self, place: Place) -> Result<Option<SiteId>, Stop> {
        if !self.in_body || self.in_static || self.unevaluated != 0 {
            return Ok(None);
        }
        let Ok(number) = u32::try_from(self.slots.len()) else {
            return Err(Stop::NoMemory);
        };
        self.slots.push(Slot {
            place,
            is_site: true,
        })?;
        Ok(Some(SiteId(number)))
    }

    /// The dereference of a slot gave a function, so it is no site.
    pub fn leave_slot(&mut self, slot: Option<SiteId>) {
        if let Some(SiteId(number)) = slot {
            let at = number as usize;
            if at < self.slots.len() {
                self.slots[at].is_site = false;
            }
        }
    }

    /// What comes stands under `sizeof`.
    pub fn begin_unevaluated(&mut self) -> Result<(), Stop> {
        match self.unevaluated.checked_add(1) {
            Some(count) => {
                self.unevaluated = count;
                Ok(())
            }
            None => Err(Stop::NoMemory),
        }
    }

    /// What comes stands under one `sizeof` less.
    pub fn end_unevaluated(&mut self) {
        self.unevaluated = self.unevaluated.saturating_sub(1);
    }

    pub fn is_unevaluated(&self) -> bool {
        self.unevaluated != 0
    }

    /// What comes stands in the initialiser of an object that stays, or does not. Answers what it was before.
    pub fn set_static(&mut self, in_static: bool) -> bool {
        let before = self.in_static;
        self.in_static = in_static;
        before
    }

    /// What comes stands in a function's body, or does not.
    pub fn set_body(&mut self, in_body: bool) {
        self.in_body = in_body;
    }
}
