//! The typed program, made of what the files define.

use crate::definitions::Definition;
use crate::files::CheckedFile;
use crate::names::{ProgramName, ProgramNames};
use c_faults::Stop;
use c_names::{Checker, Slot};
use c_typed::{Renumbering, SitePlace, Target, TypedFunction, TypedObject};
use std::alloc::Global;
use std::mem::replace;
use sv_base::{FuncId, SiteId};

/// What the names of a program become, by their numbers in it.
#[derive(Drop)]
pub struct NameTargets {
    pub list: Vec<Option<Target>>,
}

/// The functions, the objects of static duration by their numbers, and the sites.
#[derive(Drop)]
pub struct Assembly {
    pub functions: Vec<TypedFunction>,
    pub statics: Vec<Option<TypedObject>>,
    pub sites: Vec<SitePlace>,
}

impl Assembly {
    /// Nothing, with room for so many objects.
    pub fn new(alloc: Global, statics: usize) -> Result<Assembly, Stop> {
        let mut list = Vec::new(alloc);
        for _object in 0..statics {
            list.push(None)?;
        }
        Ok(Assembly {
            functions: Vec::new(alloc),
            statics: list,
            sites: Vec::new(alloc),
        })
    }

    /// Adds a file, whose names are those of the program by `numbers`, and whose sections begin at `sections`.
    pub fn add_file(
        &mut self,
        alloc: Global,
        file: CheckedFile,
        numbers: &[u32],
        targets: &NameTargets,
        sections: &mut [Vec<Target>],
        section: usize,
    ) -> Result<usize, Stop> {
        let CheckedFile {
            objects,
            linkage,
            definitions,
        } = file;
        let mut renumbering = Renumbering {
            objects: take_section(alloc, sections, section),
            linked: Vec::new(alloc),
            sites: Vec::new(alloc),
        };
        for declaration in &linkage.declarations {
            let target = target_of(numbers, targets, declaration.entity);
            renumbering.linked.push(target)?;
        }
        self.add_objects(alloc, objects, &renumbering)?;
        let mut next = section.saturating_add(1);
        for definition in definitions {
            renumbering.objects = take_section(alloc, sections, next);
            self.add_function(alloc, definition, &mut renumbering)?;
            next = next.saturating_add(1);
        }
        Ok(next)
    }

    // Moves the objects of static duration to their places, and answers the others.
    fn add_objects(
        &mut self,
        alloc: Global,
        objects: Vec<TypedObject>,
        renumbering: &Renumbering,
    ) -> Result<Vec<TypedObject>, Stop> {
        let mut automatic = Vec::new(alloc);
        for (number, mut object) in objects.into_iter().enumerate() {
            if let Some(parts) = &mut object.initial {
                renumbering.parts(parts.as_mut_slice());
            }
            match renumbering.objects.get(number) {
                Some(Target::Static(place)) => self.put(*place, object),
                _ => automatic.push(object)?,
            }
        }
        Ok(automatic)
    }

    fn put(&mut self, place: u32, object: TypedObject) {
        let at = place as usize;
        if at < self.statics.len() {
            self.statics[at] = Some(object);
        }
    }

    fn add_function(
        &mut self,
        alloc: Global,
        definition: Definition,
        renumbering: &mut Renumbering,
    ) -> Result<(), Stop> {
        let Definition {
            name,
            of,
            at,
            params,
            objects,
            mut code,
            slots,
            ..
        } = definition;
        renumbering.sites = self.number_sites(alloc, slots.as_slice())?;
        let objects = self.add_objects(alloc, objects, renumbering)?;
        renumbering.statement(&mut code.node);
        self.functions.push(TypedFunction {
            name,
            of,
            place: at.place,
            params,
            objects,
            code: code.into_statement(),
        })?;
        Ok(())
    }

    // The sites of the function that comes next, by slots.
    fn number_sites(&mut self, alloc: Global, slots: &[Slot]) -> Result<Vec<Option<SiteId>>, Stop> {
        let Ok(function) = u32::try_from(self.functions.len()) else {
            return Err(Stop::NoMemory);
        };
        let mut numbers = Vec::new(alloc);
        for slot in slots {
            if slot.is_site {
                numbers.push(Some(self.add_site(*slot, FuncId(function))?))?;
            } else {
                numbers.push(None)?;
            }
        }
        Ok(numbers)
    }

    fn add_site(&mut self, slot: Slot, function: FuncId) -> Result<SiteId, Stop> {
        let Ok(number) = u32::try_from(self.sites.len()) else {
            return Err(Stop::NoMemory);
        };
        self.sites.push(SitePlace {
            place: slot.place,
            function,
        })?;
        Ok(SiteId(number))
    }

    /// Gives the objects of names with linkage the types of all their declarations, and adds those that have tentative
    /// definitions alone.
    pub fn complete(
        &mut self,
        names: &ProgramNames,
        numbers: &[Option<u32>],
        checker: &Checker,
    ) -> Result<(), Stop> {
        for (name, number) in names.list.iter().zip(numbers.iter()) {
            if let Some(number) = number {
                self.complete_object(name, *number, checker)?;
            }
        }
        Ok(())
    }

    fn complete_object(
        &mut self,
        name: &ProgramName,
        number: u32,
        checker: &Checker,
    ) -> Result<(), Stop> {
        let of = name.whole(&checker.types.table);
        match self.statics.get_mut(number as usize) {
            Some(Some(object)) => {
                object.of = of;
                Ok(())
            }
            _ => {
                let at = name.defined().unwrap_or(name.first).at;
                let text = checker.spelling(name.name)?;
                self.put(
                    number,
                    TypedObject {
                        name: Some(text),
                        of,
                        place: at.place,
                        start: at.start,
                        stays: true,
                        initial: None,
                    },
                );
                Ok(())
            }
        }
    }
}

// What a name of a file becomes, by its number there.
fn target_of(numbers: &[u32], targets: &NameTargets, entity: u32) -> Target {
    match numbers.get(entity as usize) {
        Some(number) => match targets.list.get(*number as usize) {
            Some(Some(target)) => *target,
            _ => Target::Static(u32::MAX),
        },
        None => Target::Static(u32::MAX),
    }
}

fn take_section(alloc: Global, sections: &mut [Vec<Target>], section: usize) -> Vec<Target> {
    match sections.get_mut(section) {
        Some(targets) => replace(targets, Vec::new(alloc)),
        None => Vec::new(alloc),
    }
}
