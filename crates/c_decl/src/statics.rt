//! The objects of static duration of a program, numbered by file and token.

use crate::files::CheckedFile;
use crate::names::{FileObject, ProgramNames};
use c_typed::{Target, TypedObject};
use std::alloc::{AllocError, Global};

// An object of static duration.
#[derive(Clone, Copy)]
struct Place {
    /// Orders by file and token.
    key: u64,
    of: Found,
}

// Where an object of static duration was found.
#[derive(Clone, Copy)]
enum Found {
    /// Among the objects of a section, by its number there.
    Section { section: usize, object: usize },
    /// A name that has tentative definitions alone.
    Name(usize),
}

/// The numbers of objects. The objects of a program lie in sections: for each file what stands outside of functions, and then one
/// section for each of its functions.
#[derive(Drop)]
pub struct Numbering {
    /// By section and number there, what the object becomes.
    pub sections: Vec<Vec<Target>>,
    /// By file, its first section.
    first_sections: Vec<usize>,
    /// By the number of a name in the program, its object of static duration.
    pub names: Vec<Option<u32>>,
    /// How many objects of static duration there are.
    pub statics: usize,
}

fn key(file: usize, start: u32) -> u64 {
    (file as u64)
        .saturating_mul(4_294_967_296)
        .saturating_add(u64::from(start))
}

impl Numbering {
    pub fn new(
        alloc: Global,
        files: &[CheckedFile],
        names: &ProgramNames,
    ) -> Result<Numbering, AllocError> {
        let mut numbering = Numbering {
            sections: Vec::new(alloc),
            first_sections: Vec::new(alloc),
            names: Vec::new(alloc),
            statics: 0,
        };
        let mut places = Vec::new(alloc);
        for (file, checked) in files.iter().enumerate() {
            numbering.add_file(alloc, file, checked, &mut places)?;
        }
        add_tentative(names, &mut places)?;
        numbering.names.resize(names.list.len(), None)?;
        places.sort_unstable_by_key(|place| place.key);
        numbering.statics = places.len();
        for (number, place) in places.iter().enumerate() {
            let Ok(number) = u32::try_from(number) else {
                return Err(AllocError);
            };
            numbering.give(place.of, number);
        }
        numbering.number_names(names);
        Ok(numbering)
    }

    fn add_file(
        &mut self,
        alloc: Global,
        file: usize,
        checked: &CheckedFile,
        places: &mut Vec<Place>,
    ) -> Result<(), AllocError> {
        self.first_sections.push(self.sections.len())?;
        self.add_section(alloc, file, &checked.objects, places)?;
        for definition in &checked.definitions {
            self.add_section(alloc, file, &definition.objects, places)?;
        }
        Ok(())
    }

    // Numbers the automatic objects of a section, and notes the others.
    fn add_section(
        &mut self,
        alloc: Global,
        file: usize,
        objects: &[TypedObject],
        places: &mut Vec<Place>,
    ) -> Result<(), AllocError> {
        let section = self.sections.len();
        let mut targets = Vec::new(alloc);
        let mut automatic = 0u32;
        for (number, object) in objects.iter().enumerate() {
            targets.push(Target::Local(automatic))?;
            if object.stays {
                places.push(Place {
                    key: key(file, object.start),
                    of: Found::Section {
                        section,
                        object: number,
                    },
                })?;
            } else {
                automatic = automatic.saturating_add(1);
            }
        }
        self.sections.push(targets)?;
        Ok(())
    }

    fn give(&mut self, of: Found, number: u32) {
        match of {
            Found::Section { section, object } => {
                if let Some(targets) = self.sections.get_mut(section) {
                    if object < targets.len() {
                        targets[object] = Target::Static(number);
                    }
                }
            }
            Found::Name(name) => {
                if name < self.names.len() {
                    self.names[name] = Some(number);
                }
            }
        }
    }

    // The names that are defined with an initialiser have the numbers of their objects.
    fn number_names(&mut self, names: &ProgramNames) {
        for (number, name) in names.list.iter().enumerate() {
            if let Some(object) = name.object {
                if number < self.names.len() {
                    self.names[number] = self.static_of(object);
                }
            }
        }
    }

    fn static_of(&self, object: FileObject) -> Option<u32> {
        let section = self.first_sections.get(object.file as usize)?;
        let targets = self.sections.get(*section)?;
        match targets.get(object.object as usize) {
            Some(Target::Static(number)) => Some(*number),
            _ => None,
        }
    }
}

fn add_tentative(names: &ProgramNames, places: &mut Vec<Place>) -> Result<(), AllocError> {
    for (number, name) in names.list.iter().enumerate() {
        if let (None, Some(spot)) = (name.object, name.tentative) {
            places.push(Place {
                key: key(spot.file as usize, spot.at.start),
                of: Found::Name(number),
            })?;
        }
    }
    Ok(())
}
