use core_ir::Part;
use indexmap::IndexSet;
use std::alloc::Global;
use sv_base::NoMemory;

/// Numbers from 0 in the order of first use, for classes of likeness.
#[derive(Drop)]
pub struct FirstUse {
    numbers: Vec<Option<u32>>,
    count: u32,
}

impl FirstUse {
    pub fn new(alloc: Global) -> FirstUse {
        FirstUse {
            numbers: Vec::new(alloc),
            count: 0,
        }
    }

    /// The number of a class, the next one where it has none so far.
    pub fn number(&mut self, class: u32) -> Result<u32, NoMemory> {
        self.make_room(class)?;
        match self.numbers.get_mut(class as usize) {
            None => Ok(0),
            Some(Some(number)) => Ok(*number),
            Some(place) => {
                let number = self.count;
                *place = Some(number);
                self.count = number.checked_add(1).ok_or(NoMemory)?;
                Ok(number)
            }
        }
    }

    // A place for each class up to this one.
    fn make_room(&mut self, class: u32) -> Result<(), NoMemory> {
        let known = self.numbers.len();
        for _ in known..class as usize + 1 {
            self.numbers.push(None)?;
        }
        Ok(())
    }
}

/// Numbers that are marked.
#[derive(Drop)]
pub struct Marks {
    marks: Vec<bool>,
}

impl Marks {
    pub fn new(alloc: Global) -> Marks {
        Marks {
            marks: Vec::new(alloc),
        }
    }

    pub fn mark(&mut self, number: u32) -> Result<(), NoMemory> {
        let known = self.marks.len();
        for _ in known..number as usize + 1 {
            self.marks.push(false)?;
        }
        if let Some(mark) = self.marks.get_mut(number as usize) {
            *mark = true;
        }
        Ok(())
    }

    pub fn is_marked(&self, number: u32) -> bool {
        match self.marks.get(number as usize) {
            Some(mark) => *mark,
            None => false,
        }
    }
}

/// A sub-object that a step selects: that of a layout, or a member of it.
#[derive(Clone, Copy, Debug, PartialEq, Eq, Hash)]
pub struct PartKey {
    pub layout: u32,
    pub member: Option<u32>,
}

/// The numbers of layouts, of function types and of sub-objects in the order of their first uses, and the layouts that steps copy.
#[derive(Drop)]
pub struct Numbers {
    pub layouts: FirstUse,
    pub kinds: FirstUse,
    pub parts: IndexSet<PartKey>,
    pub copied: Marks,
}

impl Numbers {
    pub fn new(alloc: Global) -> Numbers {
        Numbers {
            layouts: FirstUse::new(alloc),
            kinds: FirstUse::new(alloc),
            parts: IndexSet::new(alloc),
            copied: Marks::new(alloc),
        }
    }

    /// The number of the sub-object of a class of likeness, or of a member of it.
    pub fn part(&mut self, class: u32, member: Option<u32>) -> Result<u32, NoMemory> {
        let layout = self.layouts.number(class)?;
        let (index, _) = self.parts.insert_full(PartKey { layout, member })?;
        match u32::try_from(index) {
            Ok(number) => Ok(number),
            Err(_) => Err(NoMemory),
        }
    }

    /// The sub-objects by number.
    pub fn part_list(&self, alloc: Global) -> Result<Vec<Part>, NoMemory> {
        let mut list = Vec::new(alloc);
        for key in self.parts.iter() {
            list.push(Part {
                layout: key.layout,
                member: key.member,
            })?;
        }
        Ok(list)
    }
}
