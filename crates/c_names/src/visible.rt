use std::alloc::{AllocError, Global};

/// A declaration: of which name, what it declares, and which declaration of the name it hides.
#[derive(Clone, Copy)]
pub struct Declared<T> {
    pub name: u32,
    pub what: T,
    pub hidden: Option<usize>,
}

/// What names are declared as in scopes one within another (ISO/IEC 9899:1999, 6.2.1). However many there are, a name is
/// looked up at one place.
#[derive(Drop)]
pub struct Visible<T> {
    /// By the number of a name, the place of its innermost visible declaration.
    table: Vec<Option<usize>>,
    /// The visible declarations and those that they hide, in the order in which they were made.
    declared: Vec<Declared<T>>,
}

impl<T: Copy> Visible<T> {
    pub fn new(alloc: Global) -> Visible<T> {
        Visible {
            table: Vec::new(alloc),
            declared: Vec::new(alloc),
        }
    }

    /// The place of the innermost visible declaration of a name.
    pub fn find(&self, name: u32) -> Option<usize> {
        match self.table.get(name as usize) {
            Some(entry) => *entry,
            None => None,
        }
    }

    /// What the declaration at a place declares.
    pub fn at(&self, place: usize) -> Option<T> {
        match self.declared.get(place) {
            Some(declared) => Some(declared.what),
            None => None,
        }
    }

    /// What the innermost visible declaration of a name declares.
    pub fn look_up(&self, name: u32) -> Option<T> {
        match self.find(name) {
            Some(place) => self.at(place),
            None => None,
        }
    }

    /// Changes what the declaration at a place declares. Where there is none nothing happens.
    pub fn set(&mut self, place: usize, what: T) {
        if place < self.declared.len() {
            self.declared[place].what = what;
        }
    }

    /// Declares a name, and answers the place of the declaration.
    pub fn declare(&mut self, name: u32, what: T) -> Result<usize, AllocError> {
        self.make_room(name)?;
        let place = self.declared.len();
        let hidden = self.find(name);
        self.declared.push(Declared { name, what, hidden })?;
        self.show(name, Some(place));
        Ok(place)
    }

    /// How many declarations are kept. A scope that is opened now begins at this place.
    pub fn len(&self) -> usize {
        self.declared.len()
    }

    /// The declarations from a place on.
    pub fn from(&self, place: usize) -> &[Declared<T>] {
        if place < self.declared.len() {
            return &self.declared.as_slice()[place..];
        }
        &[]
    }

    /// Leaves the scopes that begin at a place or behind it.
    pub fn cut(&mut self, place: usize) {
        for _declared in place..self.declared.len() {
            if let Some(declared) = self.declared.pop() {
                self.show(declared.name, declared.hidden);
            }
        }
    }

    fn make_room(&mut self, name: u32) -> Result<(), AllocError> {
        let wanted = name as usize + 1;
        if wanted <= self.table.len() {
            return Ok(());
        }
        self.table.resize(wanted, None)
    }

    fn show(&mut self, name: u32, place: Option<usize>) {
        let at = name as usize;
        if at < self.table.len() {
            self.table[at] = place;
        }
    }
}
