use indexmap::IndexSet;
use std::alloc::{AllocError, Global};

/// The distinct spellings of all files, each with a number, so that names are told apart by numbers.
#[derive(Drop)]
pub struct Pool {
    set: IndexSet<Vec<u8>>,
}

impl Pool {
    pub fn new(alloc: Global) -> Pool {
        Pool {
            set: IndexSet::new(alloc),
        }
    }

    /// The number of a spelling, which is the next one where the spelling is new. There are fewer than 2^32.
    pub fn number_of(&mut self, alloc: Global, text: &[u8]) -> Result<u32, AllocError> {
        if let Some(place) = self.set.get_index_of(text) {
            return number(place);
        }
        let next = number(self.set.len())?;
        let name = Vec::from_slice(alloc, text)?;
        self.set.insert(name)?;
        Ok(next)
    }

    /// The number of a spelling that stands here.
    pub fn find(&self, text: &[u8]) -> Option<u32> {
        match self.set.get_index_of(text) {
            Some(place) => u32::try_from(place).ok(),
            None => None,
        }
    }

    /// The spelling of a number, empty where there is none.
    pub fn text(&self, number: u32) -> &[u8] {
        match self.set.as_slice().get(number as usize) {
            Some(name) => name.as_slice(),
            None => &[],
        }
    }
}

// No memory holds 2^32 names.
fn number(place: usize) -> Result<u32, AllocError> {
    match u32::try_from(place) {
        Ok(number) => Ok(number),
        Err(_) => Err(AllocError),
    }
}
