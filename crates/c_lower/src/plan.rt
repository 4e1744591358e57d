use crate::uses::Uses;
use std::alloc::Global;
use sv_base::NoMemory;

/// Where an object of a function lives.
#[derive(Clone, Copy)]
pub(crate) enum Home {
    /// In a named register.
    Register(u32),
    /// In an object of the core, by the class of its whole region.
    Object(u32),
}

/// Where the objects of a function live, and what is known of their uses.
#[derive(Drop)]
pub(crate) struct Plan {
    pub(crate) homes: Vec<Home>,
    /// The objects that live in named registers, in order.
    pub(crate) named: Vec<u32>,
    /// The number of parameters, whose entry registers come before the named ones.
    pub(crate) params: u32,
    pub(crate) uses: Uses,
}

impl Plan {
    pub(crate) fn new(alloc: Global, params: u32, uses: Uses) -> Plan {
        Plan {
            homes: Vec::new(alloc),
            named: Vec::new(alloc),
            params,
            uses,
        }
    }

    /// The next object lives in the next named register.
    pub(crate) fn add_named(&mut self, object: u32) -> Result<(), NoMemory> {
        let place = match u32::try_from(self.named.len()) {
            Ok(place) => place,
            Err(_) => return Err(NoMemory),
        };
        let register = self.params.checked_add(place).ok_or(NoMemory)?;
        self.named.push(object)?;
        self.homes.push(Home::Register(register))?;
        Ok(())
    }

    /// The next object lives in one of the core.
    pub(crate) fn add_object(&mut self, class: u32) -> Result<(), NoMemory> {
        self.homes.push(Home::Object(class))?;
        Ok(())
    }

    /// The object of a named register.
    pub(crate) fn object_in(&self, register: u32) -> Option<u32> {
        let place = register.checked_sub(self.params)?;
        self.named.get(place as usize).copied()
    }

    pub(crate) fn home(&self, object: u32) -> Home {
        match self.homes.get(object as usize) {
            Some(home) => *home,
            None => Home::Object(0),
        }
    }
}
