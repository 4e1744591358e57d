use std::alloc::Global;
use sv_base::NoMemory;

/// A member that is set, and the place of the part that sets it.
#[derive(Clone, Copy)]
pub(crate) struct Setting {
    pub(crate) member: u32,
    pub(crate) at: u32,
}

/// A union that the paths of an initialiser pass.
#[derive(Clone, Copy)]
pub(crate) struct Passed {
    pub(crate) node: u32,
    /// The first so many steps of this entry's path lead to it.
    pub(crate) entry: u32,
    pub(crate) depth: usize,
    /// What is set last.
    pub(crate) last: Option<Setting>,
    /// The place of the last part that sets another member.
    other: Option<u32>,
    /// Whether a part that stands in the end sets it.
    pub(crate) is_chosen: bool,
}

/// The unions that the paths of an initialiser pass, in the order of their own paths.
#[derive(Drop)]
pub(crate) struct Unions {
    pub(crate) list: Vec<Passed>,
}

impl Unions {
    pub(crate) fn new(alloc: Global) -> Unions {
        Unions {
            list: Vec::new(alloc),
        }
    }

    /// The number of a union that is new.
    pub(crate) fn add(&mut self, node: u32, entry: u32, depth: usize) -> Result<u32, NoMemory> {
        let number = match u32::try_from(self.list.len()) {
            Ok(number) => number,
            Err(_) => return Err(NoMemory),
        };
        self.list.push(Passed {
            node,
            entry,
            depth,
            last: None,
            other: None,
            is_chosen: false,
        })?;
        Ok(number)
    }

    /// A part sets a member.
    pub(crate) fn pass(&mut self, union: u32, setting: Setting) {
        if let Some(passed) = self.list.get_mut(union as usize) {
            *passed = after(*passed, setting);
        }
    }

    /// Whether a part behind this place sets another member than the one that is set last.
    pub(crate) fn is_over(&self, union: u32, at: u32) -> bool {
        match self.list.get(union as usize) {
            None => false,
            Some(passed) => match passed.other {
                None => false,
                Some(other) => at <= other,
            },
        }
    }

    /// A part that stands in the end sets it.
    pub(crate) fn choose(&mut self, union: u32) {
        if let Some(passed) = self.list.get_mut(union as usize) {
            *passed = chosen(*passed);
        }
    }
}

fn chosen(passed: Passed) -> Passed {
    let mut next = passed;
    next.is_chosen = true;
    next
}

// Parts may come in any order of their places.
fn after(passed: Passed, setting: Setting) -> Passed {
    let mut next = passed;
    match passed.last {
        None => next.last = Some(setting),
        Some(last) => {
            if last.at < setting.at {
                next.last = Some(setting);
            }
            if last.member != setting.member {
                let sooner = last.at.min(setting.at);
                next.other = Some(passed.other.unwrap_or(0).max(sooner));
            }
        }
    }
    next
}
