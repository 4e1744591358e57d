use objects_fit::{NodeForm, Nodes};
use std::alloc::Global;
use sv_base::NoMemory;

/// The objects of a program.
#[derive(Clone, Copy)]
pub(crate) struct Objects<'a> {
    pub(crate) nodes: &'a Nodes,
    /// By region class, the function that begins the object of which it is the whole region.
    pub(crate) owners: &'a [Option<u32>],
}

impl<'a> Objects<'a> {
    /// The node of a static object by the class of its whole region: no function begins it.
    pub(crate) fn static_root(&self, class: u32) -> Option<u32> {
        if let Some(Some(_)) = self.owners.get(class as usize) {
            return None;
        }
        let number = self.nodes.regions.get(class as usize).copied()?;
        let root = self.nodes.node(number)?;
        if root.parent.is_some() {
            return None;
        }
        Some(number)
    }

    /// The node of a member by its position, or of an element by its index.
    pub(crate) fn inner(&self, number: u32, step: u32) -> Option<u32> {
        let node = self.nodes.node(number)?;
        let place = match node.form {
            NodeForm::Scalar(_) => return None,
            NodeForm::Array { count, .. } => {
                if u64::from(step) >= count {
                    return None;
                }
                node.kids.first
            }
            NodeForm::Members { .. } => node.kids.first.checked_add(step)?,
        };
        if place >= node.kids.end {
            return None;
        }
        self.nodes.kid(place)
    }

    /// Where a path in a static object leads.
    pub(crate) fn static_node(&self, class: u32, path: &[u32]) -> Option<u32> {
        let mut number = self.static_root(class)?;
        for step in path {
            number = self.inner(number, *step)?;
        }
        Some(number)
    }

    pub(crate) fn is_union(&self, number: u32) -> bool {
        match self.nodes.node(number) {
            Some(node) => matches!(node.form, NodeForm::Members { rival: true }),
            None => false,
        }
    }
}

/// A node on a path.
#[derive(Clone, Copy)]
pub(crate) struct Stop {
    pub(crate) node: u32,
    /// Whether each union around it begins with the member that the path takes.
    pub(crate) is_begun: bool,
    /// The step that leads to it.
    step: u32,
    /// With which member it begins, where it is a union.
    choice: u32,
}

/// The nodes along a path of a static object. Paths come in order, by object and then step by step, so that what is listed of a union
/// is known before anything inside it.
#[derive(Drop)]
pub(crate) struct Along {
    object: Option<u32>,
    stops: Vec<Stop>,
}

impl Along {
    pub(crate) fn new(alloc: Global) -> Along {
        Along {
            object: None,
            stops: Vec::new(alloc),
        }
    }

    /// Where the path ends.
    pub(crate) fn last(&self) -> Option<Stop> {
        self.stops.last().copied()
    }

    /// The union at the end of the path begins with this member.
    pub(crate) fn choose(&mut self, member: u32) {
        if let Some(last) = self.stops.last_mut() {
            last.choice = member;
        }
    }

    // How many steps a path has in common with the one before.
    fn shared(&self, path: &[u32]) -> usize {
        let mut count = 0usize;
        let mut stops = self.stops.iter();
        let _root = stops.next();
        for step in path {
            match stops.next() {
                Some(stop) if stop.step == *step => count = count.saturating_add(1),
                _ => break,
            }
        }
        count
    }

    // Whether a path that has so many steps in common with the one before comes after it.
    fn is_after(&self, path: &[u32], shared: usize) -> bool {
        match (path.get(shared), self.stops.get(shared.saturating_add(1))) {
            (None, _) => false,
            (Some(_), None) => true,
            (Some(step), Some(stop)) => *step > stop.step,
        }
    }

    // The member or element behind the last node. False where there is none.
    fn enter(&mut self, objects: Objects<'_>, step: u32) -> Result<bool, NoMemory> {
        let Some(last) = self.stops.last().copied() else {
            return Ok(false);
        };
        let Some(node) = objects.inner(last.node, step) else {
            return Ok(false);
        };
        self.stops.push(Stop {
            node,
            is_begun: last.is_begun && (!objects.is_union(last.node) || last.choice == step),
            step,
            choice: 0,
        })?;
        Ok(true)
    }

    fn enter_all(&mut self, objects: Objects<'_>, steps: &[u32]) -> Result<bool, NoMemory> {
        for step in steps {
            if !self.enter(objects, *step)? {
                return Ok(false);
            }
        }
        Ok(true)
    }

    // To a path of the same object, which has to come after the one before.
    fn go_on(&mut self, objects: Objects<'_>, path: &[u32]) -> Result<bool, NoMemory> {
        let shared = self.shared(path);
        if !self.is_after(path, shared) {
            return Ok(false);
        }
        self.stops.truncate(shared.saturating_add(1));
        match path.get(shared..) {
            None => Ok(false),
            Some(steps) => self.enter_all(objects, steps),
        }
    }

    // To a path of another object.
    fn begin(&mut self, objects: Objects<'_>, object: u32, path: &[u32]) -> Result<bool, NoMemory> {
        let Some(node) = objects.static_root(object) else {
            return Ok(false);
        };
        self.object = Some(object);
        self.stops.clear();
        self.stops.push(Stop {
            node,
            is_begun: true,
            step: 0,
            choice: 0,
        })?;
        self.enter_all(objects, path)
    }

    /// To the next path. False where it leads nowhere, or does not come after the one before.
    pub(crate) fn go_to(
        &mut self,
        objects: Objects<'_>,
        object: u32,
        path: &[u32],
    ) -> Result<bool, NoMemory> {
        match self.object {
            Some(last) if last == object => self.go_on(objects, path),
            Some(last) if last > object => Ok(false),
            _ => self.begin(objects, object, path),
        }
    }
}
