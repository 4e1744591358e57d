ghost use Rattle.std.specs.Prelude.{◌≡◌, [], ◌∷◌, ◌++◌, OnErr, OnOk};

use crate::steps::{Cond, Step};
use std::alloc::{AllocFailed, Global};
use std::mem;
use sv_base::NoMemory;

/// Steps that are being put together. A `switch` of many cases lowers to as many blocks inside one another, so a list of steps is
/// let go of by a loop: the room of a body's first step holds what is left outside of the body. It takes no memory, and no call
/// inside a call.
pub struct StepList {
    pub list: Vec<Step>,
}

// The first step of a body, if it has one. What is left is then the rest of the body, and in the room of its first step what was
// left before.
fn enter(left: &mut Vec<Step>, body: Vec<Step>) -> Option<Step> {
    if body.is_empty() {
        return None;
    }
    let outer = mem::replace(left, body);
    if outer.is_empty() {
        return left.pop();
    }
    let first = left.first_mut()?;
    Some(mem::replace(first, Step::Block(outer)))
}

// The same for the two branches of a choice.
fn enter_choice(
    left: &mut Vec<Step>,
    cond: Cond,
    then: Vec<Step>,
    other: Vec<Step>,
) -> Option<Step> {
    if other.is_empty() {
        return enter(left, then);
    }
    if then.is_empty() {
        return enter(left, other);
    }
    let outer = mem::replace(left, then);
    let first = left.first_mut()?;
    let waiting = Step::If {
        cond,
        then: outer,
        other,
    };
    Some(mem::replace(first, waiting))
}

// The next step once this one is gone: one inside it, or one of those that are left.
fn after(left: &mut Vec<Step>, step: Step) -> Option<Step> {
    let inner = match step {
        Step::Block(body) => enter(left, body),
        Step::Loop(body) => enter(left, body),
        Step::If { cond, then, other } => enter_choice(left, cond, then, other),
        Step::Call { args, .. } => {
            drop(args);
            None
        }
        Step::Set { .. } | Step::Sum { .. } | Step::Check { .. } | Step::Sub { .. } => None,
        Step::Load { .. } | Step::Store { .. } | Step::CopyObject { .. } => None,
        Step::Begin { .. } | Step::Exit(_) | Step::Return(_) => None,
    };
    match inner {
        None => left.pop(),
        Some(next) => Some(next),
    }
}

// Lets go of a step and then of those that are left, one after another.
fn let_go_from(left: Vec<Step>, next: Option<Step>) {
    let mut left = left;
    let mut next = next;
    for _ in 0..u64::MAX {
        match next {
            None => return,
            Some(step) => next = after(&mut left, step),
        }
    }
}

// Lets go of steps.
pub(crate) fn let_go(steps: Vec<Step>) {
    let mut left = steps;
    let next = left.pop();
    let_go_from(left, next);
}

// Lets go of one step.
fn let_go_of(alloc: Global, step: Step) {
    let mut left = Vec::new(alloc);
    let next = after(&mut left, step);
    let_go_from(left, next);
}

impl Drop for StepList {
    fn drop(self) {
        let StepList { list } = self;
        let_go(list);
    }
}

impl StepList {
    pub fn new(alloc: Global) -> StepList
        ensures { result.list.items ≡ [] }
    {
        StepList {
            list: Vec::new(alloc),
        }
    }

    /// One more step at the end.
    pub fn push(&mut self, step: Step) -> Result<(), NoMemory>
        ensures one_more { OnOk result (self.new.list.items ≡ self.old.list.items ++ step ∷ []) }
        ensures refused { OnErr result (self.new.list.items ≡ self.old.list.items) }
    {
        let alloc = *self.list.allocator();
        match self.list.push(step) {
            Ok(()) => Ok(()),
            Err(AllocFailed { value }) => {
                let_go_of(alloc, value);
                Err(NoMemory)
            }
        }
    }

    /// A block of steps at the end.
    pub fn push_block(&mut self, body: StepList) -> Result<(), NoMemory> {
        self.push(Step::Block(body.into_body()))
    }

    /// A loop over steps at the end.
    pub fn push_loop(&mut self, body: StepList) -> Result<(), NoMemory> {
        self.push(Step::Loop(body.into_body()))
    }

    /// A choice of two lists of steps at the end.
    pub fn push_choice(
        &mut self,
        cond: Cond,
        then: StepList,
        other: StepList,
    ) -> Result<(), NoMemory> {
        self.push(Step::If {
            cond,
            then: then.into_body(),
            other: other.into_body(),
        })
    }

    /// The steps of another list at the end.
    pub fn append(&mut self, more: StepList) -> Result<(), NoMemory> {
        let mut list = more.into_body();
        match self.list.append(&mut list) {
            Ok(()) => Ok(()),
            Err(_) => {
                let_go(list);
                Err(NoMemory)
            }
        }
    }

    /// The steps themselves, for the body of a function or a step.
    pub fn into_body(self) -> Vec<Step>
        ensures { result.items ≡ self.list.items }
    {
        let StepList { list } = self;
        list
    }
}
