// What is kept of loops inside other loops, which are met again and again: the clusters that their bodies name, as they were when the
// loop was entered, and as they are in the state that its last pass starts from.

use core_ir::{Callee, Cond, Operand, Step, Value, in_order};
use std::alloc::Global;
use std::collections::HashMap;
use sv_base::NoMemory;
use var_state::{Patch, Running, State};

#[derive(Drop)]
struct Settled {
    entry: Patch,
    found: Patch,
}

/// Loops have their numbers in the order of the text, from 0.
#[derive(Drop)]
pub(crate) struct Recall {
    next: usize,
    clusters: HashMap<usize, Vec<usize>>,
    settled: HashMap<usize, Settled>,
}

impl Recall {
    pub(crate) fn new(alloc: Global) -> Recall {
        Recall {
            next: 0,
            clusters: HashMap::new(alloc),
            settled: HashMap::new(alloc),
        }
    }

    /// A loop that is not entered.
    pub(crate) fn pass_over(&mut self) {
        self.next = self.next.saturating_add(1);
    }

    /// The number of the loop that is entered.
    pub(crate) fn enter(&mut self) -> usize {
        let number = self.next;
        self.pass_over();
        number
    }

    /// Its body is gone over from the start.
    pub(crate) fn restart(&mut self, number: usize) {
        self.next = number.saturating_add(1);
    }

    // The clusters that the body of the loop names.
    fn learn(
        &mut self,
        alloc: Global,
        number: usize,
        body: &[Step],
        state: &State,
    ) -> Result<(), NoMemory> {
        if !self.clusters.contains_key(&number) {
            let clusters = named_clusters(alloc, body, state)?;
            self.clusters.insert(number, clusters)?;
        }
        Ok(())
    }

    /// The clusters of the body as they are.
    pub(crate) fn look(
        &mut self,
        alloc: Global,
        number: usize,
        body: &[Step],
        running: &Running,
    ) -> Result<Patch, NoMemory> {
        self.learn(alloc, number, body, running.state())?;
        match self.clusters.get(&number) {
            Some(clusters) => running.copy_clusters(alloc, clusters),
            None => Ok(Patch::bottom(alloc)),
        }
    }

    /// Where the loop was entered in this state before, puts the state that was found then.
    pub(crate) fn put_again(
        &self,
        alloc: Global,
        number: usize,
        running: &mut Running,
    ) -> Result<bool, NoMemory> {
        match self.settled.get(&number) {
            Some(settled) if running.is_at(&settled.entry) => {
                running.put(alloc, &settled.found)?;
                Ok(true)
            }
            _ => Ok(false),
        }
    }

    pub(crate) fn keep(
        &mut self,
        number: usize,
        entry: Patch,
        found: Patch,
    ) -> Result<(), NoMemory> {
        self.settled.insert(number, Settled { entry, found })?;
        Ok(())
    }
}

fn push_operand(registers: &mut Vec<u32>, operand: Operand) -> Result<(), NoMemory> {
    if let Operand::Reg(r) = operand {
        registers.push(r)?;
    }
    Ok(())
}

fn push_value(registers: &mut Vec<u32>, value: Value) -> Result<(), NoMemory> {
    match value {
        Value::Copy(a) | Value::Convert(_, a) | Value::Unary(_, _, a) | Value::FromInt(a) => {
            push_operand(registers, a)
        }
        Value::Binary(_, _, a, b) | Value::Compare(_, a, b) => {
            push_operand(registers, a)?;
            push_operand(registers, b)
        }
        Value::ToInt(_, r) => push_operand(registers, Operand::Reg(r)),
        Value::Minus { a, b, .. } | Value::PointerCompare(_, a, b) => {
            push_operand(registers, Operand::Reg(a))?;
            push_operand(registers, Operand::Reg(b))
        }
        Value::Address(_) | Value::Function(_) | Value::Null => Ok(()),
    }
}

fn push_condition(registers: &mut Vec<u32>, cond: Cond) -> Result<(), NoMemory> {
    match cond {
        Cond::Ints(_, a, b) => {
            push_operand(registers, a)?;
            push_operand(registers, b)
        }
        Cond::Pointers(_, a, b) => {
            push_operand(registers, Operand::Reg(a))?;
            push_operand(registers, Operand::Reg(b))
        }
        Cond::NotNull(r) => push_operand(registers, Operand::Reg(r)),
    }
}

fn push_call(
    registers: &mut Vec<u32>,
    to: Option<u32>,
    callee: Callee,
    args: &[Operand],
) -> Result<(), NoMemory> {
    if let Some(to) = to {
        registers.push(to)?;
    }
    if let Callee::Through { register, .. } = callee {
        registers.push(register)?;
    }
    for arg in args {
        push_operand(registers, *arg)?;
    }
    Ok(())
}

// The registers that a step itself names.
fn push_step(registers: &mut Vec<u32>, step: &Step) -> Result<(), NoMemory> {
    match step {
        Step::Set { to, value } => {
            registers.push(*to)?;
            push_value(registers, *value)
        }
        Step::Sum {
            to,
            base,
            index,
            ..
        } => {
            registers.push(*to)?;
            registers.push(*base)?;
            push_operand(registers, *index)
        }
        Step::Check { address, .. } => push_operand(registers, Operand::Reg(*address)),
        Step::Sub { to, address, .. } | Step::Load { to, address, .. } => {
            registers.push(*to)?;
            registers.push(*address)?;
            Ok(())
        }
        Step::Call { to, callee, args } => push_call(registers, *to, *callee, args),
        Step::If { cond, .. } => push_condition(registers, *cond),
        _ => Ok(()),
    }
}

// The clusters that steps read or change, each once.
fn named_clusters(alloc: Global, body: &[Step], state: &State) -> Result<Vec<usize>, NoMemory> {
    let mut registers = Vec::new(alloc);
    let steps = in_order(alloc, body)?;
    for step in &steps {
        push_step(&mut registers, *step)?;
    }
    let mut clusters = Vec::new(alloc);
    for r in &registers {
        if let Some(cluster) = state.cluster_of(*r) {
            clusters.push(cluster)?;
        }
    }
    clusters.sort()?;
    clusters.dedup();
    Ok(clusters)
}
