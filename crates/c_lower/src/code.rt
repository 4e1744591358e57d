use c_classes::Numbers;
use core_ir::{Leaf, Operand, Register, Step, StepList, Value};
use std::alloc::Global;
use std::mem;
use sv_base::{FrontFault, NoMemory, Place, SourceFault, faults, limits};

/// The code of a function that is being lowered.
#[derive(Drop)]
pub(crate) struct Code {
    alloc: Global,
    // The function's name.
    place: Place,
    pub(crate) registers: Vec<Register>,
    pub(crate) out: StepList,
    /// How many blocks stand around the next step.
    pub(crate) depth: u32,
    /// The blocks that `break` and `continue` leave, each by the number of blocks around it.
    pub(crate) breaks: Vec<u32>,
    pub(crate) continues: Vec<u32>,
    pub(crate) numbers: Numbers,
}

impl Code {
    pub(crate) fn new(alloc: Global, place: Place, numbers: Numbers) -> Code {
        Code {
            alloc,
            place,
            registers: Vec::new(alloc),
            out: StepList::new(alloc),
            depth: 0,
            breaks: Vec::new(alloc),
            continues: Vec::new(alloc),
            numbers,
        }
    }

    /// The next register. A limit stands at the function's name.
    pub(crate) fn new_register(&mut self, leaf: Leaf, named: bool) -> Result<u32, FrontFault> {
        let number = self.registers.len();
        if number >= limits::REGISTERS as usize {
            return Err(FrontFault::Fault(SourceFault {
                kind: faults::TOO_MANY_REGISTERS,
                place: self.place,
            }));
        }
        self.registers.push(Register { leaf, named })?;
        Ok(number as u32)
    }

    pub(crate) fn new_temporary(&mut self, leaf: Leaf) -> Result<u32, FrontFault> {
        self.new_register(leaf, false)
    }

    /// Whether a register is a named one.
    pub(crate) fn is_named(&self, register: u32) -> bool {
        match self.registers.get(register as usize) {
            None => false,
            Some(register) => register.named,
        }
    }

    pub(crate) fn leaf(&self, register: u32) -> Leaf {
        match self.registers.get(register as usize) {
            None => Leaf::Pointer,
            Some(register) => register.leaf,
        }
    }

    pub(crate) fn step(&mut self, step: Step) -> Result<(), FrontFault> {
        self.out.push(step)?;
        Ok(())
    }

    pub(crate) fn set(&mut self, to: u32, value: Value) -> Result<(), FrontFault> {
        self.step(Step::Set { to, value })
    }

    /// A value in a new register.
    pub(crate) fn put(&mut self, leaf: Leaf, value: Value) -> Result<Operand, FrontFault> {
        let to = self.new_temporary(leaf)?;
        self.set(to, value)?;
        Ok(Operand::Reg(to))
    }

    /// A pointer in a new register.
    pub(crate) fn put_pointer(&mut self, value: Value) -> Result<u32, FrontFault> {
        let to = self.new_temporary(Leaf::Pointer)?;
        self.set(to, value)?;
        Ok(to)
    }

    /// The steps from here on stand in a list of their own. The answer is the list around it.
    pub(crate) fn begin_list(&mut self) -> StepList {
        mem::replace(&mut self.out, StepList::new(self.alloc))
    }

    /// The steps from here on stand in the list around again. The answer is the list that ends.
    pub(crate) fn end_list(&mut self, around: StepList) -> StepList {
        mem::replace(&mut self.out, around)
    }

    /// The steps up to `end_block` stand in so many blocks more.
    pub(crate) fn enter(&mut self, blocks: u32) {
        self.depth = self.depth.saturating_add(blocks);
    }

    pub(crate) fn leave(&mut self, blocks: u32) {
        self.depth = self.depth.saturating_sub(blocks);
    }

    /// Leaves the block that has so many blocks around it.
    pub(crate) fn exit(&mut self, around: u32) -> Result<(), FrontFault> {
        let between = self.depth.saturating_sub(around).saturating_sub(1);
        self.step(Step::Exit(between))
    }

    /// `break`: leaves the innermost loop or `switch`.
    pub(crate) fn break_off(&mut self) -> Result<(), FrontFault> {
        let innermost = self.breaks.last().copied();
        match innermost {
            None => Ok(()),
            Some(around) => self.exit(around),
        }
    }

    /// `continue`: leaves the body of the innermost loop.
    pub(crate) fn go_on(&mut self) -> Result<(), FrontFault> {
        let innermost = self.continues.last().copied();
        match innermost {
            None => Ok(()),
            Some(around) => self.exit(around),
        }
    }

    pub(crate) fn empty_list(&self) -> StepList {
        StepList::new(self.alloc)
    }

    pub(crate) fn append(&mut self, steps: StepList) -> Result<(), NoMemory> {
        self.out.append(steps)
    }

    /// The registers, the steps and the numbers for the next function.
    pub(crate) fn into_parts(self) -> (Vec<Register>, StepList, Numbers) {
        let Code {
            registers,
            out,
            numbers,
            ..
        } = self;
        (registers, out, numbers)
    }
}
