use c_values::{Cmp, IntType, Op, UnOp};
use sv_base::{FuncId, SiteId};

/// What a register, a leaf or a leaf class holds: a value of an integer type, or a pointer.
#[derive(Clone, Copy, Debug, PartialEq, Eq)]
pub enum Leaf {
    Int(IntType),
    Pointer,
}

/// A register of the function by its number, or a constant.
#[derive(Clone, Copy, Debug, PartialEq, Eq)]
pub enum Operand {
    Reg(u32),
    Const(i128),
}

/// What `Set` puts into a register. Registers stand by their numbers in the function.
#[derive(Clone, Copy, Debug, PartialEq, Eq)]
pub enum Value {
    Copy(Operand),
    /// The operand as a value of the type (ISO/IEC 9899:1999, 6.3.1).
    Convert(IntType, Operand),
    Unary(UnOp, IntType, Operand),
    Binary(Op, IntType, Operand, Operand),
    /// 1 where the comparison holds, else 0.
    Compare(Cmp, Operand, Operand),
    /// The start of the object whose whole region has this class.
    Address(u32),
    /// A function by its number. External functions have the numbers after those of the defined ones.
    Function(u32),
    Null,
    /// The pointer that an integer becomes.
    FromInt(Operand),
    /// The integer of the type that the pointer in the register becomes: any value.
    ToInt(IntType, u32),
    /// The difference of the pointers in registers `a` and `b`, in elements of `size` bytes.
    Minus { a: u32, b: u32, size: u64 },
    /// 1 where the comparison of the two pointers holds, else 0.
    PointerCompare(Cmp, u32, u32),
}

/// The condition of an `If`. Pointers stand in registers.
#[derive(Clone, Copy, Debug, PartialEq, Eq)]
pub enum Cond {
    Ints(Cmp, Operand, Operand),
    Pointers(Cmp, u32, u32),
    NotNull(u32),
}

/// What a call calls.
#[derive(Clone, Copy, Debug, PartialEq, Eq)]
pub enum Callee {
    /// A defined function.
    Direct(FuncId),
    /// The function that the pointer in a register points to. `kind` is the number of the called type: function types are
    /// numbered up to likeness.
    Through { register: u32, kind: u32 },
    /// An external function, counted from 0.
    External(u32),
}

/// A step of a function's body. An `address` is a register that holds a pointer.
#[derive(Drop)]
pub enum Step {
    Set {
        to: u32,
        value: Value,
    },
    /// The pointer `base` plus `index` times `size` bytes; `size` is negative where an index is subtracted.
    Sum {
        to: u32,
        base: u32,
        index: Operand,
        size: i64,
    },
    /// The access of `width` bytes at a site is about to be made.
    Check {
        site: SiteId,
        address: u32,
        width: u64,
    },
    /// The pointer to the sub-object of this number that starts at the address.
    Sub {
        to: u32,
        address: u32,
        part: u32,
    },
    Load {
        to: u32,
        address: u32,
        leaf: Leaf,
        volatile: bool,
    },
    Store {
        address: u32,
        value: Operand,
        leaf: Leaf,
    },
    /// Copies an object of the type `layout` from the address in `from` to the one in `to`.
    CopyObject {
        to: u32,
        from: u32,
        layout: u32,
    },
    /// The object whose whole region has this class comes to life; `initialised` where an initialiser stores all its leaves.
    Begin {
        object: u32,
        initialised: bool,
    },
    Call {
        to: Option<u32>,
        callee: Callee,
        args: Vec<Operand>,
    },
    If {
        cond: Cond,
        then: Vec<Step>,
        other: Vec<Step>,
    },
    Block(Vec<Step>),
    /// The steps again and again, until one leaves the loop.
    Loop(Vec<Step>),
    /// Leaves a `Block` around the step: 0 is the innermost one. Only blocks count.
    Exit(u32),
    Return(Option<Operand>),
}
