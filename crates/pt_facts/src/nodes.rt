ghost use Rattle.std.specs.Prelude.{◌≡◌, ◌<◌, ◌≤◌, ◌+◌, ◌^◌, IfOk, length};
ghost use Rattle.pt_facts.specs.computed.Bases.{bases_from};
ghost use Rattle.pt_facts.specs.Nodes.{base_of, member_of, node_if_pointer, node_of, node_of_some, operand_node, register_count, registers_of};

use core_ir::{Function, Leaf, Operand};
use std::alloc::Global;
use sv_base::NoMemory;

pub(crate) fn node_if_pointer(node: u32, leaf: Option<Leaf>) -> Option<u32>
    ensures { result ≡ node_if_pointer node leaf }
{
    match leaf {
        Some(Leaf::Pointer) => Some(node),
        _ => None,
    }
}

/// The node of a register that holds a pointer. `base` is the node of the function's first register.
pub(crate) fn node_of(base: u32, f: &Function, r: u32) -> Option<u32>
    requires room { base + register_count f.now < 2 ^ 32 }
    ensures { result ≡ node_of base f.now r }
{
    match f.registers.get(r as usize) {
        Some(register) => node_if_pointer(base + r, Some(register.leaf)),
        None => None,
    }
}

pub(crate) fn operand_node(base: u32, f: &Function, a: Operand) -> Option<u32>
    requires room { base + register_count f.now < 2 ^ 32 }
    ensures { result ≡ operand_node base f.now a }
{
    match a {
        Operand::Reg(r) => node_of(base, f, r),
        Operand::Const(_) => None,
    }
}

pub(crate) fn node_of_some(base: u32, f: &Function, r: Option<u32>) -> Option<u32>
    requires room { base + register_count f.now < 2 ^ 32 }
    ensures { result ≡ node_of_some base f.now r }
{
    match r {
        Some(r) => node_of(base, f, r),
        None => None,
    }
}

/// A function as a member of points-to sets, if there is one of this number.
pub(crate) fn member_of(count: u32, g: u32) -> Option<u32>
    requires room { count ≤ 2 ^ 31 }
    ensures { result ≡ member_of count g }
{
    if g < count {
        Some(0x8000_0000 + g)
    } else {
        None
    }
}

/// By function the node of its first register.
pub(crate) fn bases(alloc: Global, functions: &[Function]) -> Result<Vec<u32>, NoMemory>
    requires room { registers_of functions.now < 2 ^ 32 }
    ensures { IfOk result (λ bases. bases.items ≡ bases_from 0 functions.now) }
{
    let mut bases = Vec::new(alloc);
    let mut base = 0;
    for f in functions {
        bases.push(base)?;
        base += f.registers.len() as u32;
    }
    Ok(bases)
}

/// The node of the first register of a function.
#[tactic(auto, using(crate::proofs::Basing::index_below, crate::proofs::Basing::base_index))]
pub(crate) fn base_at(functions: &[Function], bases: &[u32], i: u32) -> u32
    requires bases { bases.now ≡ bases_from 0 functions.now }
    requires there { i < length functions.now }
    ensures { result ≡ base_of functions.now i }
{
    bases[i as usize]
}

/// The number of all registers.
pub(crate) fn register_count(functions: &[Function]) -> u32
    requires room { registers_of functions.now < 2 ^ 32 }
    ensures { result ≡ registers_of functions.now }
{
    let mut count = 0;
    for f in functions {
        count += f.registers.len() as u32;
    }
    count
}
