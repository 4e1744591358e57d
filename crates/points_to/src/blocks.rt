//! Lists of blocks in ascending order.
ghost use Rattle.std.specs.Prelude.{◌≡◌, ℕ, ◌+◌, ◌-◌, ◌*◌, ◌/◌, ◌%◌, ◌^◌, ◌<◌, ◌≤◌, ◌==◌, ◌&&◌, ◌||◌, ◌++◌, ◌↔◌, IsTrue, length, not, false, true, slice_get, slice_index_or, vec_len, vec_capacity, IfOk, OnOk, OnErr, take, drop};
ghost use Rattle.std.specs.Int.{bit_at};
ghost use Rattle.points_to.specs.computed.Blocks.{AreBlocks, IsMerged, block_has, blocks_have, members};

use crate::block;
use crate::block::Block;
use std::alloc::Global;
use sv_base::NoMemory;

/// How many blocks have a lesser index.
pub(crate) fn place(blocks: &[Block], index: u32) -> usize
    requires { AreBlocks blocks.now }
    ensures within { result ≤ length blocks.now }
    ensures before { (k : ℕ) (d : Block) → k < result → (slice_index_or blocks.now k d).index < index }
    ensures after { (k : ℕ) (d : Block) → result ≤ k → k < length blocks.now → index ≤ (slice_index_or blocks.now k d).index }
{
    let mut low = 0;
    let mut high = blocks.len();
    while low < high {
        let middle = low + (high - low) / 2;
        if blocks[middle].index < index {
            low = middle + 1;
        } else {
            high = middle;
        }
    }
    low
}

/// The bits of the block with this index, or 0.
pub(crate) fn word(blocks: &[Block], index: u32) -> u64
    requires { AreBlocks blocks.now }
    ensures { (n : ℕ) → n / 64 ≡ index → blocks_have blocks.now n ≡ (bit_at result (n % 64) == 1) }
{
    let at = place(blocks, index);
    if at < blocks.len() && blocks[at].index == index {
        return blocks[at].bits;
    }
    0
}

/// Whether each number of the second is in the first.
pub(crate) fn covers(blocks: &[Block], others: &[Block]) -> bool
    requires { AreBlocks blocks.now }
    ensures all { result ≡ true → (n : ℕ) → blocks_have others.now n ≡ true → blocks_have blocks.now n ≡ true }
    ensures some { result ≡ false → (n : ℕ) × (blocks_have others.now n ≡ true) × (blocks_have blocks.now n ≡ false) }
{
    for other in others {
        if other.bits & !word(blocks, other.index) != 0 {
            return false;
        }
    }
    true
}

// Merges the next block of two lists, where both have one: the block with the lesser index, or both where the indexes are the same.
fn merge_next(
    out: &mut Vec<Block>,
    left: &[Block],
    right: &[Block],
    i: usize,
    j: usize,
) -> Result<(usize, usize), NoMemory>
    requires merged { IsMerged left.now right.now i j out.old.items }
    requires left { i < length left.now }
    requires right { j < length right.now }
    ensures merged { IfOk result (λ next. IsMerged left.now right.now next.0 next.1 out.new.items) }
    ensures ahead { IfOk result (λ next. i + j < next.0 + next.1) }
{
    let first = left[i];
    let second = right[j];
    if first.index < second.index {
        out.push(first)?;
        return Ok((i + 1, j));
    }
    if second.index < first.index {
        out.push(second)?;
        return Ok((i, j + 1));
    }
    out.push(block::joined(first, second))?;
    Ok((i + 1, j + 1))
}

/// The numbers of both.
pub(crate) fn merge(alloc: Global, left: &[Block], right: &[Block]) -> Result<Vec<Block>, NoMemory>
    requires left { AreBlocks left.now }
    requires right { AreBlocks right.now }
    ensures blocks { IfOk result (λ out. AreBlocks out.items) }
    ensures numbers { IfOk result (λ out. (n : ℕ) → blocks_have out.items n ≡ (blocks_have left.now n || blocks_have right.now n)) }
{
    let mut out = Vec::with_capacity(alloc, left.len())?;
    let mut i = 0;
    let mut j = 0;
    while i < left.len() && j < right.len() {
        (i, j) = merge_next(&mut out, left, right, i, j)?;
    }
    out.extend_from_slice(&left[i..])?;
    out.extend_from_slice(&right[j..])?;
    Ok(out)
}

// The numbers of a block that are not in the others.
fn lacking(block: Block, others: &[Block]) -> Block
    requires { AreBlocks others.now }
    ensures index { result.index ≡ block.index }
    ensures numbers { (n : ℕ) → block_has result n ≡ (block_has block n && not (blocks_have others.now n)) }
{
    Block {
        index: block.index,
        bits: block.bits & !word(others, block.index),
    }
}

/// The numbers of the first that are not in the second.
pub(crate) fn without(
    alloc: Global,
    blocks: &[Block],
    others: &[Block],
) -> Result<Vec<Block>, NoMemory>
    requires blocks { AreBlocks blocks.now }
    requires others { AreBlocks others.now }
    ensures blocks { IfOk result (λ out. AreBlocks out.items) }
    ensures numbers { IfOk result (λ out. (n : ℕ) → blocks_have out.items n ≡ (blocks_have blocks.now n && not (blocks_have others.now n))) }
{
    let mut out = Vec::new(alloc);
    for block in blocks {
        let left = lacking(*block, others);
        if left.bits != 0 {
            out.push(left)?;
        }
    }
    Ok(out)
}

/// The numbers, ascending.
pub(crate) fn list(alloc: Global, blocks: &[Block]) -> Result<Vec<u32>, NoMemory>
    requires { AreBlocks blocks.now }
    ensures { IfOk result (λ out. out.items ≡ members blocks.now) }
{
    let mut out = Vec::new(alloc);
    for block in blocks {
        block::spell(*block, &mut out)?;
    }
    Ok(out)
}

/// Whether there is no number.
pub(crate) fn none(blocks: &[Block]) -> bool
    ensures none { result ≡ true → (n : ℕ) → blocks_have blocks.now n ≡ false }
    ensures some { result ≡ false → (n : ℕ) × (blocks_have blocks.now n ≡ true) }
{
    for block in blocks {
        if !block::is_blank(*block) {
            return false;
        }
    }
    true
}

/// Whether a number is among them.
pub(crate) fn has(blocks: &[Block], number: u32) -> bool
    requires { AreBlocks blocks.now }
    ensures { result ≡ blocks_have blocks.now number }
{
    word(blocks, number / 64) >> (number % 64) & 1 == 1
}

// Adds the numbers of a block where there is room for one more.
fn put_reserved(blocks: &mut Vec<Block>, block: Block)
    requires blocks { AreBlocks blocks.old.items }
    requires index { block.index < 2 ^ 26 }
    requires room { vec_len blocks.old < vec_capacity blocks.old }
    ensures blocks { AreBlocks blocks.new.items }
    ensures numbers { (n : ℕ) → blocks_have blocks.new.items n ≡ (blocks_have blocks.old.items n || block_has block n) }
    ensures len { vec_len blocks.new ≤ vec_len blocks.old + 1 }
    ensures capacity { vec_capacity blocks.new ≡ vec_capacity blocks.old }
{
    let at = place(blocks, block.index);
    if at < blocks.len() && blocks[at].index == block.index {
        blocks[at] = block::joined(blocks[at], block);
        return;
    }
    match blocks.insert(at, block) {
        Ok(()) => (),
        Err(_) => unreachable!(),
    }
}

/// Adds the numbers of a block. A new block moves those behind it.
pub(crate) fn put(blocks: &mut Vec<Block>, block: Block) -> Result<(), NoMemory>
    requires blocks { AreBlocks blocks.old.items }
    requires index { block.index < 2 ^ 26 }
    ensures blocks { AreBlocks blocks.new.items }
    ensures numbers { OnOk result ((n : ℕ) → blocks_have blocks.new.items n ≡ (blocks_have blocks.old.items n || block_has block n)) }
    ensures err { OnErr result (blocks.new.items ≡ blocks.old.items) }
{
    blocks.reserve(1)?;
    put_reserved(blocks, block);
    Ok(())
}

// Adds the numbers of each block, at its place.
fn put_each(blocks: &mut Vec<Block>, others: &[Block]) -> Result<(), NoMemory>
    requires blocks { AreBlocks blocks.old.items }
    requires others { AreBlocks others.now }
    ensures blocks { AreBlocks blocks.new.items }
    ensures numbers { OnOk result ((n : ℕ) → blocks_have blocks.new.items n ≡ (blocks_have blocks.old.items n || blocks_have others.now n)) }
    ensures err { OnErr result (blocks.new.items ≡ blocks.old.items) }
{
    blocks.reserve(others.len())?;
    for other in others {
        put_reserved(blocks, *other);
    }
    Ok(())
}

// As many new blocks move no more where each goes to its place than where all are written anew.
const FEW: usize = 4;

// Whether all blocks come behind the last of others.
fn come_behind(blocks: &[Block], others: &[Block]) -> bool {
    match (blocks.last(), others.first()) {
        (Some(last), Some(first)) => last.index < first.index,
        (Some(_), None) | (None, _) => true,
    }
}

// Whether at most a few blocks have an index that the others have not.
fn lack_few(blocks: &[Block], others: &[Block]) -> bool
    requires { AreBlocks blocks.now }
{
    let mut lacking = 0;
    for other in others {
        let at = place(blocks, other.index);
        if at == blocks.len() || blocks[at].index != other.index {
            lacking += 1;
        }
        if lacking > FEW {
            return false;
        }
    }
    true
}

/// Adds the numbers of the others. Where few of their indexes are new, or all come behind the last, it costs a search for each and a
/// move of what stands behind a new one; else a walk over both lists.
pub(crate) fn put_all(blocks: &mut Vec<Block>, others: &[Block]) -> Result<(), NoMemory>
    requires blocks { AreBlocks blocks.old.items }
    requires others { AreBlocks others.now }
    ensures blocks { AreBlocks blocks.new.items }
    ensures numbers { OnOk result ((n : ℕ) → blocks_have blocks.new.items n ≡ (blocks_have blocks.old.items n || blocks_have others.now n)) }
    ensures err { OnErr result (blocks.new.items ≡ blocks.old.items) }
{
    if others.len() < blocks.len() && (come_behind(blocks, others) || lack_few(blocks, others)) {
        return put_each(blocks, others);
    }
    let alloc = *blocks.allocator();
    *blocks = merge(alloc, blocks, others)?;
    Ok(())
}
