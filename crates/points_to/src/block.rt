ghost use Rattle.std.specs.Prelude.{◌≡◌, ℕ, ◌+◌, ◌*◌, ◌/◌, ◌%◌, ◌^◌, ◌<◌, ◌==◌, ◌||◌, bit_or, ◌++◌, OnOk, true, false};
ghost use Rattle.std.specs.Int.{bit_at};
ghost use Rattle.points_to.specs.computed.Blocks.{block_has, block_members};

use sv_base::NoMemory;

/// Up to 64 neighbouring numbers: bit k stands for the number `64 * index + k`.
#[derive(Clone, Copy)]
pub(crate) struct Block {
    pub index: u32,
    pub bits: u64,
}

/// The block of one number.
pub(crate) fn block_of(number: u32) -> Block
    ensures index { result.index ≡ number / 64 }
    ensures numbers { (n : ℕ) → block_has result n ≡ (n == number) }
{
    Block {
        index: number / 64,
        bits: 1 << (number % 64),
    }
}

/// Whether a block has no number.
pub(crate) fn is_blank(block: Block) -> bool
    ensures blank { result ≡ true → (n : ℕ) → block_has block n ≡ false }
    ensures some { result ≡ false → (n : ℕ) × (block_has block n ≡ true) }
{
    block.bits == 0
}

/// Two blocks of one index as one.
pub(crate) fn joined(left: Block, right: Block) -> Block
    requires { left.index ≡ right.index }
    ensures index { result.index ≡ left.index }
    ensures numbers { (n : ℕ) → block_has result n ≡ (block_has left n || block_has right n) }
{
    Block {
        index: left.index,
        bits: left.bits | right.bits,
    }
}

/// Appends the numbers of a block.
pub(crate) fn spell(block: Block, out: &mut Vec<u32>) -> Result<(), NoMemory>
    requires { block.index < 2 ^ 26 }
    ensures { OnOk result (out.new.items ≡ out.old.items ++ block_members block.index block.bits) }
{
    let mut rest = block.bits;
    while rest != 0 {
        let place = rest.trailing_zeros();
        out.push(64 * block.index + place)?;
        rest &= !(1 << place);
    }
    Ok(())
}
