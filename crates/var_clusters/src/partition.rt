ghost use Rattle.std.specs.Prelude.{◌≡◌, ◌≢◌, ◌<◌, IfOk, OnOk, All, length, map, ◌∷◌, []};
ghost use Rattle.std.specs.List.{fold, range_with_len};
ghost use Rattle.core_ir.specs.Plain.{lists_of};
ghost use Rattle.var_clusters.specs.Clusters.{moved, join};
ghost use Rattle.var_clusters.specs.computed.Partition.{IsPartition, placed};

use std::alloc::Global;
use std::mem;
use sv_base::NoMemory;

/// By register the first register of its cluster, and by that one the registers of the cluster.
#[derive(Drop)]
pub(crate) struct Partition {
    pub(crate) firsts: Vec<u32>,
    pub(crate) members: Vec<Vec<u32>>,
}

// The registers go to a cluster.
fn place(firsts: &mut Vec<u32>, registers: &[u32], to: u32)
    requires { All (λ r. r < length firsts.old.items) registers.now }
    ensures { firsts.new.items ≡ placed to registers.now firsts.old.items }
{
    for r in registers {
        firsts[*r as usize] = to;
    }
}

fn lists_of_one(alloc: Global, count: u32) -> Result<Vec<Vec<u32>>, NoMemory>
    ensures { IfOk result (λ lists. lists_of lists.items ≡ map (λ r. r ∷ []) (range_with_len 0 count)) }
{
    let mut lists = Vec::new(alloc);
    for r in 0..count {
        let mut one = Vec::new(alloc);
        one.push(r)?;
        lists.push(one)?;
    }
    Ok(lists)
}

fn numbers(alloc: Global, count: u32) -> Result<Vec<u32>, NoMemory>
    ensures { IfOk result (λ numbers. numbers.items ≡ range_with_len 0 count) }
{
    let mut numbers = Vec::new(alloc);
    for r in 0..count {
        numbers.push(r)?;
    }
    Ok(numbers)
}

impl Partition {
    /// Each register alone.
    pub(crate) fn alone(alloc: Global, count: u32) -> Result<Partition, NoMemory>
        ensures { IfOk result (λ p. IsPartition p × (p.firsts.items ≡ range_with_len 0 count)) }
    {
        let firsts = numbers(alloc, count)?;
        let members = lists_of_one(alloc, count)?;
        Ok(Partition { firsts, members })
    }

    // The registers of one cluster go to another.
    fn unite(&mut self, alloc: Global, low: u32, high: u32) -> Result<(), NoMemory>
        requires partition { IsPartition self.old }
        requires low { low < length self.old.firsts.items }
        requires high { high < length self.old.firsts.items }
        requires differ { low ≢ high }
        ensures { OnOk result (IsPartition self.new × (self.new.firsts.items ≡ moved high low self.old.firsts.items)) }
    {
        let mut more = mem::replace(&mut self.members[high as usize], Vec::new(alloc));
        place(&mut self.firsts, &more, low);
        self.members[low as usize].append(&mut more)?;
        Ok(())
    }

    /// Joins the clusters of two registers, unless they have more than 16 registers together.
    pub(crate) fn join(&mut self, alloc: Global, a: u32, b: u32) -> Result<(), NoMemory>
        requires { IsPartition self.old }
        ensures { OnOk result (IsPartition self.new × (self.new.firsts.items ≡ join self.old.firsts.items (a, b))) }
    {
        let (Some(k), Some(l)) = (
            self.firsts.get(a as usize).copied(),
            self.firsts.get(b as usize).copied(),
        ) else {
            return Ok(());
        };
        if k == l || self.members[k as usize].len() + self.members[l as usize].len() > 16 {
            return Ok(());
        }
        self.unite(alloc, k.min(l), k.max(l))
    }
}
