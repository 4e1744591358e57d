ghost use Rattle.std.specs.Prelude.{◌≡◌, ◌<◌, ◌^◌, IfOk, All, length, map, [], filter};
ghost use Rattle.std.specs.List.{fold, range_with_len};
ghost use Rattle.core_ir.specs.BoundsFit.{ClustersFit};
ghost use Rattle.core_ir.specs.Plain.{lists_of};
ghost use Rattle.var_clusters.specs.Clusters.{clusters_of, has_members, join, members};
ghost use Rattle.var_clusters.specs.computed.Partition.{IsPartition};

use crate::pairs::pairs;
use crate::partition::Partition;
use core_ir::Function;
use std::alloc::Global;
use sv_base::NoMemory;

// The partition after all pairs.
fn joined(alloc: Global, count: u32, pairs: &[(u32, u32)]) -> Result<Partition, NoMemory>
    ensures { IfOk result (λ p. IsPartition p × (p.firsts.items ≡ fold join (range_with_len 0 count) pairs.now)) }
{
    let mut partition = Partition::alone(alloc, count)?;
    for pair in pairs {
        partition.join(alloc, pair.0, pair.1)?;
    }
    Ok(partition)
}

fn empty_lists(alloc: Global, count: usize) -> Result<Vec<Vec<u32>>, NoMemory>
    ensures { IfOk result (λ lists. lists_of lists.items ≡ map (members []) (range_with_len 0 count)) }
{
    let mut lists = Vec::new(alloc);
    for _ in 0..count {
        lists.push(Vec::new(alloc))?;
    }
    Ok(lists)
}

// By register the registers whose clusters it is the first of, ascending.
fn gathered(alloc: Global, firsts: &[u32]) -> Result<Vec<Vec<u32>>, NoMemory>
    requires short { length firsts.now < 2 ^ 32 }
    requires below { All (λ c. c < length firsts.now) firsts.now }
    ensures { IfOk result (λ lists. lists_of lists.items ≡ map (members firsts.now) (range_with_len 0 (length firsts.now))) }
{
    let mut lists = empty_lists(alloc, firsts.len())?;
    for r in 0..firsts.len() {
        lists[firsts[r] as usize].push(r as u32)?;
    }
    Ok(lists)
}

fn kept(alloc: Global, lists: Vec<Vec<u32>>) -> Result<Vec<Vec<u32>>, NoMemory>
    ensures { IfOk result (λ found. lists_of found.items ≡ filter has_members (lists_of lists.items)) }
{
    let mut found = Vec::new(alloc);
    for list in lists {
        if !list.is_empty() {
            found.push(list)?;
        }
    }
    Ok(found)
}

/// The clusters of a function's registers, in the order of their first registers, each ascending. Registers of one cluster share a
/// matrix in the analysis.
pub fn clusters(alloc: Global, f: &Function) -> Result<Vec<Vec<u32>>, NoMemory>
    requires { length f.now.registers.items < 2 ^ 32 }
    ensures exact { IfOk result (λ found. lists_of found.items ≡ clusters_of f.now) }
    ensures fits { IfOk result (λ found. ClustersFit (length f.now.registers.items) (lists_of found.items)) }
{
    let pairs = pairs(alloc, f)?;
    let partition = joined(alloc, f.registers.len() as u32, &pairs)?;
    let lists = gathered(alloc, &partition.firsts)?;
    kept(alloc, lists)
}
