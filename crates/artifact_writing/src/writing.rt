ghost use Rattle.std.specs.Prelude.{◌≡◌, IfOk, true};
ghost use Rattle.core_ir.specs.BoundsFit.{ClustersFit};
ghost use Rattle.core_ir.specs.Plain.{Clusters, lists_of, stored_of};
ghost use Rattle.artifact_codec.specs.Demands.{meets};
ghost use Rattle.artifact_codec.specs.Spelling.{spelling};
ghost use Rattle.artifact_writing.specs.Marks.{IsNoMark};

use crate::demands::{are_colours, are_constraints, are_sets};
use crate::summaries::is_summary;
use artifact_codec::{clusters_that_fit_meet_the_demands, encode, six_is_no_spelling};
use core_ir::Stored;
use std::alloc::Global;
use sv_base::NoMemory;

// Clusters are written by `write_clusters`.
fn can_be_written(stored: &Stored) -> bool
    ensures { result ≡ true → meets (stored_of stored.now) ≡ true }
{
    match stored {
        Stored::Constraints(list) => are_constraints(list),
        Stored::Solved(solution) => are_sets(&solution.sets),
        Stored::Clusters(_) => false,
        Stored::Summary(artifact) => is_summary(artifact),
        Stored::Colours(list) => are_colours(list),
    }
}

/// The spelling of an artifact. Where it has none, as where it has more parts than can be counted, that is want of memory too.
pub fn write(alloc: Global, stored: &Stored) -> Result<Vec<u8>, NoMemory>
    ensures spelling { IfOk result (λ bytes. bytes.items ≡ spelling (stored_of stored.now)) }
    ensures no_mark { IfOk result (λ bytes. IsNoMark bytes.items) }
{
    if !can_be_written(stored) {
        return Err(NoMemory);
    }
    six_is_no_spelling();
    encode(alloc, stored)
}

/// The spelling of the clusters of `count` registers.
pub fn write_clusters(
    alloc: Global,
    count: u32,
    clusters: Vec<Vec<u32>>,
) -> Result<Vec<u8>, NoMemory>
    requires { ClustersFit count (lists_of clusters.items) }
    ensures spelling { IfOk result (λ bytes. bytes.items ≡ spelling (Clusters (lists_of clusters.items))) }
    ensures no_mark { IfOk result (λ bytes. IsNoMark bytes.items) }
{
    clusters_that_fit_meet_the_demands();
    six_is_no_spelling();
    encode(alloc, &Stored::Clusters(clusters))
}
