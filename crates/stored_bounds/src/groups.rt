use std::alloc::Global;
use sv_base::NoMemory;

fn is_seen(r: u32, parameters: u32, returned: Option<u32>) -> bool {
    r < parameters || Some(r) == returned
}

fn group(
    alloc: Global,
    cluster: &[u32],
    parameters: u32,
    returned: Option<u32>,
) -> Result<Vec<u32>, NoMemory> {
    let mut group = Vec::new(alloc);
    for r in cluster {
        if is_seen(*r, parameters, returned) {
            group.push(*r)?;
        }
    }
    Ok(group)
}

/// By cluster its entry registers and the result register; clusters without any are left out.
pub fn result_groups(
    alloc: Global,
    clusters: &[Vec<u32>],
    parameters: u32,
    returned: Option<u32>,
) -> Result<Vec<Vec<u32>>, NoMemory> {
    let mut groups = Vec::new(alloc);
    for cluster in clusters {
        let group = group(alloc, cluster, parameters, returned)?;
        if !group.is_empty() {
            groups.push(group)?;
        }
    }
    Ok(groups)
}

/// By cluster its entry registers; clusters without any are left out.
pub fn entry_groups(
    alloc: Global,
    clusters: &[Vec<u32>],
    parameters: u32,
) -> Result<Vec<Vec<u32>>, NoMemory> {
    result_groups(alloc, clusters, parameters, None)
}
