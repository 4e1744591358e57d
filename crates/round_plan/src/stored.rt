use crate::Plan;
use artifact_codec::decode;
use core_ir::Stored;
use std::alloc::Global;
use sv_base::{Colour, NoMemory, SiteId};
use sv_outside::Disk;
use tables::Tables;

// Adds the colours that a task of the last round gives.
fn add_colours(
    alloc: Global,
    all: &mut Vec<(SiteId, Colour)>,
    artifact: Option<&[u8]>,
) -> Result<(), NoMemory> {
    let Some(bytes) = artifact else {
        return Ok(());
    };
    match decode(alloc, bytes)? {
        Some(Stored::Colours(list)) => {
            all.extend_from_slice(&list)?;
            Ok(())
        }
        _ => Ok(()),
    }
}

/// The colours that the last round of finished tables gives, function by function.
pub fn stored_colours<D: Disk>(
    alloc: Global,
    tables: &Tables<D, Plan>,
) -> Result<Vec<(SiteId, Colour)>, NoMemory> {
    let mut all = Vec::new(alloc);
    let round = tables.round();
    for task in 0..tables.tasks() {
        add_colours(alloc, &mut all, tables.artifact(round, task))?;
    }
    Ok(all)
}
