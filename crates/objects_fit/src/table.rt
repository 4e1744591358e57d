use crate::extents::extents_of;
use crate::leaves::leaves_fit;
use crate::nodes::Nodes;
use crate::regions::regions_fit;
use crate::rivals::rivals_fit;
use crate::trees::{Layouts, have_one_tree};
use core_ir::CoreProgram;
use std::alloc::Global;
use sv_base::NoMemory;

/// Whether the objects of a program are laid out as C has it, those of one type have one tree, and the class table has their regions
/// and leaves with their rivals. `nodes` are those of the program's objects.
pub fn table_fits(alloc: Global, core: &CoreProgram, nodes: &Nodes) -> Result<bool, NoMemory> {
    let Some(extents) = extents_of(alloc, nodes)? else {
        return Ok(false);
    };
    let Some(layouts) = Layouts::of(alloc, nodes)? else {
        return Ok(false);
    };
    if !have_one_tree(nodes, &layouts) || !leaves_fit(nodes, &core.classes.leaves) {
        return Ok(false);
    }
    Ok(
        regions_fit(alloc, core, nodes, &layouts, &extents)?
            && rivals_fit(alloc, nodes, &core.classes.rivals)?,
    )
}
