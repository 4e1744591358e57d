ghost use Rattle.std.specs.Prelude.{◌≡◌, IfOk, true};
ghost use Rattle.core_ir.specs.Plain.{stored_of};
ghost use Rattle.artifact_codec.specs.Spelling.{spelling};
ghost use Rattle.artifact_codec.specs.Demands.{meets};

use crate::writing::{push_colours, push_constraints, push_lists};
use crate::writing_summary::push_summary;
use core_ir::Stored;
use std::alloc::Global;
use sv_base::NoMemory;

/// The spelling of a value that meets the demands of its kind.
pub fn encode(alloc: Global, a: &Stored) -> Result<Vec<u8>, NoMemory>
    requires { meets (stored_of a.now) ≡ true }
    ensures { IfOk result (λ bytes. bytes.items ≡ spelling (stored_of a.now)) }
{
    let mut out = Vec::new(alloc);
    match a {
        Stored::Constraints(list) => {
            out.push(1)?;
            push_constraints(&mut out, list)?;
        }
        Stored::Solved(solution) => {
            out.push(2)?;
            push_lists(&mut out, &solution.sets)?;
        }
        Stored::Clusters(clusters) => {
            out.push(3)?;
            push_lists(&mut out, clusters)?;
        }
        Stored::Summary(artifact) => {
            out.push(4)?;
            push_summary(&mut out, artifact)?;
        }
        Stored::Colours(list) => {
            out.push(5)?;
            push_colours(&mut out, list)?;
        }
    }
    Ok(out)
}
