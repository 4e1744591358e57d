use crate::artifact::{Artifact, artifact_value};
use crate::envelope::{END, RESULTS, TOOL};
use crate::result::result_value;
use report_view::{Site, is_alarm};
use serde_json::Value;
use std::alloc::Global;
use sv_base::NoMemory;

/// The report as a log of SARIF: a result for each site that is orange or red, and the sources with their digests.
pub fn sarif_text(
    alloc: Global,
    sites: &[Site],
    artifacts: &[Artifact],
) -> Result<Vec<u8>, NoMemory> {
    let mut text = Vec::new(alloc);
    text.extend_from_slice(TOOL.as_bytes())?;
    push_artifacts(alloc, &mut text, artifacts)?;
    text.extend_from_slice(RESULTS.as_bytes())?;
    push_results(alloc, &mut text, sites)?;
    text.extend_from_slice(END.as_bytes())?;
    Ok(text)
}

fn push_artifacts(
    alloc: Global,
    text: &mut Vec<u8>,
    artifacts: &[Artifact],
) -> Result<(), NoMemory> {
    let mut is_first = true;
    for artifact in artifacts {
        let value = artifact_value(alloc, artifact)?;
        push_item(alloc, text, is_first, &value)?;
        is_first = false;
    }
    Ok(())
}

fn push_results(alloc: Global, text: &mut Vec<u8>, sites: &[Site]) -> Result<(), NoMemory> {
    let mut is_first = true;
    for site in sites {
        if is_alarm(site.line.colour) {
            let value = result_value(alloc, site)?;
            push_item(alloc, text, is_first, &value)?;
            is_first = false;
        }
    }
    Ok(())
}

/// Appends a value, with a comma before it where it is not the first.
fn push_item(
    alloc: Global,
    text: &mut Vec<u8>,
    is_first: bool,
    value: &Value,
) -> Result<(), NoMemory> {
    if !is_first {
        text.push(b',')?;
    }
    let item = value.to_string(alloc)?;
    text.extend_from_slice(item.as_bytes())?;
    Ok(())
}
