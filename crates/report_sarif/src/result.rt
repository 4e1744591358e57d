use crate::words::{digest_of, text_of, uri_of};
use report_view::{Site, whole_key};
use serde_json::{Value, json};
use std::alloc::{AllocError, Global};
use sv_base::{Colour, NoMemory};

/// The result of a site that is orange or red (section 3.27 of the format).
pub(crate) fn result_value(alloc: Global, site: &Site) -> Result<Value, NoMemory> {
    let digest = digest_of(alloc, &whole_key(alloc, site)?)?;
    let prints = json!(in alloc; {"siteKey/v1": digest.as_str()})?;
    let message = message(alloc, site)?;
    let location = location(alloc, site)?;
    let suppressions = suppressions(alloc, site)?;
    let rule = rule(site.line.colour);
    let level = level(site.line.colour);
    Ok(json!(in alloc; {
        "ruleId": rule,
        "level": level,
        "message": message,
        "locations": [location],
        "partialFingerprints": prints,
        "suppressions": suppressions
    })?)
}

fn rule(colour: Colour) -> &'static str {
    match colour {
        Colour::Red => "red",
        _ => "orange",
    }
}

fn level(colour: Colour) -> &'static str {
    match colour {
        Colour::Red => "error",
        _ => "warning",
    }
}

fn message(alloc: Global, site: &Site) -> Result<Value, AllocError> {
    let function = text_of(alloc, site.line.function.as_slice())?;
    let text = match site.line.colour {
        Colour::Red => "No run goes on past this access in function ",
        _ => "This access may leave its array, in function ",
    };
    let mut whole = String::from_str(alloc, text)?;
    whole.push_str(function.as_str())?;
    whole.push_str(".")?;
    json!(in alloc; {"text": whole.as_str()})
}

fn location(alloc: Global, site: &Site) -> Result<Value, AllocError> {
    let uri = uri_of(alloc, site.line.file.as_slice())?;
    let function = text_of(alloc, site.line.function.as_slice())?;
    let artifact = json!(in alloc; {"uri": uri.as_str()})?;
    let region = region(alloc, site)?;
    let physical = json!(in alloc; {"artifactLocation": artifact, "region": region})?;
    let logical = json!(in alloc; {"name": function.as_str(), "kind": "function"})?;
    json!(in alloc; {"physicalLocation": physical, "logicalLocations": [logical]})
}

/// The place and the text of the line; lines and columns count from 1 (section 3.30). A report counts columns in bytes and
/// the log in characters, so a line that is not of ASCII has no column.
fn region(alloc: Global, site: &Site) -> Result<Value, AllocError> {
    let line = site.line.line.max(1);
    let col = site.line.col.max(1);
    let text = text_of(alloc, site.text)?;
    let snippet = json!(in alloc; {"text": text.as_str()})?;
    if !site.text.is_ascii() {
        return json!(in alloc; {"startLine": line, "snippet": snippet});
    }
    json!(in alloc; {"startLine": line, "startColumn": col, "snippet": snippet})
}

/// The remark of a reviewer, where there is one (section 3.35).
fn suppressions(alloc: Global, site: &Site) -> Result<Value, AllocError> {
    let Some(remark) = site.remark else {
        return json!(in alloc; []);
    };
    let text = text_of(alloc, remark)?;
    json!(in alloc; [{"kind": "external", "status": "accepted", "justification": text.as_str()}])
}
