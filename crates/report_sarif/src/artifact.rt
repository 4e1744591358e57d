use crate::words::{digest_of, uri_of};
use serde_json::{Value, json};
use std::alloc::{AllocError, Global};

/// A source of the report.
#[derive(Clone, Copy)]
pub struct Artifact<'a> {
    pub name: &'a [u8],
    pub bytes: &'a [u8],
}

/// The artifact with its length and its digest (section 3.24 of the format).
pub(crate) fn artifact_value(alloc: Global, artifact: &Artifact) -> Result<Value, AllocError> {
    let uri = uri_of(alloc, artifact.name)?;
    let digest = digest_of(alloc, artifact.bytes)?;
    let length = artifact.bytes.len();
    let place = json!(in alloc; {"uri": uri.as_str()})?;
    let hashes = json!(in alloc; {"sha-256": digest.as_str()})?;
    json!(in alloc; {"location": place, "length": length, "hashes": hashes})
}
