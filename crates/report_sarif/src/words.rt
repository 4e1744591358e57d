use percent_encoding::{NON_ALPHANUMERIC, percent_encode};
use sha2::{Digest, Sha256};
use std::alloc::{AllocError, Global};

/// The name of a file as a relative reference of RFC 3986, in which all but letters, digits and `-._~/` is escaped.
pub(crate) fn uri_of(alloc: Global, name: &[u8]) -> Result<String, AllocError> {
    let mut uri = String::new(alloc);
    let escaped = NON_ALPHANUMERIC
        .remove(b'-')
        .remove(b'.')
        .remove(b'_')
        .remove(b'~')
        .remove(b'/');
    percent_encode(name, escaped).append_to(&mut uri)?;
    Ok(uri)
}

/// Bytes as text; what is no UTF-8 in them becomes U+FFFD.
pub(crate) fn text_of(alloc: Global, bytes: &[u8]) -> Result<String, AllocError> {
    String::from_utf8_lossy(alloc, bytes)
}

/// The SHA-256 digest in hexadecimal.
pub(crate) fn digest_of(alloc: Global, bytes: &[u8]) -> Result<String, AllocError> {
    hex::encode(alloc, Sha256::digest(bytes).as_slice())
}
