ghost use Rattle.std.specs.Prelude.{◌≡◌, ◌↔◌, IsTrue};
ghost use Rattle.core_ir.specs.Plain.{PlainStored};
ghost use Rattle.artifact_codec.specs.Spelling.{kind_of};
ghost use Rattle.artifact_codec.specs.Demands.{IsSpellingOf};
ghost use Rattle.artifact_codec.specs.computed.Reading.{Reads};
ghost use Rattle.artifact_codec.specs.computed.Checking.{clusters_past, content_past, is_content, is_spelling};

use crate::checking::{clusters_in_place, colours_past, constraints_past, sets_past};
use crate::checking_summary::summary_past;
use crate::refusal::Malformed;
use crate::window::registers_distinct;

#[tactic(auto, unfolding(crate::specs::computed::Checking::clusters_past))]
fn clusters_past(bytes: &[u8]) -> Result<&[u8], Malformed>
    ensures { Reads (λ rest. rest.now) result (clusters_past bytes.now) }
{
    let rest = clusters_in_place(bytes)?;
    if !registers_distinct(bytes) {
        return Err(Malformed);
    }
    Ok(rest)
}

#[tactic(auto, unfolding(crate::specs::computed::Checking::content_past))]
fn content_past(kind: u8, bytes: &[u8]) -> Result<&[u8], Malformed>
    ensures { Reads (λ rest. rest.now) result (content_past kind bytes.now) }
{
    match kind {
        1 => constraints_past(bytes),
        2 => sets_past(bytes),
        3 => clusters_past(bytes),
        4 => summary_past(bytes),
        5 => colours_past(bytes),
        _ => Err(Malformed),
    }
}

#[tactic(auto, unfolding(crate::specs::computed::Checking::is_content))]
pub(crate) fn is_content(kind: u8, bytes: &[u8]) -> bool
    ensures { result ≡ is_content kind bytes.now }
{
    match content_past(kind, bytes) {
        Ok(rest) => rest.is_empty(),
        Err(_) => false,
    }
}

fn is_spelling(kind: u8, bytes: &[u8]) -> bool
    ensures { result ≡ is_spelling kind bytes.now }
{
    match bytes {
        [first, rest @ ..] => *first == kind && is_content(kind, rest),
        [] => false,
    }
}

/// Whether the bytes are the spelling of a value of this kind, from 1 to 5. Takes no memory.
pub fn spells(kind: u8, bytes: &[u8]) -> bool
    ensures { IsTrue result ↔ ((v : PlainStored) × (kind_of v ≡ kind) × IsSpellingOf v bytes.now) }
{
    is_spelling(kind, bytes)
}
