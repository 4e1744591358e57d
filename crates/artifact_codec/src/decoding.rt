ghost use Rattle.std.specs.Prelude.{◌≡◌, IfOk, IfSome, IfNone};
ghost use Rattle.core_ir.specs.Plain.{PlainStored, stored_of};
ghost use Rattle.artifact_codec.specs.Demands.{IsSpellingOf};
ghost use Rattle.artifact_codec.specs.computed.Reading.{Gives, GivesOption, content_at};
ghost use Rattle.artifact_codec.specs.computed.Checking.{decoded};

use crate::reading::{colours, constraints, lists};
use crate::reading_summary::summary;
use crate::refusal::Refusal;
use crate::spelled::is_content;
use core_ir::{Solution, Stored};
use std::alloc::Global;
use sv_base::NoMemory;

#[tactic(auto, unfolding(crate::specs::computed::Reading::content_at))]
fn content(alloc: Global, kind: u8, bytes: &[u8]) -> Result<Stored, Refusal>
    ensures { Gives stored_of result (content_at kind bytes.now) }
{
    match kind {
        1 => {
            let (list, _) = constraints(alloc, bytes)?;
            Ok(Stored::Constraints(list))
        }
        2 => {
            let (sets, _) = lists(alloc, bytes)?;
            Ok(Stored::Solved(Solution { sets }))
        }
        3 => {
            let (clusters, _) = lists(alloc, bytes)?;
            Ok(Stored::Clusters(clusters))
        }
        4 => {
            let (artifact, _) = summary(alloc, bytes)?;
            Ok(Stored::Summary(artifact))
        }
        5 => {
            let (list, _) = colours(alloc, bytes)?;
            Ok(Stored::Colours(list))
        }
        _ => Err(Refusal::Malformed),
    }
}

fn some_content(alloc: Global, kind: u8, bytes: &[u8]) -> Result<Option<Stored>, NoMemory>
    ensures { GivesOption stored_of result (content_at kind bytes.now) }
{
    match content(alloc, kind, bytes) {
        Ok(stored) => Ok(Some(stored)),
        Err(Refusal::Malformed) => Ok(None),
        Err(Refusal::NoMemory) => Err(NoMemory),
    }
}

fn decoded(alloc: Global, bytes: &[u8]) -> Result<Option<Stored>, NoMemory>
    ensures { GivesOption stored_of result (decoded bytes.now) }
{
    match bytes {
        [kind, rest @ ..] => {
            if !is_content(*kind, rest) {
                return Ok(None);
            }
            some_content(alloc, *kind, rest)
        }
        [] => Ok(None),
    }
}

/// The value that the bytes spell, all of the bytes, or none where they are no spelling.
pub fn decode(alloc: Global, bytes: &[u8]) -> Result<Option<Stored>, NoMemory>
    ensures found { IfOk result (λ o. IfSome o (λ v. IsSpellingOf (stored_of v) bytes.now)) }
    ensures none { IfOk result (λ o. IfNone o ((v : PlainStored) → IsSpellingOf v bytes.now → ⊥)) }
{
    decoded(alloc, bytes)
}
