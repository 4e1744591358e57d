//! The digests of a source and its options, by which a database is told from that of another source. Each is SHA-256 over
//! numbers of four bytes, the first byte the greatest, and texts behind their lengths.
#![tactic(auto)]

ghost use Rattle.std.specs.Prelude.{◌≡◌, ◌++◌, ◌==◌, map, length, IfOk, OnOk};
ghost use Rattle.std.specs.List.{flat_map, slice_split};
ghost use Rattle.source_digest.specs.Message.{number, sized, sized_file, files_text, message, old_message, old_of, digests_of};

use journal::Digests;
use sha2::{Digest, Sha256};
use std::alloc::{AllocError, Global};
use sv_base::NoMemory;

/// A file as a digest takes it.
#[derive(Clone, Copy)]
pub struct Named<'a> {
    pub name: &'a [u8],
    pub bytes: &'a [u8],
}

fn push_number(n: u32, text: &mut Vec<u8>) -> Result<(), AllocError>
    ensures { OnOk result (text.new.items ≡ text.old.items ++ number n) }
{
    text.extend_from_slice(&n.to_be_bytes())
}

// How many there are, where that is a number of four bytes.
fn count_of(length: usize) -> Result<u32, NoMemory>
    ensures { IfOk result (λ n. n ≡ length) }
{
    match u32::try_from(length) {
        Ok(count) => Ok(count),
        Err(_) => Err(NoMemory),
    }
}

// A text behind its length.
#[tactic(auto, unfolding(crate::specs::Message::sized))]
fn push_sized(bytes: &[u8], text: &mut Vec<u8>) -> Result<(), NoMemory>
    ensures { OnOk result (text.new.items ≡ text.old.items ++ sized bytes.now) }
{
    push_number(count_of(bytes.len())?, text)?;
    text.extend_from_slice(bytes)?;
    Ok(())
}

#[tactic(auto, unfolding(crate::specs::Message::sized_file))]
fn push_file(file: &Named, text: &mut Vec<u8>) -> Result<(), NoMemory>
    ensures { OnOk result (text.new.items ≡ text.old.items ++ sized_file file.now) }
{
    push_sized(file.name, text)?;
    push_sized(file.bytes, text)
}

fn push_files(files: &[Named], text: &mut Vec<u8>) -> Result<(), NoMemory>
    ensures { OnOk result (text.new.items ≡ text.old.items ++ flat_map sized_file files.now) }
{
    for file in files {
        push_file(file, text)?;
    }
    Ok(())
}

#[tactic(auto, unfolding(crate::specs::Message::files_text))]
fn push_all_files(files: &[Named], text: &mut Vec<u8>) -> Result<(), NoMemory>
    ensures { OnOk result (text.new.items ≡ text.old.items ++ files_text files.now) }
{
    push_number(count_of(files.len())?, text)?;
    push_files(files, text)
}

fn push_names(names: &[&[u8]], text: &mut Vec<u8>) -> Result<(), NoMemory>
    ensures { OnOk result (text.new.items ≡ text.old.items ++ flat_map sized (map (λ s. s.now) names.now)) }
{
    for name in names {
        push_sized(name, text)?;
    }
    Ok(())
}

// The names that commas separate.
fn names_of<'a>(alloc: Global, entry: &'a [u8]) -> Result<Vec<&'a [u8]>, AllocError>
    ensures { IfOk result (λ v. map (λ s. s.now) v.items ≡ slice_split (λ b. b == 44) entry.now) }
{
    entry.split(|byte| *byte == b',').collect(alloc)
}

// What the current digest is of: entries by name, in the numbered form of this kind.
#[tactic(auto, unfolding(crate::specs::Message::message))]
fn message(
    alloc: Global,
    kind: u32,
    files: &[Named],
    names: &[&[u8]],
    rounds: u32,
) -> Result<Vec<u8>, NoMemory>
    ensures { IfOk result (λ text. text.items ≡ message kind files.now (map (λ s. s.now) names.now) rounds) }
{
    let mut text = Vec::new(alloc);
    push_number(kind, &mut text)?;
    push_all_files(files, &mut text)?;
    push_number(count_of(names.len())?, &mut text)?;
    push_names(names, &mut text)?;
    push_number(rounds, &mut text)?;
    Ok(text)
}

// What the digest of version 1 is of.
#[tactic(auto, unfolding(crate::specs::Message::old_message))]
fn old_message(
    alloc: Global,
    files: &[Named],
    name: &[u8],
    rounds: u32,
) -> Result<Vec<u8>, NoMemory>
    ensures { IfOk result (λ text. text.items ≡ old_message files.now name.now rounds) }
{
    let mut text = Vec::new(alloc);
    push_number(1, &mut text)?;
    push_all_files(files, &mut text)?;
    push_sized(name, &mut text)?;
    push_number(rounds, &mut text)?;
    Ok(text)
}

// The digest of version 1, where there is one entry alone.
fn old_digest(
    alloc: Global,
    files: &[Named],
    names: &[&[u8]],
    rounds: u32,
) -> Result<Option<[u8; 32]>, NoMemory>
    ensures { IfOk result (λ digest. digest ≡ old_of files.now (map (λ s. s.now) names.now) rounds) }
{
    match names {
        [name] => {
            let text = old_message(alloc, files, name, rounds)?;
            Ok(Some(Sha256::digest(text.as_slice())))
        }
        _ => Ok(None),
    }
}

/// The digests of these files, in their order, from the entries that commas separate, with at most so many rising rounds.
/// `redirected` says whether a call of a memory function has got a body: version 1 knew none of these, and their form of
/// the digest is another. `NoMemory` comes also where a text is longer than 4,294,967,295 bytes.
pub fn digests(
    alloc: Global,
    files: &[Named],
    entry: &[u8],
    rounds: u32,
    redirected: bool,
) -> Result<Digests, NoMemory>
    ensures { IfOk result (λ d. d ≡ digests_of files.now entry.now rounds redirected) }
{
    let names = names_of(alloc, entry)?;
    let kind = if redirected { 3 } else { 2 };
    let text = message(alloc, kind, files, &names, rounds)?;
    let current = Sha256::digest(text.as_slice());
    drop(text);
    let old = if redirected {
        None
    } else {
        old_digest(alloc, files, &names, rounds)?
    };
    Ok(Digests { current, old })
}
