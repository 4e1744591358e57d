//! The lines that refuse a database, and the words of a trial.
ghost use Rattle.std.specs.Prelude.{◌≡◌, IfOk};
ghost use Rattle.survey_check.specs.Texts.{not_database_text, other_source_text, numbered, damaged_text, full_text, trial_words};

use hex::encode;
use itoa::Buffer;
use std::alloc::Global;
use sv_base::NoMemory;

// Words and a number behind them, on a line.
#[tactic(auto, unfolding(crate::specs::Texts::numbered))]
fn numbered(alloc: Global, words: &[u8], number: u64) -> Result<Vec<u8>, NoMemory>
    ensures { IfOk result (λ line. line.items ≡ numbered words.now number) }
{
    let mut digits = Buffer::new();
    let mut line = Vec::from_slice(alloc, words)?;
    line.extend_from_slice(digits.format(number).as_bytes())?;
    line.extend_from_slice(b"\n")?;
    Ok(line)
}

pub(crate) fn not_a_database(alloc: Global) -> Result<Vec<u8>, NoMemory>
    ensures { IfOk result (λ line. line.items ≡ not_database_text) }
{
    Ok(Vec::from_slice(alloc, b"surveyor: not a database\n")?)
}

pub(crate) fn damaged(alloc: Global, at: u64) -> Result<Vec<u8>, NoMemory>
    ensures { IfOk result (λ line. line.items ≡ damaged_text at) }
{
    numbered(alloc, b"surveyor: database damaged at ", at)
}

pub(crate) fn full(alloc: Global, size: u64) -> Result<Vec<u8>, NoMemory>
    ensures { IfOk result (λ line. line.items ≡ full_text size) }
{
    numbered(alloc, b"surveyor: database full at ", size)
}

#[tactic(auto, unfolding(crate::specs::Texts::other_source_text))]
pub(crate) fn of_another_source(
    alloc: Global,
    stored: &[u8],
    wanted: &[u8],
) -> Result<Vec<u8>, NoMemory>
    ensures { IfOk result (λ line. line.items ≡ other_source_text stored.now wanted.now) }
{
    let stored = encode(alloc, stored)?;
    let wanted = encode(alloc, wanted)?;
    let mut line = Vec::from_slice(alloc, b"surveyor: database of another source ")?;
    line.extend_from_slice(stored.as_bytes())?;
    line.extend_from_slice(b" wanted ")?;
    line.extend_from_slice(wanted.as_bytes())?;
    line.extend_from_slice(b"\n")?;
    Ok(line)
}

/// What stands before the totals of a trial.
#[tactic(auto, unfolding(crate::specs::Texts::trial_words))]
pub(crate) fn trial_words(alloc: Global, number: u32, functions: u32) -> Result<Vec<u8>, NoMemory>
    ensures { IfOk result (λ line. line.items ≡ trial_words number functions) }
{
    let mut number_digits = Buffer::new();
    let mut functions_digits = Buffer::new();
    let mut line = Vec::from_slice(alloc, b"trial ")?;
    line.extend_from_slice(number_digits.format(number).as_bytes())?;
    line.extend_from_slice(b" ")?;
    line.extend_from_slice(functions_digits.format(functions).as_bytes())?;
    line.extend_from_slice(b" ")?;
    Ok(line)
}
