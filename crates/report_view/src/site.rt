ghost use Rattle.std.specs.Prelude.{◌≡◌, ◌++◌, IfOk, OnOk, map, All, option_map};
ghost use Rattle.report_view.specs.Sites.{key_text, whole_key};

use crate::letters::push_pieces;
use crate::notes::Note;
use crate::sources::{Sources, text_at};
use itoa::Buffer;
use report::Line;
use std::alloc::Global;
use std::collections::HashMap;
use sv_base::NoMemory;

/// A site of a report, with what a reviewer has beside it.
#[derive(Drop)]
pub struct Site<'a> {
    pub line: &'a Line,
    /// The text of its line, without white space around it; empty where the sources have no such line.
    pub text: &'a [u8],
    /// `FILE FUNCTION TEXT`: it names the site in notes, and stays the same where lines move.
    pub key: Vec<u8>,
    /// How many sites of the report before it have the same key.
    pub ordinal: usize,
    /// What a reviewer noted, `reviewed by .. because ..`.
    pub remark: Option<&'a [u8]>,
}

/// The sites of a report beside their sources and notes, in the order of the report.
pub fn sites_of<'a>(
    alloc: Global,
    lines: &'a [Line],
    sources: &Sources<'a>,
    notes: &HashMap<Vec<u8>, Note<'a>>,
) -> Result<Vec<Site<'a>>, NoMemory>
    ensures lines { IfOk result (λ sites. map (λ s. s.line.now) sites.items ≡ lines.entry.now) }
    ensures keys { IfOk result (λ sites. All (λ s. s.key.items ≡ key_text s.line.now s.text.now) sites.items) }
{
    let mut counts = HashMap::new(alloc);
    let mut sites = Vec::new(alloc);
    for line in lines {
        sites.push(site_of(alloc, line, sources, notes, &mut counts)?)?;
    }
    Ok(sites)
}

fn site_of<'a>(
    alloc: Global,
    line: &'a Line,
    sources: &Sources<'a>,
    notes: &HashMap<Vec<u8>, Note<'a>>,
    counts: &mut HashMap<Vec<u8>, usize>,
) -> Result<Site<'a>, NoMemory>
    ensures line { IfOk result (λ s. s.line.now ≡ line.entry.now) }
    ensures key { IfOk result (λ s. s.key.items ≡ key_text s.line.now s.text.now) }
{
    let text = text_at(sources, line.file.as_slice(), line.line).unwrap_or(b"");
    let key = key_of(alloc, line, text)?;
    let ordinal = next_ordinal(counts, &key)?;
    let remark = notes.get(key.as_slice()).map(|note| note.remark);
    Ok(Site {
        line,
        text,
        key,
        ordinal,
        remark,
    })
}

/// Counts a key, and tells how often it was counted before.
fn next_ordinal(counts: &mut HashMap<Vec<u8>, usize>, key: &Vec<u8>) -> Result<usize, NoMemory> {
    let ordinal = counts.get(key.as_slice()).copied().unwrap_or(0);
    counts.insert(key.clone()?, ordinal.saturating_add(1))?;
    Ok(ordinal)
}

#[tactic(auto, unfolding(crate::specs::Sites::key_text))]
fn key_of(alloc: Global, line: &Line, text: &[u8]) -> Result<Vec<u8>, NoMemory>
    ensures { IfOk result (λ key. key.items ≡ key_text line.now text.now) }
{
    let mut key = Vec::new(alloc);
    push_pieces(
        &mut key,
        &[
            line.file.as_slice(),
            b" ",
            line.function.as_slice(),
            b" ",
            text,
        ],
    )?;
    Ok(key)
}

/// The key and the ordinal of a site, which no other site of its report has.
#[tactic(auto, unfolding(crate::specs::Sites::whole_key))]
pub fn whole_key(alloc: Global, site: &Site) -> Result<Vec<u8>, NoMemory>
    ensures { IfOk result (λ key. key.items ≡ whole_key site.now) }
{
    let mut digits = Buffer::new();
    let mut key = Vec::new(alloc);
    push_pieces(
        &mut key,
        &[
            site.key.as_slice(),
            b" #",
            digits.format(site.ordinal).as_bytes(),
        ],
    )?;
    Ok(key)
}
