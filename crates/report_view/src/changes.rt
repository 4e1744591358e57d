ghost use Rattle.std.specs.Prelude.{◌≡◌, ◌<◌, ◌+◌, ◌++◌, ℕ, List, IfOk, OnOk, count_by, decimal, if◌then◌else◌};
ghost use Rattle.std.specs.List.{flat_map};
ghost use Rattle.std.specs.HashMap.{get_by};
ghost use Rattle.std.specs.Str.{bytes_eq};
ghost use Rattle.report_view.specs.Sites.{whole_key};
ghost use Rattle.report_view.specs.Changes.{before_word, beside_text, change_text, changes_text, colour_in, rise_line, rise_lines, rises, rises_over, severity, tail_text};

use crate::letters::{push_pieces, push_shown};
use crate::lines::{colour_word, push_place, push_remark};
use crate::site::{Site, whole_key};
use itoa::Buffer;
use std::alloc::Global;
use std::collections::HashMap;
use sv_base::{Colour, NoMemory};

/// What changed between two reports.
#[derive(Drop)]
pub struct Changes {
    /// A line for each change, and the totals.
    pub text: Vec<u8>,
    /// How many sites became orange or red, or red from orange.
    pub worse: usize,
    /// How many sites were orange or red and are less so, or are no more.
    pub settled: usize,
}

/// Compares the sites of two reports. Two sites are the same where file, function and text of the line are, and as many
/// sites with the same stand before them.
#[tactic(auto, unfolding(crate::specs::Changes::changes_text))]
pub fn changes_text(alloc: Global, old: &[Site], new: &[Site]) -> Result<Changes, NoMemory>
    ensures worse { IfOk result (λ c. c.worse ≡ count_by (rises_over old.now) new.now) }
    ensures settled { IfOk result (λ c. c.settled ≡ count_by (rises_over new.now) old.now) }
    ensures text { IfOk result (λ c. c.text.items ≡ changes_text old.now new.now) }
{
    let mut text = Vec::new(alloc);
    let worse = push_rises(alloc, &mut text, b"worse: ", old, new)?;
    let settled = push_rises(alloc, &mut text, b"settled: ", new, old)?;
    push_total(&mut text, b"worse ", worse)?;
    push_total(&mut text, b" settled ", settled)?;
    text.push(b'\n')?;
    Ok(Changes {
        text,
        worse,
        settled,
    })
}

/// Appends a line for each site that asks for a look more than the same site in `from`, and counts them.
fn push_rises(
    alloc: Global,
    text: &mut Vec<u8>,
    label: &[u8],
    from: &[Site],
    to: &[Site],
) -> Result<usize, NoMemory>
    ensures lines { OnOk result (text.new.items ≡ text.old.items ++ rise_lines label.now from.now to.now) }
    ensures count { IfOk result (λ n. n ≡ count_by (rises_over from.now) to.now) }
{
    let colours = colours_of(alloc, from)?;
    let mut count = 0usize;
    for site in to {
        let before = colour_of(alloc, &colours, site)?;
        push_rise(text, label, before, site)?;
        let more = rises(before, site);
        let next = counted(count, more);
        count = next;
    }
    Ok(count)
}

fn counted(count: usize, more: bool) -> usize
    requires { count < usize.MAX }
    ensures { result ≡ (if more then count + 1 else count) }
{
    if more { count + 1 } else { count }
}

/// The colours of the sites by their keys.
fn colours_of(alloc: Global, sites: &[Site]) -> Result<HashMap<Vec<u8>, Colour>, NoMemory>
    ensures { IfOk result (λ colours. (q : List ℕ) → get_by (λ k. bytes_eq q k.items) colours ≡ colour_in sites.now q) }
{
    let mut colours = HashMap::new(alloc);
    for site in sites {
        colours.insert(whole_key(alloc, site)?, site.line.colour)?;
    }
    Ok(colours)
}

/// The colour of the site with the same key.
fn colour_of(
    alloc: Global,
    colours: &HashMap<Vec<u8>, Colour>,
    site: &Site,
) -> Result<Option<Colour>, NoMemory>
    ensures { IfOk result (λ colour. colour ≡ get_by (λ k. bytes_eq (whole_key site.now) k.items) colours.now) }
{
    let key = whole_key(alloc, site)?;
    Ok(colours.get(key.as_slice()).copied())
}

/// How much a colour asks for a look.
fn severity(colour: Option<Colour>) -> u8
    ensures { result ≡ severity colour }
{
    match colour {
        Some(Colour::Red) => 2,
        Some(Colour::Orange) => 1,
        _ => 0,
    }
}

fn rises(before: Option<Colour>, site: &Site) -> bool
    ensures { result ≡ rises before site.now }
{
    severity(before) < severity(Some(site.line.colour))
}

#[tactic(auto, unfolding(crate::specs::Changes::rise_line))]
fn push_rise(
    text: &mut Vec<u8>,
    label: &[u8],
    before: Option<Colour>,
    site: &Site,
) -> Result<(), NoMemory>
    ensures { OnOk result (text.new.items ≡ text.old.items ++ rise_line label.now before site.now) }
{
    if !rises(before, site) {
        return Ok(());
    }
    text.extend_from_slice(label)?;
    push_change(text, before, site)
}

#[tactic(auto, unfolding(crate::specs::Changes::change_text))]
fn push_change(text: &mut Vec<u8>, before: Option<Colour>, site: &Site) -> Result<(), NoMemory>
    ensures { OnOk result (text.new.items ≡ text.old.items ++ change_text before site.now) }
{
    push_place(text, site.line)?;
    text.push(b' ')?;
    push_shown(text, site.line.function.as_slice())?;
    push_colours(text, before, site.line.colour)?;
    push_tail(text, site)
}

/// Appends the remark and the text of the line.
#[tactic(auto, unfolding(crate::specs::Changes::tail_text))]
fn push_tail(text: &mut Vec<u8>, site: &Site) -> Result<(), NoMemory>
    ensures { OnOk result (text.new.items ≡ text.old.items ++ tail_text site.now) }
{
    push_remark(text, site.remark)?;
    text.extend_from_slice(b": ")?;
    push_shown(text, site.text)?;
    text.push(b'\n')?;
    Ok(())
}

/// Appends ` COLOUR, beside COLOUR`.
fn push_colours(text: &mut Vec<u8>, before: Option<Colour>, colour: Colour) -> Result<(), NoMemory>
    ensures { OnOk result (text.new.items ≡ text.old.items ++ beside_text before colour) }
{
    push_pieces(
        text,
        &[
            b" ",
            colour_word(colour).as_bytes(),
            b", beside ",
            before_word(before).as_bytes(),
        ],
    )
}

fn before_word(colour: Option<Colour>) -> &'static str
    ensures { result.now ≡ before_word colour }
{
    match colour {
        Some(colour) => colour_word(colour),
        None => "none",
    }
}

fn push_total(text: &mut Vec<u8>, label: &[u8], count: usize) -> Result<(), NoMemory>
    ensures { OnOk result (text.new.items ≡ text.old.items ++ label.now ++ decimal count) }
{
    let mut digits = Buffer::new();
    push_pieces(text, &[label, digits.format(count).as_bytes()])
}
