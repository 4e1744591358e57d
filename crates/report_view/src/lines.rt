ghost use Rattle.std.specs.Prelude.{◌≡◌, ◌++◌, OnOk, IfOk, option_map};
ghost use Rattle.std.specs.List.{flat_map};
ghost use Rattle.report.specs.Report.{colour_word, is_alarm};
ghost use Rattle.report_view.specs.Lines.{finding_text, promise, remark_text, review_line, severity_word, shown_place};

use crate::letters::{push_pieces, push_shown};
use crate::site::Site;
use itoa::Buffer;
use report::Line;
use std::alloc::Global;
use sv_base::{Colour, NoMemory};

/// A line for each site that is orange or red, in the form that editors and problem matchers read:
/// `FILE:LINE:COL: warning|error: ..`.
pub fn review_text(alloc: Global, sites: &[Site]) -> Result<Vec<u8>, NoMemory>
    ensures { IfOk result (λ text. text.items ≡ flat_map review_line sites.now) }
{
    let mut text = Vec::new(alloc);
    for site in sites {
        push_review(&mut text, site)?;
    }
    Ok(text)
}

#[tactic(auto, unfolding(crate::specs::Lines::review_line))]
fn push_review(text: &mut Vec<u8>, site: &Site) -> Result<(), NoMemory>
    ensures { OnOk result (text.new.items ≡ text.old.items ++ review_line site.now) }
{
    if !is_alarm(site.line.colour) {
        return Ok(());
    }
    push_place(text, site.line)?;
    push_finding(text, site)
}

#[tactic(auto, unfolding(crate::specs::Lines::finding_text))]
fn push_finding(text: &mut Vec<u8>, site: &Site) -> Result<(), NoMemory>
    ensures { OnOk result (text.new.items ≡ text.old.items ++ finding_text site.now) }
{
    let colour = site.line.colour;
    push_pieces(
        text,
        &[
            b": ",
            severity_word(colour).as_bytes(),
            b": ",
            promise(colour).as_bytes(),
            b" in ",
        ],
    )?;
    push_shown(text, site.line.function.as_slice())?;
    push_remark(text, site.remark)?;
    text.push(b'\n')?;
    Ok(())
}

/// Appends what a reviewer noted, where there is something.
pub(crate) fn push_remark(text: &mut Vec<u8>, remark: Option<&[u8]>) -> Result<(), NoMemory>
    ensures { OnOk result (text.new.items ≡ text.old.items ++ remark_text (option_map (λ r. r.now) remark.entry)) }
{
    if let Some(remark) = remark {
        text.extend_from_slice(b", ")?;
        push_shown(text, remark)?;
    }
    Ok(())
}

/// Appends FILE:LINE:COL.
#[tactic(auto, unfolding(crate::specs::Lines::shown_place))]
pub(crate) fn push_place(text: &mut Vec<u8>, line: &Line) -> Result<(), NoMemory>
    ensures { OnOk result (text.new.items ≡ text.old.items ++ shown_place line.now) }
{
    let mut number = Buffer::new();
    let mut col = Buffer::new();
    push_shown(text, line.file.as_slice())?;
    push_pieces(
        text,
        &[
            b":",
            number.format(line.line).as_bytes(),
            b":",
            col.format(line.col).as_bytes(),
        ],
    )
}

/// Whether the colour asks for a look at the site.
pub fn is_alarm(colour: Colour) -> bool
    ensures { result ≡ is_alarm colour }
{
    match colour {
        Colour::Orange | Colour::Red => true,
        Colour::Green | Colour::Unreachable => false,
    }
}

/// The word of a colour in a report.
pub fn colour_word(colour: Colour) -> &'static str
    ensures { result.now ≡ colour_word colour }
{
    match colour {
        Colour::Unreachable => "unreachable",
        Colour::Green => "green",
        Colour::Orange => "orange",
        Colour::Red => "red",
    }
}

fn severity_word(colour: Colour) -> &'static str
    ensures { result.now ≡ severity_word colour }
{
    match colour {
        Colour::Red => "error",
        _ => "warning",
    }
}

fn promise(colour: Colour) -> &'static str
    ensures { result.now ≡ promise colour }
{
    match colour {
        Colour::Red => "red: no run goes on past this access",
        _ => "orange: this access may leave its array",
    }
}
