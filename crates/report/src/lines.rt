ghost use Rattle.std.specs.Prelude.{◌≡◌, ◌++◌, map, count_by, OnOk, OnErr};
ghost use Rattle.std.specs.List.{flat_map, list_any};
ghost use Rattle.report.specs.Append.{AppendsPrefix};
ghost use Rattle.report.specs.Report.{report_text, line_text, assumed_text, totals_text, count_text, report_status, colour_word, has_colour, is_alarm};

use crate::line::Line;
use crate::pieces::{push_pieces, push_place};
use itoa::Buffer;
use sv_base::{Colour, NoMemory};

/// Appends the report: a line for each site, one for each assumed function, and the totals. `lines` are in the order of
/// the sites, `assumed` has the names of the external functions in the order of their first uses.
#[tactic(auto, unfolding(crate::specs::Report::report_text))]
pub fn report_text(lines: &[Line], assumed: &[Vec<u8>], into: &mut Vec<u8>) -> Result<(), NoMemory>
    ensures ok { OnOk result (into.new.items ≡ into.old.items ++ report_text lines.now (map (λ name. name.items) assumed.now)) }
    ensures err { OnErr result (AppendsPrefix into.old.items (report_text lines.now (map (λ name. name.items) assumed.now)) into.new.items) }
{
    push_lines(lines, into)?;
    push_assumed(assumed, into)?;
    totals_text(lines, into)
}

/// Appends the last line of the report.
#[tactic(auto, unfolding(crate::specs::Report::totals_text))]
pub fn totals_text(lines: &[Line], into: &mut Vec<u8>) -> Result<(), NoMemory>
    ensures ok { OnOk result (into.new.items ≡ into.old.items ++ totals_text lines.now) }
    ensures err { OnErr result (AppendsPrefix into.old.items (totals_text lines.now) into.new.items) }
{
    push_counts(
        &[
            (b"sites ", lines.len()),
            (b" green ", count(lines, Colour::Green)),
            (b" orange ", count(lines, Colour::Orange)),
            (b" red ", count(lines, Colour::Red)),
            (b" unreachable ", count(lines, Colour::Unreachable)),
        ],
        into,
    )?;
    push_pieces(into, &[b"\n"])
}

/// The status of a program that ends with this report: 1 where a site is orange or red, else 0.
pub fn report_status(lines: &[Line]) -> u8
    ensures { result ≡ report_status lines.now }
{
    if has_alarm(lines) { 1 } else { 0 }
}

fn has_alarm(lines: &[Line]) -> bool
    ensures { result ≡ list_any (λ line. is_alarm line.colour) lines.now }
{
    lines.iter().any(|line| is_alarm(line.colour))
}

fn is_alarm(colour: Colour) -> bool
    ensures { result ≡ is_alarm colour }
{
    match colour {
        Colour::Orange | Colour::Red => true,
        Colour::Green | Colour::Unreachable => false,
    }
}

fn push_lines(lines: &[Line], into: &mut Vec<u8>) -> Result<(), NoMemory>
    ensures ok { OnOk result (into.new.items ≡ into.old.items ++ flat_map line_text lines.now) }
    ensures err { OnErr result (AppendsPrefix into.old.items (flat_map line_text lines.now) into.new.items) }
{
    for line in lines {
        push_line(line, into)?;
    }
    Ok(())
}

#[tactic(auto, unfolding(crate::specs::Report::assumed_text))]
fn push_assumed(assumed: &[Vec<u8>], into: &mut Vec<u8>) -> Result<(), NoMemory>
    ensures ok { OnOk result (into.new.items ≡ into.old.items ++ flat_map (λ name. assumed_text name.items) assumed.now) }
    ensures err { OnErr result (AppendsPrefix into.old.items (flat_map (λ name. assumed_text name.items) assumed.now) into.new.items) }
{
    for name in assumed {
        push_pieces(into, &[b"assumed ", name, b"\n"])?;
    }
    Ok(())
}

#[tactic(auto, unfolding(crate::specs::Report::line_text))]
fn push_line(line: &Line, into: &mut Vec<u8>) -> Result<(), NoMemory>
    ensures ok { OnOk result (into.new.items ≡ into.old.items ++ line_text line.now) }
    ensures err { OnErr result (AppendsPrefix into.old.items (line_text line.now) into.new.items) }
{
    push_place(line.file.as_slice(), line.line, line.col, into)?;
    push_pieces(into, &[b" ", line.function.as_slice(), b" "])?;
    push_pieces(into, &[colour_word(line.colour).as_bytes(), b"\n"])
}

fn push_counts(counts: &[(&[u8], usize)], into: &mut Vec<u8>) -> Result<(), NoMemory>
    ensures ok { OnOk result (into.new.items ≡ into.old.items ++ flat_map (λ c. count_text c.0.now c.1) counts.now) }
    ensures err { OnErr result (AppendsPrefix into.old.items (flat_map (λ c. count_text c.0.now c.1) counts.now) into.new.items) }
{
    for count in counts {
        push_count(*count, into)?;
    }
    Ok(())
}

#[tactic(auto, unfolding(crate::specs::Report::count_text))]
fn push_count(count: (&[u8], usize), into: &mut Vec<u8>) -> Result<(), NoMemory>
    ensures ok { OnOk result (into.new.items ≡ into.old.items ++ count_text count.entry.0.now count.entry.1) }
    ensures err { OnErr result (AppendsPrefix into.old.items (count_text count.entry.0.now count.entry.1) into.new.items) }
{
    let (label, number) = count;
    let mut digits = Buffer::new();
    into.extend_from_slice(label)?;
    push_pieces(into, &[digits.format(number).as_bytes()])
}

fn colour_word(colour: Colour) -> &'static str
    ensures { result.now ≡ colour_word colour }
{
    match colour {
        Colour::Unreachable => "unreachable",
        Colour::Green => "green",
        Colour::Orange => "orange",
        Colour::Red => "red",
    }
}

fn count(lines: &[Line], colour: Colour) -> usize
    ensures { result ≡ count_by (has_colour colour) lines.now }
{
    lines.iter().filter(|line| line.colour == colour).count()
}
