ghost use Rattle.std.specs.Prelude.{◌≡◌, map, IfOk};
ghost use Rattle.report.specs.Report.{report_text};

use crate::fields::{Fields, fields_of};
use report::{Line, report_text};
use sqlite_items::Items;
use std::alloc::{AllocError, AllocFailed, Global};
use sv_base::NoMemory;

/// A report that was read.
#[derive(Drop)]
pub struct Report {
    /// The sites, in the order of the report.
    pub lines: Items<Line>,
    /// The names of the external functions.
    pub assumed: Vec<Vec<u8>>,
}

/// Why a text gives no report.
#[derive(Clone, Copy)]
pub enum ReportFault {
    /// The first line, from 1, that does not stand there in a report.
    Line(usize),
    NoMemory,
}

impl From<NoMemory> for ReportFault {
    fn from(_error: NoMemory) -> ReportFault {
        ReportFault::NoMemory
    }
}

impl From<AllocError> for ReportFault {
    fn from(_error: AllocError) -> ReportFault {
        ReportFault::NoMemory
    }
}

impl<T: Drop> From<AllocFailed<T>> for ReportFault {
    fn from(_error: AllocFailed<T>) -> ReportFault {
        ReportFault::NoMemory
    }
}

/// Reads a report. What was read is printed again and compared, so that nothing else is taken for a report: no other
/// totals, no other order of its parts, no number with a zero before it.
pub fn read_report(alloc: Global, text: &[u8]) -> Result<Report, ReportFault>
    ensures { IfOk result (λ r. text.now ≡ report_text r.lines (map (λ name. name.items) r.assumed.items)) }
{
    let report = parsed(alloc, text)?;
    let mut again = Vec::new(alloc);
    report_text(report.lines.as_slice(), &report.assumed, &mut again)?;
    if again.as_slice() == text {
        return Ok(report);
    }
    Err(ReportFault::Line(line_of_difference(&again, text)))
}

/// The line, from 1, in which two texts first differ.
fn line_of_difference(text: &[u8], other: &[u8]) -> usize {
    let mut line = 1usize;
    for (byte, beside) in text.iter().zip(other.iter()) {
        if byte != beside {
            return line;
        }
        if *byte == b'\n' {
            line = line.saturating_add(1);
        }
    }
    line
}

/// The sites and the assumed names, whatever order they stand in.
fn parsed(alloc: Global, text: &[u8]) -> Result<Report, ReportFault> {
    let mut lines = Items::new(alloc);
    let mut assumed = Vec::new(alloc);
    let mut number = 0usize;
    for row in text.split(|byte| *byte == b'\n') {
        number = number.saturating_add(1);
        if let Some(fields) = fields_of(row) {
            lines.push(line_of(alloc, fields)?)?;
        } else if let Some(name) = row.strip_prefix(b"assumed ") {
            assumed.push(Vec::from_slice(alloc, name)?)?;
        } else if !is_end(row) {
            return Err(ReportFault::Line(number));
        }
    }
    Ok(Report { lines, assumed })
}

/// Whether the row is the totals or what follows the last newline.
fn is_end(row: &[u8]) -> bool {
    row.is_empty() || row.starts_with(b"sites ")
}

fn line_of(alloc: Global, fields: Fields<'_>) -> Result<Line, AllocError> {
    let file = Items::from_slice(alloc, fields.file)?;
    let function = Items::from_slice(alloc, fields.function)?;
    Ok(Line {
        file,
        line: fields.line,
        col: fields.col,
        function,
        colour: fields.colour,
    })
}
