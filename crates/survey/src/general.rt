ghost use Rattle.std.specs.Prelude.{◌≡◌, true, IfOk};
ghost use Rattle.survey.specs.computed.Endings.{AnswersAny};
ghost use Rattle.survey.specs.Outcome.{IsReport, IsFaultLine};
ghost use Rattle.sv_base.specs.Faults.{IsListed};

use crate::answer::Answer;
use crate::asked::Asked;
use crate::telling::{fault_line, file_fault_line};
use c_front::{Program, SourceFile, front};
use core_ir::{CoreProgram, CoreSite};
use report::{Line, report_status, report_text};
use round_tasks::{Analysis, colours_alone};
use sqlite_items::Items;
use std::alloc::{AllocError, Global};
use sv_base::{
    Colour, FaultKind, FileId, FrontFault, Names, NoMemory, SiteId, SourceFault, faults,
};

/// The name of a file, as far as it has one.
fn file_name<'a>(names: &'a Names, file: FileId) -> &'a [u8] {
    if (file.0 as usize) < names.len() {
        names.text(file)
    } else {
        b""
    }
}

/// The name of a function, as far as the program has it.
fn function_name<'a>(core: &'a CoreProgram, site: &CoreSite) -> &'a [u8] {
    match core.functions.get(site.function.0 as usize) {
        Some(function) => function.name.as_slice(),
        None => b"",
    }
}

/// The colours by site. A site without a visit is not decided.
fn by_site(
    alloc: Global,
    sites: usize,
    visits: &[(SiteId, Colour)],
) -> Result<Vec<Colour>, AllocError> {
    let mut colours = Vec::new(alloc);
    for _site in 0..sites {
        colours.push(Colour::Orange)?;
    }
    for (site, colour) in visits {
        if let Some(place) = colours.get_mut(site.0 as usize) {
            *place = *colour;
        }
    }
    Ok(colours)
}

/// The line of a site.
fn line_of(
    alloc: Global,
    names: &Names,
    core: &CoreProgram,
    site: &CoreSite,
    colour: Colour,
) -> Result<Line, AllocError> {
    let file = Items::from_slice(alloc, file_name(names, site.place.file))?;
    let function = Items::from_slice(alloc, function_name(core, site))?;
    Ok(Line {
        file,
        line: site.place.line,
        col: site.place.col,
        function,
        colour,
    })
}

/// A line for each site, in their order.
pub fn lines_of(
    alloc: Global,
    names: &Names,
    core: &CoreProgram,
    visits: &[(SiteId, Colour)],
) -> Result<Items<Line>, AllocError> {
    let colours = by_site(alloc, core.sites.len(), visits)?;
    let mut lines = Items::new(alloc);
    for (site, colour) in core.sites.iter().zip(colours.iter()) {
        let line = line_of(alloc, names, core, site, *colour)?;
        lines.push(line)?;
    }
    Ok(lines)
}

/// The names of the external functions, in the order of their first uses.
pub fn assumed_of(alloc: Global, core: &CoreProgram) -> Result<Vec<Vec<u8>>, AllocError> {
    let mut names = Vec::new(alloc);
    for external in core.externals.iter() {
        names.push(external.name.clone()?)?;
    }
    Ok(names)
}

/// The report of a program, and its status.
fn report_of(
    alloc: Global,
    names: &Names,
    program: Program,
    rounds: u32,
) -> Result<(Vec<u8>, u8), NoMemory>
    ensures { IfOk result (λ r. IsReport r.0.items r.1) }
{
    let analysis = Analysis::new(program.core, rounds);
    let colours = colours_alone(alloc, &analysis)?;
    let lines = lines_of(alloc, names, analysis.core(), &colours)?;
    let assumed = assumed_of(alloc, analysis.core())?;
    let mut text = Vec::new(alloc);
    report_text(lines.as_slice(), &assumed, &mut text)?;
    Ok((text, report_status(lines.as_slice())))
}

/// A form of program that is not built.
const NOT_BUILT: FaultKind = FaultKind::Unsupported(0);

/// Whether a kind of fault stands in the table of faults.
fn is_listed(kind: FaultKind) -> bool
    ensures { result ≡ true → IsListed kind }
{
    match kind {
        FaultKind::Lex | FaultKind::Syntax => true,
        FaultKind::Unsupported(code) => code <= 15,
        FaultKind::Typing(code) => 1 <= code && code <= 13,
        FaultKind::Link(code) => 1 <= code && code <= 4,
        FaultKind::Limit(code) => 1 <= code && code <= 13,
    }
}

/// The line of a fault of the front end. A fault without a text, or without a file, would be a form that is not built in
/// the first file.
pub fn refusal(
    alloc: Global,
    names: &Names,
    fault: &SourceFault,
    first: &[u8],
) -> Result<Vec<u8>, NoMemory>
    ensures { IfOk result (λ line. IsFaultLine line.items) }
{
    if (fault.place.file.0 as usize) < names.len() && is_listed(fault.kind) {
        return fault_line(alloc, names, fault);
    }
    file_fault_line(alloc, first, NOT_BUILT)
}

/// What is answered on files of any form.
pub(crate) fn answer_any(alloc: Global, asked: &Asked, files: &[SourceFile]) -> Answer
    ensures { AnswersAny result }
{
    let mut names = Names::new(alloc);
    let answer = match front(alloc, files, asked.entry.as_bytes(), &mut names) {
        Ok(program) => report_of(alloc, &names, program, asked.rounds),
        Err(FrontFault::NoMemory) => return Answer::NoMemory,
        Err(FrontFault::Fault(fault)) => {
            match refusal(alloc, &names, &fault, first_name(files)) {
                Ok(line) => return Answer::Refused(line),
                Err(NoMemory) => return Answer::NoMemory,
            }
        }
    };
    match answer {
        Ok((text, status)) => return Answer::Report(text, status),
        Err(NoMemory) => return Answer::NoMemory,
    }
}

/// The name of the first file.
pub fn first_name(files: &[SourceFile]) -> &[u8] {
    match files {
        [file, ..] => file.name.as_bytes(),
        [] => b"",
    }
}
