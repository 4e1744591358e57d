ghost use Rattle.std.specs.Prelude.{◌≡◌, ◌≤◌, length, IfOk};
ghost use Rattle.sv_base.specs.declared.limits.TheConstants.{FILE_BYTES};
ghost use Rattle.survey.specs.Colours.{report, status};
ghost use Rattle.survey.specs.computed.Endings.{AnswersFile};

use crate::answer::Answer;
use crate::colours::lines_of;
use first_form::{Program, front};
use report::{report_status, report_text};
use std::alloc::Global;
use sv_base::{FileId, FrontFault, NoMemory};

/// The report's text of a program of the first form, and its status.
fn report_of(alloc: Global, name: &[u8], program: &Program) -> Result<(Vec<u8>, u8), NoMemory>
    ensures text { IfOk result (λ r. r.0.items ≡ report name.now program.now) }
    ensures status { IfOk result (λ r. r.1 ≡ status name.now program.now) }
{
    let lines = lines_of(alloc, name, program)?;
    let mut text = Vec::new(alloc);
    report_text(lines.as_slice(), &[], &mut text)?;
    Ok((text, report_status(lines.as_slice())))
}

/// What is answered on the file of that name and these bytes, where it is of the first form.
pub(crate) fn answer_file(alloc: Global, name: &[u8], bytes: &[u8]) -> Option<Answer>
    requires { length bytes.now ≤ FILE_BYTES }
    ensures { AnswersFile result name.now bytes.now }
{
    let program = match front(alloc, FileId(0), bytes) {
        Ok(program) => program,
        Err(FrontFault::NoMemory) => return Some(Answer::NoMemory),
        Err(FrontFault::Fault(_)) => return None,
    };
    match report_of(alloc, name, &program) {
        Ok((text, status)) => return Some(Answer::Report(text, status)),
        Err(NoMemory) => return Some(Answer::NoMemory),
    }
}
