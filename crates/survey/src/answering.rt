ghost use Rattle.std.specs.Prelude.{◌≡◌, ℕ, List, option_map};
ghost use Rattle.first_form.specs.declared.program.Program.{Program as Checked};
ghost use Rattle.survey.specs.computed.Asking.{asking};
ghost use Rattle.survey.specs.Sources.{IsFirst, IsSoundOf, Answered, AllShort, source_of, sources_of};
ghost use Rattle.survey.specs.computed.Endings.{AnswersFirst, only_source};

use crate::answer::Answer;
use crate::asked::Asked;
use crate::first::answer_file;
use crate::general::answer_any;
use c_front::SourceFile;
use std::alloc::Global;

/// The one file, where it is asked for from `main` alone.
fn only_file<'a>(asked: &Asked, files: &'a [SourceFile]) -> Option<&'a SourceFile>
    ensures { option_map (λ f. source_of f.now) result ≡ only_source (asking asked.now) (sources_of files.now) }
{
    match files {
        [file] if asked.entry.as_str() == "main" => Some(file),
        _ => None,
    }
}

/// What is answered on the one file that is asked for from `main` alone, where it is of the first form.
fn answer_first(alloc: Global, asked: &Asked, files: &[SourceFile]) -> Option<Answer>
    requires { AllShort (sources_of files.now) }
    ensures { AnswersFirst result (asking asked.now) (sources_of files.now) }
{
    match only_file(asked, files) {
        Some(file) => {
            let answer = answer_file(alloc, file.name.as_bytes(), &file.bytes);
            return answer;
        }
        None => return None,
    }
}

// A file of the first form takes a way of its own, on which its colours are proved.
fn first_or_any(alloc: Global, asked: &Asked, files: &[SourceFile]) -> Answer
    requires { AllShort (sources_of files.now) }
    ensures { Answered result (asking asked.now) (sources_of files.now) }
{
    match answer_first(alloc, asked, files) {
        Some(answer) => return answer,
        None => {
            let answer = answer_any(alloc, asked, files);
            return answer;
        }
    }
}

/// What is answered on files by their bytes, whose names are those that are asked for. `survey_alone` loads the files, calls this and
/// puts the report, so what is said here of bytes holds of those that were loaded, wherever they came from.
pub fn answer_of(alloc: Global, asked: &Asked, files: &[SourceFile]) -> Answer
    requires { AllShort (sources_of files.now) }

    // The text of a report and its status, or the line of a fault. Of a program of the first form it is the report that its definition gives.
    ensures answered { Answered result (asking asked.now) (sources_of files.now) }

    // Of a program of the first form the colours are true of every run.
    ensures sound { (name : List ℕ) (program : Checked) →
        IsFirst (asking asked.now) (sources_of files.now) name program → IsSoundOf program result }
{
    let answer = first_or_any(alloc, asked, files);
    answer
}
