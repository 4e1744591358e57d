ghost use Rattle.std.specs.Prelude.{◌≡◌, ◌≢◌, ◌⊎◌, ℕ, List, Some, None};
ghost use Rattle.first_form.specs.declared.program.Program.{Program as Checked};
ghost use Rattle.sv_outside.specs.Outside.{Rose};
ghost use Rattle.survey.specs.Words.{texts, asked_of};
ghost use Rattle.survey.specs.computed.Asking.{asking};
ghost use Rattle.survey.specs.Colours.{report};
ghost use Rattle.survey.specs.Outcome.{IsStatus, IsReported, IsFirstForm, IsTooLarge, Reports, ReportsSound, CutsOff, GainsFront, Gives, Loads, Tells, Complains};
ghost use Rattle.survey.specs.computed.Endings.{Ended, PutAs, status_number};

use crate::answer::Answer;
use crate::answering::answer_of;
use crate::asked::Asked;
use crate::ending::{Ending, status_number};
use crate::loading::load_all;
use crate::telling::tell;
use crate::words::asked;
use cli_words::WordsFault;
use std::alloc::Global;
use sv_outside::{Put, Sink, Sources};

/// Puts the report that is answered.
fn put_answer<K: Sink>(answer: Answer, out: &mut K) -> Ending
    ensures { PutAs result answer (K.taken out.old) (K.taken out.new) (K.faults out.old) (K.faults out.new) }
{
    match answer {
        Answer::Report(text, status) => match out.put(&text) {
            Put::Ok => return Ending::Reported(status),
            Put::Failed => return Ending::NotWritten,
            Put::NoMemory => return Ending::NoMemory,
        },
        Answer::Refused(line) => return Ending::Refused(line),
        Answer::NoMemory => return Ending::NoMemory,
    }
}

/// Loads and checks the files that are asked for, and puts their report.
fn survey_files<S: Sources, K: Sink>(
    alloc: Global,
    asked: &Asked,
    sources: &mut S,
    out: &mut K,
) -> Ending
    ensures { Ended result (S.files sources.old) (Some (asking asked.now)) (K.taken out.old) (K.taken out.new)
        (record { loads_before = S.calls sources.old; loads_now = S.calls sources.new; unread_before = S.faults sources.old; unread_now = S.faults sources.new; puts_before = K.faults out.old; puts_now = K.faults out.new }) }
{
    let files = match load_all(alloc, asked, sources) {
        Ok(files) => files,
        Err(ending) => return ending,
    };
    let answer = answer_of(alloc, asked, &files);
    let ending = put_answer(answer, out);
    return ending;
}

/// Does what the words ask for.
fn survey_words<S: Sources, K: Sink>(
    alloc: Global,
    words: &[String],
    sources: &mut S,
    out: &mut K,
) -> Ending
    ensures { Ended result (S.files sources.old) (asked_of (texts words.now)) (K.taken out.old) (K.taken out.new)
        (record { loads_before = S.calls sources.old; loads_now = S.calls sources.new; unread_before = S.faults sources.old; unread_now = S.faults sources.new; puts_before = K.faults out.old; puts_now = K.faults out.new }) }
{
    let asked = match asked(alloc, words) {
        Ok(asked) => asked,
        Err(WordsFault::Bad) => return Ending::Usage,
        Err(WordsFault::NoMemory) => return Ending::NoMemory,
    };
    let ending = survey_files(alloc, &asked, sources, out);
    return ending;
}

/// Checks the files that the words name, puts their report to `out`, and answers the exit status. The words are those of a
/// command line, the program's own name first.
pub fn survey_alone<S: Sources, K: Sink>(
    alloc: Global,
    words: &[String],
    sources: &mut S,
    out: &mut K,
    err: &mut K,
) -> u8
    ensures statuses { IsStatus result }

    // With status 0 or 1 the sink gained a report, a line for each site and the totals, and the status is the report's.
    ensures report { IsReported result → Reports (K.taken out.old) (K.taken out.new) result }

    // Of a program of the first form it is the report that its definition gives, and its colours are true of every run.
    ensures exact { (name : List ℕ) (program : Checked) →
        IsFirstForm (S.files sources.old) (asked_of (texts words.now)) name program →
        IsReported result → Gives name program (K.taken out.old) (K.taken out.new) result }
    ensures sound { (name : List ℕ) (program : Checked) →
        IsFirstForm (S.files sources.old) (asked_of (texts words.now)) name program →
        IsReported result → ReportsSound program (K.taken out.old) (K.taken out.new) }

    // Status 2 comes exactly where the words are not accepted or ask for what is not built, unless memory runs out.
    ensures usage { result ≡ 2 → asked_of (texts words.now) ≡ None }
    ensures other_words { asked_of (texts words.now) ≡ None → (result ≡ 2) ⊎ (result ≡ 8) }

    // Status 3 never comes of a file of the first form, and always of one that is too large, unless an earlier file cannot
    // be read or memory runs out.
    ensures refused { result ≡ 3 → (name : List ℕ) (program : Checked) →
        ¬ IsFirstForm (S.files sources.old) (asked_of (texts words.now)) name program }
    ensures refuses { IsTooLarge (S.files sources.old) (asked_of (texts words.now)) →
        (result ≡ 3) ⊎ ((result ≡ 4) ⊎ (result ≡ 8)) }

    // Statuses 4 and 7 come only where a load or a put has failed, and no failure goes untold.
    ensures unread { result ≡ 4 → Rose (S.faults sources.old) (S.faults sources.new) }
    ensures unwritten { result ≡ 7 → Rose (K.faults out.old) (K.faults out.new) }
    ensures all_read { result ≢ 4 → result ≢ 8 → S.faults sources.new ≡ S.faults sources.old }
    ensures all_written { result ≢ 7 → K.faults out.new ≡ K.faults out.old }

    // With status 7 the sink gained the first bytes of the report, with every status but 0, 1 and 7 nothing.
    ensures cut_off { result ≡ 7 → CutsOff (K.taken out.old) (K.taken out.new) }
    ensures cut_exact { (name : List ℕ) (program : Checked) →
        IsFirstForm (S.files sources.old) (asked_of (texts words.now)) name program →
        result ≡ 7 → GainsFront (K.taken out.old) (K.taken out.new) (report name program) }
    ensures untouched { result ≢ 0 → result ≢ 1 → result ≢ 7 → K.taken out.new ≡ K.taken out.old }

    // The other sink was told the text of the status, as far as it took it.
    ensures told { Complains (asked_of (texts words.now)) (S.calls sources.old) (S.calls sources.new) result
        (Tells (K.taken err.old) (K.taken err.new) (K.faults err.old) (K.faults err.new) (K.refusals err.old) (K.refusals err.new)) }

    // Each file is loaded once, in order, up to the one that stops the call.
    ensures loads { Loads (asked_of (texts words.now)) result (S.calls sources.old) (S.calls sources.new) }

    // A file of the first form is reported, unless a load or a put has failed or memory ran out.
    ensures complete { (name : List ℕ) (program : Checked) →
        IsFirstForm (S.files sources.old) (asked_of (texts words.now)) name program →
        ¬ (Rose (S.faults sources.old) (S.faults sources.new)) →
        ¬ (Rose (K.faults out.old) (K.faults out.new)) →
        Gives name program (K.taken out.old) (K.taken out.new) result ⊎ (result ≡ 8) }
{
    let ending = survey_words(alloc, words, sources, out);
    tell(&ending, err);
    status_number(&ending)
}
