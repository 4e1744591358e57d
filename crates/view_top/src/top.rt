ghost use Rattle.std.specs.Prelude.{◌≡◌, ◌≢◌, ◌⊎◌, None, map, string_bytes};
ghost use Rattle.sv_outside.specs.Outside.{Rose, with_more, PutsTo};
ghost use Rattle.view_words.specs.Wanted.{wanted_of};
ghost use Rattle.view_top.specs.Statuses.{IsPrinted, IsStatus};

use crate::answering::viewed;
use crate::failure::{NO_MEMORY, NOT_WRITTEN, USAGE, complaint, failure_status};
use std::alloc::Global;
use sv_outside::{Put, Sink, Sources};
use view_words::{Wanted, WordsFault, read_words};

/// Does what the words of a command line ask for, and answers the exit status. The first word is the program's name.
pub fn view<S: Sources, O: Sink, E: Sink>(
    alloc: Global,
    words: &[String],
    files: &mut S,
    out: &mut O,
    err: &mut E,
) -> u8
    ensures statuses { IsStatus result }

    // Words that are not accepted get 2, unless memory runs out.
    ensures usage { wanted_of (map string_bytes words.now) ≡ None → (result ≡ 2) ⊎ (result ≡ 8) }

    // 7 comes exactly where a put has failed, and only with 0, 1 and 7 has the output gained anything.
    ensures unwritten { result ≡ 7 → Rose (O.faults out.old) (O.faults out.new) }
    ensures all_written { result ≢ 7 → O.faults out.new ≡ O.faults out.old }
    ensures untouched { result ≢ 0 → result ≢ 1 → result ≢ 7 → O.taken out.new ≡ O.taken out.old }
{
    match read_words(alloc, words) {
        Ok(wanted) => view_wanted(alloc, &wanted, files, out, err),
        Err(WordsFault::Bad) => told(err, USAGE, 2),
        Err(WordsFault::NoMemory) => told(err, NO_MEMORY, 8),
    }
}

fn view_wanted<S: Sources, O: Sink, E: Sink>(
    alloc: Global,
    wanted: &Wanted,
    files: &mut S,
    out: &mut O,
    err: &mut E,
) -> u8
    ensures statuses { IsStatus result }
    ensures unwritten { result ≡ 7 → Rose (O.faults out.old) (O.faults out.new) }
    ensures all_written { result ≢ 7 → O.faults out.new ≡ O.faults out.old }
    ensures untouched { result ≢ 0 → result ≢ 1 → result ≢ 7 → O.taken out.new ≡ O.taken out.old }
{
    let mut said = Vec::new(alloc);
    let answer = viewed(alloc, wanted, files, &mut said);
    let _ = err.put(&said);
    match answer {
        Ok((text, is_worse)) => put_text(&text, is_worse, out, err),
        Err(failure) => told(err, complaint(&failure), failure_status(&failure)),
    }
}

fn put_text<O: Sink, E: Sink>(text: &[u8], is_worse: bool, out: &mut O, err: &mut E) -> u8
    ensures statuses { IsStatus result }
    ensures unwritten { result ≡ 7 → Rose (O.faults out.old) (O.faults out.new) }
    ensures all_written { result ≢ 7 → O.faults out.new ≡ O.faults out.old }
    ensures untouched { result ≢ 0 → result ≢ 1 → result ≢ 7 → O.taken out.new ≡ O.taken out.old }
    ensures taken { IsPrinted result → O.taken out.new ≡ with_more (O.taken out.old) text.now }
{
    match out.put(text) {
        Put::Ok => status_of(is_worse),
        Put::Failed => told(err, NOT_WRITTEN, 7),
        Put::NoMemory => told(err, NO_MEMORY, 8),
    }
}

/// 1 where something got worse.
fn status_of(is_worse: bool) -> u8
    ensures { IsPrinted result }
{
    if is_worse { 1 } else { 0 }
}

/// Tells a line and answers the status.
fn told<E: Sink>(err: &mut E, line: &[u8], status: u8) -> u8
    ensures { result ≡ status }
{
    let _ = err.put(line);
    status
}
