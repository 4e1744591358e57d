ghost use Rattle.std.specs.Prelude.{IfErr};
ghost use Rattle.survey.specs.computed.Endings.{IsRefusal};

use c_front::{Program, SourceFile, front};
use journal::Digests;
use round_plan::Plan;
use source_digest::{Named, digests};
use std::alloc::{AllocError, Global};
use survey::{Asked, Ending, first_name, refusal};
use sv_base::{FrontFault, Names, NoMemory};

/// A program that is to be analysed.
#[derive(Drop)]
pub struct Prepared {
    pub(crate) names: Names,
    /// The rounds of its analysis.
    pub plan: Plan,
    pub(crate) digests: Digests,
}

// The program of the files, or what refuses them.
fn program_of(
    alloc: Global,
    files: &[SourceFile],
    entry: &[u8],
    names: &mut Names,
) -> Result<Program, Ending>
    ensures { IfErr result IsRefusal }
{
    match front(alloc, files, entry, names) {
        Ok(program) => Ok(program),
        Err(FrontFault::NoMemory) => Err(Ending::NoMemory),
        Err(FrontFault::Fault(fault)) => {
            match refusal(alloc, names, &fault, first_name(files)) {
                Ok(line) => Err(Ending::Refused(line)),
                Err(NoMemory) => Err(Ending::NoMemory),
            }
        }
    }
}

// The files as their digest takes them.
fn named<'a>(alloc: Global, files: &'a [SourceFile]) -> Result<Vec<Named<'a>>, AllocError> {
    let mut list = Vec::new(alloc);
    for file in files {
        list.push(Named {
            name: file.name.as_bytes(),
            bytes: file.bytes.as_slice(),
        })?;
    }
    Ok(list)
}

// The digests of the files and of what is asked.
fn digests_of(
    alloc: Global,
    asked: &Asked,
    files: &[SourceFile],
    redirected: bool,
) -> Result<Digests, NoMemory> {
    let named = named(alloc, files)?;
    digests(
        alloc,
        &named,
        asked.entry.as_bytes(),
        asked.rounds,
        redirected,
    )
}

/// Reads the program of the files, and makes the plan of its analysis.
pub fn prepare(alloc: Global, asked: &Asked, files: &[SourceFile]) -> Result<Prepared, Ending>
    ensures { IfErr result IsRefusal }
{
    let mut names = Names::new(alloc);
    let program = match program_of(alloc, files, asked.entry.as_bytes(), &mut names) {
        Ok(program) => program,
        Err(ending) => return Err(ending),
    };
    let Ok(digests) = digests_of(alloc, asked, files, program.redirected) else {
        return Err(Ending::NoMemory);
    };
    Ok(Prepared {
        names,
        plan: Plan::new(program.core, asked.rounds),
        digests,
    })
}
