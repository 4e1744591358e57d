use crate::files::{Program, SourceFile};
use c_decl::link;
use c_lexer::lex;
use c_lower::lower;
use c_parser::parse;
use c_tree::Tree;
use c_typed::Typed;
use core_fits::fits;
use core_ir::CoreProgram;
use known_calls::redirect;
use std::alloc::Global;
use sv_base::limits::{FUNCTIONS, TOKENS};
use sv_base::{FaultKind, FileId, FrontFault, Names, NamesFull, Place, SourceFault, faults};

// The fault of a program that does not fit.
const NOT_BUILT: FaultKind = FaultKind::Unsupported(0);

/// A fault of a file as a whole.
fn of_file(kind: FaultKind, file: FileId) -> FrontFault {
    FrontFault::Fault(SourceFault {
        kind,
        place: Place::of_file(file),
    })
}

/// The numbers of the files' names, in the order of the files.
fn numbers_of(
    alloc: Global,
    files: &[SourceFile],
    names: &mut Names,
) -> Result<Vec<FileId>, FrontFault> {
    let mut numbers = Vec::new(alloc);
    for file in files {
        match names.number_of(alloc, file.name.as_bytes()) {
            Ok(number) => numbers.push(number)?,
            Err(NamesFull::NoMemory) => return Err(FrontFault::NoMemory),
            Err(NamesFull::Full) => return Err(of_file(faults::TOO_MANY_NAMES, FileId(0))),
        }
    }
    Ok(numbers)
}

/// The syntax tree of a file. `room` is the number of tokens that are left to it and to the files behind it.
fn tree_of(
    alloc: Global,
    bytes: &[u8],
    number: FileId,
    names: &mut Names,
    room: &mut u32,
) -> Result<Tree, FrontFault> {
    let tokens = lex(alloc, bytes, number, names, *room)?;
    // the end of a file takes no room
    let taken = tokens.list.len().saturating_sub(1).min(TOKENS as usize);
    *room = room.saturating_sub(taken as u32);
    parse(alloc, &tokens, bytes)
}

/// The syntax trees of the files, each lexed and parsed before the next.
fn trees_of(
    alloc: Global,
    files: &[SourceFile],
    names: &mut Names,
) -> Result<Vec<Tree>, FrontFault> {
    let numbers = numbers_of(alloc, files, names)?;
    let mut trees = Vec::new(alloc);
    let mut room = TOKENS;
    for (file, number) in files.iter().zip(numbers.iter()) {
        let tree = tree_of(alloc, &file.bytes, *number, names, &mut room)?;
        trees.push(tree)?;
    }
    Ok(trees)
}

/// The fault of a program with more functions than there may be, those for known calls counted: at the name of the first
/// that is too many.
fn functions_fault(typed: &Typed) -> Option<SourceFault> {
    let function = typed.functions.get(FUNCTIONS as usize)?;
    Some(SourceFault {
        kind: faults::TOO_MANY_FUNCTIONS,
        place: function.place,
    })
}

/// A program that fits, as the analysis asks for. That lowering gives no other one is only tested.
fn fitting(alloc: Global, core: CoreProgram) -> Result<CoreProgram, FrontFault> {
    if fits(alloc, &core)? {
        Ok(core)
    } else {
        Err(of_file(NOT_BUILT, FileId(0)))
    }
}

/// The program of the files, or the first fault in them. Each file is lexed and parsed, then they are checked, linked and
/// lowered; `entry` has the names of the functions that the environment calls, separated by commas. `names` gets the names
/// of the files, and those that their directives set.
pub fn front(
    alloc: Global,
    files: &[SourceFile],
    entry: &[u8],
    names: &mut Names,
) -> Result<Program, FrontFault> {
    let trees = trees_of(alloc, files, names)?;
    let typed = link(alloc, &trees, entry)?;
    let defined = typed.functions.len();
    let typed = redirect(alloc, typed)?;
    let redirected = typed.functions.len() > defined;
    if let Some(fault) = functions_fault(&typed) {
        return Err(FrontFault::Fault(fault));
    }
    let core = fitting(alloc, lower(alloc, &typed)?)?;
    Ok(Program {
        typed,
        core,
        redirected,
    })
}
