ghost use Rattle.std.specs.Prelude.{◌≡◌, ◌++◌, ◌<◌, ◌≤◌, [], ℕ, map, length, slice_index_or, OnOk, OnErr};
ghost use Rattle.sv_base.specs.Faults.{IsListed};
ghost use Rattle.report.specs.Append.{AppendsPrefix};
ghost use Rattle.report.specs.Faults.{fault_text, kind_word, kind_code, kind_text, kind_line};

use crate::pieces::{push_pieces, push_place};
use itoa::Buffer;
use sv_base::{FaultKind, Names, NoMemory, SourceFault};

const UNSUPPORTED: [&str; 16] = [
    "form is not built yet",
    "floating type or constant",
    "complex type",
    "wide, universal or long character",
    "array of variable length",
    "goto or label",
    "bit-field",
    "flexible array member",
    "compound literal",
    "GNU word",
    "struct parameter or result",
    "old-style definition",
    "definition with variable arguments",
    "union",
    "case outside its switch",
    "setjmp or longjmp",
];

// The codes of the tables that follow count from 1.
const TYPING: [&str; 13] = [
    "operand types",
    "name is not declared",
    "name is declared otherwise",
    "value does not convert",
    "not an lvalue",
    "number of arguments",
    "size is not known",
    "no constant",
    "specifiers do not fit",
    "member is not known",
    "initialiser does not fit",
    "address constant outside its array",
    "statement is misplaced",
];

const LINK: [&str; 4] = [
    "entry is not defined",
    "defined twice",
    "declared with unlike types",
    "object is not defined",
];

const LIMIT: [&str; 13] = [
    "file bytes",
    "total bytes",
    "tokens of all files",
    "nesting of the tree",
    "nested loops",
    "functions",
    "sites",
    "object size in bytes",
    "region and leaf classes of all objects",
    "registers of one function",
    "parameters or arguments",
    "bytes of one token",
    "presumed names",
];

/// Appends the line that names a fault: FILE:LINE:COL: WORD CODE TEXT.
pub fn fault_text(fault: &SourceFault, names: &Names, into: &mut Vec<u8>) -> Result<(), NoMemory>
    requires named { fault.now.place.file.0 < length names.now }
    requires listed { IsListed fault.now.kind }
    ensures ok { OnOk result (into.new.items ≡ into.old.items ++ fault_text fault.now names.now) }
    ensures err { OnErr result (AppendsPrefix into.old.items (fault_text fault.now names.now) into.new.items) }
{
    let place = fault.place;
    push_place(names.text(place.file), place.line, place.col, into)?;
    push_kind(fault.kind, into)
}

#[tactic(auto, unfolding(crate::specs::Faults::kind_line))]
fn push_kind(kind: FaultKind, into: &mut Vec<u8>) -> Result<(), NoMemory>
    requires { IsListed kind }
    ensures ok { OnOk result (into.new.items ≡ into.old.items ++ kind_line kind) }
    ensures err { OnErr result (AppendsPrefix into.old.items (kind_line kind) into.new.items) }
{
    let mut code = Buffer::new();
    push_pieces(into, &[b": ", kind_word(kind).as_bytes(), b" "])?;
    push_pieces(into, &[code.format(kind_code(kind)).as_bytes(), b" "])?;
    push_pieces(into, &[kind_text(kind).as_bytes(), b"\n"])
}

fn kind_word(kind: FaultKind) -> &'static str
    ensures { result.now ≡ kind_word kind }
{
    match kind {
        FaultKind::Lex => "lex",
        FaultKind::Syntax => "syntax",
        FaultKind::Unsupported(_) => "unsupported",
        FaultKind::Typing(_) => "type",
        FaultKind::Link(_) => "link",
        FaultKind::Limit(_) => "limit",
    }
}

fn kind_code(kind: FaultKind) -> u16
    ensures { result ≡ kind_code kind }
{
    match kind {
        FaultKind::Lex | FaultKind::Syntax => 0,
        FaultKind::Unsupported(code)
        | FaultKind::Typing(code)
        | FaultKind::Link(code)
        | FaultKind::Limit(code) => code,
    }
}

fn kind_text(kind: FaultKind) -> &'static str
    requires { IsListed kind }
    ensures { result.now ≡ kind_text kind }
{
    match kind {
        FaultKind::Lex => "no token",
        FaultKind::Syntax => "no rule",
        FaultKind::Unsupported(code) => text_at(&UNSUPPORTED, code),
        FaultKind::Typing(code) => text_at(&TYPING, code - 1),
        FaultKind::Link(code) => text_at(&LINK, code - 1),
        FaultKind::Limit(code) => text_at(&LIMIT, code - 1),
    }
}

fn text_at(texts: &[&'static str], at: u16) -> &'static str
    requires { at < length texts.now }
    ensures { result.now ≡ slice_index_or (map (λ text. text.now) texts.now) at [] }
{
    texts[at as usize]
}
