ghost use Rattle.std.specs.Prelude.{◌≡◌, ◌^◌, ◌≤◌, length, IfOk, IsErrOf};
ghost use Rattle.first_form.specs.Form.{IsForm};
ghost use Rattle.first_form.specs.Front.{not_of_form};
ghost use Rattle.first_form.specs.computed.Reading.{Gives, reading};
ghost use Rattle.sv_base.specs.declared.fault.SourceFault.{SourceFault as Fault};
ghost use Rattle.sv_base.specs.declared.fault.FrontFault.TheVariants as faults;
ghost use Rattle.first_form.specs.declared.program.Program.{Program as Checked};

use crate::cursor::Cursor;
use crate::grammar::program;
use crate::lexer::lex;
use crate::program::Program;
use crate::refusal::Refusal;
use std::alloc::Global;
use sv_base::{FaultKind, FileId, FrontFault, Place, SourceFault};

fn read(alloc: Global, bytes: &[u8]) -> Result<Program, Refusal>
    requires { length bytes.now ≤ 2 ^ 24 }
    ensures { Gives (λ p. p) result (reading bytes.now) }
{
    let tokens = lex(alloc, bytes)?;
    program(alloc, Cursor::new(bytes, &tokens))
}

/// The program that a file of these bytes is. A file of any other form is refused at its first byte, under the number
/// that it was given.
pub fn front(alloc: Global, file: FileId, bytes: &[u8]) -> Result<Program, FrontFault>
    requires { length bytes.now ≤ 2 ^ 24 }
    ensures form { IfOk result (λ p. IsForm bytes.now p) }
    ensures other_form { (f : Fault) → IsErrOf result (faults.Fault f) → (p : Checked) → ¬ IsForm bytes.now p }
    ensures fault { (f : Fault) → IsErrOf result (faults.Fault f) → f ≡ not_of_form file }
{
    match read(alloc, bytes) {
        Ok(program) => return Ok(program),
        Err(Refusal::NoMemory) => return Err(FrontFault::NoMemory),
        Err(Refusal::NotOfForm) => {
            return Err(FrontFault::Fault(SourceFault {
                kind: FaultKind::Unsupported(0),
                place: Place {
                    file,
                    line: 1,
                    col: 1,
                },
            }));
        }
    }
}
