ghost use Rattle.std.specs.Prelude.{◌≡◌, ◌++◌, OnOk, OnErr};
ghost use Rattle.std.specs.List.{flat_map};
ghost use Rattle.report.specs.Append.{AppendsPrefix};
ghost use Rattle.report.specs.Report.{place_text};

use itoa::Buffer;
use sv_base::NoMemory;

/// Appends the pieces one after another.
pub(crate) fn push_pieces(into: &mut Vec<u8>, pieces: &[&[u8]]) -> Result<(), NoMemory>
    ensures ok { OnOk result (into.new.items ≡ into.old.items ++ flat_map (λ p. p.now) pieces.now) }
    ensures err { OnErr result (AppendsPrefix into.old.items (flat_map (λ p. p.now) pieces.now) into.new.items) }
{
    for piece in pieces {
        into.extend_from_slice(piece)?;
    }
    Ok(())
}

/// Appends FILE:LINE:COL.
#[tactic(auto, unfolding(crate::specs::Report::place_text))]
pub(crate) fn push_place(
    file: &[u8],
    line: u32,
    col: u32,
    into: &mut Vec<u8>,
) -> Result<(), NoMemory>
    ensures ok { OnOk result (into.new.items ≡ into.old.items ++ place_text file.now line col) }
    ensures err { OnErr result (AppendsPrefix into.old.items (place_text file.now line col) into.new.items) }
{
    let mut line_digits = Buffer::new();
    let mut col_digits = Buffer::new();
    into.extend_from_slice(file)?;
    push_pieces(
        into,
        &[
            b":",
            line_digits.format(line).as_bytes(),
            b":",
            col_digits.format(col).as_bytes(),
        ],
    )
}
