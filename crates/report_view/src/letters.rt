ghost use Rattle.std.specs.Prelude.{◌≡◌, ◌++◌, ◌∷◌, [], ◌<◌, OnOk};
ghost use Rattle.std.specs.List.{flat_map};
ghost use Rattle.report_view.specs.Letters.{hex_digit, escaped_byte, shown_byte};

use sv_base::NoMemory;

/// Appends the pieces one after another.
pub fn push_pieces(into: &mut Vec<u8>, pieces: &[&[u8]]) -> Result<(), NoMemory>
    ensures { OnOk result (into.new.items ≡ into.old.items ++ flat_map (λ p. p.now) pieces.now) }
{
    for piece in pieces {
        into.extend_from_slice(piece)?;
    }
    Ok(())
}

/// Appends bytes so that a terminal shows them in one line: a control byte as `\xHH`, every other byte as it is.
pub fn push_shown(into: &mut Vec<u8>, bytes: &[u8]) -> Result<(), NoMemory>
    ensures { OnOk result (into.new.items ≡ into.old.items ++ flat_map shown_byte bytes.now) }
{
    for byte in bytes {
        push_shown_byte(into, *byte)?;
    }
    Ok(())
}

fn push_shown_byte(into: &mut Vec<u8>, byte: u8) -> Result<(), NoMemory>
    ensures { OnOk result (into.new.items ≡ into.old.items ++ shown_byte byte) }
{
    if byte < 32 || byte == 127 {
        return push_escaped(into, byte);
    }
    into.push(byte)?;
    Ok(())
}

/// Appends a byte as `\xHH`.
pub fn push_escaped(into: &mut Vec<u8>, byte: u8) -> Result<(), NoMemory>
    ensures { OnOk result (into.new.items ≡ into.old.items ++ escaped_byte byte) }
{
    into.push(b'\\')?;
    into.push(b'x')?;
    into.push(hex_digit(byte / 16))?;
    into.push(hex_digit(byte % 16))?;
    Ok(())
}

fn hex_digit(value: u8) -> u8
    requires { value < 16 }
    ensures { result ≡ hex_digit value }
{
    if value < 10 {
        b'0' + value
    } else {
        b'a' + (value - 10)
    }
}
