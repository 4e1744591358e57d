ghost use Rattle.std.specs.Prelude.{◌≡◌, ◌++◌, ℕ, true, List, OnOk};
ghost use Rattle.std.specs.List.{flat_map, list_all};
ghost use Rattle.std.specs.Str.{IsUtf8};
ghost use Rattle.report_page.specs.Escape.{html_byte, raw_html_byte, html_ascii, is_no_mark};

use report_view::push_escaped;
use std::str;
use sv_base::NoMemory;

/// Appends bytes as text of a page, in an element or an attribute: the marks of HTML as character references, control
/// bytes as `\xHH`, and, where the bytes are no UTF-8, each byte past ASCII as `\xHH` too.
pub fn push_html(into: &mut Vec<u8>, bytes: &[u8]) -> Result<(), NoMemory>
    ensures text { IsUtf8 bytes.now → OnOk result (into.new.items ≡ into.old.items ++ flat_map html_byte bytes.now) }
    ensures raw { ¬ (IsUtf8 bytes.now) → OnOk result (into.new.items ≡ into.old.items ++ flat_map raw_html_byte bytes.now) }
{
    match str::from_utf8(bytes) {
        Ok(_) => push_html_text(into, bytes),
        Err(_) => push_raw_html(into, bytes),
    }
}

/// What is appended ends no element and no attribute.
pub fn escaped_text_has_no_marks()
    ensures text { (bytes : List ℕ) → list_all is_no_mark (flat_map html_byte bytes) ≡ true }
    ensures raw { (bytes : List ℕ) → list_all is_no_mark (flat_map raw_html_byte bytes) ≡ true }
{}

fn push_html_text(into: &mut Vec<u8>, bytes: &[u8]) -> Result<(), NoMemory>
    ensures { OnOk result (into.new.items ≡ into.old.items ++ flat_map html_byte bytes.now) }
{
    for byte in bytes {
        push_html_byte(into, *byte)?;
    }
    Ok(())
}

fn push_raw_html(into: &mut Vec<u8>, bytes: &[u8]) -> Result<(), NoMemory>
    ensures { OnOk result (into.new.items ≡ into.old.items ++ flat_map raw_html_byte bytes.now) }
{
    for byte in bytes {
        push_raw_html_byte(into, *byte)?;
    }
    Ok(())
}

fn push_html_byte(into: &mut Vec<u8>, byte: u8) -> Result<(), NoMemory>
    ensures { OnOk result (into.new.items ≡ into.old.items ++ html_byte byte) }
{
    if byte >= 128 {
        into.push(byte)?;
        return Ok(());
    }
    push_html_ascii(into, byte)
}

fn push_raw_html_byte(into: &mut Vec<u8>, byte: u8) -> Result<(), NoMemory>
    ensures { OnOk result (into.new.items ≡ into.old.items ++ raw_html_byte byte) }
{
    if byte >= 128 {
        return push_escaped(into, byte);
    }
    push_html_ascii(into, byte)
}

fn push_html_ascii(into: &mut Vec<u8>, byte: u8) -> Result<(), NoMemory>
    ensures { OnOk result (into.new.items ≡ into.old.items ++ html_ascii byte) }
{
    match byte {
        b'<' => into.extend_from_slice(b"&lt;")?,
        b'>' => into.extend_from_slice(b"&gt;")?,
        b'&' => into.extend_from_slice(b"&amp;")?,
        b'"' => into.extend_from_slice(b"&quot;")?,
        b'\'' => into.extend_from_slice(b"&#39;")?,
        b'\t' => into.push(byte)?,
        0..=31 | 127 => push_escaped(into, byte)?,
        _ => into.push(byte)?,
    }
    Ok(())
}
