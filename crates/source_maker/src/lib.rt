//! Makes the C sources of the trial command: a row of small functions, each with an array that it fills and reads, and a
//! `main` that calls them all. `docs/FORMATS.md` has the text line by line.
#![tactic(auto)]

ghost use Rattle.std.specs.Prelude.{◌≡◌, ◌++◌, ◌+◌, IfOk, OnOk, decimal};
ghost use Rattle.std.specs.List.{flat_map};
ghost use Rattle.source_maker.specs.Source.{source_text, functions_text, function_text, main_text, calls_text, call_text, next_draw, length_of, index_of};

use itoa::Buffer;
use std::alloc::Global;
use sv_base::NoMemory;

/// The text of the source that has this many functions and whose lengths and indexes are drawn from `number`.
pub fn make(alloc: Global, number: u32, functions: u32) -> Result<Vec<u8>, NoMemory>
    ensures { IfOk result (λ text. text.items ≡ source_text number functions) }
{
    let mut text = Vec::new(alloc);
    push_functions(number, functions, &mut text)?;
    push_main(functions, &mut text)?;
    Ok(text)
}

fn push_functions(number: u32, functions: u32, text: &mut Vec<u8>) -> Result<(), NoMemory>
    ensures { OnOk result (text.new.items ≡ text.old.items ++ functions_text number functions) }
{
    let mut draw = number;
    for k in 0..functions {
        draw = next_draw(draw);
        push_function(k, draw, text)?;
    }
    Ok(())
}

#[tactic(auto, unfolding(crate::specs::Source::function_text))]
fn push_function(k: u32, draw: u32, text: &mut Vec<u8>) -> Result<(), NoMemory>
    ensures { OnOk result (text.new.items ≡ text.old.items ++ function_text k draw) }
{
    let length = length_of(draw);
    push_numbered(
        &[
            (b"static int b", k),
            (b"[", length),
            (b"];\nint f", k),
            (b"(int n){\n int i;\n for(i=0;i<", length),
            (b";i++) b", k),
            (b"[i]=n+i;\n return b", k),
            (b"[", index_of(draw)),
        ],
        text,
    )?;
    text.extend_from_slice(b"];\n}\n")?;
    Ok(())
}

#[tactic(auto, unfolding(crate::specs::Source::main_text))]
fn push_main(functions: u32, text: &mut Vec<u8>) -> Result<(), NoMemory>
    ensures { OnOk result (text.new.items ≡ text.old.items ++ main_text functions) }
{
    text.extend_from_slice(b"int main(void){\n int r=0;\n")?;
    push_calls(functions, text)?;
    text.extend_from_slice(b" return 0;\n}\n")?;
    Ok(())
}

fn push_calls(functions: u32, text: &mut Vec<u8>) -> Result<(), NoMemory>
    ensures { OnOk result (text.new.items ≡ text.old.items ++ calls_text functions) }
{
    for k in 0..functions {
        push_numbered(&[(b" r=f", k)], text)?;
        text.extend_from_slice(b"(r&255);\n")?;
    }
    Ok(())
}

// Appends each text with the number behind it.
fn push_numbered(parts: &[(&[u8], u32)], text: &mut Vec<u8>) -> Result<(), NoMemory>
    ensures { OnOk result (text.new.items ≡ text.old.items ++ flat_map (λ p. p.0.now ++ decimal p.1) parts.now) }
{
    for (before, number) in parts {
        let mut digits = Buffer::new();
        text.extend_from_slice(before)?;
        text.extend_from_slice(digits.format(*number).as_bytes())?;
    }
    Ok(())
}

fn next_draw(draw: u32) -> u32
    ensures { result ≡ next_draw draw }
{
    ((1_664_525 * u64::from(draw) + 1_013_904_223) % (1 << 32)) as u32
}

fn length_of(draw: u32) -> u32
    ensures { result ≡ length_of draw }
{
    2 + draw / 65_536 % 30
}

fn index_of(draw: u32) -> u32
    ensures { result ≡ index_of draw }
{
    draw / 256 % (length_of(draw) + 1)
}
