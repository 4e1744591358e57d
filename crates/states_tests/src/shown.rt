// All that can be read of a state, as a line of words.

use std::alloc::{AllocError, Global};
use std::fmt::Write;
use var_state::State;

fn show_bounds(text: &mut String, state: &State, registers: u32) -> Result<(), AllocError> {
    for r in 0..registers {
        if let Some(i) = state.bounds(r) {
            let low = i.low;
            let high = i.high;
            write!(text, " {low}:{high}")?;
        }
    }
    Ok(())
}

fn show_differences(text: &mut String, state: &State, registers: u32) -> Result<(), AllocError> {
    for a in 0..registers {
        for b in 0..registers {
            if a != b {
                show_difference(text, state, a, b)?;
            }
        }
    }
    Ok(())
}

fn show_difference(text: &mut String, state: &State, a: u32, b: u32) -> Result<(), AllocError> {
    if let Some(d) = state.difference(a, b) {
        write!(text, " {a}-{b}:{d}")?;
    }
    Ok(())
}

/// The bounds of the registers, and of the differences of registers of one cluster.
pub(crate) fn show(alloc: Global, state: &State, registers: u32) -> Result<String, AllocError> {
    let mut text = String::new(alloc);
    if state.is_bottom() {
        text.push_str(" bottom")?;
        return Ok(text);
    }
    show_bounds(&mut text, state, registers)?;
    show_differences(&mut text, state, registers)?;
    Ok(text)
}
