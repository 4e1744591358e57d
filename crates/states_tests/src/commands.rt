// The lines of the tables.

use c_values::Cmp;
use core_ir::Operand;
use intervals::Interval;
use std::alloc::Global;
use sv_base::NoMemory;
use var_state::Layout;

/// A call, by the letters of the states.
#[derive(Clone, Copy)]
pub(crate) enum Command {
    Top(usize),
    Copy(usize, usize),
    Bottom(usize),
    Interval(usize, u32, Option<Interval>),
    Sum(usize, u32, u32, i128),
    Assume(usize, Cmp, Operand, Operand),
    Difference(usize, u32, u32, i128),
    Join(usize, usize),
    Widen(usize, usize),
    Within(usize, usize, bool),
    Mark,
    Release,
    Undo,
    TakeBack(usize),
    JoinPatch(usize),
    JoinMark(usize),
    Leave(usize, usize),
    NoExit(usize),
    IsWithin(bool),
    WidenMark(usize),
    NewWidening(usize),
    SetTop,
    KeepAll(usize),
    IsAt(usize, bool),
    Put(usize),
}

pub(crate) fn letter(word: &str) -> Option<usize> {
    match word.as_bytes() {
        [b'a'] => Some(0),
        [b'b'] => Some(1),
        [b'c'] => Some(2),
        [b'd'] => Some(3),
        [b'e'] => Some(4),
        [b'f'] => Some(5),
        [b'g'] => Some(6),
        [b'h'] => Some(7),
        _ => None,
    }
}

pub(crate) fn comparison(word: &str) -> Option<Cmp> {
    match word.as_bytes() {
        b"lt" => Some(Cmp::Lt),
        b"le" => Some(Cmp::Le),
        b"gt" => Some(Cmp::Gt),
        b"ge" => Some(Cmp::Ge),
        b"eq" => Some(Cmp::Eq),
        b"ne" => Some(Cmp::Ne),
        _ => None,
    }
}

pub(crate) fn truth(word: &str) -> Option<bool> {
    match word.as_bytes() {
        b"yes" => Some(true),
        b"no" => Some(false),
        _ => None,
    }
}

pub(crate) fn operand(word: &str) -> Option<Operand> {
    match word.strip_prefix('r') {
        Some(number) => Some(Operand::Reg(number.parse().ok()?)),
        None => Some(Operand::Const(word.parse().ok()?)),
    }
}

pub(crate) fn pair(word: &str) -> Option<(i128, i128)> {
    let (low, high) = word.split_once(':')?;
    Some((low.parse().ok()?, high.parse().ok()?))
}

pub(crate) fn interval(word: &str) -> Option<Interval> {
    let (low, high) = pair(word)?;
    Some(Interval { low, high })
}

/// The word at a place of a line.
pub(crate) fn word(line: &str, at: usize) -> Option<&str> {
    line.split_whitespace().nth(at)
}

pub(crate) fn register(line: &str, at: usize) -> Option<u32> {
    word(line, at)?.parse().ok()
}

pub(crate) fn number(line: &str, at: usize) -> Option<i128> {
    word(line, at)?.parse().ok()
}

pub(crate) fn name(line: &str, at: usize) -> Option<usize> {
    letter(word(line, at)?)
}

pub(crate) fn place(line: &str, at: usize) -> Option<usize> {
    word(line, at)?.parse().ok()
}

fn set_interval(line: &str) -> Option<Command> {
    Some(Command::Interval(name(line, 1)?, register(line, 2)?, interval(word(line, 3)?)))
}

fn set_sum(line: &str) -> Option<Command> {
    Some(Command::Sum(
        name(line, 1)?,
        register(line, 2)?,
        register(line, 3)?,
        number(line, 4)?,
    ))
}

fn assume(line: &str) -> Option<Command> {
    Some(Command::Assume(
        name(line, 1)?,
        comparison(word(line, 2)?)?,
        operand(word(line, 3)?)?,
        operand(word(line, 4)?)?,
    ))
}

fn add_difference(line: &str) -> Option<Command> {
    Some(Command::Difference(
        name(line, 1)?,
        register(line, 2)?,
        register(line, 3)?,
        number(line, 4)?,
    ))
}

fn within(line: &str) -> Option<Command> {
    Some(Command::Within(name(line, 1)?, name(line, 2)?, truth(word(line, 3)?)?))
}

fn of_one(line: &str, make: Single) -> Option<Command> {
    let x = name(line, 1)?;
    match make {
        Single::Top => Some(Command::Top(x)),
        Single::Bottom => Some(Command::Bottom(x)),
    }
}

// Commands that name one state alone.
#[derive(Clone, Copy)]
enum Single {
    Top,
    Bottom,
}

// Commands that name two states alone.
#[derive(Clone, Copy)]
enum Double {
    Copy,
    Join,
    Widen,
}

fn of_two(line: &str, make: Double) -> Option<Command> {
    let x = name(line, 1)?;
    let y = name(line, 2)?;
    match make {
        Double::Copy => Some(Command::Copy(x, y)),
        Double::Join => Some(Command::Join(x, y)),
        Double::Widen => Some(Command::Widen(x, y)),
    }
}

fn state_command(line: &str) -> Option<Command> {
    match word(line, 0).unwrap_or("").as_bytes() {
        b"top" => of_one(line, Single::Top),
        b"bottom" => of_one(line, Single::Bottom),
        b"copy" => of_two(line, Double::Copy),
        b"join" => of_two(line, Double::Join),
        b"widen" => of_two(line, Double::Widen),
        b"interval" => set_interval(line),
        b"sum" => set_sum(line),
        b"assume" => assume(line),
        b"difference" => add_difference(line),
        b"within" => within(line),
        _ => None,
    }
}

// Commands that name a patch, a widening or a mark by its number.
fn of_number(line: &str) -> Option<Command> {
    let at = place(line, 1)?;
    match word(line, 0).unwrap_or("").as_bytes() {
        b"take_back" => Some(Command::TakeBack(at)),
        b"join_patch" => Some(Command::JoinPatch(at)),
        b"join_mark" => Some(Command::JoinMark(at)),
        b"no_exit" => Some(Command::NoExit(at)),
        b"widen_mark" => Some(Command::WidenMark(at)),
        b"new_widening" => Some(Command::NewWidening(at)),
        b"keep_all" => Some(Command::KeepAll(at)),
        b"put" => Some(Command::Put(at)),
        _ => None,
    }
}

fn leave(line: &str) -> Option<Command> {
    Some(Command::Leave(place(line, 1)?, place(line, 2)?))
}

fn is_at(line: &str) -> Option<Command> {
    Some(Command::IsAt(place(line, 1)?, truth(word(line, 2)?)?))
}

fn is_within(line: &str) -> Option<Command> {
    Some(Command::IsWithin(truth(word(line, 1)?)?))
}

fn running_command(line: &str) -> Option<Command> {
    match word(line, 0).unwrap_or("").as_bytes() {
        b"mark" => Some(Command::Mark),
        b"release" => Some(Command::Release),
        b"undo" => Some(Command::Undo),
        b"set_top" => Some(Command::SetTop),
        b"leave" => leave(line),
        b"is_within" => is_within(line),
        b"is_at" => is_at(line),
        _ => of_number(line),
    }
}

pub(crate) fn read_command(line: &str) -> Option<Command> {
    match state_command(line) {
        Some(command) => Some(command),
        None => running_command(line),
    }
}

fn registers_of(alloc: Global, text: &str) -> Result<Vec<u32>, NoMemory> {
    let mut registers = Vec::new(alloc);
    for word in text.split_whitespace() {
        if let Ok(r) = word.parse() {
            registers.push(r)?;
        }
    }
    Ok(registers)
}

/// The layout of a line `layout 0 1|2 ; 0:1 0:1 0:1`.
pub(crate) fn layout_of(alloc: Global, text: &str) -> Result<Layout, NoMemory> {
    let mut clusters = Vec::new(alloc);
    let mut ranges = Vec::new(alloc);
    if let Some((first, second)) = text.split_once(';') {
        for cluster in first.split('|') {
            clusters.push(registers_of(alloc, cluster)?)?;
        }
        for word in second.split_whitespace() {
            if let Some(range) = pair(word) {
                ranges.push(range)?;
            }
        }
    }
    Ok(Layout { clusters, ranges })
}
