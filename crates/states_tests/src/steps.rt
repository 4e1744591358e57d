use crate::commands::{Command, layout_of, read_command, register, word};
use crate::fact_lines::{add_fact, no_facts};
use crate::shown::show;
use crate::step_lines::read_step;
use crate::step_table::TABLE;
use core_ir::{Bounds, Effects, Facts};
use std::alloc::{AllocError, Global};
use std::fmt::Write;
use std::process::Abort;
use std::test::Fail;
use sv_base::{Colour, NoMemory};
use transfer::{Gathered, Known, Lookups, colour_at, step};
use var_state::{Layout, Running, State};

// What one analysis has.
struct Scene {
    layout: Layout,
    facts: Facts,
    running: Running,
    lookups: Lookups,
    gathered: Gathered,
}

impl Drop for Scene {
    fn drop(self) {
        let Scene {
            layout,
            facts,
            running,
            lookups,
            gathered,
        } = self;
        let _ = (layout, facts, running, lookups, gathered);
    }
}

fn scene_of(alloc: Global, layout: Layout) -> Result<Scene, NoMemory> {
    let running = Running::new(alloc, State::top(alloc, &layout)?)?;
    Ok(Scene {
        layout,
        facts: no_facts(alloc, false),
        running,
        lookups: Lookups::new(alloc),
        gathered: Gathered::new(alloc),
    })
}

fn show_matrix(text: &mut String, bounds: &Bounds) -> Result<(), AllocError> {
    let size = bounds.size;
    write!(text, " [{size}]")?;
    for entry in &bounds.entries {
        match entry {
            Some(c) => write!(text, " {c}")?,
            None => text.push_str(" none")?,
        }
    }
    Ok(())
}

fn show_effects(alloc: Global, effects: &Effects) -> Result<String, AllocError> {
    let mut text = String::new(alloc);
    text.push_str("effects")?;
    for part in &effects.writes {
        let class = part.class;
        let low = part.low;
        let high = part.high;
        write!(&mut text, " {class}:{low}:{high}")?;
    }
    for call in &effects.calls {
        let callee = call.callee;
        write!(&mut text, " call{callee}")?;
        for bounds in &call.entry {
            show_matrix(&mut text, bounds)?;
        }
    }
    Ok(text)
}

fn colour_word(colour: Colour) -> &'static str {
    match colour {
        Colour::Unreachable => "unreachable",
        Colour::Green => "green",
        Colour::Orange => "orange",
        Colour::Red => "red",
    }
}

// Whether a word `r:low:high` or `a-b:c` holds of the state.
fn holds(state: &State, word: &str) -> Option<bool> {
    let (first, rest) = word.split_once(':')?;
    if let Some((a, b)) = first.split_once('-') {
        let d = state.difference(a.parse().ok()?, b.parse().ok()?)?;
        let wanted: i128 = rest.parse().ok()?;
        return Some(wanted == d);
    }
    let (low, high) = rest.split_once(':')?;
    let i = state.bounds(first.parse().ok()?)?;
    let least: i128 = low.parse().ok()?;
    let most: i128 = high.parse().ok()?;
    Some(least == i.low && most == i.high)
}

fn change(alloc: Global, scene: &mut Scene, line: &str) -> Result<bool, NoMemory> {
    match read_command(line) {
        Some(Command::Interval(_, to, i)) => scene.running.set_interval(alloc, to, i)?,
        Some(Command::Assume(_, c, a, b)) => scene.running.assume(alloc, c, a, b)?,
        _ => return add_fact(alloc, &mut scene.facts, line),
    }
    Ok(true)
}

fn take_step(rt: &impl Abort, alloc: Global, scene: &mut Scene, line: &str) -> Result<(), Fail> {
    let _ = rt;
    let s = read_step(alloc, line)?;
    step(
        alloc,
        &mut scene.running,
        &s,
        Known::of_facts(&scene.facts),
        &mut scene.lookups,
        &mut scene.gathered,
    )?;
    Ok(())
}

fn run_line(rt: &impl Abort, alloc: Global, scene: &mut Scene, line: &str) -> Result<(), Fail> {
    match word(line, 0).unwrap_or("").as_bytes() {
        b"layout" => {
            let text = line.strip_prefix("layout ").unwrap_or("");
            *scene = new_scene(alloc, text)?;
        }
        b"facts" => {
            scene.facts.rising = line.ends_with("rising");
        }
        b"start" => {
            let top = State::top(alloc, &scene.layout)?;
            scene.running = Running::new(alloc, top)?;
        }
        b"step" => take_step(rt, alloc, scene, line)?,
        b"now" => {
            for word in line.split_whitespace().skip(1) {
                assert_eq!(rt;
                    holds(scene.running.state(), word),
                    Some(true),
                    "{word} in {line}"
                );
            }
        }
        b"shows" => {
            let registers = scene.layout.ranges.len();
            assert!(rt; registers < 100);
            let text = show(alloc, scene.running.state(), registers as u32)?;
            assert_eq!(rt; text.as_str(), line.strip_prefix("shows a").unwrap_or(""));
        }
        b"colour" => {
            let colour = colour_at(
                scene.running.state(),
                register(line, 1).unwrap_or(0),
                word(line, 2).unwrap_or("0").parse().unwrap_or(0),
                Known::of_facts(&scene.facts),
                &mut scene.lookups,
            )?;
            assert_eq!(rt; colour_word(colour), word(line, 3).unwrap_or(""), "{line}");
        }
        b"effects" => {
            let gathered = std::mem::replace(&mut scene.gathered, Gathered::new(alloc));
            let effects = gathered.into_effects(alloc)?;
            let text = show_effects(alloc, &effects)?;
            assert_eq!(rt; text.as_str(), line);
        }
        _ => assert!(rt; change(alloc, scene, line)?, "{line}"),
    }
    Ok(())
}

fn new_scene(alloc: Global, text: &str) -> Result<Scene, NoMemory> {
    scene_of(alloc, layout_of(alloc, text)?)
}

#[test]
fn steps_answer_as_in_the_table(rt: HostRuntime) -> Result<(), Fail> {
    let alloc = rt.alloc();
    let mut scene = new_scene(alloc, "0 ; 0:1")?;
    for line in TABLE.lines() {
        run_line(&rt, alloc, &mut scene, line)?;
    }
    Ok(())
}
