use crate::commands::{Command, layout_of, read_command};
use crate::running_table::TABLE;
use crate::shown::show;
use std::alloc::Global;
use std::mem;
use std::process::Abort;
use std::test::Fail;
use sv_base::NoMemory;
use var_state::{Layout, Patch, Running, State, Widening};

// A state that runs, and the patches and widenings of a table by their numbers.
struct Run {
    layout: Layout,
    running: Running,
    patches: Vec<Patch>,
    widenings: Vec<Widening>,
}

impl Drop for Run {
    fn drop(self) {
        let Run {
            layout,
            running,
            patches,
            widenings,
        } = self;
        let _ = (layout, running, patches, widenings);
    }
}

impl Run {
    fn new(alloc: Global, layout: Layout) -> Result<Run, NoMemory> {
        let running = Running::new(alloc, State::top(alloc, &layout)?)?;
        let mut patches = Vec::new(alloc);
        let mut widenings = Vec::new(alloc);
        for _ in 0..60 {
            patches.push(Patch::bottom(alloc))?;
            widenings.push(Widening::new(alloc))?;
        }
        Ok(Run {
            layout,
            running,
            patches,
            widenings,
        })
    }

    fn set_patch(&mut self, at: usize, patch: Patch) -> bool {
        match self.patches.get_mut(at) {
            Some(place) => {
                *place = patch;
                true
            }
            None => false,
        }
    }

    fn keep_all(&mut self, alloc: Global, at: usize) -> Result<bool, NoMemory> {
        let mut all = Vec::new(alloc);
        for k in 0..self.layout.clusters.len() {
            all.push(k)?;
        }
        let patch = self.running.copy_clusters(alloc, &all)?;
        Ok(self.set_patch(at, patch))
    }

    fn join_patch(&mut self, alloc: Global, at: usize) -> Result<bool, NoMemory> {
        match self.patches.get_mut(at) {
            Some(place) => {
                let patch = mem::replace(place, Patch::bottom(alloc));
                self.running.join(alloc, patch)?;
                Ok(true)
            }
            None => Ok(false),
        }
    }

    fn leave(&mut self, alloc: Global, mark: usize, at: usize) -> Result<bool, NoMemory> {
        match self.patches.get_mut(at) {
            Some(patch) => {
                self.running.leave(alloc, mark, patch)?;
                Ok(true)
            }
            None => Ok(false),
        }
    }

    fn widen_mark(&mut self, alloc: Global, at: usize) -> Result<bool, NoMemory> {
        match self.widenings.get_mut(at) {
            Some(widening) => {
                self.running.widen_mark(alloc, widening)?;
                Ok(true)
            }
            None => Ok(false),
        }
    }

    fn new_widening(&mut self, alloc: Global, at: usize) -> bool {
        match self.widenings.get_mut(at) {
            Some(place) => {
                *place = Widening::new(alloc);
                true
            }
            None => false,
        }
    }

    fn put(&mut self, alloc: Global, at: usize) -> Result<bool, NoMemory> {
        match self.patches.get(at) {
            Some(patch) => {
                self.running.put(alloc, patch)?;
                Ok(true)
            }
            None => Ok(false),
        }
    }

    fn is_at(&self, at: usize) -> bool {
        match self.patches.get(at) {
            Some(patch) => self.running.is_at(patch),
            None => false,
        }
    }

    // False where the line says otherwise than the state, or is no call.
    fn change(&mut self, alloc: Global, command: Command) -> Result<bool, NoMemory> {
        match command {
            Command::Bottom(_) => self.running.set_bottom(),
            Command::Interval(_, to, i) => self.running.set_interval(alloc, to, i)?,
            Command::Sum(_, to, from, c) => self.running.set_sum(alloc, to, from, c)?,
            Command::Assume(_, c, a, b) => self.running.assume(alloc, c, a, b)?,
            Command::Difference(_, a, b, c) => self.running.add_difference(alloc, a, b, c)?,
            Command::Release => self.running.release(),
            Command::Undo => self.running.undo(),
            Command::JoinMark(mark) => self.running.join_mark(alloc, mark)?,
            Command::SetTop => self.running.set_top(alloc)?,
            other => return self.keep(alloc, other),
        }
        Ok(true)
    }

    fn keep(&mut self, alloc: Global, command: Command) -> Result<bool, NoMemory> {
        match command {
            Command::Mark => {
                let _ = self.running.mark()?;
                Ok(true)
            }
            Command::TakeBack(at) => {
                let patch = self.running.take_back(alloc)?;
                Ok(self.set_patch(at, patch))
            }
            Command::NoExit(at) => Ok(self.set_patch(at, Patch::bottom(alloc))),
            Command::JoinPatch(at) => self.join_patch(alloc, at),
            Command::Leave(mark, at) => self.leave(alloc, mark, at),
            Command::IsWithin(answer) => Ok(self.running.is_within_mark() == answer),
            Command::WidenMark(at) => self.widen_mark(alloc, at),
            Command::NewWidening(at) => Ok(self.new_widening(alloc, at)),
            Command::KeepAll(at) => self.keep_all(alloc, at),
            Command::IsAt(at, answer) => Ok(self.is_at(at) == answer),
            Command::Put(at) => self.put(alloc, at),
            _ => Ok(false),
        }
    }
}

fn shows(rt: &impl Abort, alloc: Global, run: &Run, wanted: &str) -> Result<(), Fail> {
    let registers = run.layout.ranges.len();
    assert!(rt; registers < 100);
    let text = show(alloc, run.running.state(), registers as u32)?;
    assert_eq!(rt; text.as_str(), wanted);
    Ok(())
}

fn run_line(rt: &impl Abort, alloc: Global, run: &mut Run, line: &str) -> Result<(), Fail> {
    if let Some(text) = line.strip_prefix("layout ") {
        *run = Run::new(alloc, layout_of(alloc, text)?)?;
        return Ok(());
    }
    if let Some(wanted) = line.strip_prefix("shows a") {
        return shows(rt, alloc, run, wanted);
    }
    match read_command(line) {
        Some(command) => assert!(rt; run.change(alloc, command)?, "{line}"),
        None => assert!(rt; false, "no call: {line}"),
    }
    Ok(())
}

#[test]
fn a_running_state_answers_as_in_the_table(rt: HostRuntime) -> Result<(), Fail> {
    let alloc = rt.alloc();
    let mut run = Run::new(alloc, layout_of(alloc, "0 ; 0:1")?)?;
    for line in TABLE.lines() {
        run_line(&rt, alloc, &mut run, line)?;
    }
    Ok(())
}
