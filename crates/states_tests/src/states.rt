use crate::commands::{Command, layout_of, read_command};
use crate::shown::show;
use crate::state_table::TABLE;
use std::alloc::Global;
use std::process::Abort;
use std::test::Fail;
use sv_base::NoMemory;
use var_state::{Layout, State};

// The states of a table by their letters.
struct States {
    layout: Layout,
    list: Vec<State>,
}

impl Drop for States {
    fn drop(self) {
        let States { layout, list } = self;
        let _ = (layout, list);
    }
}

impl States {
    fn new(alloc: Global, layout: Layout) -> Result<States, NoMemory> {
        let mut list = Vec::new(alloc);
        for _ in 0..8 {
            list.push(State::top(alloc, &layout)?)?;
        }
        Ok(States { layout, list })
    }

    fn copy(&mut self, alloc: Global, to: usize, from: usize) -> Result<bool, NoMemory> {
        let Some(state) = self.list.get(from) else {
            return Ok(false);
        };
        let copy = state.copy_of(alloc)?;
        Ok(self.set(to, copy))
    }

    fn set(&mut self, to: usize, state: State) -> bool {
        match self.list.get_mut(to) {
            Some(place) => {
                *place = state;
                true
            }
            None => false,
        }
    }

    // Joins or widens one state by another; the other is read from a copy, since both may be one.
    fn merge(
        &mut self,
        alloc: Global,
        to: usize,
        from: usize,
        widens: bool,
    ) -> Result<bool, NoMemory> {
        let Some(state) = self.list.get(from) else {
            return Ok(false);
        };
        let other = state.copy_of(alloc)?;
        match self.list.get_mut(to) {
            Some(state) => {
                if widens {
                    state.widen(&other);
                } else {
                    state.join(&other);
                }
                Ok(true)
            }
            None => Ok(false),
        }
    }

    fn is_within(&self, a: usize, b: usize) -> bool {
        match (self.list.get(a), self.list.get(b)) {
            (Some(a), Some(b)) => a.within(b),
            _ => false,
        }
    }

    // False where the line says otherwise than the states, or is no call.
    fn run(&mut self, alloc: Global, command: Command) -> Result<bool, NoMemory> {
        match command {
            Command::Top(to) => {
                let top = State::top(alloc, &self.layout)?;
                Ok(self.set(to, top))
            }
            Command::Copy(to, from) => self.copy(alloc, to, from),
            Command::Join(to, from) => self.merge(alloc, to, from, false),
            Command::Widen(to, from) => self.merge(alloc, to, from, true),
            Command::Within(a, b, answer) => Ok(self.is_within(a, b) == answer),
            other => Ok(self.change(other)),
        }
    }

    fn change(&mut self, command: Command) -> bool {
        match command {
            Command::Bottom(x) => match self.list.get_mut(x) {
                Some(state) => {
                    state.set_bottom();
                    true
                }
                None => false,
            },
            Command::Interval(x, to, i) => match self.list.get_mut(x) {
                Some(state) => {
                    state.set_interval(to, i);
                    true
                }
                None => false,
            },
            Command::Sum(x, to, from, c) => match self.list.get_mut(x) {
                Some(state) => {
                    state.set_sum(to, from, c);
                    true
                }
                None => false,
            },
            Command::Assume(x, c, a, b) => match self.list.get_mut(x) {
                Some(state) => {
                    state.assume(c, a, b);
                    true
                }
                None => false,
            },
            Command::Difference(x, a, b, c) => match self.list.get_mut(x) {
                Some(state) => {
                    state.add_difference(a, b, c);
                    true
                }
                None => false,
            },
            _ => false,
        }
    }
}

fn shows(
    rt: &impl Abort,
    alloc: Global,
    states: &States,
    line: &str,
    wanted: &str,
) -> Result<(), Fail> {
    let registers = states.layout.ranges.len();
    assert!(rt; registers < 100);
    let at = match line.as_bytes() {
        [.., b'a'] => 0,
        [.., b'b'] => 1,
        [.., b'c'] => 2,
        [.., b'd'] => 3,
        [.., b'e'] => 4,
        [.., b'f'] => 5,
        _ => 6,
    };
    if let Some(state) = states.list.get(at) {
        let text = show(alloc, state, registers as u32)?;
        assert_eq!(rt; text.as_str(), wanted, "state {line}");
    }
    Ok(())
}

fn run_line(rt: &impl Abort, alloc: Global, states: &mut States, line: &str) -> Result<(), Fail> {
    if let Some(text) = line.strip_prefix("layout ") {
        *states = States::new(alloc, layout_of(alloc, text)?)?;
        return Ok(());
    }
    if let Some(text) = line.strip_prefix("shows ") {
        if let Some((name, _)) = text.split_once(' ') {
            let wanted = text.strip_prefix(name).unwrap_or(text);
            return shows(rt, alloc, states, name, wanted);
        }
    }
    match read_command(line) {
        Some(command) => assert!(rt; states.run(alloc, command)?, "{line}"),
        None => assert!(rt; false, "no call: {line}"),
    }
    Ok(())
}

#[test]
fn calls_answer_as_in_the_table(rt: HostRuntime) -> Result<(), Fail> {
    let alloc = rt.alloc();
    let mut states = States::new(alloc, layout_of(alloc, "0 ; 0:1")?)?;
    for line in TABLE.lines() {
        run_line(&rt, alloc, &mut states, line)?;
    }
    Ok(())
}
