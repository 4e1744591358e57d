use core_ir::{Cond, Step, StepList};
use std::alloc::Global;
use sv_base::NoMemory;

/// A condition before its branches are there.
#[derive(Drop)]
pub(crate) enum Test {
    /// Steps, and the condition that they prepare.
    One(StepList, Cond),
    Not(Box<Test>),
    Both(Box<Test>, Box<Test>),
    Either(Box<Test>, Box<Test>),
}

/// Which of its branches a condition has.
#[derive(Clone, Copy, PartialEq, Eq)]
pub(crate) enum Sides {
    Then,
    Other,
    Two,
}

fn flipped(sides: Sides) -> Sides {
    match sides {
        Sides::Then => Sides::Other,
        Sides::Other => Sides::Then,
        Sides::Two => Sides::Two,
    }
}

/// How many blocks stand around the branch where the condition holds.
#[cycle(depths)]
pub(crate) fn then_depth(test: &Test, sides: Sides) -> u32 {
    match test {
        Test::One(_, _) => 0,
        Test::Not(a) => other_depth(a, flipped(sides)),
        Test::Both(a, b) => {
            let inner = then_depth(a, Sides::Then).saturating_add(then_depth(b, Sides::Then));
            match sides {
                Sides::Then => inner,
                _ => inner.saturating_add(2),
            }
        }
        Test::Either(_, _) => match sides {
            Sides::Other => 0,
            _ => 1,
        },
    }
}

/// How many blocks stand around the branch where it does not hold.
#[cycle(depths)]
pub(crate) fn other_depth(test: &Test, sides: Sides) -> u32 {
    match test {
        Test::One(_, _) => 0,
        Test::Not(a) => then_depth(a, flipped(sides)),
        Test::Both(_, _) => match sides {
            Sides::Then => 0,
            _ => 1,
        },
        Test::Either(a, b) => match sides {
            Sides::Other => {
                other_depth(a, Sides::Other).saturating_add(other_depth(b, Sides::Other))
            }
            _ => 2,
        },
    }
}

/// Whether the branch where the condition does not hold comes first.
pub(crate) fn comes_other_first(test: &Test) -> bool {
    match test {
        Test::One(_, _) | Test::Both(_, _) => false,
        Test::Not(a) => !comes_other_first(a),
        Test::Either(_, _) => true,
    }
}

// A block around steps, with more steps behind it.
fn block_and(alloc: Global, inner: StepList, behind: StepList) -> Result<StepList, NoMemory> {
    let mut steps = StepList::new(alloc);
    steps.push_block(inner)?;
    steps.append(behind)?;
    Ok(steps)
}

fn one_exit(alloc: Global, block: u32) -> Result<StepList, NoMemory> {
    let mut steps = StepList::new(alloc);
    steps.push(Step::Exit(block))?;
    Ok(steps)
}

// Whether a condition has its second branch alone.
fn has_other_alone(sides: Sides) -> bool {
    sides == Sides::Other
}

// The first branch of `a && b`. Where there is another one, it leaves the block around both at its end.
fn first_of_both(a: &Test, b: &Test, sides: Sides, then: StepList) -> Result<StepList, NoMemory> {
    let mut first = then;
    if sides != Sides::Then {
        let blocks = then_depth(a, Sides::Then).saturating_add(then_depth(b, Sides::Then));
        first.push(Step::Exit(blocks.saturating_add(1)))?;
    }
    Ok(first)
}

// `a && b`: a block, in it a block with the tests, and behind that the other branch.
fn end_of_both(
    alloc: Global,
    sides: Sides,
    tests: StepList,
    other: StepList,
) -> Result<StepList, NoMemory> {
    if sides == Sides::Then {
        return Ok(tests);
    }
    let all = block_and(alloc, tests, other)?;
    block_and(alloc, all, StepList::new(alloc))
}

// `a || b`: a block, in it a block with the tests and the other branch, and behind that the first branch.
fn end_of_either(
    alloc: Global,
    tests: StepList,
    then: StepList,
    other: StepList,
) -> Result<StepList, NoMemory> {
    let mut inner = tests;
    inner.append(other)?;
    inner.push(Step::Exit(1))?;
    let all = block_and(alloc, inner, then)?;
    block_and(alloc, all, StepList::new(alloc))
}

/// The steps of a condition with its branches. A branch that it does not have is empty.
pub(crate) fn build(
    test: Test,
    alloc: Global,
    sides: Sides,
    then: StepList,
    other: StepList,
) -> Result<StepList, NoMemory> {
    match test {
        Test::One(steps, cond) => {
            let mut steps = steps;
            steps.push_choice(cond, then, other)?;
            Ok(steps)
        }
        Test::Not(a) => build(Box::into_inner(a), alloc, flipped(sides), other, then),
        Test::Both(a, b) => {
            let first = first_of_both(&a, &b, sides, then)?;
            let none = StepList::new(alloc);
            let second = build(Box::into_inner(b), alloc, Sides::Then, first, none)?;
            let none = StepList::new(alloc);
            let tests = build(Box::into_inner(a), alloc, Sides::Then, second, none)?;
            end_of_both(alloc, sides, tests, other)
        }
        Test::Either(a, b) => {
            let none = StepList::new(alloc);
            if has_other_alone(sides) {
                let second = build(Box::into_inner(b), alloc, Sides::Other, none, other)?;
                let none = StepList::new(alloc);
                return build(Box::into_inner(a), alloc, Sides::Other, none, second);
            }
            let blocks = other_depth(&a, Sides::Two).saturating_add(then_depth(&b, Sides::Then));
            let of_b = one_exit(alloc, blocks)?;
            let of_a = one_exit(alloc, then_depth(&a, Sides::Two))?;
            let second = build(Box::into_inner(b), alloc, Sides::Then, of_b, none)?;
            let tests = build(Box::into_inner(a), alloc, Sides::Two, of_a, second)?;
            end_of_either(alloc, tests, then, other)
        }
    }
}
