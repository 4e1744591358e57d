use crate::calls::{checked, stored_failing, tried};
use crate::texts::{GREEN, GREEN_REPORT, USAGE};
use std::alloc::{AllocError, Global};
use std::test::Fail;

const TWO: &str = "int a[8]; int odd(int n); \
int even(int n){ if(n<=0) return 0; a[n]=1; return odd(n-1); } \
int odd(int n){ if(n<=0) return 1; a[n]=2; return even(n-1); } int main(void){ return even(7); }";

// Words of a check by workers over the source `TWO`, each with its report and status.
const CHECKS: &str = "\
check t.c`t.c:1:64 even green
t.c:1:126 odd green
sites 2 green 2 orange 0 red 0 unreachable 0
`0@\
check --workers 1 t.c`t.c:1:64 even green
t.c:1:126 odd green
sites 2 green 2 orange 0 red 0 unreachable 0
`0@\
check --db b --workers 8 t.c`t.c:1:64 even green
t.c:1:126 odd green
sites 2 green 2 orange 0 red 0 unreachable 0
`0@\
check --workers 2 --rounds 1 t.c`t.c:1:64 even orange
t.c:1:126 odd orange
sites 2 green 0 orange 2 red 0 unreachable 0
`1";

// Words of a trial, each with its totals and status.
const TRIALS: &str = "\
trial 1 2`trial 1 2 sites 4 green 4 orange 0 red 0 unreachable 0
`0@\
trial 0 1`trial 0 1 sites 2 green 2 orange 0 red 0 unreachable 0
`0@\
trial 3 1`trial 3 1 sites 2 green 1 orange 0 red 1 unreachable 0
`1";

// Words that no call over a database accepts.
const OTHERS: &str = "\
alone
check
check --workers 0 t.c
check --workers 65 t.c
check --book k t.c
alone --db b --book k t.c
trial 1
trial 1 0
trial 1 2001
run t.c
audit --db b t.c";

fn parts_of(row: &str) -> Option<(&str, &str, u8)> {
    let mut parts = row.split('`');
    let line = parts.next()?;
    let out = parts.next()?;
    let status = parts.next()?.parse::<u8>().ok()?;
    Some((line, out, status))
}

#[test]
fn checks_by_workers(rt: HostRuntime) -> Result<(), Fail> {
    for row in CHECKS.split('@') {
        let (line, out, status) = parts_of(row).ok_or("no row")?;
        let left = checked(&rt, rt.alloc(), line, TWO)?;
        assert!(rt; left.is(status, out, ""), "at {line}");
    }
    Ok(())
}

#[test]
fn trials(rt: HostRuntime) -> Result<(), Fail> {
    for row in TRIALS.split('@') {
        let (line, out, status) = parts_of(row).ok_or("no row")?;
        assert!(rt; tried(rt.alloc(), line)?.is(status, out, ""), "at {line}");
    }
    Ok(())
}

#[test]
fn words_that_are_not_accepted(rt: HostRuntime) -> Result<(), Fail> {
    let alloc = rt.alloc();
    for line in OTHERS.split('\n') {
        assert!(rt; tried(alloc, line)?.is(2, "", USAGE), "trial: {line}");
        assert!(rt;
            checked(&rt, alloc, line, GREEN)?.is(2, "", USAGE),
            "check: {line}"
        );
    }
    assert!(rt; tried(alloc, "check t.c")?.is(2, "", USAGE));
    assert!(rt; checked(&rt, alloc, "alone t.c", GREEN)?.is(2, "", USAGE));
    assert!(rt; checked(&rt, alloc, "trial 1 2", GREEN)?.is(2, "", USAGE));
    Ok(())
}

fn one<T: Drop>(alloc: Global, item: T) -> Result<Vec<T>, AllocError> {
    let mut list = Vec::new(alloc);
    list.push(item)?;
    Ok(list)
}

#[test]
fn failures_outside(rt: HostRuntime) -> Result<(), Fail> {
    let alloc = rt.alloc();
    let line = "alone --db b t.c";
    let nothing = || Vec::new(alloc);
    let left = stored_failing(alloc, line, GREEN, nothing(), Vec::new(alloc), nothing())?;
    assert!(rt; left.is(0, GREEN_REPORT, ""));
    let left = stored_failing(
        alloc,
        line,
        GREEN,
        one(alloc, 0)?,
        Vec::new(alloc),
        nothing(),
    )?;
    assert!(rt; left.is(4, "", "surveyor: cannot read t.c\n"));
    let cut = one(alloc, (0, 3))?;
    let left = stored_failing(alloc, line, GREEN, nothing(), cut, nothing())?;
    assert!(rt; left.is(7, "t.c", "surveyor: cannot write the report\n"));
    let left = stored_failing(
        alloc,
        line,
        GREEN,
        nothing(),
        Vec::new(alloc),
        one(alloc, 0)?,
    )?;
    assert!(rt; left.is(5, "", "surveyor: disk failed\n"));
    Ok(())
}
