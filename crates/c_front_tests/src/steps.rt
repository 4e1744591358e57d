//! Which steps statements become.

use crate::core_words::push_steps;
use crate::programs::program_of;
use std::alloc::Global;
use std::test::Fail;

// Two lines each: a statement of `int test(int a, int b)`, beside which there is `int v[4]`, and the steps behind the copies of the two
// arguments to r2 and r3, by another implementation of the translation.
const ROWS: &str = "\
a = a + 1;
r5 = r2 + 1; r2 = r5;
return a + (a = 2);
r5 = r2; r2 = 2; r6 = r5 + r2; return r6;
return test(a, a = 2);
r5 = r2; r2 = 2; r6 = call ( r5 r2 ); return r6;
v[a] = v[b] + 1;
r5 = &0; r6 = r5 + 4 * r2; check 0 r6; r7 = &0; r8 = r7 + 4 * r3; check 1 r8; r9 = *r8; r10 = r9 + 1; *r6 = r10;
while (a < 3) a = a + 1;
block { loop { if r2 < 3 { block { r5 = r2 + 1; r2 = r5; } } else { exit 0; } } }
do a = a + 1; while (a < 3);
block { loop { block { r5 = r2 + 1; r2 = r5; } if r2 < 3 { } else { exit 0; } } }
while (a) { if (b) continue; break; }
block { loop { if r2 != 0 { block { if r3 != 0 { exit 0; } else { } exit 1; } } else { exit 0; } } }
if (a && b) a = 1; else a = 2;
block { block { if r2 != 0 { if r3 != 0 { r2 = 1; exit 1; } else { } } else { } } r2 = 2; }
if (a || b) a = 1; else a = 2;
block { block { if r2 != 0 { exit 0; } else { if r3 != 0 { exit 0; } else { } } r2 = 2; exit 1; } r2 = 1; }
if (!(a && b)) a = 1;
block { block { if r2 != 0 { if r3 != 0 { exit 1; } else { } } else { } } r2 = 1; }
while (a && !b) { if (a || b) break; a = b; }
block { loop { block { block { if r2 != 0 { if r3 != 0 { } else { block { block { block { if r2 != 0 { exit 0; } else { if r3 != 0 { exit 0; } else { } } exit 1; } exit 4; } r2 = r3; } exit 1; } } else { } } exit 1; } } }
return !a;
if r2 != 0 { r5 = 0; } else { r5 = 1; } return r5;
return a ? b : 3;
if r2 != 0 { r5 = r3; } else { r5 = 3; } return r5;
switch (a) { case 1: case 2: a = 3; break; default: b = 1; case 5: a = 4; }
block { block { block { block { if r2 == 1 { exit 0; } else { } if r2 == 2 { exit 0; } else { } if r2 == 5 { exit 2; } else { } exit 1; } r2 = 3; exit 2; } r3 = 1; } r2 = 4; }
switch (a) { case 1: while (b) break; }
block { block { if r2 == 1 { exit 0; } else { } exit 1; } block { loop { if r3 != 0 { block { exit 1; } } else { exit 0; } } } }";

// The text of the steps that a statement lowers to.
fn steps_of(alloc: Global, statement: &str) -> Result<String, Fail> {
    let text = format!(in alloc; "int v[4];\nint test(int a, int b) {{\n{statement}\n}}\n")?;
    let program = program_of(alloc, text.as_str(), "")?;
    let mut steps = String::new(alloc);
    if let Some(function) = program.core.functions.first() {
        push_steps(&function.body, &mut steps)?;
    }
    Ok(steps)
}

#[test]
fn statements_lower_to_steps(rt: HostRuntime) -> Result<(), Fail> {
    let mut lines = ROWS.lines();
    let mut rows = 0u32;
    for _ in 0..1000u32 {
        let (Some(statement), Some(steps)) = (lines.next(), lines.next()) else {
            break;
        };
        let text = steps_of(rt.alloc(), statement)?;
        let wanted = format!(in rt.alloc(); "r2 = r0; r3 = r1; {steps} ")?;
        assert_eq!(rt; text.as_str(), wanted.as_str(), "{statement}");
        rows = rows.saturating_add(1);
    }
    assert_eq!(rt; rows, 15);
    Ok(())
}
