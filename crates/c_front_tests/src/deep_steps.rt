use core_ir::{Function, Step, StepList, in_order};
use std::alloc::Global;
use std::test::Fail;
use sv_base::NoMemory;

// A block that holds a block, and so on; behind each block stands a step.
fn nested(alloc: Global, depth: u32) -> Result<StepList, NoMemory> {
    let mut body = StepList::new(alloc);
    for _ in 0..depth {
        let mut around = StepList::new(alloc);
        around.push_block(body)?;
        around.push(Step::Exit(0))?;
        body = around;
    }
    Ok(body)
}

fn function(alloc: Global, body: StepList) -> Function {
    Function {
        name: Vec::new(alloc),
        kind: 0,
        parameters: 0,
        registers: Vec::new(alloc),
        result: None,
        body: body.into_body(),
    }
}

#[test]
fn twenty_thousand_cases_have_an_order_and_are_let_go(rt: HostRuntime) -> Result<(), Fail> {
    let body = nested(rt.alloc(), 20_000)?;
    let f = function(rt.alloc(), body);
    assert_eq!(rt; in_order(rt.alloc(), &f.body)?.len(), 40_000);
    Ok(())
}

#[test]
fn half_a_million_cases_in_a_case_are_let_go(rt: HostRuntime) -> Result<(), Fail> {
    let mut body = nested(rt.alloc(), 20_000)?;
    let inside = nested(rt.alloc(), 500_000)?;
    body.push_loop(inside)?;
    body.push(Step::Return(None))?;
    drop(function(rt.alloc(), body));
    Ok(())
}
