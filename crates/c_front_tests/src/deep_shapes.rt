use c_values::IntType;
use core_ir::{Leaf, Shape, ShapeForm, ShapeList};
use std::alloc::Global;
use std::test::Fail;
use sv_base::NoMemory;

// Structures inside structures, each with two members, the second of which is the next one.
fn nested(alloc: Global, depth: u32) -> Result<ShapeList, NoMemory> {
    let mut built = ShapeList::new(alloc);
    built.push(scalar(0))?;
    for class in 0..depth {
        built.push(scalar(class))?;
        built.push_members(class, Some(class), false, &[4, 0])?;
    }
    Ok(built)
}

fn scalar(class: u32) -> Shape {
    Shape {
        layout: 0,
        region: None,
        form: ShapeForm::Scalar {
            leaf: Leaf::Int(IntType::Int),
            class,
        },
    }
}

#[test]
fn half_a_million_structures_inside_one_another_are_let_go(rt: HostRuntime) -> Result<(), Fail> {
    drop(nested(rt.alloc(), 500_000)?);
    Ok(())
}
