//! Sizes, alignments, offsets and likeness of types.

use crate::programs::program_of;
use crate::type_rows::{ALIKE, SIZES, TYPES};
use c_typed::{TypeId, TypeKind, TypeTable, Typed, TypedObject};
use std::alloc::{AllocError, Global};
use std::test::Fail;

// The type to which an object points.
fn pointed(table: &TypeTable, object: &TypedObject) -> TypeId {
    match table.kind(object.of) {
        TypeKind::Pointer(to) => to,
        _ => object.of,
    }
}

// Begins a line with the name of an object.
fn push_name(text: &mut String, object: &TypedObject) -> Result<(), AllocError> {
    if let Some(name) = &object.name {
        for byte in name {
            text.push(char::from(*byte))?;
        }
    }
    Ok(())
}

// The size, the alignment and the offsets of members.
fn push_measures(text: &mut String, table: &TypeTable, of: TypeId) -> Result<(), AllocError> {
    match table.size(of) {
        Some(size) => {
            let align = table.align(of);
            write!(text, " {size} {align}")?;
        }
        None => text.push_str(" - -")?,
    }
    match table.kind(of) {
        TypeKind::Record(number) => push_offsets(text, table, number),
        _ => Ok(()),
    }
}

fn push_offsets(text: &mut String, table: &TypeTable, record: u32) -> Result<(), AllocError> {
    if let Some(record) = table.record(record) {
        if let Some(members) = &record.members {
            for member in members {
                let offset = member.offset;
                write!(text, " {offset}")?;
            }
        }
    }
    Ok(())
}

// The other types that are like one.
fn push_likes(text: &mut String, typed: &Typed, one: TypeId) -> Result<(), AllocError> {
    for object in &typed.statics {
        let other = pointed(&typed.types, object);
        if other != one && typed.types.alike(one, other) {
            text.push_str(" ")?;
            push_name(text, object)?;
        }
    }
    Ok(())
}

fn measures(alloc: Global, typed: &Typed) -> Result<String, AllocError> {
    let mut text = String::new(alloc);
    for object in &typed.statics {
        push_name(&mut text, object)?;
        push_measures(&mut text, &typed.types, pointed(&typed.types, object))?;
        text.push_str("\n")?;
    }
    Ok(text)
}

fn likes(alloc: Global, typed: &Typed) -> Result<String, AllocError> {
    let mut text = String::new(alloc);
    for object in &typed.statics {
        push_name(&mut text, object)?;
        push_likes(&mut text, typed, pointed(&typed.types, object))?;
        text.push_str("\n")?;
    }
    Ok(text)
}

#[test]
fn types_have_sizes_and_likes(rt: HostRuntime) -> Result<(), Fail> {
    let program = program_of(rt.alloc(), TYPES, "")?;
    assert_eq!(rt; measures(rt.alloc(), &program.typed)?.as_str(), SIZES);
    assert_eq!(rt; likes(rt.alloc(), &program.typed)?.as_str(), ALIKE);
    Ok(())
}
