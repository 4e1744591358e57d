//! Objects without linkage, and texts.

use crate::checker::Checker;
use c_faults::{Spot, Stop};
use c_typed::{InitialPart, TypeId, TypedExpr, TypedKind, TypedObject, Types};
use c_values::IntType;
use std::alloc::Global;

impl Checker {
    /// Adds an object, and answers its number.
    pub fn add_object(&mut self, object: TypedObject) -> Result<u32, Stop> {
        let Ok(number) = u32::try_from(self.objects.len()) else {
            return Err(Stop::NoMemory);
        };
        self.objects.push(object)?;
        Ok(number)
    }

    /// Adds an object without an initialiser so far.
    pub fn add_declared(
        &mut self,
        name: u32,
        of: TypeId,
        stays: bool,
        at: Spot,
    ) -> Result<u32, Stop> {
        let text = self.text_of(name)?;
        self.add_object(TypedObject {
            name: Some(text),
            of,
            place: at.place,
            start: at.start,
            stays,
            initial: None,
        })
    }

    /// Whether an object has static duration (ISO/IEC 9899:1999, 6.2.4).
    pub fn stays(&self, number: u32) -> bool {
        match self.objects.get(number as usize) {
            Some(object) => object.stays,
            None => false,
        }
    }

    /// Gives an object its type and its initialiser.
    pub fn set_initial(&mut self, number: u32, of: TypeId, parts: Vec<InitialPart>) {
        if let Some(object) = self.objects.get_mut(number as usize) {
            object.of = of;
            object.initial = Some(parts);
        }
    }

    /// Adds a text as an object of this type (6.4.5), and answers its number. Under `sizeof` there is no object.
    pub fn add_text(&mut self, bytes: &[u8], of: TypeId, at: Spot) -> Result<u32, Stop> {
        if self.is_unevaluated() {
            return Ok(0);
        }
        let parts = text_parts(self.alloc, bytes, at)?;
        self.add_object(TypedObject {
            name: None,
            of,
            place: at.place,
            start: at.start,
            stays: true,
            initial: Some(parts),
        })
    }
}

// The bytes of a text that are not 0.
fn text_parts(alloc: Global, bytes: &[u8], at: Spot) -> Result<Vec<InitialPart>, Stop> {
    let mut parts = Vec::new(alloc);
    for (index, byte) in bytes.iter().enumerate() {
        if *byte != 0 {
            parts.push(text_part(alloc, index, *byte, at)?)?;
        }
    }
    Ok(parts)
}

fn text_part(alloc: Global, index: usize, byte: u8, at: Spot) -> Result<InitialPart, Stop> {
    let index = u32::try_from(index).unwrap_or(u32::MAX);
    let path = Vec::from_slice(alloc, &[index])?;
    Ok(InitialPart {
        path,
        value: TypedExpr {
            kind: TypedKind::Constant(char_value(byte)),
            of: Types::int(IntType::Char),
            place: at.place,
            start: at.start,
        },
    })
}

/// The value of a byte as a `char`, which is signed.
pub fn char_value(byte: u8) -> i128 {
    let value = i128::from(byte);
    if byte > 127 { value - 256 } else { value }
}
