//! Address constants (ISO/IEC 9899:1999, 6.6) with their offsets in the regions of objects. A region is a whole object, a member,
//! or an array at a path of members and indices.

use crate::sub_objects::starts_like;
use c_faults::{Spot, Stop, refuse};
use c_forms::{Constant, constant_of};
use c_names::part_type;
use c_typed::{TypeId, TypeKind, TypeTable, TypedExpr, TypedKind, TypedObject};
use std::alloc::Global;
use sv_base::faults;

/// Which objects expressions name.
#[derive(Clone, Copy)]
pub enum Bases<'a> {
    /// Those of a function or a file that is checked. An object has the type of the expression that names it.
    Checked(&'a [TypedObject]),
    /// The objects of static duration of a program that is linked, by their types.
    Linked(&'a [TypeId]),
}

/// Evaluates address constants.
#[derive(Clone, Copy)]
pub struct Addresses<'a> {
    pub alloc: Global,
    pub table: &'a TypeTable,
    pub bases: Bases<'a>,
}

/// What an address constant is.
#[derive(Clone, Copy, Debug, PartialEq, Eq)]
pub enum Address {
    Null,
    /// An integer that is not 0, as a pointer.
    Wild,
    Function,
    /// In a region of this type, at an offset in bytes.
    Place { region: TypeId, offset: i128 },
}

fn spot_of(value: &TypedExpr) -> Spot {
    Spot {
        place: value.place,
        start: value.start,
    }
}

fn start_of(region: TypeId) -> Address {
    Address::Place { region, offset: 0 }
}

impl<'a> Addresses<'a> {
    /// Tests the value of an object of static duration: it is an integer constant or an address constant. That it is none
    /// shows at the token; that an index leaves its array shows at the operator.
    pub fn test(&self, value: &TypedExpr, at: Spot) -> Result<(), Stop> {
        if let TypeKind::Int(_) = self.table.kind(value.of) {
            return match constant_of(self.table, value) {
                Constant::Value(_) => Ok(()),
                _ => refuse(faults::NO_CONSTANT, at),
            };
        }
        match self.address(value, at) {
            Ok(_) => Ok(()),
            Err(stop) => Err(stop),
        }
    }

    /// What a pointer is as a constant.
    #[cycle(addresses)]
    pub fn address(&self, value: &TypedExpr, at: Spot) -> Result<Address, Stop> {
        match &value.kind {
            TypedKind::Null => Ok(Address::Null),
            TypedKind::Convert(of) if self.is_pointer(of) => self.address(of, at),
            TypedKind::Convert(of) => self.converted(of, at),
            TypedKind::Decay(of) if self.is_function(of) => match &of.kind {
                TypedKind::Deref(pointer, _) => self.address(pointer, at),
                _ => Ok(Address::Function),
            },
            TypedKind::AddressOf(of) => match &of.kind {
                TypedKind::Deref(pointer, _) => self.address(pointer, at),
                _ if self.is_function(of) => Ok(Address::Function),
                _ => Ok(start_of(self.region(of, at)?)),
            },
            TypedKind::Decay(of) => Ok(start_of(self.region(of, at)?)),
            TypedKind::Sum {
                pointer,
                index,
                minus,
                ..
            } => {
                let base = self.address(pointer, at)?;
                let size = self.pointed_size(pointer.of);
                match constant_of(self.table, index) {
                    Constant::Value(index) => {
                        self.moved(base, index, *minus, size, at, spot_of(value))
                    }
                    _ => refuse(faults::NO_CONSTANT, at),
                }
            }
            _ => refuse(faults::NO_CONSTANT, at),
        }
    }

    // The type of the region that an lvalue designates.
    #[cycle(addresses)]
    fn region(&self, value: &TypedExpr, at: Spot) -> Result<TypeId, Stop> {
        match &value.kind {
            TypedKind::Member(whole, position) => {
                let of = self.region(whole, at)?;
                match part_type(self.table, of, u64::from(*position)) {
                    Some(member) => Ok(member),
                    None => refuse(faults::NO_CONSTANT, at),
                }
            }
            TypedKind::Deref(pointer, _) => {
                let address = self.address(pointer, at)?;
                self.sub_object(address, value.of, at)
            }
            _ => self.object(value, at),
        }
    }

    // An integer as a pointer.
    fn converted(&self, value: &TypedExpr, at: Spot) -> Result<Address, Stop> {
        match constant_of(self.table, value) {
            Constant::Value(0) => Ok(Address::Null),
            Constant::Value(_) => Ok(Address::Wild),
            _ => refuse(faults::NO_CONSTANT, at),
        }
    }

    // The type of the sub-object of this type to which an address leads.
    fn sub_object(&self, address: Address, of: TypeId, at: Spot) -> Result<TypeId, Stop> {
        if let Address::Place { region, offset } = address {
            if starts_like(self.alloc, self.table, region, offset, of)? {
                return Ok(of);
            }
        }
        refuse(faults::NO_CONSTANT, at)
    }

    // The type of an object of static duration.
    fn object(&self, value: &TypedExpr, at: Spot) -> Result<TypeId, Stop> {
        match (&value.kind, self.bases) {
            (TypedKind::Local(number), Bases::Checked(objects)) => {
                match objects.get(*number as usize) {
                    Some(object) if object.stays => Ok(value.of),
                    _ => refuse(faults::NO_CONSTANT, at),
                }
            }
            (TypedKind::Static(number), Bases::Linked(types)) => match types.get(*number as usize) {
                Some(of) => Ok(*of),
                None => Ok(value.of),
            },
            (TypedKind::Linked(_), _) => Ok(value.of),
            _ => refuse(faults::NO_CONSTANT, at),
        }
    }

    // An address moved by an index.
    fn moved(
        &self,
        base: Address,
        index: i128,
        minus: bool,
        size: u64,
        at: Spot,
        operator: Spot,
    ) -> Result<Address, Stop> {
        let Address::Place { region, offset } = base else {
            return refuse(faults::NO_CONSTANT, at);
        };
        let by = index.saturating_mul(i128::from(size));
        let offset = if minus {
            offset.saturating_sub(by)
        } else {
            offset.saturating_add(by)
        };
        if self.is_inside(region, offset, size) {
            return Ok(Address::Place { region, offset });
        }
        refuse(faults::OUTSIDE_ARRAY, operator)
    }

    // Whether so many bytes at an offset lie in a region. One without a size has no end.
    fn is_inside(&self, region: TypeId, offset: i128, size: u64) -> bool {
        if offset < 0 {
            return false;
        }
        match self.table.size(region) {
            Some(length) => offset.saturating_add(i128::from(size)) <= i128::from(length),
            None => true,
        }
    }

    fn is_pointer(&self, value: &TypedExpr) -> bool {
        match self.table.kind(value.of) {
            TypeKind::Pointer(_) => true,
            _ => false,
        }
    }

    fn is_function(&self, value: &TypedExpr) -> bool {
        match self.table.kind(value.of) {
            TypeKind::Function(_) => true,
            _ => false,
        }
    }

    fn pointed_size(&self, of: TypeId) -> u64 {
        match self.table.kind(of) {
            TypeKind::Pointer(to) => self.table.size(to).unwrap_or(0),
            _ => 0,
        }
    }
}
