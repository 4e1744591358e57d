use crate::expression::TypedExpr;
use crate::statement::TypedStatement;
use crate::table::{TypeId, TypeTable};
use sv_base::{FuncId, Place};

/// A function's body by itself.
pub struct TypedBody {
    /// It begins with the types of the scope.
    pub types: TypeTable,
    /// The declarations of names with linkage, in token order after those of the scope.
    pub linked: Vec<LinkedName>,
    /// The parameters come first.
    pub objects: Vec<TypedObject>,
    /// The places of the sites, in token order.
    pub sites: Vec<Place>,
    pub code: TypedStatement,
}

impl Drop for TypedBody {
    fn drop(self) {
        let TypedBody {
            types,
            linked,
            objects,
            sites,
            code,
        } = self;
        let _ = (types, linked, objects, sites, code);
    }
}

/// A declaration of a name with linkage (ISO/IEC 9899:1999, 6.2.2).
#[derive(Drop)]
pub struct LinkedName {
    pub name: Vec<u8>,
    pub of: TypeId,
    pub place: Place,
}

/// An object.
#[derive(Drop)]
pub struct TypedObject {
    /// None of a text.
    pub name: Option<Vec<u8>>,
    pub of: TypeId,
    /// Its name in the definition, or the text.
    pub place: Place,
    /// The offset of the token at the place.
    pub start: u32,
    /// Whether it has static duration (6.2.4).
    pub stays: bool,
    pub initial: Option<Vec<InitialPart>>,
}

/// A value for the sub-object at a path, which has members' positions and elements' indices.
pub struct InitialPart {
    pub path: Vec<u32>,
    pub value: TypedExpr,
}

impl Drop for InitialPart {
    fn drop(self) {
        let InitialPart { path, value } = self;
        let _ = (path, value);
    }
}

/// A program: all files, linked (6.9).
#[derive(Drop)]
pub struct Typed {
    pub types: TypeTable,
    /// The defined functions.
    pub functions: Vec<TypedFunction>,
    /// The objects of static duration, ascending by place in file and token order.
    pub statics: Vec<TypedObject>,
    /// The functions that are named and not defined, in the order in which they are first seen.
    pub externals: Vec<LinkedName>,
    pub sites: Vec<SitePlace>,
    pub entries: Vec<FuncId>,
}

/// A function definition (6.9.1).
pub struct TypedFunction {
    pub name: Vec<u8>,
    pub of: TypeId,
    pub place: Place,
    /// How many of the objects are parameters.
    pub params: u32,
    pub objects: Vec<TypedObject>,
    pub code: TypedStatement,
}

impl Drop for TypedFunction {
    fn drop(self) {
        let TypedFunction {
            name,
            of: _,
            place: _,
            params: _,
            objects,
            code,
        } = self;
        let _ = (name, objects, code);
    }
}

/// A site: a dereference of a function's body.
#[derive(Clone, Copy, Debug, PartialEq, Eq)]
pub struct SitePlace {
    pub place: Place,
    pub function: FuncId,
}
