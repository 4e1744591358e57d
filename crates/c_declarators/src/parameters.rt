use c_faults::Spot;
use c_names::KeptScope;
use c_typed::TypeId;

/// A parameter (ISO/IEC 9899:1999, 6.7.5.3).
#[derive(Clone, Copy)]
pub struct ParamName {
    pub name: Option<u32>,
    /// At its name, or where it has none at its specifiers.
    pub at: Spot,
    /// With its qualifiers, and a pointer where it is declared as an array or a function.
    pub of: TypeId,
}

/// A parameter list.
#[derive(Drop)]
pub struct Params {
    /// Without qualifiers.
    pub types: Vec<TypeId>,
    pub names: Vec<ParamName>,
    pub dots: bool,
    /// What the list declares.
    pub scope: KeptScope,
}

impl Params {
    /// Whether one of them has no name.
    pub fn lacks_name(&self) -> bool {
        for param in &self.names {
            if param.name.is_none() {
                return true;
            }
        }
        false
    }
}
