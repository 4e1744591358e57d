/// The initial value of a leaf of a static object. `object` is the class of the object's whole region; the path has the
/// positions of members and the indices of elements, all from 0.
#[derive(Drop)]
pub struct StaticLeaf {
    pub object: u32,
    pub path: Vec<u32>,
    pub value: StaticValue,
}

#[derive(Drop)]
pub enum StaticValue {
    Int(i128),
    /// A pointer into the region at a path of an object, `offset` bytes behind its start.
    Place {
        object: u32,
        path: Vec<u32>,
        offset: i128,
    },
    Function(u32),
}

/// A union of a static object, and the member that is set in the beginning.
#[derive(Drop)]
pub struct StaticUnion {
    pub object: u32,
    pub path: Vec<u32>,
    pub member: u32,
}
