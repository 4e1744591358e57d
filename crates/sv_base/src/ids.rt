/// The number of a file's presumed name (ISO/IEC 9899:1999, 6.10.4), in the order in which names were first seen.
#[derive(Clone, Copy, Debug, PartialEq, Eq)]
pub struct FileId(pub u16);

/// The number of a function, by file and order of definition.
#[derive(Clone, Copy, Debug, PartialEq, Eq)]
pub struct FuncId(pub u32);

/// The number of a site, by file and token order.
#[derive(Clone, Copy, Debug, PartialEq, Eq)]
pub struct SiteId(pub u32);
