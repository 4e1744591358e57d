use c_tree::RecordKind;
use c_values::IntType;

/// The bytes of an integer type, to which it is aligned.
pub fn int_size(kind: IntType) -> u64 {
    match kind {
        IntType::Bool | IntType::Char | IntType::SChar | IntType::UChar => 1,
        IntType::Short | IntType::UShort => 2,
        IntType::Int | IntType::UInt | IntType::Long | IntType::ULong => 4,
        IntType::LongLong | IntType::ULongLong => 8,
    }
}

/// The bytes of a pointer, to which it is aligned.
pub const POINTER_SIZE: u64 = 4;

/// Where the members of a structure or union stand, as they are declared (ISO/IEC 9899:1999, 6.7.2.1). All in bytes. What
/// passes the greatest number stays there, which is above any limit of a size.
#[derive(Clone, Copy, Debug, PartialEq, Eq)]
pub struct RecordLayout {
    kind: RecordKind,
    end: u64,
    align: u64,
}

impl RecordLayout {
    pub fn new(kind: RecordKind) -> RecordLayout {
        RecordLayout {
            kind,
            end: 0,
            align: 1,
        }
    }

    /// The offset of the next member: of a structure's the end of those before, rounded up to its alignment; of a union's 0.
    pub fn place(&mut self, size: u64, align: u64) -> u64 {
        self.align = self.align.max(align);
        match self.kind {
            RecordKind::Struct => {
                let offset = rounded_up(self.end, align);
                self.end = offset.saturating_add(size);
                offset
            }
            RecordKind::Union => {
                self.end = self.end.max(size);
                0
            }
        }
    }

    /// The size of the whole, rounded up to its alignment.
    pub fn size(&self) -> u64 {
        rounded_up(self.end, self.align)
    }

    /// The greatest alignment of a member.
    pub fn align(&self) -> u64 {
        self.align
    }
}

fn rounded_up(bytes: u64, align: u64) -> u64 {
    if align == 0 {
        return bytes;
    }
    match bytes % align {
        0 => bytes,
        rest => bytes.saturating_add(align - rest),
    }
}
